// A prefix at which the walk stands: a cursor of which it is known that zeros stand behind its values.
ghost use Rattle.std.specs.Prelude.{◌≡◌, [], ◌<◌};
ghost use Rattle.listing.specs.Cursors.{cursor_of};
ghost use Rattle.listing.specs.Inner.{Plain, push_of};

use crate::cursor::Cursor;

// A cursor that is the one of its prefix. It is a struct of its own, since a `Cursor` that C lends can hold any bytes.
#[derive(Clone, Copy)]
pub struct Prefix {
    pub cursor: Cursor,
    ghost plain: { Plain cursor },
}

impl Prefix {
    // The empty prefix.
    #[tactic(auto, using(crate::proofs::laws::Prefixes::plain_cursor))]
    pub fn beginning() -> Prefix
        ensures { result.cursor ≡ cursor_of [] }
    {
        Prefix {
            cursor: Cursor::beginning(),
        }
    }

    // The prefix one longer that ends in v.
    #[tactic(auto, using(crate::proofs::laws::Prefixes::push_plain))]
    pub fn push(self, v: u8) -> Prefix
        requires { self.cursor.len < 16 }
        ensures { result.cursor ≡ push_of self.cursor v }
    {
        let len = self.cursor.len;
        let mut values = self.cursor.values;
        values[len] = v;
        Prefix {
            cursor: Cursor {
                len: len + 1,
                values,
            },
        }
    }
}
