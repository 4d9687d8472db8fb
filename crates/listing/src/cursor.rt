// The cursor: a prefix by value, and its moves. Inner functions take the sizes, one for each setting.
ghost use Rattle.std.specs.Prelude.{◌≡◌, true, [], ◌+◌, ◌≤◌, ◌<◌, length};
ghost use Rattle.meaning.specs.Rows.{limits};
ghost use Rattle.meaning.specs.Inner.{Sized};
ghost use Rattle.listing.specs.Cursors.{cursor_of, fits, clean, down_in, along_in, up_in, moved_in, moved_of, down_of, along_of, up_of};
ghost use Rattle.listing.specs.Inner.{Cleaned, Tested};

use literals::limits;

// A prefix: its length, and sixteen values of which those past the length are 0. Laid out as C has it.
#[repr(C)]
#[derive(Clone, Copy)]
pub struct Cursor {
    pub len: usize,
    pub values: [u8; 16],
}

// Is each value of the prefix below its setting's size? The sizes are cut to its length, so that one length alone ends the loop.
fn inside(sizes: &[u8], c: Cursor) -> bool
    requires { (c.len ≤ length sizes.now) × (length sizes.now ≤ 16) }
    ensures { result ≡ fits sizes.now c }
{
    let prefix = &c.values[..c.len];
    let sizes = &sizes[..c.len];
    prefix.iter().zip(sizes).all(|(v, n)| v < n)
}

// Is each value past the length 0?
fn clean(c: Cursor) -> bool
    requires { c.len ≤ 16 }
    ensures { Cleaned c result }
{
    let unused = &c.values[c.len..];
    unused.iter().all(|v| *v == 0)
}

// Is the cursor a prefix within the sizes, with zeros behind it? If not, a page refuses it with 18.
#[tactic(auto, unfolding(crate::specs::Cursors::cursor_ok))]
pub fn cursor_ok(sizes: &[u8], c: Cursor) -> bool
    requires { length sizes.now ≤ 16 }
    ensures { Tested sizes.now c result }
{
    c.len <= sizes.len() && inside(sizes, c) && clean(c)
}

// The three moves.
#[derive(Clone, Copy)]
enum Move {
    Down,
    Along,
    Up,
}

// The prefix one longer that ends in 0, or the same cursor where there is none.
fn deeper(sizes: &[u8], c: Cursor) -> Cursor
    requires { Sized sizes.now × Tested sizes.now c true }
    ensures { result ≡ down_in sizes.now c }
{
    if c.len == sizes.len() {
        return c;
    }
    Cursor {
        len: c.len + 1,
        ..c
    }
}

// The prefix with the next value at its last place, or the same cursor where there is none.
fn onward(sizes: &[u8], c: Cursor) -> Cursor
    requires { Sized sizes.now × Tested sizes.now c true }
    ensures { result ≡ along_in sizes.now c }
{
    if c.len == 0 {
        return c;
    }
    let last = c.len - 1;
    let mut values = c.values;
    let v = values[last] + 1;
    if sizes[last] <= v {
        return c;
    }
    values[last] = v;
    Cursor { values, ..c }
}

// The prefix one shorter, or the same cursor where there is none.
fn back(sizes: &[u8], c: Cursor) -> Cursor
    requires { Sized sizes.now × Tested sizes.now c true }
    ensures { result ≡ up_in sizes.now c }
{
    if c.len == 0 {
        return c;
    }
    let last = c.len - 1;
    let mut values = c.values;
    values[last] = 0;
    Cursor { len: last, values }
}

// To the prefix that the move is to, or the same cursor where there is none or the cursor is bad.
fn moved(sizes: &[u8], c: Cursor, to: Move) -> Cursor
    requires { Sized sizes.now }
    ensures { result ≡ moved_in sizes.now c to }
{
    if !cursor_ok(sizes, c) {
        return c;
    }
    match to {
        Move::Down => deeper(sizes, c),
        Move::Along => onward(sizes, c),
        Move::Up => back(sizes, c),
    }
}

// The same for l settings of n values each; the same cursor where n or l is outside its limits.
fn moved_alike(n: usize, l: usize, c: Cursor, to: Move) -> Cursor
    ensures { result ≡ moved_of n l c to }
{
    if !limits(n, l) {
        return c;
    }
    let space = [n as u8; 16];
    moved(&space[..l], c, to)
}

impl Cursor {
    // The empty prefix.
    pub fn beginning() -> Cursor
        ensures { result ≡ cursor_of [] }
    {
        Cursor {
            len: 0,
            values: [0u8; 16],
        }
    }

    // Down to the prefix one longer that ends in 0. Each move gives the same cursor where there is no such prefix, where n or l is
    // outside its limits, or where the cursor is bad.
    #[tactic(auto, unfolding(crate::specs::Cursors::down_of, crate::specs::Cursors::moved_of))]
    pub fn down(self, n: usize, l: usize) -> Cursor
        ensures { result ≡ down_of n l self }
    {
        moved_alike(n, l, self, Move::Down)
    }

    // Along to the next value at the last place.
    #[tactic(auto, unfolding(crate::specs::Cursors::along_of, crate::specs::Cursors::moved_of))]
    pub fn along(self, n: usize, l: usize) -> Cursor
        ensures { result ≡ along_of n l self }
    {
        moved_alike(n, l, self, Move::Along)
    }

    // Up to the prefix one shorter.
    #[tactic(auto, unfolding(crate::specs::Cursors::up_of, crate::specs::Cursors::moved_of))]
    pub fn up(self, n: usize, l: usize) -> Cursor
        ensures { result ≡ up_of n l self }
    {
        moved_alike(n, l, self, Move::Up)
    }
}
