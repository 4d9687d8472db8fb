// The book of a table: how long it is, and writing it.
ghost use Rattle.std.specs.Prelude.{◌≡◌, ◌≤◌, List, ℕ, length, Result};
ghost use Rattle.meaning.specs.Families.{rules_for};
ghost use Rattle.literals.specs.Kinds.{number_of};
ghost use Rattle.makers.specs.Inner.{source_family, source_rows, Measured, Needed, Writable, Wrote, source_bytes, book_of};

use crate::rows::Source;
use crate::sending::Draft;
use crate::{Made, Unmade};
use books::{put_end, put_head};
use literals::Family;

impl Source<'_> {
    // The length of the book in a family, and its number of rules: its rules sent to no room.
    fn measured(&self, family: Family) -> Made
        ensures { Measured self.now.sizes.now (number_of family) (source_rows self.now) result }
    {
        let mut nowhere = [0u8; 1];
        let mut draft = Draft {
            room: &mut nowhere,
            made: Made {
                length: 7,
                rules: 0,
            },
        };
        let source = Source {
            n: self.n,
            sizes: self.sizes,
            family,
            table: self.table,
            rows: self.rows,
        };
        source.rules(&mut draft);
        let sent = draft.made;
        Made {
            length: sent.length + 2,
            rules: sent.rules,
        }
    }

    // The number of rules of the book and its length. Where the space is enough for the general book, whose rules are the longest,
    // its length instead: no rule is reduced to know that the book fits.
    fn needed(&self, space: usize) -> Made
        ensures { Needed self.now.sizes.now (source_family self.now) (source_rows self.now) space result }
    {
        let general = self.measured(Family::General);
        if general.length <= space || matches!(self.family, Family::General) {
            general
        } else {
            self.measured(self.family)
        }
    }

    // Writes the book of so many rules over the start of the room, which is long enough. Gives its length.
    fn write(&self, count: usize, room: &mut [u8]) -> usize
        requires { Writable self.now count room.old }
        ensures { Wrote (source_bytes self.now) room.old result room.new }
    {
        let at = put_head(room, self.n, self.sizes.len(), self.family.number(), count);
        let mut draft = Draft {
            room,
            made: Made {
                length: at,
                rules: 0,
            },
        };
        self.rules(&mut draft);
        let end = draft.made.length;
        put_end(draft.room, end)
    }

    // The book of a sound table, in a family that it is closed for: written, or refused where the room is too short.
    pub fn book(&self, room: &mut [u8]) -> Result<Made, Unmade>
        ensures { ◌≡◌ {A = Result Made Unmade × List ℕ} (result, room.new) (book_of self.now room.old) }
    {
        let made = self.needed(room.len());
        let most = made.length;
        let rules = made.rules;
        if room.len() < most {
            return Err(Unmade::Room(most));
        }
        let length = self.write(rules, room);
        Ok(Made { length, rules })
    }
}
