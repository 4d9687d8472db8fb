// From tested rows to a book: the table is checked, its rules are made in a family, and the book is written.
#![tactic(auto)]

mod earlier;
mod making;
mod rows;
mod sending;
mod slots;
mod writing;

ghost use Rattle.std.specs.Prelude.{◌≡◌, List, ℕ, ◌/◌, ◌≤◌, length, Result};
ghost use Rattle.tables.specs.Check.{Passes};
ghost use Rattle.makers.specs.declared.Unmade.TheVariants.{Flawed};
ghost use Rattle.makers.specs.Made.{book_alike, closed_of, made_of};

use crate::rows::Source;
use literals::Family;
use tables::{Flaw, Open, check, open_rows};

// How long a book is, and its number of rules.
#[derive(Clone, Copy)]
pub struct Made {
    pub length: usize,
    pub rules: usize,
}

// Why no book is made: the first of refusals 1 to 8.
#[derive(Clone, Copy)]
pub enum Unmade {
    // refusals 1 to 5
    Flawed(Flaw),
    Family,
    // the first rows that show that the table is not closed for the family
    Open(Open),
    // the length needed
    Room(usize),
}

impl From<Flaw> for Unmade {
    ghost from_gives = { λ flaw e. e ≡ Flawed flaw };

    fn from(flaw: Flaw) -> Unmade {
        Unmade::Flawed(flaw)
    }
}

// The book of a sound table over l settings of n values each, in a family that it is closed for; or refusal 8.
fn make_alike(
    n: usize,
    l: usize,
    family: usize,
    table: &[u8],
    room: &mut [u8],
) -> Result<Made, Unmade>
    requires { Passes n l table.now (length table.now / l) × (family ≤ 3) }
    ensures { ◌≡◌ {A = Result Made Unmade × List ℕ} (result, room.new) (book_alike n l family table.now room.old) }
{
    let space = [n as u8; 16];
    let source = Source {
        n,
        sizes: &space[..l],
        family: Family::of(family),
        table,
        rows: table.len() / l,
    };
    source.book(room)
}

// The book of a sound table, or the first of refusals 6 to 8.
#[tactic(auto, using(crate::proofs::laws::Refusals::closed_family))]
fn make_checked(
    n: usize,
    l: usize,
    family: usize,
    table: &[u8],
    room: &mut [u8],
) -> Result<Made, Unmade>
    requires { Passes n l table.now (length table.now / l) }
    ensures { ◌≡◌ {A = Result Made Unmade × List ℕ} (result, room.new) (closed_of n l family table.now room.old) }
{
    if 3 < family {
        return Err(Unmade::Family);
    }
    match open_rows(family, table, l) {
        Some(open) => Err(Unmade::Open(open)),
        None => make_alike(n, l, family, table, room),
    }
}

// Makes the book of a table of rows of l values below n, in a family: 0 general, 1 Horn, 2 dual Horn, 3 bijunctive. It is a number,
// since C may give any, and 6 refuses what is none.
// Success writes exactly the book at the start of the room and gives its length and number of rules; the bytes beyond it
// stay. Otherwise gives the first of refusals 1 to 8, and nothing is written.
pub fn make(
    n: usize,
    l: usize,
    family: usize,
    table: &[u8],
    room: &mut [u8],
) -> Result<Made, Unmade>
    ensures { ◌≡◌ {A = Result Made Unmade × List ℕ} (result, room.new) (made_of n l family table.now room.old) }
{
    check(n, l, table)?;
    make_checked(n, l, family, table, room)
}
