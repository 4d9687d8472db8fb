// The page: its refusals in document 01's order, then the walk, and whether any visited prefix is left.
ghost use Rattle.std.specs.Prelude.{◌≡◌, ◌≤◌, ◌<◌, length, Ok};
ghost use Rattle.meaning.specs.Bytes.{rules_in};
ghost use Rattle.meaning.specs.Listing.{dead};
ghost use Rattle.meaning.specs.Inner.{all_last};
ghost use Rattle.listing.specs.Cursors.{prefix_of};
ghost use Rattle.listing.specs.Inner.{Plain, finished_of, Good};
ghost use Rattle.listing.specs.declared.paging.Unlisted.TheVariants.{Faulty};
ghost use Rattle.listing.specs.Pages.{P, beside, listed_in, page_in, page_of};

use crate::cursor::{Cursor, cursor_ok};
use crate::start::Request;
use crate::steps::Walk;
use books::Fault;

// What a page shows: so many rows, in so many steps, and whether no visited prefix is left behind its last one.
#[derive(Clone, Copy)]
pub struct Listed {
    pub rows: usize,
    pub steps: usize,
    pub finished: bool,
}

// Why a page shows nothing.
#[derive(Clone, Copy)]
pub enum Unlisted {
    Faulty(Fault),
    BadCursor,
    NoRoom,
    BadBudget,
}

impl From<Fault> for Unlisted {
    ghost from_gives = { λ fault e. e ≡ Faulty fault };

    fn from(fault: Fault) -> Unlisted {
        Unlisted::Faulty(fault)
    }
}

// A page's answer: the last prefix visited, or the given cursor, beside its outcome.
#[derive(Clone, Copy)]
pub struct Paged {
    pub cursor: Cursor,
    pub outcome: Result<Listed, Unlisted>,
}

// Is each value of q the last of its setting?
fn all_last(sizes: &[u8], q: Cursor) -> bool
    requires { Plain q × (q.len ≤ length sizes.now) }
    ensures { result ≡ all_last sizes.now (prefix_of q) }
{
    let prefix = &q.values[..q.len];
    prefix
        .iter()
        .zip(sizes)
        .all(|(v, n)| usize::from(*n) <= usize::from(*v) + 1)
}

// Is no visited prefix left behind the last one visited? It is decided there: nothing is below it, and each of its values is the last.
#[tactic(auto, unfolding(crate::specs::Inner::finished_of))]
fn finished(sizes: &[u8], w: Walk) -> bool
    requires { Plain w.last × (w.last.len ≤ length sizes.now) }
    ensures { result ≡ finished_of sizes.now w }
{
    if w.steps == 0 {
        return true;
    }
    let q = w.last;
    (q.len == sizes.len() || w.dead != 0) && all_last(sizes, q)
}

impl Request<'_> {
    // The page from a good cursor, with room for a row and a budget of a step: the last prefix visited, and what is shown.
    fn list(&self, room: &mut [u8]) -> (Cursor, Listed)
        requires { Good self.now.sizes.now self.now.cursor × (length self.now.sizes.now ≤ length room.old) × (1 ≤ self.now.budget) }
        ensures { ◌≡◌ {A = P} (beside self.now.cursor (Ok result), room.new) (listed_in self.now.sizes.now (dead (rules_in self.now.book.now)) self.now.cursor self.now.budget room.old) }
    {
        let fit = room.len() / self.sizes.len();
        let w = self.start(room, fit);
        let listed = Listed {
            rows: w.rows,
            steps: w.steps,
            finished: finished(self.sizes, w),
        };
        (w.last, listed)
    }

    // The page: a bad cursor, no room for a row, and a budget outside its limits are refused, in this order.
    fn try_list(&self, room: &mut [u8]) -> Result<(Cursor, Listed), Unlisted>
        ensures { ◌≡◌ {A = P} (beside self.now.cursor result, room.new) (page_in self.now.sizes.now (dead (rules_in self.now.book.now)) self.now.cursor self.now.budget room.old) }
    {
        if !cursor_ok(self.sizes, self.cursor) {
            return Err(Unlisted::BadCursor);
        }
        if room.len() < self.sizes.len() {
            return Err(Unlisted::NoRoom);
        }
        let budget = self.budget;
        if budget == 0 || 65535 < budget {
            return Err(Unlisted::BadBudget);
        }
        Ok(self.list(room))
    }
}

// The page of a book of edition 1, l settings of n values each; or why there is none.
fn try_page(
    book: &[u8],
    cursor: Cursor,
    room: &mut [u8],
    budget: usize,
) -> Result<(Cursor, Listed), Unlisted>
    ensures { ◌≡◌ {A = P} (beside cursor result, room.new) (page_of book.now cursor budget room.old) }
{
    let head = books::read(book)?;
    let space = [head.n as u8; 16];
    let request = Request {
        book,
        rules: head.rules,
        sizes: &space[..head.l],
        cursor,
        budget,
    };
    request.try_list(room)
}

// A page of a book: from the cursor on it visits the visited prefixes, writes the live ones of full length as rows into the room, and
// stops when none is left, when the steps equal the budget, or when as many rows as fit are written. Bytes past the rows stay.
// Book faults come first, then a bad cursor, no room for one row, and a budget of 0 or above 65,535; then nothing is written, and the
// cursor is the given one.
pub fn page(book: &[u8], cursor: Cursor, room: &mut [u8], budget: usize) -> Paged
    ensures { ◌≡◌ {A = P} (result, room.new) (page_of book.now cursor budget room.old) }
{
    match try_page(book, cursor, room, budget) {
        Ok((last, listed)) => Paged {
            cursor: last,
            outcome: Ok(listed),
        },
        Err(e) => Paged {
            cursor,
            outcome: Err(e),
        },
    }
}
