// The start of a page's walk: whether any prefix is live, and whether the rules are sorted into groups first.
ghost use Rattle.std.specs.Prelude.{◌≡◌, false, ◌||◌, [], ◌≤◌, ◌*◌, ltb, length};
ghost use Rattle.meaning.specs.Bytes.{rules_in, rules_at};
ghost use Rattle.meaning.specs.Listing.{dead};
ghost use Rattle.listing.specs.Cursors.{prefix_of};
ghost use Rattle.listing.specs.Inner.{past_of, S, runs, Ladder, Good, Standard};
ghost use Rattle.listing.specs.Proved.{Standard-prop};

use crate::cursor::Cursor;
use crate::prefix::Prefix;
use crate::scan::Run;
use crate::sorting::{Bounds, fill, survey};
use crate::steps::{Task, Walk};
use literals::rule_end;

// Is there so little to do that sorting does not pay?
fn little(rules: usize, budget: usize) -> bool
    ensures { result ≡ ltb budget 8 || ltb rules 32 }
{
    budget < 8 || rules < 32
}

// What a page is asked: the book and how many rules it has, the sizes of its settings, the cursor to go on from, and how many steps may
// be made. The book was read, so its rules stand, and the sizes are within their limits.
#[derive(Clone, Copy)]
pub struct Request<'a> {
    pub book: &'a [u8],
    pub rules: usize,
    pub sizes: &'a [u8],
    pub cursor: Cursor,
    pub budget: usize,
    ghost standard: { Standard book.now rules sizes.now } by { Standard-prop book.now rules sizes.now },
}

impl Request<'_> {
    // Is there a rule without literals, so that even the empty prefix is dead?
    fn hopeless(&self) -> bool
        ensures { result ≡ dead (rules_at self.now.book.now 7 self.now.rules) [] }
    {
        let mut at = 7;
        for _ in 0..self.rules {
            if self.book[at + 2] == 0 {
                return true;
            }
            at = rule_end(self.book, at);
        }
        false
    }

    // All that is visited after w's last prefix, where the empty prefix is live: no rule is entered, and all stay in a run.
    fn by_run(&self, room: &mut [u8], w: Walk, fit: usize) -> Walk
        requires { Good self.now.sizes.now w.last × (fit * length self.now.sizes.now ≤ length room.old) × (dead (rules_at self.now.book.now 7 self.now.rules) [] ≡ false) }
        ensures { ◌≡◌ {A = S} (result, room.new) (runs (dead (rules_in self.now.book.now)) (length self.now.sizes.now) fit self.now.budget (past_of (dead (rules_in self.now.book.now)) self.now.sizes.now [] (prefix_of w.last)) (w, room.old)) }
    {
        let mut places = [0u32; 1];
        let mut hints = [0u8; 1];
        let starts = [0u16; 17];
        let ends = [0u16; 16];
        let task = Task {
            book: self.book,
            sizes: self.sizes,
            starts: &starts,
            fit,
            budget: self.budget,
        };
        let run = Run {
            at: 7,
            rules: self.rules,
        };
        let root = Prefix::beginning();
        let l = self.sizes.len();
        task.resume(room, &mut places, &mut hints, ends, run, w, root, l)
    }

    // The same with the first rules in groups, within these bounds, and the others in a run behind them. Places and hints are two arrays,
    // since an array of pairs would take 32 KB of stack in place of 20. It is no one function with by_run, whose arrays are small so that
    // nothing is cleared for a short page; what both do after that is one call.
    fn by_groups(&self, room: &mut [u8], bounds: Bounds, w: Walk, fit: usize) -> Walk
        requires { Good self.now.sizes.now w.last × (fit * length self.now.sizes.now ≤ length room.old) × (dead (rules_at self.now.book.now 7 self.now.rules) [] ≡ false) × Ladder bounds.starts bounds.ends }
        ensures { ◌≡◌ {A = S} (result, room.new) (runs (dead (rules_in self.now.book.now)) (length self.now.sizes.now) fit self.now.budget (past_of (dead (rules_in self.now.book.now)) self.now.sizes.now [] (prefix_of w.last)) (w, room.old)) }
    {
        let mut places = [0u32; 4096];
        let mut hints = [0u8; 4096];
        let groups = fill(self.book, self.rules, bounds, &mut places);
        let starts = bounds.starts;
        let task = Task {
            book: self.book,
            sizes: self.sizes,
            starts: &starts,
            fit,
            budget: self.budget,
        };
        let run = Run {
            at: groups.at,
            rules: groups.left,
        };
        let root = Prefix::beginning();
        let l = self.sizes.len();
        task.resume(room, &mut places, &mut hints, groups.ends, run, w, root, l)
    }

    // All that is visited after the cursor, from a page's start on: by groups where it pays.
    pub fn start(&self, room: &mut [u8], fit: usize) -> Walk
        requires { Good self.now.sizes.now self.now.cursor × (fit * length self.now.sizes.now ≤ length room.old) }
        ensures { ◌≡◌ {A = S} (result, room.new) (runs (dead (rules_in self.now.book.now)) (length self.now.sizes.now) fit self.now.budget (past_of (dead (rules_in self.now.book.now)) self.now.sizes.now [] (prefix_of self.now.cursor)) (record { last = self.now.cursor; dead = 0; rows = 0; steps = 0 }, room.old)) }
    {
        let w = Walk {
            last: self.cursor,
            dead: 0,
            rows: 0,
            steps: 0,
        };
        if self.hopeless() {
            return w;
        }
        if little(self.rules, self.budget) {
            return self.by_run(room, w, fit);
        }
        match survey(self.book, self.rules) {
            Some(bounds) => self.by_groups(room, bounds, w, fit),
            None => self.by_run(room, w, fit),
        }
    }
}
