// The rules in groups by the setting of their last literal: below a prefix only one group is asked, and of it only a front part.
ghost use Rattle.std.specs.Prelude.{◌≡◌, false, [], ◌∷◌, ◌+◌, ◌*◌, ◌≤◌, ◌<◌, length};
ghost use Rattle.meaning.specs.Bytes.{end_at, rule_at, rules_in};
ghost use Rattle.meaning.specs.Listing.{dead};
ghost use Rattle.listing.specs.Cursors.{prefix_of};
ghost use Rattle.listing.specs.Inner.{Stands, settle_list, settle_count, Parted, Shows, Asks, Askable, Asked, OpenIf, LooksIf, open_of, Siftable, Narrowable, Narrowed};

use crate::prefix::Prefix;
use crate::scan::{Passed, Run, Scanned, early, judge, scan};
use crate::steps::Task;
use crate::values::without;
use literals::holds;

// Entries i and k change places, if i is wanted; then k is one more. It is handed whether, since what an `if` found is lost to a proof
// behind it.
#[tactic(auto, unfolding(crate::specs::Inner::settle_list, crate::specs::Inner::settle_count))]
fn settle(places: &mut [u32], hints: &mut [u8], i: usize, k: usize, yes: bool) -> usize
    requires { (i < length places.old) × (k < length places.old) × (length places.old ≤ length hints.old) }
    ensures { (places.new ≡ settle_list yes places.old i k) × (result ≡ settle_count yes k) }
{
    if !yes {
        return k;
    }
    places.swap(i, k);
    hints.swap(i, k);
    k + 1
}

// Does the literal of this number, from 1 (0 is none, as the hints have it), of the rule at place `at` show that all that begin with the
// prefix meet it? The values are copied only where one is read.
fn shows(book: &[u8], at: usize, hint: usize, cur: Prefix) -> bool
    requires { end_at book.now at ≤ length book.now }
    ensures { Shows book.now at (prefix_of cur.cursor) result }
{
    let count = usize::from(book[at + 2]);
    if hint == 0 || count < hint {
        return false;
    }
    let q = at + 3 * hint;
    let i = usize::from(book[q]);
    if cur.cursor.len <= i {
        return false;
    }
    let values = cur.cursor.values;
    holds(book[q + 1], book[q + 2], values[i])
}

// The set without the values that the rule at place `at` forbids below the prefix. Entry i's hint is asked first, and set anew; 0 is
// none, since bytes take half the stack that Options would.
fn ask(book: &[u8], hints: &mut [u8], i: usize, at: usize, cur: Prefix, set: u64) -> u64
    requires { Stands book.now at × (dead (rule_at book.now at ∷ []) (prefix_of cur.cursor) ≡ false) × (i < length hints.old) }
    ensures { Asks book.now at (prefix_of cur.cursor) set result }
{
    if shows(book, at, usize::from(hints[i]), cur) {
        return set;
    }
    let j = judge(book, at, cur);
    hints[i] = j.hint.unwrap_or(0);
    without(set, j.low, j.high)
}

// The values that no entry from `from` up to below `end` forbids below the prefix. It is lent the book and no task, of which the book
// would be read anew for each entry.
fn group(book: &[u8], places: &[u32], hints: &mut [u8], from: usize, end: usize, cur: Prefix) -> u64
    requires { Askable book.now (prefix_of cur.cursor) places.now from end (length hints.old) }
    ensures { Asked book.now (prefix_of cur.cursor) places.now from end result }
{
    let mut set = u64::MAX;
    for i in from..end {
        let at = places[i] as usize;
        set = ask(book, hints, i, at, cur, set);
    }
    set
}

// Does the prefix leave the rule at place `at` open: does no literal on its settings hold?
#[tactic(auto, unfolding(crate::specs::Inner::open_of, crate::specs::Inner::is_open))]
fn leaves_open(book: &[u8], at: usize, cur: Prefix) -> bool
    requires { end_at book.now at ≤ length book.now }
    ensures { result ≡ open_of book.now (prefix_of cur.cursor) at }
{
    let count = usize::from(book[at + 2]);
    match early(book, at + 3, count, cur) {
        Passed::Holds(_) => false,
        Passed::Left { .. } => true,
    }
}

// Brings those of the entries from `from` up to below `end` that the prefix leaves open to the front; where the others begin. It is lent
// the book alone, as `group` is.
fn sift(
    book: &[u8],
    places: &mut [u32],
    hints: &mut [u8],
    from: usize,
    end: usize,
    cur: Prefix,
) -> usize
    requires { Siftable book.now places.old from end (length hints.old) }
    ensures { Parted (open_of book.now (prefix_of cur.cursor)) places.old from end places.new result }
{
    let mut k = from;
    for i in from..end {
        let at = places[i] as usize;
        let yes = leaves_open(book, at, cur);
        k = settle(places, hints, i, k, yes);
    }
    k
}

impl Task<'_> {
    // The values that may follow the live prefix cur, where `run` holds the rules that matter beside the fronts, and the run of rules that
    // matter below it. If no level is gone into nothing is looked at, and the look is of nothing: an Option would have to be taken apart
    // in skip, leaves and turn, though `below` has asked for the levels before.
    pub fn look(
        &self,
        places: &[u32],
        hints: &mut [u8],
        ends: [u16; 16],
        run: Run,
        cur: Prefix,
        levels: usize,
    ) -> Scanned
        requires { (cur.cursor.len + levels ≤ 16) × OpenIf self.now.book.now (dead (rules_in self.now.book.now)) (prefix_of cur.cursor) places.now self.now.starts.now ends run.at run.rules (length hints.old) levels }
        ensures { LooksIf self.now.book.now (dead (rules_in self.now.book.now)) (prefix_of cur.cursor) places.now self.now.starts.now ends 0 levels result }
    {
        if levels == 0 {
            return Scanned {
                allowed: 0,
                at: run.at,
                rules: 0,
            };
        }
        let from = usize::from(self.starts[cur.cursor.len]);
        let end = usize::from(ends[cur.cursor.len]);
        let set = group(self.book, places, hints, from, end, cur);
        scan(self.book, run.at, run.rules, cur, set)
    }

    // The fronts with only the rules that the prefix leaves open, in the groups from its own length on.
    fn shorten(
        &self,
        places: &mut [u32],
        hints: &mut [u8],
        ends: [u16; 16],
        cur: Prefix,
    ) -> [u16; 16]
        requires { Narrowable self.now.book.now places.old self.now.starts.now ends (length hints.old) }
        ensures { Narrowed self.now.book.now (prefix_of cur.cursor) places.old self.now.starts.now ends places.new result }
    {
        let l = self.sizes.len();
        let mut fronts = ends;
        for g in cur.cursor.len..l {
            let from = usize::from(self.starts[g]);
            let end = usize::from(fronts[g]);
            let k = sift(self.book, places, hints, from, end, cur);
            fronts[g] = k as u16;
        }
        fronts
    }

    // The fronts below the prefix. They are made shorter on the first three levels, if any level is gone into and any rule is entered:
    // mostly nothing is done, so this test is no call.
    #[inline(always)]
    pub fn narrow(
        &self,
        places: &mut [u32],
        hints: &mut [u8],
        ends: [u16; 16],
        cur: Prefix,
        levels: usize,
    ) -> [u16; 16]
        requires { Narrowable self.now.book.now places.old self.now.starts.now ends (length hints.old) }
        ensures { Narrowed self.now.book.now (prefix_of cur.cursor) places.old self.now.starts.now ends places.new result }
    {
        if levels == 0 || 3 < cur.cursor.len || self.starts[16] == 0 {
            return ends;
        }
        self.shorten(places, hints, ends, cur)
    }
}
