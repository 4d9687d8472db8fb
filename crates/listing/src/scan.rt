// One scan of the rules below a live prefix: which values may follow it, and which of the rules can still make a prefix below dead.
ghost use Rattle.std.specs.Prelude.{◌≡◌, false, [], ◌∷◌, ◌+◌, ◌*◌, ◌≤◌, ◌<◌, length};
ghost use Rattle.literals.specs.Inner.{holds_by};
ghost use Rattle.meaning.specs.Bytes.{end_at, rule_at, rules_at};
ghost use Rattle.meaning.specs.Listing.{dead};
ghost use Rattle.listing.specs.Cursors.{prefix_of};
ghost use Rattle.listing.specs.Inner.{Stands, early_of, forbids, interval_of, Judges, AllStand, Passes, Trims, widen_of, Window, Scans};

use crate::prefix::Prefix;
use crate::values::without;
use literals::{holds, rule_end};

// What the literals on the settings of a prefix say: the one at a place holds; or none does, and so many are left from a place on.
// Either is an answer, and neither a failure: so it is no Result.
#[derive(Clone, Copy)]
pub enum Passed {
    Holds(usize),
    Left { at: usize, count: usize },
}

// What a rule asks of the value after a prefix: values from low up to below high are forbidden; if it lasts, it can still make a
// prefix below dead. The hint is the number of a literal that holds, from 1; no answer rests on it.
#[derive(Clone, Copy)]
pub struct Judged {
    pub lasts: bool,
    pub low: usize,
    pub high: usize,
    pub hint: Option<u8>,
}

impl Judged {
    // Values from low up to below high are forbidden, and the rule does not last.
    fn forbids(low: usize, high: usize) -> Judged
        ensures { result ≡ forbids low high }
    {
        Judged {
            lasts: false,
            low,
            high,
            hint: None,
        }
    }
}

// Some of the rules in a row: from number `first`, whose mark is at place `at`, up to below number `end`.
#[derive(Clone, Copy)]
pub struct Span {
    pub at: usize,
    pub first: usize,
    pub end: usize,
}

// What a scan gives: the values with which the prefix is not dead; and the rules that matter below, their number and the place
// of the first.
#[derive(Clone, Copy)]
pub struct Scanned {
    pub allowed: u64,
    pub at: usize,
    pub rules: usize,
}

// Of `count` literals from place p on, by setting ascending, those on the settings of the prefix. By place and not by pieces of three,
// since the answer is a place.
pub fn early(book: &[u8], p: usize, count: usize, cur: Prefix) -> Passed
    requires { p + 3 * count ≤ length book.now }
    ensures { result ≡ early_of book.now (prefix_of cur.cursor) p count }
{
    let len = cur.cursor.len;
    let values = cur.cursor.values;
    for k in 0..count {
        let at = p + 3 * k;
        let i = usize::from(book[at]);
        if len <= i {
            return Passed::Left {
                at,
                count: count - k,
            };
        }
        if holds(book[at + 1], book[at + 2], values[i]) {
            return Passed::Holds(at);
        }
    }
    Passed::Left {
        at: p + 3 * count,
        count: 0,
    }
}

// What the last literals of a rule, `left` of them from place p on and all on one setting, forbid there.
#[tactic(auto, unfolding(crate::specs::Inner::interval_of))]
fn interval(book: &[u8], p: usize, left: usize) -> Judged
    requires { p + 3 * left ≤ length book.now }
    ensures { result ≡ interval_of book.now p left }
{
    if left == 0 {
        return Judged::forbids(0, 64);
    }
    let bound = usize::from(book[p + 2]);
    if book[p + 1] != 0 {
        return Judged::forbids(0, bound);
    }
    if left == 1 {
        return Judged::forbids(bound + 1, 64);
    }
    Judged::forbids(bound + 1, usize::from(book[p + 5]))
}

// The number of the literal at place q of the rule at place `at`, from 1, if there is one.
fn number(at: usize, q: usize) -> Option<u8> {
    u8::try_from(q.checked_sub(at)? / 3).ok()
}

// What the rule at place `at` asks below the prefix, which it does not make dead. Its last literal tells at once where it is met
// already; a rule that goes on behind the next setting forbids nothing yet.
pub fn judge(book: &[u8], at: usize, cur: Prefix) -> Judged
    requires { Stands book.now at × (dead (rule_at book.now at ∷ []) (prefix_of cur.cursor) ≡ false) }
    ensures { Judges book.now at (prefix_of cur.cursor) result }
{
    let none = Judged::forbids(0, 0);
    let count = usize::from(book[at + 2]);
    if count == 0 {
        return none;
    }
    let last = usize::from(book[at + 3 * count]);
    if last < cur.cursor.len {
        return none;
    }
    match early(book, at + 3, count, cur) {
        Passed::Holds(q) => Judged {
            hint: number(at, q),
            ..none
        },
        Passed::Left { .. } if cur.cursor.len < last => Judged {
            lasts: true,
            ..none
        },
        Passed::Left { at, count } => interval(book, at, count),
    }
}

// The span with rule i at place `at` in it, if it lasts.
#[tactic(auto, unfolding(crate::specs::Inner::widen_of))]
fn widen(span: Option<Span>, lasts: bool, at: usize, i: usize) -> Option<Span>
    requires { i < 65536 }
    ensures { result ≡ widen_of span lasts at i }
{
    if !lasts {
        return span;
    }
    match span {
        Some(s) => Some(Span { end: i + 1, ..s }),
        None => Some(Span {
            at,
            first: i,
            end: i + 1,
        }),
    }
}

// Scans `rules` rules from place `from` on, below the live prefix cur; the values outside `set` are forbidden already.
pub fn scan(book: &[u8], from: usize, rules: usize, cur: Prefix, set: u64) -> Scanned
    requires { Window book.now (dead (rules_at book.now from rules)) (prefix_of cur.cursor) from rules × (dead (rules_at book.now from rules) (prefix_of cur.cursor) ≡ false) }
    ensures { Scans book.now (dead (rules_at book.now from rules)) (prefix_of cur.cursor) set result }
{
    let mut allowed = set;
    let mut span = None;
    let mut at = from;
    for i in 0..rules {
        let j = judge(book, at, cur);
        allowed = without(allowed, j.low, j.high);
        span = widen(span, j.lasts, at, i);
        at = rule_end(book, at);
    }
    match span {
        Some(s) => Scanned {
            allowed,
            at: s.at,
            rules: s.end - s.first,
        },
        None => Scanned {
            allowed,
            at: from,
            rules: 0,
        },
    }
}

// Some of the rules in a row: so many, from a place on.
#[derive(Clone, Copy)]
pub struct Run {
    pub at: usize,
    pub rules: usize,
}

// Does the rule at place `at` have a literal "setting i at least d" with d no greater than v, so that every value from v on meets it?
fn met_from(book: &[u8], at: usize, i: usize, v: u8) -> bool
    requires { end_at book.now at ≤ length book.now }
    ensures { Passes book.now at i v result }
{
    let count = usize::from(book[at + 2]);
    for j in 0..count {
        let q = at + 3 + 3 * j;
        let k = usize::from(book[q]);
        if i < k {
            return false;
        }
        if k == i && book[q + 1] != 0 {
            return book[q + 2] <= v;
        }
    }
    false
}

// Of `rules` rules from place `at` on, the run without those in front that every prefix meets whose value at setting i is v or more;
// a short run as it is.
pub fn trim(book: &[u8], at: usize, rules: usize, i: usize, v: u8) -> Run
    requires { AllStand book.now at rules }
    ensures { Trims book.now at rules i v result.at result.rules }
{
    if rules < 16 {
        return Run { at, rules };
    }
    let mut p = at;
    for k in 0..rules {
        if !met_from(book, p, i, v) {
            return Run {
                at: p,
                rules: rules - k,
            };
        }
        p = rule_end(book, p);
    }
    Run { at: p, rules: 0 }
}
