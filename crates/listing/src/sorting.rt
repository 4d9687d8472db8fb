// The first rules of a book sorted into groups by the setting of their last literal, equal ones once. How many are sorted, and how much
// space a group gets, is decided by what is quick: no answer rests on it.
ghost use Rattle.std.specs.Prelude.{◌≡◌, cond, ◌+◌, ◌*◌, ◌≤◌, ◌<◌, length, get_or, IfSome};
ghost use Rattle.meaning.specs.Bytes.{end_at};
ghost use Rattle.listing.specs.Inner.{AllStand, Ladder, Same, Twice, Again, HasSpace, Sorted};

use literals::rule_end;

// The bounds of the groups: group g from entry `starts[g]` up to below `starts[g + 1]`, its front up to below `ends[g]`.
#[derive(Clone, Copy)]
pub struct Bounds {
    pub starts: [u16; 17],
    pub ends: [u16; 16],
}

// What sorting comes to: where the fronts end, and the rules that are left, so many from a place on.
#[derive(Clone, Copy)]
pub struct Groups {
    pub ends: [u16; 16],
    pub at: usize,
    pub left: usize,
}

// One more, up to 4,096.
fn more(count: u16) -> u16
    ensures { result ≤ count + 1 }
{
    if count < 4096 { count + 1 } else { count }
}

// The group of a setting; the last one for what is no setting.
fn group_of(setting: usize) -> usize
    ensures { result < 16 }
{
    setting.min(15)
}

// So many, and one more if a rule of `count` literals must leave out some setting before its last.
fn gaps_with(gaps: u16, count: usize, last: usize) -> u16
    ensures { result ≤ gaps + 1 }
{
    if last < count { gaps } else { more(gaps) }
}

// The entry at which a group of so many ends that begins at entry `from`; 4,096 at most.
fn end_of(from: u16, count: u16) -> u16
    requires { from ≤ 4096 }
    ensures { (from ≤ result) × (result ≤ 4096) }
{
    from + count.min(4096 - from)
}

// Space for so many rules in each group, nothing entered yet.
fn ladder(counts: [u16; 16]) -> Bounds
    ensures { Ladder result.starts result.ends }
{
    let mut starts = [0u16; 17];
    let mut ends = [0u16; 16];
    let mut from: u16 = 0;
    for g in 0..16 {
        ends[g] = from;
        from = end_of(from, counts[g]);
        starts[g + 1] = from;
    }
    Bounds { starts, ends }
}

// The space for the groups, by a look at the first 4,096 rules. None where nearly every rule has literals on all settings before its
// last, as a general book's have: there what a prefix leaves open stands together, and a run is as quick.
pub fn survey(book: &[u8], rules: usize) -> Option<Bounds>
    requires { AllStand book.now 7 rules }
    ensures { IfSome result (λ b. Ladder b.starts b.ends) }
{
    let most = rules.min(4096);
    let mut counts = [0u16; 16];
    let mut gaps: u16 = 0;
    let mut at: usize = 7;
    for _i in 0..most {
        let count = usize::from(book[at + 2]);
        let last = usize::from(book[at + 3 * count]);
        let g = group_of(last);
        counts[g] = more(counts[g]);
        gaps = gaps_with(gaps, count, last);
        at = rule_end(book, at);
    }
    if usize::from(gaps) < most / 8 {
        None
    } else {
        Some(ladder(counts))
    }
}

// Do the rules at places p and q have the same literals?
fn same(book: &[u8], p: usize, q: usize) -> bool
    requires { (end_at book.now p ≤ length book.now) × (end_at book.now q ≤ length book.now) }
    ensures { Same book.now p q result }
{
    let count = book[p + 2];
    let size = 3 * usize::from(count);
    book[q + 2] == count && book[p + 3..p + 3 + size] == book[q + 3..q + 3 + size]
}

// The same, where `old` may be 0, the place of no rule.
fn twice(book: &[u8], old: u32, at: usize) -> bool
    requires { Twice book.now old at }
    ensures { Again book.now old at result }
{
    old != 0 && same(book, old as usize, at)
}

// A number below 256 that equal rules share: by the first literal and the last.
fn trace(book: &[u8], at: usize) -> usize
    requires { (0 < get_or book.now (at + 2) 0) × (end_at book.now at ≤ length book.now) }
    ensures { result < 256 }
{
    let last = at + 3 * usize::from(book[at + 2]);
    let first = usize::from(book[at + 3]) * 5 + usize::from(book[at + 5]) * 13;
    let setting = usize::from(book[last]) * 29;
    let sign = usize::from(book[last + 1]) * 67;
    let bound = usize::from(book[last + 2]) * 97;
    (first + setting + sign + bound) % 256
}

// Where the front ends once a rule is entered; it stays where an equal one is in it already.
fn with_one(end: u16, equal: bool) -> u16
    requires { end < 65535 }
    ensures { result ≡ cond equal end (end + 1) }
{
    if equal { end } else { end + 1 }
}

// The group that the rule at place `at` goes into: that of its last literal's setting, if it has literals and the group has space.
fn group_with_space(book: &[u8], at: usize, starts: &[u16], ends: &[u16]) -> Option<usize>
    requires { (end_at book.now at ≤ length book.now) × (length starts.now ≡ 17) × (length ends.now ≡ 16) }
    ensures { IfSome result (HasSpace book.now at starts.now ends.now) }
{
    let count = usize::from(book[at + 2]);
    if count == 0 {
        return None;
    }
    let g = usize::from(book[at + 3 * count]);
    (g < 16 && ends[g] < starts[g + 1]).then_some(g)
}

// Enters the rules from the first on, as long as their groups have space. `seen` has the place of a rule of each trace, or 0: no rule
// stands there, and Options would take twice the stack.
pub fn fill(book: &[u8], rules: usize, bounds: Bounds, places: &mut [u32]) -> Groups
    requires { AllStand book.now 7 rules × (rules ≤ 24576) × Ladder bounds.starts bounds.ends × (length places.old ≡ 4096) }
    ensures { Sorted book.now rules places.new bounds.starts result.ends result.at result.left }
{
    let starts = bounds.starts;
    let mut ends = bounds.ends;
    let mut seen = [0u32; 256];
    let mut at: usize = 7;
    for i in 0..rules {
        let Some(g) = group_with_space(book, at, &starts, &ends) else {
            return Groups {
                ends,
                at,
                left: rules - i,
            };
        };
        let t = trace(book, at);
        let equal = twice(book, seen[t], at);
        let end = ends[g];
        places[usize::from(end)] = at as u32;
        seen[t] = at as u32;
        ends[g] = with_one(end, equal);
        at = rule_end(book, at);
    }
    Groups { ends, at, left: 0 }
}
