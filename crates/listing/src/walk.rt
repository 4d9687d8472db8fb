// The walk over the visited prefixes of a page: it calls itself for the levels that remain, and stops where the steps or the rows are
// full, since a visit is made only where there is room for it. The room, the places and the hints are lent one by one, since each is
// written; the rest of a call is where the walk stands.
ghost use Rattle.std.specs.Prelude.{◌≡◌, ◌+◌, ◌≤◌, ◌<◌, length, drop, get_or};
ghost use Rattle.meaning.specs.Bytes.{rules_in};
ghost use Rattle.meaning.specs.Listing.{dead};
ghost use Rattle.listing.specs.Cursors.{prefix_of};
ghost use Rattle.listing.specs.Inner.{Kept, Open, Looks, Narrowable, part, from_of, past_of, S, inward_of, runs, Ready, LooksIf, Turns, Along};

use crate::prefix::Prefix;
use crate::scan::{Run, Scanned, trim};
use crate::steps::{Point, Task, Walk};
use crate::values::lacks;

// How many levels are gone into below a prefix: none if it is dead.
fn inward(dead: bool, levels: usize) -> usize
    requires { 0 < levels }
    ensures { result ≡ inward_of dead levels }
{
    if dead { 0 } else { levels - 1 }
}

impl Task<'_> {
    // One value on.v after the live prefix cur: its visit, all that is below it, and the dead values behind it. on.scan is the look below
    // cur, for the values from on.v on; from the run of rules in it those go that every value from on.v on meets.
    #[cycle(below_turn)]
    fn turn(
        &self,
        room: &mut [u8],
        places: &mut [u32],
        hints: &mut [u8],
        ends: [u16; 16],
        on: &Point,
        cur: Prefix,
        levels: usize,
    ) -> Point
        requires { Ready self.now.sizes.now room.old cur.cursor levels self.now.fit × Narrowable self.now.book.now places.old self.now.starts.now ends (length hints.old) × Looks self.now.book.now (dead (rules_in self.now.book.now)) (prefix_of cur.cursor) places.old self.now.starts.now ends on.now.v on.now.scan × (cur.cursor.len + 1 < length self.now.sizes.now) × (0 < levels) × (on.now.v < get_or self.now.sizes.now cur.cursor.len 0) × (on.now.walk.rows < self.now.fit) × (on.now.walk.steps < self.now.budget) }
        ensures { Turns (dead (rules_in self.now.book.now)) self.now.sizes.now cur.cursor levels self.now.fit self.now.budget on.now.walk room.old on.now.v result.walk room.new result.v × Kept self.now.starts.now ends places.old places.new × Looks self.now.book.now (dead (rules_in self.now.book.now)) (prefix_of cur.cursor) places.new self.now.starts.now ends result.v result.scan }
    {
        let next = cur.push(on.v);
        let dead = lacks(on.scan.allowed, usize::from(on.v));
        let deep = inward(dead, levels);
        let run = trim(self.book, on.scan.at, on.scan.rules, cur.cursor.len, on.v);
        let fronts = self.narrow(places, hints, ends, next, deep);
        let more = self.look(places, hints, fronts, run, next, deep);
        let first = Point {
            walk: Walk {
                last: next.cursor,
                dead: usize::from(dead),
                steps: on.walk.steps + 1,
                ..on.walk
            },
            v: 0,
            scan: more,
        };
        let under = self.below(room, places, hints, fronts, &first, next, deep);
        let behind = Point {
            walk: under,
            v: on.v + 1,
            scan: Scanned {
                at: run.at,
                rules: run.rules,
                ..on.scan
            },
        };
        self.skip(&behind, cur)
    }

    // All that is visited below the live prefix cur, `levels` levels deep, from the value on.v on. on.scan is the look below cur. The next
    // value is the one that a turn gives, so no range is gone over.
    #[cycle(below_turn)]
    fn below(
        &self,
        room: &mut [u8],
        places: &mut [u32],
        hints: &mut [u8],
        ends: [u16; 16],
        on: &Point,
        cur: Prefix,
        levels: usize,
    ) -> Walk
        requires { Ready self.now.sizes.now room.old cur.cursor levels self.now.fit × Narrowable self.now.book.now places.old self.now.starts.now ends (length hints.old) × LooksIf self.now.book.now (dead (rules_in self.now.book.now)) (prefix_of cur.cursor) places.old self.now.starts.now ends on.now.v levels on.now.scan }
        ensures { (◌≡◌ {A = S} (result, room.new) (runs (dead (rules_in self.now.book.now)) (length self.now.sizes.now) self.now.fit self.now.budget (from_of (dead (rules_in self.now.book.now)) (part self.now.sizes.now cur.cursor.len levels) (prefix_of cur.cursor) on.now.v) (on.now.walk, room.old))) × Kept self.now.starts.now ends places.old places.new }
    {
        if levels == 0 {
            return on.walk;
        }
        let at = cur.cursor.len;
        let l = self.sizes.len();
        if at + 1 == l {
            return self.leaves(room, on, cur);
        }
        let n = self.sizes[at];
        let mut point = self.skip(on, cur);
        while point.v < n {
            if self.fit <= point.walk.rows || self.budget <= point.walk.steps {
                return point.walk;
            }
            point = self.turn(room, places, hints, ends, &point, cur, levels);
        }
        point.walk
    }

    // All that is visited below the live prefix cur and after w's last prefix, of which cur is the beginning: below that prefix's own next
    // value, then from the value after it on. What matters below cur: the fronts, and `run`.
    pub fn resume(
        &self,
        room: &mut [u8],
        places: &mut [u32],
        hints: &mut [u8],
        ends: [u16; 16],
        run: Run,
        w: Walk,
        cur: Prefix,
        levels: usize,
    ) -> Walk
        requires { Ready self.now.sizes.now room.old cur.cursor levels self.now.fit × Along self.now.sizes.now w.last cur.cursor levels × Narrowable self.now.book.now places.old self.now.starts.now ends (length hints.old) × Open self.now.book.now (dead (rules_in self.now.book.now)) (prefix_of cur.cursor) places.old self.now.starts.now ends run.at run.rules (length hints.old) }
        ensures { (◌≡◌ {A = S} (result, room.new) (runs (dead (rules_in self.now.book.now)) (length self.now.sizes.now) self.now.fit self.now.budget (past_of (dead (rules_in self.now.book.now)) (part self.now.sizes.now cur.cursor.len levels) (prefix_of cur.cursor) (drop cur.cursor.len (prefix_of w.last))) (w, room.old))) × Kept self.now.starts.now ends places.old places.new }
    {
        let scan = self.look(places, hints, ends, run, cur, levels);
        let len = cur.cursor.len;
        let c = w.last;
        if len == c.len {
            let all = Point {
                walk: w,
                v: 0,
                scan,
            };
            return self.below(room, places, hints, ends, &all, cur, levels);
        }
        let v = c.values[len];
        let next = cur.push(v);
        if lacks(scan.allowed, usize::from(v)) {
            let rest = Point {
                walk: w,
                v: v + 1,
                scan,
            };
            return self.below(room, places, hints, ends, &rest, cur, levels);
        }
        let fronts = self.narrow(places, hints, ends, next, levels - 1);
        let inner = Run {
            at: scan.at,
            rules: scan.rules,
        };
        let walk = self.resume(room, places, hints, fronts, inner, w, next, levels - 1);
        if self.budget <= walk.steps {
            return walk;
        }
        let rest = Point {
            walk,
            v: v + 1,
            scan,
        };
        self.below(room, places, hints, ends, &rest, cur, levels)
    }
}
