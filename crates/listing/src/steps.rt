// The steps of a page: what its walk goes by and has done, a run of dead values, and the last level, whose live values are rows.
ghost use Rattle.std.specs.Prelude.{◌≡◌, [], ◌∷◌, ◌++◌, ◌+◌, ◌*◌, ◌-◌, ◌≤◌, ◌<◌, length, get_or};
ghost use Rattle.meaning.specs.Inner.{Sized};
ghost use Rattle.meaning.specs.Bytes.{rules_in};
ghost use Rattle.meaning.specs.Listing.{dead};
ghost use Rattle.books.specs.Inner.{put_at};
ghost use Rattle.listing.specs.Cursors.{prefix_of};
ghost use Rattle.listing.specs.Inner.{push_of, part, from_of, S, runs, Ready, Allows, behind_of, Skips, leaf_rows, leaf_room};

use crate::cursor::Cursor;
use crate::prefix::Prefix;
use crate::scan::Scanned;
use crate::values::lacks;

// What a page's walk goes by: the book, the sizes of its settings, the bounds of the groups, how many rows fit and how many steps may be
// made. Nothing of it changes; the sizes are within their limits.
#[derive(Clone, Copy)]
pub struct Task<'a> {
    pub book: &'a [u8],
    pub sizes: &'a [u8],
    pub starts: &'a [u16],
    pub fit: usize,
    pub budget: usize,
    ghost sized: { Sized sizes.now },
}

// What a page has done so far: the last prefix visited and whether it is dead, 1 for yes, the rows written, the steps made. It is no
// bool, since a byte beside numbers makes a walk slow to copy.
#[derive(Clone, Copy)]
pub struct Walk {
    pub last: Cursor,
    pub dead: usize,
    pub rows: usize,
    pub steps: usize,
}

impl Walk {
    // The same walk with its last prefix set, once the values from `from` up to below v are visited after cur.
    fn behind(self, cur: Prefix, from: u8, v: u8) -> Walk
        requires { (cur.cursor.len < 16) × (from ≤ v) }
        ensures { result ≡ behind_of self cur.cursor from v }
    {
        if v == from {
            return self;
        }
        Walk {
            last: cur.push(v - 1).cursor,
            ..self
        }
    }
}

// Where a walk stands below a prefix: the walk, the value of the next setting at which it goes on, and what is known of the values from
// there on.
#[derive(Clone, Copy)]
pub struct Point {
    pub walk: Walk,
    pub v: u8,
    pub scan: Scanned,
}

// Value i of the prefix cur with v behind it.
fn value(cur: Prefix, v: u8, i: usize) -> u8
    requires { i ≤ cur.cursor.len }
    ensures { result ≡ get_or (prefix_of cur.cursor ++ (v ∷ [])) i 0 }
{
    if i == cur.cursor.len {
        v
    } else {
        cur.cursor.values[i]
    }
}

// Writes the prefix cur with v behind it into the room from place `at` on: value by value and not by copy_from_slice, since a copy of
// the prefix would be a call.
fn put_row(room: &mut [u8], at: usize, cur: Prefix, v: u8)
    requires { at + cur.cursor.len < length room.old }
    ensures { room.new ≡ put_at room.old at (prefix_of cur.cursor ++ (v ∷ [])) }
{
    let l = cur.cursor.len + 1;
    for i in 0..l {
        room[at + i] = value(cur, v, i);
    }
}

// One value v of the last setting: a row, if it is not dead; how many rows there are then.
fn leaf(room: &mut [u8], rows: usize, cur: Prefix, v: u8, dead: bool) -> usize
    requires { (rows * (cur.cursor.len + 1) + cur.cursor.len < length room.old) × (rows < length room.old) }
    ensures { (result ≡ leaf_rows dead rows) × (room.new ≡ leaf_room dead room.old (rows * (cur.cursor.len + 1)) (prefix_of cur.cursor) v) }
{
    if dead {
        return rows;
    }
    put_row(room, rows * (cur.cursor.len + 1), cur, v);
    rows + 1
}

// The last prefix of a walk is not set at each value, but behind the run of them.
impl Task<'_> {
    // Visits the dead values from on.v on, up to the first that is not, or as far as the budget goes. It is no call, since a call gives a
    // point by memory.
    #[inline(always)]
    pub fn skip(&self, on: &Point, cur: Prefix) -> Point
        requires { (cur.cursor.len < length self.now.sizes.now) × Allows (dead (rules_in self.now.book.now)) (prefix_of cur.cursor) on.now.scan.allowed }
        ensures { Skips (dead (rules_in self.now.book.now)) self.now.sizes.now cur.cursor self.now.fit self.now.budget on.now.walk on.now.v result.walk result.v × (result.scan ≡ on.now.scan) }
    {
        if self.fit <= on.walk.rows {
            return *on;
        }
        let n = self.sizes[cur.cursor.len].max(on.v);
        let mut walk = on.walk;
        for v in on.v..n {
            if self.budget <= walk.steps || !lacks(on.scan.allowed, usize::from(v)) {
                return Point {
                    walk: walk.behind(cur, on.v, v),
                    v,
                    ..*on
                };
            }
            walk.dead = 1;
            walk.steps += 1;
        }
        Point {
            walk: walk.behind(cur, on.v, n),
            v: n,
            ..*on
        }
    }

    // All that is visited below the live prefix cur of all settings but one, from the value on.v on.
    pub fn leaves(&self, room: &mut [u8], on: &Point, cur: Prefix) -> Walk
        requires { Ready self.now.sizes.now room.old cur.cursor 1 self.now.fit × (cur.cursor.len + 1 ≡ length self.now.sizes.now) × Allows (dead (rules_in self.now.book.now)) (prefix_of cur.cursor) on.now.scan.allowed }
        ensures { ◌≡◌ {A = S} (result, room.new) (runs (dead (rules_in self.now.book.now)) (length self.now.sizes.now) self.now.fit self.now.budget (from_of (dead (rules_in self.now.book.now)) (part self.now.sizes.now cur.cursor.len 1) (prefix_of cur.cursor) on.now.v) (on.now.walk, room.old)) }
    {
        let n = self.sizes[cur.cursor.len].max(on.v);
        let mut done = on.walk;
        for v in on.v..n {
            if self.fit <= done.rows || self.budget <= done.steps {
                return done.behind(cur, on.v, v);
            }
            let dead = lacks(on.scan.allowed, usize::from(v));
            done.dead = usize::from(dead);
            done.rows = leaf(room, done.rows, cur, v, dead);
            done.steps += 1;
        }
        done.behind(cur, on.v, n)
    }
}
