// The slots of a row: each gives a rule or none. Left and right at each setting, and the middle.
ghost use Rattle.std.specs.Prelude.{[], ◌∷◌, ◌≡◌, ◌+◌, ltb, length};
ghost use Rattle.literals.specs.Inner.{Known};
ghost use Rattle.literals.specs.Kinds.{sign_of};
ghost use Rattle.makers.specs.Inner.{Countable, Sent, ruled_of, Sides, SentEdges};

use crate::earlier::{differ, differs_before};
use crate::rows::Source;
use crate::sending::Draft;
use literals::Sign;
use reducing::{Hand, Rows};

impl Source<'_> {
    // Sends the rule, reduced for the family.
    pub fn send(&self, rule: Hand, draft: &mut Draft)
        requires { Known (length self.now.sizes.now) rule × Countable draft.old.made 1 }
        ensures { Sent 1 self.now (rule ∷ []) draft.old draft.new }
    {
        let rows = Rows {
            table: self.table,
            l: self.sizes.len(),
        };
        let reduced = rule.reduced(self.family, &rows);
        draft.send(&reduced);
    }

    // The left (at least) or the right rules (at most) of a row, from setting `from` on.
    pub fn edges(&self, row: &[u8], sign: Sign, from: usize, draft: &mut Draft)
        requires { Sides self.now row.now from × Countable draft.old.made 16 }
        ensures { SentEdges self.now row.now (sign_of sign) from draft.old draft.new }
    {
        let mut before = differs_before(self.sizes, row, from);
        for i in from..self.sizes.len() {
            if ruled(sign, self.sizes[i], row[i]) {
                self.send(before.with(i as u8, sign, row[i]), draft);
            }
            differ(&mut before, i as u8, self.sizes[i], row[i]);
        }
    }
}

// Is v + 1 below w?
pub fn apart(v: u8, w: u8) -> bool
    ensures { result ≡ ltb (v + 1) w }
{
    v < w && v + 1 < w
}

// Has a setting of n values a rule at v? On the left (at least) where v is above 0, on the right (at most) where v is below n-1.
#[tactic(auto, unfolding(crate::specs::Inner::ruled_of))]
fn ruled(sign: Sign, n: u8, v: u8) -> bool
    ensures { result ≡ ruled_of (sign_of sign) n v }
{
    match sign {
        Sign::AtMost => apart(v, n),
        Sign::AtLeast => 0 < v,
    }
}
