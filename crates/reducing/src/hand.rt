// A rule in hand: the bytes of its literals, as a book has them. In a clause it is the rule.
ghost use Rattle.std.specs.Prelude.{◌≡◌, [], ◌∷◌, ◌++◌, ◌<◌, ◌≤◌, length, get_or};
ghost use Rattle.meaning.specs.Bytes.{literal, literal_at, encode_literals};
ghost use Rattle.meaning.specs.Families.{reduce_for};
ghost use Rattle.literals.specs.Kinds.{number_of, sign_of};
ghost use Rattle.literals.specs.Inner.{Known};
ghost use Rattle.reducing.specs.Inner.{rows_in};

use crate::Rows;
use crate::counts::trim;
use crate::sides::horn;
use literals::{Family, Side, Sign};
use std::marker::Model;

// At most 32 literals, three bytes each: setting, sign, bound. Zeros stand behind them, so that the rule gives the bytes back, as
// `Copy` asks.
#[derive(Clone, Copy)]
pub struct Hand {
    length: usize,
    bytes: [u8; 96],
}

impl Model for Hand {
    ghost use Rattle.std.specs.Prelude.{take};
    ghost use Rattle.meaning.specs.Rules.{Rule};
    ghost use Rattle.literals.specs.Inner.{literals_in};
    ghost use Rattle.reducing.specs.Inner.{Held, taken, filled};
    ghost use Rattle.reducing.specs.Proved.{back_count, back_bytes};

    ghost Value = { Rule };

    ghost view = { λ h. literals_in (take h.length h.bytes) };

    ghost invariant = { λ h. Held h.length h.bytes };

    ghost inverse = { λ r. record { length = taken r; bytes = filled r } };

    ghost inverse_ok = { λ h held i. record { length = back_count held i; bytes = back_bytes held i } };
}

impl Hand {
    // The rule without literals.
    pub fn empty() -> Hand
        ensures { result ≡ [] }
    {
        Hand {
            length: 0,
            bytes: [0; 96],
        }
    }

    // The bytes of its literals.
    pub fn literals(&self) -> &[u8]
        ensures bytes { result.now ≡ encode_literals self.now }
        ensures few { length self.now ≤ 32 }
    {
        &self.bytes[..self.length]
    }

    // Takes the literal of these bytes in at the end.
    pub(crate) fn keep(&mut self, literal: &[u8])
        requires { (length self.old < 32) × (length literal.now ≡ 3) × (get_or literal.now 1 0 < 2) }
        ensures { self.new ≡ self.old ++ (literal_at literal.now 0 ∷ []) }
    {
        let end = self.length + 3;
        self.bytes[self.length..end].copy_from_slice(literal);
        self.length = end;
    }

    // Takes one literal more in at the end.
    pub fn push(&mut self, setting: u8, sign: Sign, bound: u8)
        requires { length self.old < 32 }
        ensures { self.new ≡ self.old ++ (literal (sign_of sign) setting bound ∷ []) }
    {
        self.keep(&[setting, sign.byte(), bound]);
    }

    // The same rule with one literal more at the end.
    pub fn with(&self, setting: u8, sign: Sign, bound: u8) -> Hand
        requires { length self.now < 32 }
        ensures { result ≡ self.now ++ (literal (sign_of sign) setting bound ∷ []) }
    {
        let mut more = *self;
        more.push(setting, sign, bound);
        more
    }

    // The rule as one of the family over the rows.
    #[tactic(auto, unfolding(meaning::specs::Families::reduce_for))]
    pub fn reduced(self, family: Family, rows: &Rows) -> Hand
        requires { Known rows.now.l self }
        ensures { result ≡ reduce_for (number_of family) (rows_in rows.now) self }
    {
        match family {
            Family::General => self,
            Family::Horn => horn(self, Side::Low, rows),
            Family::Dual => horn(self, Side::High, rows),
            Family::Bijunctive => trim(&self, rows),
        }
    }
}
