// The limits of n and l.
ghost use Rattle.std.specs.Prelude.{◌≡◌};
ghost use Rattle.meaning.specs.Rows.{limits};

// Is n from 1 to 64, and l from 1 to 16?
#[tactic(auto, using(crate::proofs::laws::Limits::limits_low, crate::proofs::laws::Limits::limits_high, crate::proofs::laws::Limits::limits_narrow, crate::proofs::laws::Limits::limits_wide, crate::proofs::laws::Limits::limits_within))]
pub fn limits(n: usize, l: usize) -> bool
    ensures { result ≡ limits n l }
{
    matches!((n, l), (1..=64, 1..=16))
}
