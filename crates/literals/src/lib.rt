// The literals of a rule in bytes: does one hold, which is the first that does, how many are scarce, and where a rule's record
// ends. Also the kinds that stand as numbers, by name, and the limits.
//
// Three bytes a literal: setting, sign (0 at most, 1 at least), bound.
#![tactic(auto)]

mod holding;
mod kinds;
mod numbers;
mod records;
mod scarcity;

pub use holding::{first_held, holds, holds_in, met};
pub use kinds::{Family, Side, Sign};
pub use numbers::limits;
pub use records::{rule_end, rule_met};
pub use scarcity::{scarce, scarces};
