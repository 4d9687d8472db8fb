// The rule-book library: every public call and type of the base. Its specs/ hold the promises, one file for each demand.
#![tactic(auto)]

pub use books::{Fault, Head, RulePart, Untested, read, rule, rule_part, test};
pub use listing::{Cursor, Listed, Paged, Unlisted, page};
pub use makers::{Made, Unmade, make};
pub use tables::{Flaw, Open, check};
