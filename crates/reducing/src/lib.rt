// Reducing: a rule in hand, and its reduction into a family.
#![tactic(auto)]

pub mod counts;
mod hand;
mod rows;
pub mod sides;

pub use hand::Hand;
pub use rows::Rows;
