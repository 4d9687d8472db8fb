// The book in bytes: reading it, a rule as a part of it, testing a combination against it, and writing its records.
#![tactic(auto)]

ghost use Rattle.std.specs.Prelude.{◌≡◌};
ghost use Rattle.books.specs.declared.Untested.TheVariants.{Faulty};

mod fields;
mod literal_fields;
mod part;
mod reader;
mod records;
mod rules;
mod tester;

pub use part::{RulePart, rule, rule_part};
pub use reader::read;
pub use records::{put_end, put_head, put_rule};
pub use tester::test;

// What is wrong with a book, and at which place: refusals 9 to 15.
#[derive(Clone, Copy, Debug, PartialEq, Eq)]
pub enum Fault {
    Cut(usize),
    Mark(usize),
    Field(usize),
    Order(usize),
    Idle(usize),
    Family(usize),
    Trailing(usize),
}

// The head of a book: n values a setting, l settings, the number of the family as the book has it, and the number of rules.
#[derive(Clone, Copy, Debug, PartialEq, Eq)]
pub struct Head {
    pub n: usize,
    pub l: usize,
    pub family: usize,
    pub rules: usize,
}

// Why a combination was not tested: the book has a fault, or a refusal of the combination.
// Length is 16, the combination not l long; Value is 17, with the place of its first value that is n or more.
#[derive(Clone, Copy, Debug, PartialEq, Eq)]
pub enum Untested {
    Faulty(Fault),
    Length,
    Value(usize),
}

impl From<Fault> for Untested {
    ghost from_gives = { λ f u. u ≡ Faulty f };

    fn from(fault: Fault) -> Untested {
        Untested::Faulty(fault)
    }
}
