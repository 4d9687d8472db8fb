// Sending rules to a book: its length and number of rules so far, and the record of each, written where it fits.
ghost use Rattle.std.specs.Prelude.{◌≤◌};
ghost use Rattle.makers.specs.Inner.{IsSent};

use crate::Made;
use books::put_rule;
use reducing::Hand;

// A book that is being written: the room for it, and what is made of it so far.
#[derive(Drop)]
pub struct Draft<'r> {
    pub room: &'r mut [u8],
    pub made: Made,
}

impl Draft<'_> {
    // Writes the record of the rule where it fits, and counts it in any case.
    pub fn send(&mut self, rule: &Hand)
        requires { (self.old.made.length ≤ 4294967295) × (self.old.made.rules ≤ 4294967295) }
        ensures { IsSent rule.now self.old self.new }
    {
        self.made.length = put_rule(self.room, self.made.length, rule.literals());
        self.made.rules += 1;
    }
}
