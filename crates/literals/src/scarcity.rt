// Which literals are scarce for a side, and how many: the positive ones for Horn, the negative ones for dual Horn.
ghost use Rattle.std.specs.Prelude.{◌≡◌, ◌≤◌, length};
ghost use Rattle.meaning.specs.Rules.{scarce, scarces};
ghost use Rattle.meaning.specs.Bytes.{literal_at};
ghost use Rattle.literals.specs.Inner.{literals_in};
ghost use Rattle.literals.specs.Kinds.{side_of};

use crate::kinds::Side;

// Is the literal of these bytes scarce?
pub fn scarce(literal: &[u8], side: Side) -> bool
    requires { 3 ≤ length literal.now }
    ensures { result ≡ scarce (side_of side) (literal_at literal.now 0) }
{
    match side {
        Side::Low => literal[1] != 0,
        Side::High => literal[1] == 0,
    }
}

// How many of the literals are scarce. A loop of its own beside `reducing`'s `number`: each follows its own definition.
pub fn scarces(literals: &[u8], side: Side) -> usize
    ensures { result ≡ scarces (side_of side) (literals_in literals.now) }
{
    let mut count = 0;
    for literal in literals.chunks_exact(3) {
        count += usize::from(scarce(literal, side));
    }
    count
}
