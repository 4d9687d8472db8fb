// Which literals hold in a row. Every setting that is asked for is below the row's length.
ghost use Rattle.std.specs.Prelude.{◌≡◌, ◌≤◌, ◌<◌, length, get_or};
ghost use Rattle.meaning.specs.Rules.{holds, met};
ghost use Rattle.meaning.specs.Bytes.{literal_at};
ghost use Rattle.meaning.specs.Inner.{first_held};
ghost use Rattle.literals.specs.Inner.{holds_by, Known, literals_in};
ghost use Rattle.literals.specs.Found.{found};

// Does the literal of this sign and bound hold of the value? The sign is a byte as it stands in a book, whatever it is.
pub fn holds(sign: u8, bound: u8, value: u8) -> bool
    ensures { result ≡ holds_by sign bound value }
{
    if sign == 0 {
        value <= bound
    } else {
        bound <= value
    }
}

// Does the literal of these bytes hold in the row?
pub fn holds_in(literal: &[u8], row: &[u8]) -> bool
    requires { (3 ≤ length literal.now) × (get_or literal.now 0 0 < length row.now) }
    ensures { result ≡ holds (literal_at literal.now 0) row.now }
{
    holds(literal[1], literal[2], row[usize::from(literal[0])])
}

// The number of the first of the literals that holds in the row.
pub fn first_held(literals: &[u8], row: &[u8]) -> Option<usize>
    requires { Known (length row.now) (literals_in literals.now) }
    ensures { result ≡ found (length (literals_in literals.now)) (first_held (literals_in literals.now) row.now) }
{
    for (i, literal) in literals.chunks_exact(3).enumerate() {
        if holds_in(literal, row) {
            return Some(i);
        }
    }
    None
}

// Does the row meet the rule of these literals: does one of them hold?
pub fn met(literals: &[u8], row: &[u8]) -> bool
    requires { Known (length row.now) (literals_in literals.now) }
    ensures { result ≡ met (literals_in literals.now) row.now }
{
    first_held(literals, row).is_some()
}
