// The kinds that stand as numbers in a book and in a call: which family, which sign; and which way rows combine.
ghost use Rattle.std.specs.Prelude.{◌≡◌};
ghost use Rattle.meaning.specs.Families.{pick};
ghost use Rattle.literals.specs.Kinds.{family_of, number_of, side_of, sign_of};

// What a rule may hold, and what a table must be closed under for it.
#[derive(Clone, Copy)]
pub enum Family {
    General,
    Horn,
    Dual,
    Bijunctive,
}

impl Family {
    // The family of this number. No book and no call has a number above 3: it would stand for bijunctive.
    pub fn of(number: usize) -> Family
        ensures { result ≡ family_of number }
    {
        match number {
            0 => Family::General,
            1 => Family::Horn,
            2 => Family::Dual,
            _ => Family::Bijunctive,
        }
    }

    // Its number.
    pub fn number(self) -> usize
        ensures { result ≡ number_of self }
    {
        match self {
            Family::General => 0,
            Family::Horn => 1,
            Family::Dual => 2,
            Family::Bijunctive => 3,
        }
    }
}

// Which way rows combine, setting by setting: to the minimum, for Horn, or to the maximum, for dual Horn.
#[derive(Clone, Copy)]
pub enum Side {
    Low,
    High,
}

impl Side {
    // The one of two values that they combine to.
    pub fn pick(self, u: u8, v: u8) -> u8
        ensures { result ≡ pick (side_of self) u v }
    {
        match self {
            Side::Low => u.min(v),
            Side::High => u.max(v),
        }
    }
}

// What a literal says of its setting: at most its bound, or at least.
#[derive(Clone, Copy)]
pub enum Sign {
    AtMost,
    AtLeast,
}

impl Sign {
    // Its byte in a book.
    pub fn byte(self) -> u8
        ensures { result ≡ sign_of self }
    {
        match self {
            Sign::AtMost => 0,
            Sign::AtLeast => 1,
        }
    }
}
