// The literals of a rule: each one's three fields, then its order. `from` is the place of the rule's mark.
ghost use Rattle.std.specs.Prelude.{◌≡◌, ◌+◌, ◌*◌, ◌≤◌, ◌<◌, length, IfOk};
ghost use Rattle.meaning.specs.Rules.{top_of};
ghost use Rattle.books.specs.Format.{order_of, literal_of, literals_of};

use crate::Fault;
use crate::fields::field;
use crate::rules::Reader;

// The number that a bound of sign g stays below, on a setting of n values. The sign is here the number that its field gave, as in
// `top_of` and in a key.
#[tactic(auto, unfolding(meaning::specs::Rules::top_of))]
fn top(n: u8, g: usize) -> usize
    requires { 0 < n }
    ensures { result ≡ top_of n g }
{
    let n = usize::from(n);
    if g == 0 { n - 1 } else { n }
}

// The key of setting i and sign g is to be at least `low`. Gives the least key that may follow.
#[tactic(auto, unfolding(crate::specs::Format::order_of))]
fn ordered(i: usize, g: usize, low: usize, p: usize) -> Result<usize, Fault>
    requires { (i < 16) × (g < 2) }
    ensures { result ≡ order_of i g low p }
{
    let key = 2 * i + g;
    if key < low {
        return Err(Fault::Order(p));
    }
    Ok(key + 1)
}

impl Reader<'_> {
    // The literal at p, whose key is to be at least `low`: its setting, sign and bound, then its order. Gives the least key that may follow.
    #[tactic(auto, unfolding(crate::specs::Format::literal_of, crate::specs::Format::bound_of))]
    fn literal(&self, from: usize, low: usize, p: usize) -> Result<usize, Fault>
        requires { p ≤ length self.now.book.now }
        ensures value { result ≡ literal_of self.now.book.now self.now.sizes.now from low p }
        ensures inside { IfOk result (λ v. p + 3 ≤ length self.now.book.now) }
    {
        let i = field(self.book, from, p, 0..self.sizes.len())?;
        let g = field(self.book, from, p + 1, 0..2)?;
        field(self.book, from, p + 2, g..top(self.sizes[i], g))?;
        ordered(i, g, low, p)
    }

    // The c literals of the rule. Gives the place after them.
    #[tactic(auto, using(crate::proofs::laws::Literals::literals_loop))]
    pub fn literals(&self, from: usize, c: usize) -> Result<usize, Fault>
        requires { from + 3 ≤ length self.now.book.now }
        ensures value { result ≡ literals_of self.now.book.now self.now.sizes.now from 0 (from + 3) c }
        ensures inside { IfOk result (λ v. (v ≡ from + 3 + 3 * c) × (v ≤ length self.now.book.now)) }
    {
        let mut low = 0;
        let mut p = from + 3;
        for _k in 0..c {
            low = self.literal(from, low, p)?;
            p += 3;
        }
        Ok(p)
    }
}
