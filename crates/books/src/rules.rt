// The rules of a book: a rule's literals, whether it is idle, its family, and as many rules as the head says.
ghost use Rattle.std.specs.Prelude.{◌≡◌, ◌+◌, ◌*◌, ◌≤◌, ◌<◌, length, IfOk};
ghost use Rattle.meaning.specs.Rules.{covers, overlap, horn, in_family};
ghost use Rattle.meaning.specs.Bytes.{literal_at, literals_at};
ghost use Rattle.meaning.specs.Inner.{Sized};
ghost use Rattle.literals.specs.Inner.{literals_in};
ghost use Rattle.literals.specs.Kinds.{side_of};
ghost use Rattle.books.specs.Format.{rule_of, rules_of};
ghost use Rattle.books.specs.Inner.{idle_next};

use crate::Fault;
use crate::fields::{field, mark};
use literals::{Family, Side, scarces};

// A book that is read, the sizes of its settings, and the family that its head names.
#[derive(Clone, Copy)]
pub struct Reader<'a> {
    pub book: &'a [u8],
    pub sizes: &'a [u8],
    pub family: usize,
    ghost sized: { Sized sizes.now },
}

// Do 'at most a' and 'at least b' on one setting make a rule idle?
#[tactic(auto, unfolding(meaning::specs::Rules::covers))]
fn covered(a: u8, b: u8) -> bool
    ensures { result ≡ covers a b }
{
    b <= a
}

// Does the literal at p make the rule idle with the one after it?
// The settings come first: those of neighbours mostly differ, while their signs go either way, which a processor foresees badly.
#[tactic(auto, using(crate::proofs::laws::Idle::overlap_ways))]
fn overlaps(book: &[u8], p: usize) -> bool
    requires { p + 6 ≤ length book.now }
    ensures { result ≡ overlap (literal_at book.now p) (literal_at book.now (p + 3)) }
{
    let q = p + 3;
    if book[p] != book[q] || book[p + 1] != 0 || book[q + 1] == 0 {
        return false;
    }
    covered(book[p + 2], book[q + 2])
}

// Does one of the c literals from `start` on make the rule idle with the one after it?
#[tactic(auto, using(crate::proofs::laws::Idle::idle_loop))]
fn idle(book: &[u8], start: usize, c: usize) -> bool
    requires { start + 3 * c ≤ length book.now }
    ensures { result ≡ idle_next (literals_at book.now start c) }
{
    let mut p = start;
    for _i in 1..c {
        if overlaps(book, p) {
            return true;
        }
        p += 3;
    }
    false
}

// Are fewer than two of the literals scarce? Out of line, so that the loop over the rules of another family stays short.
#[inline(never)]
#[tactic(auto, unfolding(meaning::specs::Rules::horn))]
fn few(literals: &[u8], side: Side) -> bool
    ensures { result ≡ horn (side_of side) (literals_in literals.now) }
{
    scarces(literals, side) < 2
}

// Is the rule of the c literals from `start` on in the family of this number, which the head has?
// Fewer than two literals are in each: this comes first, since the match jumps through a table.
#[tactic(auto, using(crate::proofs::laws::Family::family_short))]
fn kept(book: &[u8], start: usize, c: usize, family: usize) -> bool
    requires { start + 3 * c ≤ length book.now }
    ensures { result ≡ in_family family (literals_at book.now start c) }
{
    if c < 2 {
        return true;
    }
    let literals = &book[start..start + 3 * c];
    match Family::of(family) {
        Family::General => true,
        Family::Horn => few(literals, Side::Low),
        Family::Dual => few(literals, Side::High),
        Family::Bijunctive => c < 3,
    }
}

impl Reader<'_> {
    // The rule at `from`: its mark, the number of its literals, these, then the rule as a whole. Gives the place after it.
    #[tactic(auto, using(crate::proofs::laws::Rules::is_idle), unfolding(crate::specs::Format::rule_of, crate::specs::Format::body_of))]
    fn rule(&self, from: usize) -> Result<usize, Fault>
        requires { from ≤ length self.now.book.now }
        ensures value { result ≡ rule_of self.now.book.now self.now.sizes.now self.now.family from }
        ensures inside { IfOk result (λ v. v ≤ length self.now.book.now) }
    {
        mark(self.book, from, b'U')?;
        let c = field(self.book, from, from + 2, 0..2 * self.sizes.len() + 1)?;
        let end = self.literals(from, c)?;
        if idle(self.book, from + 3, c) {
            return Err(Fault::Idle(from));
        }
        if !kept(self.book, from + 3, c, self.family) {
            return Err(Fault::Family(from));
        }
        Ok(end)
    }

    // As many rules as `count` from `start` on. Gives the place after them. Out of line, so that its loop has the registers that the
    // head would take in `tail`.
    #[inline(never)]
    #[tactic(auto, using(crate::proofs::laws::Rules::rules_loop))]
    pub fn rules(&self, start: usize, count: usize) -> Result<usize, Fault>
        requires { start ≤ length self.now.book.now }
        ensures value { result ≡ rules_of self.now.book.now self.now.sizes.now self.now.family start count }
        ensures inside { IfOk result (λ v. v ≤ length self.now.book.now) }
    {
        let mut p = start;
        for _i in 0..count {
            p = self.rule(p)?;
        }
        Ok(p)
    }
}
