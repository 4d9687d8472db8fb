// Bijunctive: a rule loses, in order, each literal without which every row still meets what is left of it.
//
// For each row a byte says how many of the literals that are left hold in it. A literal can be spared if it is no row's only one.
ghost use Rattle.std.specs.Prelude.{◌≡◌, [], ◌≤◌, ◌<◌, length, get_or};
ghost use Rattle.meaning.specs.Rules.{holds};
ghost use Rattle.meaning.specs.Bytes.{literal_at};
ghost use Rattle.meaning.specs.Families.{trim};
ghost use Rattle.literals.specs.Inner.{Known, literals_in};
ghost use Rattle.reducing.specs.Inner.{rows_in, change, counting, lowering, number, spare};

use crate::{Hand, Rows};
use literals::holds_in;

// How many of the literals hold in the row?
fn number(literals: &[u8], row: &[u8]) -> u8
    requires { (length literals.now ≤ 96) × Known (length row.now) (literals_in literals.now) }
    ensures { result ≡ number (λ c. holds c row.now) (literals_in literals.now) }
{
    let mut k = 0;
    for literal in literals.chunks_exact(3) {
        k += u8::from(holds_in(literal, row));
    }
    k
}

// Writes for each row how many of the literals hold in it; the counts behind stay. By number: of what `iter_mut` lends beside
// another iterator a proof would know nothing afterwards.
fn tally(literals: &[u8], rows: &Rows, counts: &mut [u8])
    requires { (length counts.old ≡ 512) × (length literals.now ≤ 96) × Known rows.now.l (literals_in literals.now) }
    ensures { counts.new ≡ change (counting (literals_in literals.now)) (rows_in rows.now) counts.old }
{
    for (k, row) in rows.iter().enumerate() {
        counts[k] = number(literals, row);
    }
}

// Takes the literal out of the counts: of each row in which it holds; the counts behind stay. A loop of its own: one function
// for both, with a closure, would say more in its contract than the loop is long.
fn lower(literal: &[u8], rows: &Rows, counts: &mut [u8])
    requires { (length counts.old ≡ 512) × (3 ≤ length literal.now) × (get_or literal.now 0 0 < rows.now.l) }
    ensures { counts.new ≡ change (lowering (literal_at literal.now 0)) (rows_in rows.now) counts.old }
{
    for (k, row) in rows.iter().enumerate() {
        counts[k] = counts[k].saturating_sub(u8::from(holds_in(literal, row)));
    }
}

// Can the literal be spared: is it no row's only one?
fn spare(literal: &[u8], rows: &Rows, counts: &[u8]) -> bool
    requires { (length counts.now ≡ 512) × (3 ≤ length literal.now) × (get_or literal.now 0 0 < rows.now.l) }
    ensures { result ≡ spare (literal_at literal.now 0) (rows_in rows.now) counts.now }
{
    for (row, count) in rows.iter().zip(counts) {
        if *count == u8::from(holds_in(literal, row)) {
            return false;
        }
    }
    true
}

// The rule without each literal, in order, that can be spared: every row still meets what is left.
pub fn trim(h: &Hand, rows: &Rows) -> Hand
    requires { Known rows.now.l h.now }
    ensures { result ≡ trim (rows_in rows.now) [] h.now }
{
    let literals = h.literals();
    let mut counts = [0; 512];
    tally(literals, rows, &mut counts);
    let mut kept = Hand::empty();
    for literal in literals.chunks_exact(3) {
        if spare(literal, rows, &counts) {
            lower(literal, rows, &mut counts);
        } else {
            kept.keep(literal);
        }
    }
    kept
}
