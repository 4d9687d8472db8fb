// Horn and, as its mirror, dual Horn: a rule with two or more scarce literals keeps the common ones and at most one scarce one.
ghost use Rattle.std.specs.Prelude.{◌≡◌, None, ◌≤◌, ◌<◌, length, get_or};
ghost use Rattle.std.proofs.Math.Option.{none};
ghost use Rattle.meaning.specs.Families.{join, extreme, keep_for, reduce};
ghost use Rattle.literals.specs.Inner.{Known, literals_in};
ghost use Rattle.literals.specs.Kinds.{side_of};
ghost use Rattle.reducing.specs.Inner.{rows_in, row_in, serves};
ghost use Rattle.meaning.specs.Bytes.{literal_at};

use crate::{Hand, Rows};
use literals::{Side, holds_in, met, scarce, scarces};

// What rows combine to, setting by setting, with one row more. By number, as in `counts`.
fn join(combined: Option<[u8; 16]>, side: Side, row: &[u8]) -> Option<[u8; 16]>
    requires { length row.now ≤ 16 }
    ensures { row_in (length row.now) result ≡ join (side_of side) (row_in (length row.now) combined) row.now }
{
    match combined {
        Some(mut values) => {
            for (i, v) in row.iter().enumerate() {
                values[i] = side.pick(values[i], *v);
            }
            Some(values)
        }
        None => {
            let mut values = [0; 16];
            values[..row.len()].copy_from_slice(row);
            Some(values)
        }
    }
}

// What the rows that do not meet the rule of these literals combine to.
fn extreme(literals: &[u8], side: Side, rows: &Rows) -> Option<[u8; 16]>
    requires { Known rows.now.l (literals_in literals.now) }
    ensures { row_in rows.now.l result ≡ extreme (side_of side) (literals_in literals.now) none (rows_in rows.now) }
{
    let mut combined = None;
    for row in rows.iter() {
        if !met(literals, row) {
            combined = join(combined, side, row);
        }
    }
    combined
}

// Does a scarce literal stay: is one sought still, and does this one hold in the row for which it is sought?
fn serves(literal: &[u8], sought: Option<[u8; 16]>, l: usize) -> bool
    requires { (3 ≤ length literal.now) × (get_or literal.now 0 0 < l) × (l ≤ 16) }
    ensures { result ≡ serves (literal_at literal.now 0) (row_in l sought) }
{
    match sought {
        Some(values) => holds_in(literal, &values[..l]),
        None => false,
    }
}

// The common literals of the rule and, if rows combined to a row, the first scarce one that holds in it.
fn keep_for(h: &Hand, side: Side, combined: Option<[u8; 16]>, l: usize) -> Hand
    requires { (l ≤ 16) × Known l h.now }
    ensures { result ≡ keep_for (side_of side) h.now (row_in l combined) }
{
    let mut kept = Hand::empty();
    let mut sought = combined;
    for literal in h.literals().chunks_exact(3) {
        if !scarce(literal, side) {
            kept.keep(literal);
        } else if serves(literal, sought, l) {
            kept.keep(literal);
            sought = None;
        }
    }
    kept
}

// The rule as a Horn rule, or for the high side as a dual Horn one: as it is, if it has at most one scarce literal; otherwise
// its common literals and, if rows meet none of these, the first scarce one that holds in what those rows combine to.
pub fn horn(h: Hand, side: Side, rows: &Rows) -> Hand
    requires { Known rows.now.l h }
    ensures { result ≡ reduce (side_of side) (rows_in rows.now) h }
{
    if scarces(h.literals(), side) < 2 {
        return h;
    }
    let common = keep_for(&h, side, None, rows.l);
    let combined = extreme(common.literals(), side, rows);
    keep_for(&h, side, combined, rows.l)
}
