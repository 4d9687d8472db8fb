// The search for rows that show a table not closed.
ghost use Rattle.std.specs.Prelude.{◌≡◌, ◌<◌, length};
ghost use Rattle.meaning.specs.Rows.{rows_of};
ghost use Rattle.meaning.specs.Closed.{open_pair, open_triple, open_rows};
ghost use Rattle.tables.specs.Inner.{Ready, shown, pair_after, triple_after, triples_after};
ghost use Rattle.tables.specs.Rows.{rows_in};
ghost use Rattle.literals.specs.Kinds.{side_of};

use crate::Open;
use crate::combine::{median_is_row, pair_is_row};
use crate::rows::Rows;
use literals::{Family, Side};

// Rows i and j with the first j after i for which the minimum, or for the high side the maximum, is no row.
fn pair_after(rows: Rows, side: Side, i: usize) -> Option<Open>
    requires { i < length (rows_in rows) }
    ensures { shown result ≡ pair_after (side_of side) (rows_in rows.entry) i }
{
    let count = rows.count();
    (i + 1..count)
        .find(|j| !pair_is_row(rows, side, i, *j))
        .map(|j| Open::Pair(i, j))
}

// The first pair of ascending row numbers whose minimum, or for the high side maximum, is no row.
fn open_pair(rows: Rows, side: Side) -> Option<Open>
    ensures { shown result ≡ open_pair (side_of side) (rows_in rows.entry) }
{
    (0..rows.count()).find_map(|i| pair_after(rows, side, i))
}

// Rows a, b and c with the first c after b for which the median is no row.
fn triple_after(rows: Rows, a: usize, b: usize) -> Option<Open>
    requires { (a < length (rows_in rows)) × (b < length (rows_in rows)) }
    ensures { shown result ≡ triple_after (rows_in rows.entry) a b }
{
    let count = rows.count();
    (b + 1..count)
        .find(|c| !median_is_row(rows, a, b, *c))
        .map(|c| Open::Triple(a, b, c))
}

// Rows a, b and c with the first b after a, and then the first c after b, for which the median is no row.
fn triples_after(rows: Rows, a: usize) -> Option<Open>
    requires { a < length (rows_in rows) }
    ensures { shown result ≡ triples_after (rows_in rows.entry) a }
{
    let count = rows.count();
    (a + 1..count).find_map(|b| triple_after(rows, a, b))
}

// The first triple of ascending row numbers whose median is no row.
fn open_triple(rows: Rows) -> Option<Open>
    ensures { shown result ≡ open_triple (rows_in rows.entry) }
{
    (0..rows.count()).find_map(|a| triples_after(rows, a))
}

// The first rows that show the table not closed for the family: general asks for nothing, Horn for the minimum, dual Horn
// for the maximum, bijunctive for the median. The family is a number, as a call has it.
pub fn open_rows(family: usize, table: &[u8], l: usize) -> Option<Open>
    requires { Ready l table.now }
    ensures { shown result ≡ open_rows family (rows_of l table.now) }
{
    let rows = Rows { table, l };
    match Family::of(family) {
        Family::General => None,
        Family::Horn => open_pair(rows, Side::Low),
        Family::Dual => open_pair(rows, Side::High),
        Family::Bijunctive => open_triple(rows),
    }
}
