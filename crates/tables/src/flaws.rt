// The check of a table: refusals 1 to 5, in their order.
ghost use Rattle.std.specs.Prelude.{◌≡◌, suc, ◌+◌, ◌*◌, ◌/◌, ◌%◌, ◌≤◌, ◌<◌, ◌^◌, length};
ghost use Rattle.meaning.specs.Rows.{Limited, before, row, rows_of};
ghost use Rattle.tables.specs.Check.{first_high, first_low, row_flaw_of, flaw_of, answer, checked_of};
ghost use Rattle.tables.specs.Inner.{passed_of, value_flaw};

use crate::Flaw;
use crate::order::order;
use crate::rows::row;
use literals::limits;

// Refusal 4 for row k: each value is to be below its setting's size.
fn check_values(sizes: &[u8], row: &[u8], k: usize) -> Result<(), Flaw>
    requires { (length row.now ≡ length sizes.now) × (k * length sizes.now + length sizes.now < 2 ^ 64) }
    ensures { result ≡ passed_of (value_flaw sizes.now row.now (k * length sizes.now)) }
{
    match row
        .iter()
        .zip(sizes)
        .position(|(value, size)| size <= value)
    {
        Some(i) => Err(Flaw::Value(k * sizes.len() + i)),
        None => Ok(()),
    }
}

// Refusal 4: each value of the table is to be below its setting's size.
fn check_all_values(sizes: &[u8], table: &[u8]) -> Result<(), Flaw>
    requires { (0 < length sizes.now) × (length table.now % length sizes.now ≡ 0) }
    ensures { result ≡ passed_of (first_high sizes.now table.now) }
{
    for (k, row) in table.chunks_exact(sizes.len()).enumerate() {
        check_values(sizes, row, k)?;
    }
    Ok(())
}

// Is row k + 1 above row k?
#[tactic(auto, using(crate::proofs::laws::Compare::before_is))]
fn rises(table: &[u8], l: usize, k: usize) -> bool
    requires { suc k < length table.now / l }
    ensures { result ≡ before (row (rows_of l table.now) k) (row (rows_of l table.now) (suc k)) }
{
    order(row(table, l, k), row(table, l, k + 1)).is_lt()
}

// Refusal 5: each row is to be above the one before it.
fn check_order(table: &[u8], l: usize) -> Result<(), Flaw>
    requires { 0 < l }
    ensures { result ≡ passed_of (first_low (rows_of l table.now)) }
{
    let steps = (table.len() / l).saturating_sub(1);
    match (0..steps).find(|k| !rises(table, l, *k)) {
        Some(k) => Err(Flaw::Order(k + 1)),
        None => Ok(()),
    }
}

// Refusals 4 and 5: a value too high decides, wherever it stands, before a row too low.
fn check_rows(sizes: &[u8], table: &[u8]) -> Result<usize, Flaw>
    requires { (0 < length sizes.now) × (length table.now % length sizes.now ≡ 0) }
    ensures { result ≡ answer (length table.now / length sizes.now) (row_flaw_of sizes.now table.now) }
{
    let l = sizes.len();
    check_all_values(sizes, table)?;
    check_order(table, l)?;
    Ok(table.len() / l)
}

// Refusals 2 to 5, over a size for each setting.
#[tactic(auto, using(crate::proofs::laws::Refusals::sizes_many))]
pub fn check_sizes(sizes: &[u8], table: &[u8]) -> Result<usize, Flaw>
    requires { 0 < length sizes.now }
    ensures { result ≡ answer (length table.now / length sizes.now) (flaw_of sizes.now table.now) }
{
    let l = sizes.len();
    if 0 < table.len() % l {
        return Err(Flaw::Length);
    }
    let rows = table.len() / l;
    if 512 < rows {
        return Err(Flaw::Rows(rows));
    }
    check_rows(sizes, table)
}

// The check over l settings of n values each.
fn check_alike(n: usize, l: usize, table: &[u8]) -> Result<usize, Flaw>
    requires { Limited n l }
    ensures { result ≡ checked_of n l table.now }
{
    check_sizes(&[n as u8; 16][..l], table)
}

// Is the table of rows of l values below n sound: strictly ascending, no more than 512? Gives the number of rows, or the
// first of refusals 1 to 5 with its values.
pub fn check(n: usize, l: usize, table: &[u8]) -> Result<usize, Flaw>
    ensures { result ≡ checked_of n l table.now }
{
    if limits(n, l) {
        check_alike(n, l, table)
    } else {
        Err(Flaw::Limits)
    }
}
