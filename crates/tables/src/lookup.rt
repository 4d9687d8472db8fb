// The search for a row of a table.
ghost use Rattle.std.specs.Prelude.{◌≡◌, length};
ghost use Rattle.meaning.specs.Rows.{is_row, rows_of};
ghost use Rattle.tables.specs.Inner.{Rising};

use crate::order::order;
use crate::rows::row;
use std::cmp::Ordering;

// Is `x` a row of the table, whose rows are as long as `x` and ascend? Each turn halves the rows among which it may be. By hand,
// since the library's `binary_search` is for a slice of elements, and the rows are as wide as `x` says.
pub fn is_row(x: &[u8], table: &[u8]) -> bool
    requires { Rising (length x.now) table.now }
    ensures { result ≡ is_row x.now (rows_of (length x.now) table.now) }
{
    let mut low = 0;
    let mut high = table.len() / x.len();
    while low < high {
        let middle = low + (high - low) / 2;
        match order(x, row(table, x.len(), middle)) {
            Ordering::Less => high = middle,
            Ordering::Equal => return true,
            Ordering::Greater => low = middle + 1,
        }
    }
    false
}
