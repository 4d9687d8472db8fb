// The rows of a table: l bytes each, one after another.
ghost use Rattle.std.specs.Prelude.{◌≡◌, ◌<◌, length};
ghost use Rattle.meaning.specs.Rows.{row, rows_of, is_row};
ghost use Rattle.tables.specs.Inner.{Known, Ready};

use crate::lookup::is_row;

// Row i of a table of rows of l values.
pub fn row(table: &[u8], l: usize, i: usize) -> &[u8]
    requires { Known l table.now i }
    ensures { (result.now ≡ row (rows_of l table.now) i) × (length result.now ≡ l) }
{
    &table[i * l..i * l + l]
}

// A table whose rows ascend, and are no wider than an array of sixteen.
#[derive(Clone, Copy)]
pub struct Rows<'a> {
    pub table: &'a [u8],
    pub l: usize,
    ghost ready: { Ready l table.now },
}

impl<'a> Rows<'a> {
    ghost use Rattle.tables.specs.Rows.{rows_in};

    // How many rows it has.
    pub fn count(self) -> usize
        ensures { result ≡ length (rows_in self.entry) }
    {
        self.table.len() / self.l
    }

    // Row i.
    pub fn row(self, i: usize) -> &'a [u8]
        requires { i < length (rows_in self) }
        ensures { (result.now ≡ row (rows_in self.entry) i) × (length result.now ≡ self.entry.l) }
    {
        row(self.table, self.l, i)
    }

    // Is `x` one of its rows?
    pub fn has(self, x: &[u8]) -> bool
        requires { length x.now ≡ self.l }
        ensures { result ≡ is_row x.now (rows_in self.entry) }
    {
        is_row(x, self.table)
    }
}
