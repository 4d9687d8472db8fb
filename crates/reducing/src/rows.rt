// The rows of a table, which a reduction goes through.
ghost use Rattle.std.specs.Prelude.{◌≡◌, ◌≤◌, length};
ghost use Rattle.meaning.specs.Rows.{rows_of};

use std::slice::ChunksExact;

// A table of l bytes a row, from 1 to 16, and of at most 512 rows.
#[derive(Clone, Copy)]
pub struct Rows<'a> {
    pub table: &'a [u8],
    pub l: usize,
    ghost some: { 1 ≤ l },
    ghost narrow: { l ≤ 16 },
    ghost few: { length (rows_of l table.now) ≤ 512 },
}

impl<'a> Rows<'a> {
    // Its rows, one after the other.
    pub(crate) fn iter(&self) -> ChunksExact<'a, u8>
        ensures rest { result.rest.now ≡ self.now.table.now }
        ensures size { result.size ≡ self.now.l }
    {
        self.table.chunks_exact(self.l)
    }
}
