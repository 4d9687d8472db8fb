// The source of a book's rules: a sound table over sizes, its rows, and where they part.
ghost use Rattle.std.specs.Prelude.{◌≡◌, ◌≤◌, ◌<◌, length};
ghost use Rattle.meaning.specs.General.{split};
ghost use Rattle.makers.specs.Given.{Given};

use literals::Family;

// A sound table of so many rows over the sizes, the family of the rules made from it, and the n of the book's head.
#[derive(Clone, Copy)]
pub struct Source<'a> {
    pub n: usize,
    pub sizes: &'a [u8],
    pub family: Family,
    pub table: &'a [u8],
    pub rows: usize,
    ghost given: { Given sizes.now table.now rows },
    ghost small: { n ≤ 64 },
}

impl<'a> Source<'a> {
    ghost use Rattle.meaning.specs.Rows.{row};
    ghost use Rattle.meaning.specs.General.{fork};
    ghost use Rattle.makers.specs.Inner.{source_rows};

    // Row k of the table.
    pub fn row(&self, k: usize) -> &'a [u8]
        requires { k < self.now.rows }
        ensures { result.now ≡ row (source_rows self.now) k }
    {
        tables::rows::row(self.table, self.sizes.len(), k)
    }

    // The level at which row k - 1 and row k part: 0 before the first of the rows and after the last.
    #[tactic(auto, using(crate::proofs::laws::Parts::fork_first, crate::proofs::laws::Parts::fork_last, crate::proofs::laws::Parts::fork_same, crate::proofs::laws::Parts::fork_between, crate::proofs::laws::Parts::fork_most))]
    pub fn fork(&self, k: usize) -> usize
        ensures { result ≡ fork (source_rows self.now) k }
    {
        if k == 0 || self.rows <= k {
            0
        } else {
            split(self.row(k - 1), self.row(k)) + 1
        }
    }
}

// The first setting at which two rows differ, or their length where they do not, which `fork` counts on.
pub fn split(a: &[u8], b: &[u8]) -> usize
    requires { length a.now ≡ length b.now }
    ensures { result ≡ split a.now b.now }
{
    a.iter().zip(b).position(|(x, y)| x != y).unwrap_or(a.len())
}
