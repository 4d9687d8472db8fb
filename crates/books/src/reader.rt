// Reading a book: the head, the rules, the end, and nothing more.
ghost use Rattle.std.specs.Prelude.{◌≡◌, ◌≤◌, ◌<◌, length, replicate};
ghost use Rattle.meaning.specs.Rows.{Limited};
ghost use Rattle.books.specs.Format.{tail_of, read_of};

use crate::fields::{field, mark, word};
use crate::rules::Reader;
use crate::{Fault, Head};

// Sixteen sizes, all n: the first l of them are the sizes of a book over l settings of n values each.
pub fn sixteen(n: usize) -> [u8; 16]
    requires { n < 256 }
    ensures { result ≡ replicate 16 n }
{
    [n as u8; 16]
}

// After the head: the rules, over l settings of n values each, then the end, and nothing more.
#[tactic(auto, using(crate::proofs::laws::Lent::lent_sizes), unfolding(crate::specs::Format::tail_of))]
fn tail(book: &[u8], head: Head) -> Result<Head, Fault>
    requires { Limited head.n head.l × (7 ≤ length book.now) }
    ensures { result ≡ tail_of book.now head.n head.l head.family head.rules }
{
    let sizes = sixteen(head.n);
    let reader = Reader {
        book,
        sizes: &sizes[..head.l],
        family: head.family,
    };
    let end = reader.rules(7, head.rules)?;
    let last = mark(book, end, b'E')?;
    if last < book.len() {
        return Err(Fault::Trailing(last));
    }
    Ok(head)
}

// Reads a book field by field from the left: n, l, family and number of rules, or the first fault.
#[tactic(auto, unfolding(crate::specs::Format::read_of, crate::specs::Format::rest_of))]
pub fn read(book: &[u8]) -> Result<Head, Fault>
    ensures { result ≡ read_of book.now }
{
    mark(book, 0, b'B')?;
    let n = field(book, 0, 2, 1..65)?;
    let l = field(book, 0, 3, 1..17)?;
    let family = field(book, 0, 4, 0..4)?;
    let rules = word(book, 0, 5, 24577)?;
    tail(
        book,
        Head {
            n,
            l,
            family,
            rules,
        },
    )
}
