// The fields of a book's records: a mark, a byte, two bytes.
ghost use Rattle.std.specs.Prelude.{◌≡◌, ◌+◌, ◌≤◌, ◌<◌, length, IfOk};
ghost use Rattle.books.specs.Format.{mark_of, field_of, word_of};

use crate::Fault;
use std::ops::Range;

// The mark 'R' m at place p. Gives the place after it.
#[tactic(auto, unfolding(crate::specs::Format::mark_of))]
pub fn mark(book: &[u8], p: usize, m: u8) -> Result<usize, Fault>
    requires { p ≤ length book.now }
    ensures value { result ≡ mark_of book.now p m }
    ensures inside { IfOk result (λ v. v ≤ length book.now) }
{
    if book.len() < p + 2 {
        return Err(Fault::Cut(p));
    }
    if book[p] != b'R' || book[p + 1] != m {
        return Err(Fault::Mark(p));
    }
    Ok(p + 2)
}

// The byte at place p, one of `values`, of the record whose mark is at `from`.
#[tactic(auto, unfolding(crate::specs::Format::field_of))]
pub fn field(book: &[u8], from: usize, p: usize, values: Range<usize>) -> Result<usize, Fault>
    ensures value { result ≡ field_of book.now from p values.start values.end }
    ensures within { IfOk result (λ v. (values.start ≤ v) × (v < values.end) × (p < length book.now)) }
{
    let v = usize::from(*book.get(p).ok_or(Fault::Cut(from))?);
    if !values.contains(&v) {
        return Err(Fault::Field(p));
    }
    Ok(v)
}

// The number in the two bytes at place p, high byte first, below `top`, of the record whose mark is at `from`.
#[tactic(auto, unfolding(crate::specs::Format::word_of))]
pub fn word(book: &[u8], from: usize, p: usize, top: usize) -> Result<usize, Fault>
    requires { p ≤ length book.now }
    ensures value { result ≡ word_of book.now from p top }
    ensures within { IfOk result (λ v. (v < top) × (p + 2 ≤ length book.now)) }
{
    if book.len() < p + 2 {
        return Err(Fault::Cut(from));
    }
    let k = usize::from(u16::from_be_bytes([book[p], book[p + 1]]));
    if k >= top {
        return Err(Fault::Field(p));
    }
    Ok(k)
}
