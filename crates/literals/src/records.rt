// A rule by the place of its mark: the record that stands there.
ghost use Rattle.std.specs.Prelude.{◌≡◌, ◌+◌, ◌*◌, ◌≤◌, length, get_or, take, drop};
ghost use Rattle.meaning.specs.Rules.{met};
ghost use Rattle.meaning.specs.Bytes.{rule_at, end_at};
ghost use Rattle.literals.specs.Inner.{Askable};

use crate::holding::met;

// The place after the rule whose mark is at p.
pub fn rule_end(book: &[u8], p: usize) -> usize
    requires { end_at book.now p ≤ length book.now }
    ensures { result ≡ end_at book.now p }
{
    let c = usize::from(book[p + 2]);
    p + 3 + 3 * c
}

// The bytes of its literals.
fn literals_of(book: &[u8], p: usize) -> &[u8]
    requires { end_at book.now p ≤ length book.now }
    ensures { result.now ≡ take (3 * get_or book.now (p + 2) 0) (drop (p + 3) book.now) }
{
    &book[p + 3..rule_end(book, p)]
}

// Does the row meet it?
pub fn rule_met(book: &[u8], p: usize, row: &[u8]) -> bool
    requires { Askable book.now (p + 3) (get_or book.now (p + 2) 0) (length row.now) }
    ensures { result ≡ met (rule_at book.now p) row.now }
{
    met(literals_of(book, p), row)
}
