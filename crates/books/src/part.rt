// A rule of a book by its number, as that part of the lent book itself.
ghost use Rattle.std.specs.Prelude.{◌≡◌, ◌<◌};
ghost use Rattle.books.specs.Format.{read_of};
ghost use Rattle.books.specs.Part.{count_of, part_of, part_place, part_where, IsPart};
ghost use Rattle.books.specs.Inner.{Placed};

use crate::reader::read;
use literals::rule_end;

// A part of a lent book: where it begins, and how many bytes it has. Laid out as C has it.
#[repr(C)]
#[derive(Clone, Copy)]
pub struct RulePart {
    pub place: usize,
    pub length: usize,
}

// How many rules the book has: none, if it is faulty.
fn count(book: &[u8]) -> usize
    ensures { result ≡ count_of (read_of book.now) }
{
    read(book).map_or(0, |head| head.rules)
}

// The place of the rule's mark.
fn place(book: &[u8], number: usize) -> usize
    requires { number < count_of (read_of book.now) }
    ensures { Placed book.now number result }
{
    let mut p = 7;
    for _i in 0..number {
        p = rule_end(book, p);
    }
    p
}

// Where the rule's record stands in the book: its place and its length.
// The end of the book and 0, for a number that no rule has or a book with a fault.
#[tactic(auto, using(crate::proofs::laws::Part::where_ways))]
pub fn rule_part(book: &[u8], number: usize) -> RulePart
    ensures { result ≡ part_where book.now number }
{
    if number < count(book) {
        let start = place(book, number);
        return RulePart {
            place: start,
            length: rule_end(book, start) - start,
        };
    }
    RulePart {
        place: book.len(),
        length: 0,
    }
}

// The rule's mark, count and literals, as that part of the book.
// The empty part at the end of the book, for a number that no rule has or a book with a fault.
#[tactic(auto, using(crate::proofs::laws::Part::part_whole))]
pub fn rule<'a>(book: &'a [u8], number: usize) -> &'a [u8]
    ensures { IsPart book.entry result (part_place book.now number) (part_of book.now number) }
{
    let part = rule_part(book, number);
    &book[part.place..part.place + part.length]
}
