// The library for C and Rust: the calls of include/rulebook.h. A slice arrives as a pointer and a length, and a usize is a
// uint64_t there: the archive is for machines where both have 64 bits.
#![tactic(auto)]

mod answers;

ghost use Rattle.std.specs.Prelude.{◌≡◌, List, ℕ};
ghost use Rattle.tables.specs.Check.{checked_of};
ghost use Rattle.makers.specs.Made.{made_of};
ghost use Rattle.books.specs.Format.{read_of};
ghost use Rattle.books.specs.Part.{part_where};
ghost use Rattle.books.specs.Tested.{tested_of};
ghost use Rattle.listing.specs.Cursors.{down_of, along_of, up_of};
ghost use Rattle.listing.specs.Pages.{page_of};
ghost use Rattle.rulebook.specs.Told.{checked_told, reading_told, tested_told};
ghost use Rattle.rulebook_c.specs.Answers.{answer_of, made_answer, page_answer};

use answers::{Answer, PageAnswer};
use rulebook::{Cursor, RulePart};

// Is this a sound table? Gives the number of rows.
#[unsafe(no_mangle)]
pub extern "C" fn rulebook_check(n: usize, l: usize, table: &[u8]) -> Answer
    ensures { result ≡ answer_of (checked_told (checked_of n l table.now)) }
{
    rulebook::check(n, l, table).into()
}

// Makes the book of a table in a family, and writes it at the start of the room; a refusal writes nothing.
// Gives the book's length and its number of rules.
#[unsafe(no_mangle)]
pub extern "C" fn rulebook_make(
    n: usize,
    l: usize,
    family: usize,
    table: &[u8],
    room: &mut [u8],
) -> Answer
    ensures { ◌≡◌ {A = Answer × List ℕ} (result, room.new) (made_answer (made_of n l family table.now room.old)) }
{
    rulebook::make(n, l, family, table, room).into()
}

// Reads a book. Gives n, l, family and the number of rules.
#[unsafe(no_mangle)]
pub extern "C" fn rulebook_read(book: &[u8]) -> Answer
    ensures { result ≡ answer_of (reading_told (read_of book.now)) }
{
    rulebook::read(book).into()
}

// Where a rule's record stands in the book. Length 0, at the end, where there is no such rule.
#[unsafe(no_mangle)]
pub extern "C" fn rulebook_rule(book: &[u8], number: usize) -> RulePart
    ensures { result ≡ part_where book.now number }
{
    rulebook::rule_part(book, number)
}

// Does the combination meet the book? Gives 1 if it is permitted, else 0 and the number of the first rule not met.
#[unsafe(no_mangle)]
pub extern "C" fn rulebook_test(book: &[u8], combination: &[u8]) -> Answer
    ensures { result ≡ answer_of (tested_told (tested_of book.now combination.now)) }
{
    rulebook::test(book, combination).into()
}

// Down to the prefix one longer that ends in 0, or the same cursor where there is none.
#[unsafe(no_mangle)]
pub extern "C" fn rulebook_down(cursor: Cursor, n: usize, l: usize) -> Cursor
    ensures { result ≡ down_of n l cursor }
{
    cursor.down(n, l)
}

// Along to the next value at the last place, or the same cursor where there is none.
#[unsafe(no_mangle)]
pub extern "C" fn rulebook_along(cursor: Cursor, n: usize, l: usize) -> Cursor
    ensures { result ≡ along_of n l cursor }
{
    cursor.along(n, l)
}

// Up to the prefix one shorter, or the same cursor where there is none.
#[unsafe(no_mangle)]
pub extern "C" fn rulebook_up(cursor: Cursor, n: usize, l: usize) -> Cursor
    ensures { result ≡ up_of n l cursor }
{
    cursor.up(n, l)
}

// A page of the permitted combinations after the cursor, written as rows at the start of the room; a refusal writes nothing.
// Gives the number of rows, of steps, and 1 if the listing is finished, and beside them the cursor that the next page goes on from.
#[unsafe(no_mangle)]
pub extern "C" fn rulebook_page(
    book: &[u8],
    cursor: Cursor,
    room: &mut [u8],
    budget: usize,
) -> PageAnswer
    ensures { ◌≡◌ {A = PageAnswer × List ℕ} (result, room.new) (page_answer (page_of book.now cursor budget room.old)) }
{
    rulebook::page(book, cursor, room, budget).into()
}
