// The lines that are printed: the head of a book, a rule, a refusal; and how a line is written.
use rulebook::{Flaw, Head, Open, Unmade};
use std::fmt::{Display, Write as _};
use std::io::Write;
use std::{fmt, io};

// More bytes than any line has: that of a rule is the longest, with 32 literals.
const LONGEST: usize = 256;

// A line that is put together before it is written.
#[derive(Clone, Copy)]
struct Line {
    bytes: [u8; LONGEST],
    length: usize,
}

impl fmt::Write for Line {
    // Byte by byte: most parts are one or two, and a copy of so few would be a call.
    fn write_str(&mut self, s: &str) -> fmt::Result {
        for byte in s.as_bytes() {
            if LONGEST <= self.length {
                return Err(fmt::Error);
            }
            self.bytes[self.length] = *byte;
            self.length += 1;
        }
        Ok(())
    }
}

// Writes the line, at once.
pub fn write_line<W: Write, L: Display>(out: &mut W, line: &L) -> io::Result<()> {
    let mut text = Line {
        bytes: [0; LONGEST],
        length: 0,
    };
    if writeln!(text, "{line}").is_err() {
        return Err(io::Error::from(io::ErrorKind::WriteZero));
    }
    let end = text.length.min(LONGEST);
    out.write_all(&text.bytes[..end])
}

// A book, by its head.
#[derive(Clone, Copy)]
pub struct Book(pub Head);

impl fmt::Display for Book {
    fn fmt<W: fmt::Write>(&self, f: &mut fmt::Formatter<W>) -> fmt::Result {
        let Head {
            n,
            l,
            family,
            rules,
        } = self.0;
        write!(f, "book {n} {l} {family} {rules}")
    }
}

// A rule, by its number in the book and the bytes of its literals.
#[derive(Clone, Copy)]
pub struct Rule<'a> {
    pub number: usize,
    pub literals: &'a [u8],
}

impl<'a> fmt::Display for Rule<'a> {
    fn fmt<W: fmt::Write>(&self, f: &mut fmt::Formatter<W>) -> fmt::Result {
        write!(f, "rule {}", self.number)?;
        let (literals, _) = self.literals.as_chunks::<3>();
        for [setting, sign, bound] in literals {
            let sign = if *sign == 0 { "<=" } else { ">=" };
            write!(f, " {setting}{sign}{bound}")?;
        }
        Ok(())
    }
}

// Why no book is made, by its number and what it gives.
#[derive(Clone, Copy)]
pub struct Refused(pub Unmade);

impl fmt::Display for Refused {
    fn fmt<W: fmt::Write>(&self, f: &mut fmt::Formatter<W>) -> fmt::Result {
        match self.0 {
            Unmade::Flawed(Flaw::Limits) => write!(f, "refused 1"),
            Unmade::Flawed(Flaw::Length) => write!(f, "refused 2"),
            Unmade::Flawed(Flaw::Rows(rows)) => write!(f, "refused 3 {rows}"),
            Unmade::Flawed(Flaw::Value(place)) => write!(f, "refused 4 {place}"),
            Unmade::Flawed(Flaw::Order(row)) => write!(f, "refused 5 {row}"),
            Unmade::Family => write!(f, "refused 6"),
            Unmade::Open(Open::Pair(i, j)) => write!(f, "refused 7 {i} {j}"),
            Unmade::Open(Open::Triple(i, j, k)) => write!(f, "refused 7 {i} {j} {k}"),
            Unmade::Room(needed) => write!(f, "refused 8 {needed}"),
        }
    }
}
