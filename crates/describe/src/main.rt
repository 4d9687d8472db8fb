// Prints the book of a table. Standard input, of which at most 65,536 bytes are read, is n, l, family and then the table; missing first bytes
// count as 0. The book is made in a room of 65,536 bytes. Each line is written at once. No memory is asked for.
#![tactic(auto)]

mod lines;
mod records;

ghost use Rattle.std.specs.Prelude.{◌≤◌, length, IfOk};

use lines::{Book, Refused, Rule, write_line};
use records::Records;
use rulebook::{Head, Made};
use std::io;
use std::io::{Read, Write};

// How much is read at most, and how long a book may be.
const SPACE: usize = 65536;

// The bytes of a book's head, which stand before its first rule.
const HEAD: usize = 7;

// The byte at place i as a number, 0 where there is none.
fn number_at(input: &[u8], i: usize) -> usize {
    input.get(i).copied().map_or(0, usize::from)
}

// Makes the book of the input's table in the room and writes its lines, or that of the refusal.
fn describe<W: Write>(input: &[u8], room: &mut [u8], out: &mut W) -> io::Result<()> {
    let n = number_at(input, 0);
    let l = number_at(input, 1);
    let family = number_at(input, 2);
    let table = input.get(3..).unwrap_or_default();
    let Made { length, rules } = match rulebook::make(n, l, family, table, room) {
        Ok(made) => made,
        Err(unmade) => return write_line(out, &Refused(unmade)),
    };
    let head = Head {
        n,
        l,
        family,
        rules,
    };
    write_line(out, &Book(head))?;
    let records = room.get(HEAD..length).unwrap_or_default();
    for (number, literals) in Records(records).enumerate() {
        write_line(out, &Rule { number, literals })?;
    }
    Ok(())
}

// Reads until the space is full or the input ends. Gives how many bytes. By hand, since std's `read_to_end` asks for memory.
fn read_full<R: Read>(input: &mut R, space: &mut [u8]) -> io::Result<usize>
    ensures { IfOk result (λ got. got ≤ length space.new) }
{
    let mut done = 0;
    while done < space.len() {
        let got = input.read(&mut space[done..])?;
        if got == 0 {
            break;
        }
        done += got;
    }
    Ok(done)
}

fn main(rt: HostRuntime) -> io::Result<()> {
    let mut space = [0u8; SPACE];
    let mut room = [0u8; SPACE];
    let got = read_full(&mut rt.reader(), &mut space)?;
    describe(&space[..got], &mut room, &mut io::writer(&rt))
}
