// Writing a book's records: each over the room from a place on where it fits, else nothing is written.
// A writer gives the place after the record in either case, so that a run over no room measures.
ghost use Rattle.std.specs.Prelude.{◌≡◌, ◌+◌, ◌++◌, ◌≤◌, ◌<◌, length};
ghost use Rattle.meaning.specs.Bytes.{encode_head, encode_end};
ghost use Rattle.books.specs.Inner.{Puts, rule_record};

// Copies the mark and then the bytes over the room from `at` on, where both fit.
#[tactic(auto, using(crate::proofs::laws::Records::puts))]
fn put(room: &mut [u8], at: usize, mark: &[u8], bytes: &[u8]) -> usize
    requires { (at ≤ 4294967295) × (length mark.now < 4) × (length bytes.now < 768) }
    ensures { Puts room.old room.new at (mark.now ++ bytes.now) result }
{
    let start = at + mark.len();
    let next = start + bytes.len();
    if room.len() < next {
        return next;
    }
    room[at..start].copy_from_slice(mark);
    room[start..next].copy_from_slice(bytes);
    next
}

// The head, at the start of the room. The family is its number, which is what is written.
#[tactic(auto, using(crate::proofs::laws::Records::puts_head))]
pub fn put_head(room: &mut [u8], n: usize, l: usize, family: usize, rules: usize) -> usize
    requires { (n < 256) × (l < 256) × (family < 256) × (rules < 65536) }
    ensures { Puts room.old room.new 0 (encode_head n l family rules) result }
{
    let [high, low] = (rules as u16).to_be_bytes();
    put(room, 0, b"RB", &[n as u8, l as u8, family as u8, high, low])
}

// A rule, from the bytes of its literals, three each.
pub fn put_rule(room: &mut [u8], at: usize, literals: &[u8]) -> usize
    requires { (at ≤ 4294967295) × (length literals.now < 768) }
    ensures { Puts room.old room.new at (rule_record literals.now) result }
{
    put(
        room,
        at,
        &[b'R', b'U', (literals.len() / 3) as u8],
        literals,
    )
}

// The end.
pub fn put_end(room: &mut [u8], at: usize) -> usize
    requires { at ≤ 4294967295 }
    ensures { Puts room.old room.new at encode_end result }
{
    put(room, at, b"RE", &[])
}
