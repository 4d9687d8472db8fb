// The records of a book's rules, one after the other.
ghost use Rattle.std.specs.Prelude.{length};
ghost use Rattle.std.specs.Iterator.{at_most};

// Of each record the bytes of its literals. What is no whole record ends them.
#[derive(Clone, Copy)]
pub struct Records<'a>(pub &'a [u8]);

impl<'a> Iterator for Records<'a> {
    type Item = &'a [u8];

    ghost remaining = { λ s. at_most (length s.0.now) };

    fn next(&mut self) -> Option<&'a [u8]> {
        let ([_, _, count], rest) = self.0.split_first_chunk::<3>()?;
        let (literals, rest) = rest.split_at_checked(3 * usize::from(*count))?;
        self.0 = rest;
        Some(literals)
    }
}
