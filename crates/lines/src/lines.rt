// The lines of an input as an iterator.
ghost use Rattle.std.specs.Prelude.{◌≡◌, [], ◌∷◌, length, MatchOption};
ghost use Rattle.lines.specs.Cutting.{lines_of};
ghost use Rattle.std.specs.Iterator.{at_most};

use crate::cut::first_line;

// The lines that are still to come: those of `rest`.
#[derive(Drop)]
pub struct Lines<'a> {
    rest: &'a [u8],
}

impl<'a> Lines<'a> {
    // All lines of an input.
    pub fn new(input: &'a [u8]) -> Lines<'a>
        ensures { result.rest.now ≡ input.now }
    {
        Lines { rest: input }
    }
}

// Each step gives the first line that is still to come, and leaves the others.
impl<'a> Iterator for Lines<'a> {
    type Item = &'a [u8];

    ghost remaining = { λ s. at_most (length s.rest.now) };

    ghost next_gives = { λ s o t. MatchOption o (lines_of s.rest.now ≡ []) (λ l. lines_of s.rest.now ≡ l.now ∷ lines_of t.rest.now) };

    fn next(&mut self) -> Option<&'a [u8]> {
        let (line, rest) = first_line(self.rest)?;
        self.rest = rest;
        Some(line)
    }
}
