// The lines of a text, one after the other, without their line feeds.
ghost use Rattle.std.specs.Prelude.{◌≡◌, take};
ghost use Rattle.std.specs.Iterator.{YieldsFirstRef, item_count};
ghost use Rattle.buffer.specs.Parts.{lines, body_end};
ghost use Rattle.buffer.specs.Lines.{lines_left};

use crate::parts::{behind, body_end, front, line_end};

// What is left of a text, line by line; what stands behind the last line feed is a line if it is anything.
#[derive(Clone, Copy)]
pub struct Lines<'a> {
    rest: &'a [u8],
}

impl<'a> Lines<'a> {
    pub fn new(text: &'a [u8]) -> Lines<'a>
        ensures { lines_left result ≡ lines text.now }
    {
        Lines { rest: text }
    }
}

impl<'a> Iterator for Lines<'a> {
    type Item = &'a [u8];

    ghost next_gives = { YieldsFirstRef lines_left };

    ghost remaining = { item_count lines_left };

    fn next(&mut self) -> Option<&'a [u8]> {
        let rest = self.rest;
        if rest.is_empty() {
            return None;
        }
        let end = line_end(rest, 0);
        self.rest = behind(rest, end + 1);
        Some(&rest[..end])
    }
}

// A line's own bytes: a carriage return at its end is none of them.
pub fn body(line: &[u8]) -> &[u8]
    ensures { result.now ≡ take (body_end line.now) line.now }
{
    front(line, body_end(line))
}
