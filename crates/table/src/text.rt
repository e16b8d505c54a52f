// What is right in a Text: its range, its bytes and its columns.

ghost use Rattle.std.specs.Prelude.{◌≡◌, ◌+◌, ◌≤◌, length, take, drop};
ghost use Rattle.buffer.specs.Utf8.{ascii, no_feed};
ghost use Rattle.table.specs.Refusal.{answer_of};
ghost use Rattle.table.specs.Parts.{text_fault};
ghost use Rattle.table.specs.Fault.{columns_fit, columns_right};

use crate::Column;
use crate::refusal::Refusal;
use buffer::utf8::{below_128, no_feed, plainly_below_128, well_formed};

// Whether the columns of a Text with these bytes are right, and the bytes well-formed.
fn columns_fit(bytes: &[u8], c: Column) -> bool
    ensures { result ≡ columns_fit bytes.now c.0 }
{
    let columns = c.0 as usize;
    if below_128(bytes) {
        columns == bytes.len()
    } else {
        well_formed(bytes) && columns <= bytes.len()
    }
}

// The same, and no line feed among the bytes.
pub fn columns_right(bytes: &[u8], c: Column) -> bool
    ensures { result ≡ columns_right bytes.now c.0 }
{
    let fit = columns_fit(bytes, c);
    no_feed(bytes) & fit
}

// The text, and what is seen of all of it at once: whether it is below 128, and whether it has no line feed. Mostly it has none, and then
// no Text is looked through for one.
#[derive(Clone, Copy)]
pub struct Seen<'a> {
    pub text: &'a [u8],
    pub low: bool,
    pub unfed: bool,
    ghost low_seen: { low ≡ ascii text.now },
    ghost unfed_seen: { unfed ≡ no_feed text.now },
}

impl<'a> Seen<'a> {
    pub fn of(text: &'a [u8]) -> Seen<'a>
        ensures { result.text.now ≡ text.now }
    {
        let low = below_128(text);
        let unfed = no_feed(text);
        Seen { text, low, unfed }
    }

    // Whether a part of the text has no line feed.
    fn part_unfed(&self, at: usize, n: usize) -> bool
        requires { at + n ≤ length self.now.text.now }
        ensures { result ≡ no_feed (take n (drop at self.now.text.now)) }
    {
        if self.unfed {
            return true;
        }
        let end = at + n;
        no_feed(&self.text[at..end])
    }

    // Whether the bytes of a part, with these columns, are right, a line feed aside.
    fn part_fit(&self, at: usize, n: usize, c: Column) -> bool
        requires { at + n ≤ length self.now.text.now }
        ensures { result ≡ columns_fit (take n (drop at self.now.text.now)) c.0 }
    {
        if plainly_below_128(self.text, self.low, at, n) {
            return c.0 as usize == n;
        }
        let end = at + n;
        columns_fit(&self.text[at..end], c)
    }

    // The same, and no line feed in it.
    fn part_right(&self, at: usize, n: usize, c: Column) -> bool
        requires { at + n ≤ length self.now.text.now }
        ensures { result ≡ columns_right (take n (drop at self.now.text.now)) c.0 }
    {
        self.part_unfed(at, n) && self.part_fit(at, n, c)
    }

    // A Text's range, then its bytes and columns.
    pub fn fault(&self, a: u32, b: u32, c: u32) -> Result<(), Refusal>
        ensures { answer_of result ≡ text_fault self.now.text.now a b c }
    {
        let at = a as usize;
        let n = b as usize;
        if self.text.len() < at + n {
            return Err(Refusal::BadRange);
        }
        if !self.part_right(at, n, Column(c)) {
            return Err(Refusal::BadText);
        }
        Ok(())
    }
}
