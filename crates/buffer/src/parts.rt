// Parts of bytes that are read, and bytes put into a row that is written from the front. In order: the front of a text and what stands behind
// a place; its columns; where a part, a line or a run of blanks ends; what it has; bytes put at a place, and blanks passed over.
// Only `line_end`, `put` and `further` have a `requires`, and only `put` writes; each says its whole answer.
ghost use Rattle.std.specs.Prelude.{◌≡◌, ◌+◌, ◌-◌, ◌≤◌, min, length, take, drop};
ghost use Rattle.buffer.specs.Parts.{index_of, LineEnds, body_end, characters, blank, controls, skipped, trimmed};
ghost use Rattle.buffer.specs.Placing.{Placed};

use crate::copy;

// The first so many bytes, or all.
pub fn front(s: &[u8], n: usize) -> &[u8]
    ensures { result.now ≡ take n s.now }
{
    s.get(..n).unwrap_or(s)
}

// What stands from there on; past the end nothing.
pub fn behind(s: &[u8], from: usize) -> &[u8]
    ensures { result.now ≡ drop from s.now }
{
    s.get(from..).unwrap_or(&[])
}

// The columns of a text: one for each character.
pub fn columns(s: &[u8]) -> usize
    ensures { result ≡ characters s.now }
{
    let mut count = 0;
    // kept: `filter` and `count` take twice the time (658 ns a thousand bytes, 332 so)
    for b in s {
        count += usize::from((*b < 128) | (191 < *b));
    }
    count
}

// Where the part that starts at `from` ends: before the first b, or with the line.
pub fn part_end(s: &[u8], from: usize, b: u8) -> usize
    ensures { result ≡ from + index_of b (drop from s.now) }
{
    let rest = behind(s, from);
    from + rest.iter().position(|x| *x == b).unwrap_or(rest.len())
}

// Where the line ends that starts at `from`: before its line feed, or with the text.
pub fn line_end(s: &[u8], from: usize) -> usize
    requires { from ≤ length s.now }
    ensures { LineEnds s.now from result }
{
    part_end(s, from, 10)
}

// Where a line's own bytes end: a carriage return at its end is none of them.
pub fn body_end(s: &[u8]) -> usize
    ensures { result ≡ body_end s.now }
{
    let n = s.len();
    if n == 0 {
        return 0;
    }
    if s[n - 1] == 13 {
        return n - 1;
    }
    n
}

// The next place from there on that is no blank.
pub fn skip(s: &[u8], from: usize) -> usize
    ensures { result ≡ skipped s.now from }
{
    let rest = behind(s, from);
    from + rest.iter().position(|b| *b != b' ').unwrap_or(rest.len())
}

// Where the blanks at the end start.
pub fn trimmed(s: &[u8]) -> usize
    ensures { result ≡ trimmed s.now }
{
    match s.iter().rposition(|b| *b != b' ') {
        Some(last) => last + 1,
        None => 0,
    }
}

// Whether there are blanks only, or nothing.
pub fn is_blank(s: &[u8]) -> bool
    ensures { result ≡ blank s.now }
{
    s.iter().all(|b| *b == b' ')
}

// Whether a byte is a control character, which no line may have.
pub fn has_controls(s: &[u8]) -> bool
    ensures { result ≡ controls s.now }
{
    s.iter().any(|b| *b < 32 || *b == 127)
}

// Puts bytes at a place, as far as there is room for them; gives the place behind them.
pub fn put(out: &mut [u8], at: usize, bytes: &[u8]) -> usize
    requires { at ≤ length out.old }
    ensures { Placed out.old at bytes.now out.new result }
{
    let n = bytes.len().min(out.len() - at);
    copy(bytes, 0, n, out, at);
    at + n
}

// The place so many bytes further, or the end where there is no room for them. A row of blanks has them written there then.
pub fn further(out: &[u8], at: usize, by: usize) -> usize
    requires { at ≤ length out.now }
    ensures { result ≡ at + min (length out.now - at) by }
{
    at + by.min(out.len() - at)
}

// How much is missing to a width.
pub fn missing(size: usize, width: usize) -> usize
    ensures { result ≡ width - size }
{
    width.saturating_sub(size)
}
