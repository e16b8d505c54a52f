// Texts and words as nodes, for rows, headings and the footer of a sheet: a Text of bytes, and a text cut at its blanks and filled by softlines.
// start.rt: the nodes that all share. Only `together` has a `requires`.

// kept: counts, table and text are lent apart here and in row, footer and chest; the reason stands at build's Counts.

#![tactic(auto)]

ghost use Rattle.std.specs.Prelude.{◌≡◌, ◌<◌, ◌≤◌, length};
ghost use Rattle.table.specs.Document.{Doc};
ghost use Rattle.build.specs.Documents.{append_doc};
ghost use Rattle.words.specs.Words.{ends, together};
ghost use Rattle.words.specs.Documents.{leaf_doc, filled_doc};
ghost use Rattle.words.specs.Build.{Is, Shares, Gives};

use buffer::parts::{columns, skip};
use build::{Counts, Made, Why};
use layout::DEFAULT_WIDTH;
use table::{Column, NodeNo};

pub mod start;

// The nodes that all rows and the footer share.
#[derive(Clone, Copy)]
pub struct Shared {
    pub none: NodeNo,
    pub hardline: NodeNo,
    pub line: NodeNo,
    pub softline: NodeNo,
}

// The strip's columns, how far a text is indented that goes below its row or heading, and how many columns that leaves; specs/Widths.antt.
pub const WIDTH: usize = DEFAULT_WIDTH as usize;

pub const BELOW: u32 = 4;

pub const WRAPPED: usize = WIDTH - BELOW as usize;

// Words stay together up to so many columns: a place to break costs three nodes.
const TOGETHER: usize = 12;

// Whether no more goes into so many columns of words: they are enough and a blank follows, or they are all that there is room for.
fn ends(wide: usize, b: u8, most: usize) -> bool
    ensures { result ≡ ends most wide b }
{
    if most <= wide {
        return true;
    }
    (TOGETHER <= wide) & (b == b' ')
}

// Where the words end that stay together: at a blank once they have enough columns; else, before they have more than
// `most`, at the last blank, so that a word is cut only if it has no room on a line of its own.
fn together(s: &[u8], most: usize) -> usize
    requires { 0 < length s.now }
    ensures { (result ≡ together most s.now)
        × (0 < result)
        × (result ≤ length s.now) }
{
    let mut wide: usize = 1;
    let mut blank = None;
    for i in 1..s.len() {
        let b = s[i];
        let goes_on = (128 <= b) & (b <= 191);
        if goes_on {
            continue;
        }
        if b == b' ' {
            blank = Some(i);
        }
        if ends(wide, b, most) {
            return blank.unwrap_or(i);
        }
        wide += 1;
    }
    s.len()
}

// A Text of these bytes, a column for each character.
pub fn leaf(c: Counts, table: &mut [u32], text: &mut [u8], bytes: &[u8]) -> Made
    ensures { Gives c table.old text.old
        result table.new text.new
        (leaf_doc bytes.now) }
{
    let wide = columns(bytes);
    if 65536 < wide {
        return Err(Why::Bytes);
    }
    c.text(table, text, bytes, Column(wide as u32))
}

// What stands, what comes between, and one Text more.
pub fn add_word(
    c: Counts,
    table: &mut [u32],
    text: &mut [u8],
    n: NodeNo,
    between: NodeNo,
    bytes: &[u8],
) -> Made
    ensures { (d e : Doc)
        → Is c table.old text.old n d
        → Is c table.old text.old between e
        → Gives c table.old text.old
        result table.new text.new
        (append_doc (append_doc d e) (leaf_doc bytes.now)) }
{
    let (c, n) = c.append(table, text, n, between)?;
    let (c, word) = leaf(c, table, text, bytes)?;
    c.append(table, text, n, word)
}

// The words of a text, filled by softlines on lines of so many columns; of none the shared Nil.
pub fn filled(
    c: Counts,
    table: &mut [u32],
    text: &mut [u8],
    shared: Shared,
    s: &[u8],
    most: usize,
) -> Made
    ensures { Shares c table.old text.old shared
        → Gives c table.old text.old
        result table.new text.new
        (filled_doc most s.now) }
{
    let softline = shared.softline;
    let mut c = c;
    let mut n = shared.none;
    let mut between = n;
    let mut at = skip(s, 0);
    // kept: no index is counted, a step goes past whole words and the blanks behind them
    while at < s.len() {
        let size = together(&s[at..], most);
        let end = at + size;
        let (next, joined) = add_word(c, table, text, n, between, &s[at..end])?;
        c = next;
        n = joined;
        between = softline;
        at = skip(s, end);
    }
    Ok((c, n))
}
