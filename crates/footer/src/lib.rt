// The footer: an empty line, then the notes out of tolerance, or that none is. A sheet without rows has none.
//
// The notes are a block: behind their heading on one line where they fit, else filled below it.

#![tactic(auto)]

ghost use Rattle.std.specs.Prelude.{◌≡◌, length, map};
ghost use Rattle.table.specs.Document.{Doc, nil};
ghost use Rattle.build.specs.Documents.{softline_doc, intersperse_doc};
ghost use Rattle.buffer.specs.Parts.{lines};
ghost use Rattle.results.specs.Standing.{out_notes};
ghost use Rattle.words.specs.Documents.{leaf_doc};
ghost use Rattle.footer.specs.Documents.{within_doc, comma_doc, headed_doc, told_doc, footer_doc};
ghost use Rattle.words.specs.Build.{Is, Shares, Gives};

use append::put_digits;
use block::Block;
use buffer::parts::{behind, front, put};
use build::{Counts, Made};
use results::tolerance::{count, next_out};
use table::{Indent, NodeNo};
use words::{BELOW, Shared, add_word, leaf};

// That so many pallets are all within tolerance.
fn all_within(c: Counts, table: &mut [u32], text: &mut [u8], rows: usize) -> Made
    ensures { Gives c table.old text.old
        result table.new text.new
        (within_doc rows) }
{
    if rows == 1 {
        return leaf(c, table, text, b"The pallet is within tolerance");
    }
    // kept: arrays and how much of them is written: the project has no heap
    let mut digits = [0u8; 20];
    let first = put_digits(&mut digits, rows);
    let mut space = [32u8; 64];
    let n = put(&mut space, 0, b"All ");
    let n = put(&mut space, n, behind(&digits, first));
    let n = put(&mut space, n, b" pallets are within tolerance");
    leaf(c, table, text, front(&space, n))
}

// A comma, and a place to break.
fn comma(c: Counts, table: &mut [u32], text: &mut [u8], softline: NodeNo) -> Made
    ensures { Is c table.old text.old softline softline_doc
        → Gives c table.old text.old
        result table.new text.new
        comma_doc }
{
    let (c, n) = leaf(c, table, text, b",")?;
    c.append(table, text, n, softline)
}

// The notes out of tolerance, the comma between them; of none the shared Nil.
// kept: no index is counted; where to go on comes out of what was found.
fn notes(
    c: Counts,
    table: &mut [u32],
    text: &mut [u8],
    none: NodeNo,
    comma: NodeNo,
    input: &[u8],
) -> Made
    ensures { Is c table.old text.old none nil
        → Is c table.old text.old comma comma_doc
        → Gives c table.old text.old
        result table.new text.new
        (intersperse_doc (map leaf_doc (out_notes (lines input.now))) comma_doc) }
{
    let mut c = c;
    let mut n = none;
    let mut between = none;
    let mut at = 0;
    while let Some(out) = next_out(input, at) {
        let (after, joined) = add_word(c, table, text, n, between, &input[out.start..out.note])?;
        c = after;
        n = joined;
        between = comma;
        at = out.end + 1;
    }
    Ok((c, n))
}

// The block of a heading and these notes, which start on a line of their own where they don't fit behind it.
fn blocked(c: Counts, table: &mut [u32], text: &mut [u8], shared: Shared, notes: NodeNo) -> Made
    ensures { (d : Doc)
        → Shares c table.old text.old shared
        → Is c table.old text.old notes d
        → Gives c table.old text.old
        result table.new text.new
        (headed_doc d) }
{
    let none = shared.none;
    let line = shared.line;
    let (c, body) = c.append(table, text, line, notes)?;
    let (c, heading) = leaf(c, table, text, b"Out of tolerance:")?;
    let prefixes = [heading.0];
    let suffixes = [none.0];
    let nests = [true];
    let block = Block {
        body: body,
        amount: Indent(BELOW),
        way: 0,
    };
    block.format(c, table, text, &prefixes, &suffixes, &nests)
}

// The block that names the notes out of tolerance.
fn named(c: Counts, table: &mut [u32], text: &mut [u8], shared: Shared, input: &[u8]) -> Made
    ensures { Shares c table.old text.old shared
        → Gives c table.old text.old
        result table.new text.new
        (headed_doc (intersperse_doc (map leaf_doc (out_notes (lines input.now))) comma_doc)) }
{
    let none = shared.none;
    let softline = shared.softline;
    let (c, between) = comma(c, table, text, softline)?;
    let (c, n) = notes(c, table, text, none, between, input)?;
    blocked(c, table, text, shared, n)
}

// What the footer says of so many rows, so many of them out of tolerance.
fn said(
    c: Counts,
    table: &mut [u32],
    text: &mut [u8],
    shared: Shared,
    input: &[u8],
    rows: usize,
    out: usize,
) -> Made
    requires { out ≡ length (out_notes (lines input.now)) }
    ensures { Shares c table.old text.old shared
        → Gives c table.old text.old
        result table.new text.new
        (told_doc rows (out_notes (lines input.now))) }
{
    if out == 0 {
        return all_within(c, table, text, rows);
    }
    named(c, table, text, shared, input)
}

// An empty line, the footer of an input and a Hardline; of an input without rows the shared Nil.
pub fn footer(c: Counts, table: &mut [u32], text: &mut [u8], shared: Shared, input: &[u8]) -> Made
    ensures { Shares c table.old text.old shared
        → Gives c table.old text.old
        result table.new text.new
        (footer_doc (lines input.now)) }
{
    let none = shared.none;
    let hardline = shared.hardline;
    let tally = count(input);
    if tally.rows == 0 {
        return Ok((c, none));
    }
    let (c, n) = said(c, table, text, shared, input, tally.rows, tally.out)?;
    let nodes = [hardline.0, n.0, hardline.0];
    c.concat(table, text, &nodes)
}
