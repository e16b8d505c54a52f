// A row: note, force and pluck point in columns, the remark beside them or below (remark.rt), and the mark. A row out of tolerance is
// Annotated with the label of what is out.

#![tactic(auto)]

ghost use Rattle.std.specs.Prelude.{◌≡◌, ◌≤◌, length, Ok};
ghost use Rattle.results.specs.Pallets.{parsed};
ghost use Rattle.results.specs.declared.Line.TheVariants.{Row};
ghost use Rattle.buffer.specs.Placing.{Adds};
ghost use Rattle.words.specs.Build.{Shares, Gives};
ghost use Rattle.row.specs.Fields.{right, fields};
ghost use Rattle.row.specs.Documents.{row_doc};

use buffer::parts::{behind, columns, front, further, missing, part_end, put};
use build::{Counts, Made};
use remark::ended;
use results::Pallet;
use results::tolerance::label;
use words::{Shared, leaf};

mod remark;

// The columns of a row's fields: the note from the left, force and pluck point to the right.
const NOTE: usize = 6;

const FORCE: usize = 4;

const PLUCK: usize = 6;

// Puts the field that starts there so that it ends in a column, and what it is measured in behind it.
fn put_field(out: &mut [u8], at: usize, s: &[u8], width: usize, unit: &[u8]) -> usize
    requires { at ≤ length out.old }
    ensures { (Adds out.old at (right s.now width unit.now) out.new result)
        × (result ≤ length out.new) }
{
    let size = part_end(s, 0, b';');
    let blanks = missing(size, width);
    let at = further(out, at, blanks);
    let at = put(out, at, front(s, size));
    put(out, at, unit)
}

// Puts a row's note, force and pluck point, as the line has them, between blanks.
fn put_row(out: &mut [u8], line: &[u8], p: Pallet) -> usize
    ensures { Adds out.old 0 (fields line.now p) out.new result }
{
    let note = front(line, part_end(line, 0, b';'));
    let blanks = missing(columns(note), NOTE);
    let at = put(out, 0, note);
    let at = further(out, at, blanks);
    let at = put_field(out, at, behind(line, p.force), FORCE, b" g");
    put_field(out, at, behind(line, p.pluck), PLUCK, b" mm")
}

// A row with its mark, if it is out of tolerance.
pub fn row(
    c: Counts,
    table: &mut [u32],
    text: &mut [u8],
    shared: Shared,
    line: &[u8],
    p: Pallet,
) -> Made
    requires { parsed line.now ≡ Ok (Row p) }
    ensures { Shares c table.old text.old shared
        → Gives c table.old text.old
        result table.new text.new
        (row_doc line.now p) }
{
    // kept: an array and how much of it is written, here and in remark.rt: the project has no heap
    let mut space = [32u8; 64];
    let n = put_row(&mut space, line, p);
    let (c, fixed) = leaf(c, table, text, front(&space, n))?;
    let (c, n) = ended(c, table, text, shared, fixed, line, p.remark)?;
    let Some(mark) = label(p.grams, p.tenths) else {
        return Ok((c, n));
    };
    c.annotate(table, text, n, u32::from(mark))
}
