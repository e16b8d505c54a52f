// A row's remark, beside it or below it.
//
// A row with a remark is a Union. Its first arm has the remark beside the row, its second has the remark's words filled below, and both end in
// a Hardline.
ghost use Rattle.std.specs.Prelude.{◌≤◌, length};
ghost use Rattle.table.specs.Document.{Doc, union};
ghost use Rattle.words.specs.Build.{Is, Shares, Gives};
ghost use Rattle.row.specs.Remark.{remark, beside_doc, lower_doc, below_doc, ended_doc};

use buffer::parts::{front, put, skip, trimmed};
use build::{Counts, Made};
use table::{Indent, NodeNo};
use words::{BELOW, Shared, WRAPPED, filled, leaf};

// The remark beside the row, and a Hardline.
fn beside(
    c: Counts,
    table: &mut [u32],
    text: &mut [u8],
    shared: Shared,
    fixed: NodeNo,
    says: &[u8],
) -> Made
    requires { length says.now ≤ 200 }
    ensures { (d : Doc)
        → Shares c table.old text.old shared
        → Is c table.old text.old fixed d
        → Gives c table.old text.old
        result table.new text.new
        (beside_doc d says.now) }
{
    let mut space = [32u8; 256];
    let n = put(&mut space, 2, says);
    let (c, one) = leaf(c, table, text, front(&space, n))?;
    let nodes = [fixed.0, one.0, shared.hardline.0];
    c.concat(table, text, &nodes)
}

// The remark filled on lines of its own.
fn lower(c: Counts, table: &mut [u32], text: &mut [u8], shared: Shared, says: &[u8]) -> Made
    ensures { Shares c table.old text.old shared
        → Gives c table.old text.old
        result table.new text.new
        (lower_doc says.now) }
{
    let hardline = shared.hardline;
    let (c, words) = filled(c, table, text, shared, says, WRAPPED)?;
    let (c, lines) = c.append(table, text, hardline, words)?;
    c.nest(table, text, lines, Indent(BELOW), 0)
}

// The remark below the row, and a Hardline.
fn below(
    c: Counts,
    table: &mut [u32],
    text: &mut [u8],
    shared: Shared,
    fixed: NodeNo,
    says: &[u8],
) -> Made
    ensures { (d : Doc)
        → Shares c table.old text.old shared
        → Is c table.old text.old fixed d
        → Gives c table.old text.old
        result table.new text.new
        (below_doc d says.now) }
{
    let (c, one) = lower(c, table, text, shared, says)?;
    let nodes = [fixed.0, one.0, shared.hardline.0];
    c.concat(table, text, &nodes)
}

// The row with its remark, beside it if it fits there, else below.
fn remarked(
    c: Counts,
    table: &mut [u32],
    text: &mut [u8],
    shared: Shared,
    fixed: NodeNo,
    says: &[u8],
) -> Made
    requires { length says.now ≤ 200 }
    ensures { (d : Doc)
        → Shares c table.old text.old shared
        → Is c table.old text.old fixed d
        → Gives c table.old text.old
        result table.new text.new
        (union (beside_doc d says.now) (below_doc d says.now)) }
{
    let (c, first) = beside(c, table, text, shared, fixed, says)?;
    let (c, second) = below(c, table, text, shared, fixed, says)?;
    c.union(table, text, first, second)
}

// The row with the remark that starts there, if it has one, and a Hardline.
pub fn ended(
    c: Counts,
    table: &mut [u32],
    text: &mut [u8],
    shared: Shared,
    fixed: NodeNo,
    line: &[u8],
    from: usize,
) -> Made
    requires { length line.now ≤ 200 }
    ensures { (d : Doc)
        → Shares c table.old text.old shared
        → Is c table.old text.old fixed d
        → Gives c table.old text.old
        result table.new text.new
        (ended_doc d (remark line.now from)) }
{
    let hardline = shared.hardline;
    let end = trimmed(line);
    let from = skip(line, from);
    if end <= from {
        return c.append(table, text, fixed, hardline);
    }
    remarked(c, table, text, shared, fixed, &line[from..end])
}
