// Why a Group met broken in layout goes broken or flat: the first node that its fit test meets that breaks it or ends it, its child first, read
// flat, then the waiting nodes in order, read broken. Found by the summaries of the nodes, in time that grows with the nodes and what waits.
//
// The summaries stand in the work area, past what waits and the fit test's nodes.
// Nothing here is an entry point of the library: each function says what it asks of its caller.

#![tactic(auto)]

ghost use Rattle.std.specs.Prelude.{◌/◌, length};
ghost use Rattle.reasons.specs.Promise.{Lent, Filled, Met, Asked, After, Because};

use summary::Reason;
use table::{Column, NodeNo};
use waiting::Tag;

// Where the summaries start.
const MEMO: usize = 12288;

// The summaries of all nodes, into the work area.
pub fn fill(table: &[u32], work: &mut [u32])
    requires { Lent table.now work.old (length table.now / 4) }
    ensures { Filled table.now work.old (length table.now / 4) work.new }
{
    summary::summarize(table, &mut work[MEMO..]);
}

// The waiting nodes in order, all read broken; nothing left ends flat.
// kept: no index is counted; which entry is next comes out of the search.
fn after(table: &[u32], work: &[u32], depth: usize, column: Column, width: u32) -> Reason
    requires { Met table.now work.now depth column.0 width (length table.now / 4) }
    ensures { After table.now work.now depth column.0 width result }
{
    let mut d = depth;
    let mut end = column;
    loop {
        let Some(next) = waiting::nearest(work, d, Tag::Node) else {
            return Reason::NothingLeft;
        };
        d = next;
        let node = waiting::node_at(work, d);
        match summary::first_reason(table, &work[MEMO..], node, false, end, width) {
            Ok(reached) => end = reached,
            Err(reason) => return reason,
        }
    }
}

// A Group with this child, met broken in layout at a column, where so many entries wait.
pub fn reason(
    table: &[u32],
    work: &[u32],
    depth: usize,
    child: NodeNo,
    column: Column,
    width: u32,
) -> Reason
    requires { Asked table.now work.now depth child.0 column.0 width (length table.now / 4) }
    ensures { Because table.now work.now depth child.0 column.0 width result }
{
    match summary::first_reason(table, &work[MEMO..], child, true, column, width) {
        Ok(end) => after(table, work, depth, end, width),
        Err(reason) => reason,
    }
}
