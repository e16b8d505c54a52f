// The fit test: whether a group's child goes flat.
//
// Groups in a row are gone down first. Then an inner walk goes down a node and an outer walk over the waiting nodes; both are left by label at
// the first yes or no.
// Not an entry point of the library: `fitting` asks a valid table and a work area of its caller.

#![tactic(auto)]

ghost use Rattle.std.specs.Prelude.{◌≡◌, ◌+◌, ◌*◌, ◌≤◌, ◌<◌, length, get_or};
ghost use Rattle.table.specs.Node.{node_at};
ghost use Rattle.table.specs.Sound.{Sound};
ghost use Rattle.fitting.specs.Fitting.{Stepped, Fitting, Fitted, Known, Below, NextInRow};

mod fit;

pub use fit::Fit;
use table::{Column, NodeNo};
use waiting::{Mode, Tag};

// Where one visit leads: down to a child, with so many nodes left to walk after it; past the node, at a column; or to a yes or a no.
#[derive(Clone, Copy)]
pub enum Step {
    Down(NodeNo, usize),
    Done(Column),
    Fits,
    Wide,
}

// A visit. Append, Group, Nest, Align and Annotated are walked through; Union takes its second arm; FlatAlt goes by mode.
fn look(
    table: &[u32],
    work: &mut [u32],
    width: u32,
    node: NodeNo,
    mode: Mode,
    count: usize,
    column: Column,
) -> Step
    requires node_in_bounds { node.0 * 4 + 4 ≤ length table.now }
    requires sound { Sound 65536 node.0 (node_at table.now node.0) }
    requires in_bounds { (16384 ≤ length work.old) × (count ≤ 1024) × (column.0 ≤ 65536) }
    ensures { Stepped table.now width node.0 mode.0 count column.0 work.old result work.new }
{
    let at = (node.0 as usize) * 4;
    let kind = table[at];
    let a = table[at + 1];
    let b = table[at + 2];
    match kind {
        table::NIL => Step::Done(column),
        table::APPEND => {
            waiting::push_fit(work, count, NodeNo(b));
            Step::Down(NodeNo(a), count + 1)
        }
        table::GROUP | table::NEST | table::ANNOTATED | table::ALIGN => Step::Down(
            NodeNo(a),
            count,
        ),
        table::FLAT_ALT => if mode.0 == 0 {
            Step::Down(NodeNo(a), count)
        } else {
            Step::Down(NodeNo(b), count)
        },
        table::HARDLINE => if mode.0 == 0 { Step::Fits } else { Step::Wide },
        table::TEXT => {
            let end = column.0 + table[at + 3];
            if end <= width {
                Step::Done(Column(end))
            } else {
                Step::Wide
            }
        }
        table::UNION => Step::Down(NodeNo(b), count),
        _ => Step::Wide,
    }
}

// The child of a node of this kind, where it stands next to it in the table. Its place is known before the child is read, so that a long row
// doesn't wait for its reads.
pub fn next_in_row(table: &[u32], kind: u32, node: NodeNo) -> Option<NodeNo>
    requires node_in_bounds { node.0 * 4 + 4 ≤ length table.now }
    requires child_below { get_or table.now (node.0 * 4) 0 ≡ kind → get_or table.now (node.0 * 4 + 1) 0 < node.0 }
    ensures { NextInRow table.now kind node.0 result }
{
    let at = (node.0 as usize) * 4;
    if table[at] == kind && table[at + 1] + 1 == node.0 {
        Some(NodeNo(node.0 - 1))
    } else {
        None
    }
}

// How many Groups stand in a row from a node down, as far as there are steps.
fn groups_down(table: &[u32], node: NodeNo, steps: u32) -> u32
    requires { Known table.now node.0 }
    ensures { Below table.now node.0 steps result }
{
    let mut here = node;
    for down in 0..steps {
        let Some(next) = next_in_row(table, table::GROUP, here) else {
            return down;
        };
        here = next;
    }
    steps
}

// A node, flat; when that is done the waiting nodes in order, all read as broken. Nothing left says flat; or the node that is due when no step
// is left.
// kept: two loops left by label that yield yes or no: document 01 names the form.
fn walked(
    table: &[u32],
    work: &mut [u32],
    width: u32,
    child: NodeNo,
    depth: usize,
    column: Column,
    left: u32,
) -> Result<Fit, NodeNo>
    requires { Fitting table.now work.old width child.0 depth column.0 }
    ensures { Fitted table.now width child.0 depth column.0 left work.old result work.new }
{
    let mut node = NodeNo(child.0);
    let mut mode = Mode(1);
    let mut count: usize = 0;
    let mut at = depth;
    let mut col = Column(column.0);
    let mut steps = left;
    let fits: bool = 'waiting: loop {
        'down: loop {
            if steps == 0 {
                return Err(node);
            }
            steps -= 1;
            match look(table, work, width, node, mode, count, col) {
                Step::Down(next, more) => {
                    node = next;
                    count = more;
                }
                Step::Done(end) => {
                    col = end;
                    if count == 0 {
                        break 'down;
                    }
                    count -= 1;
                    node = waiting::fit_node(work, count);
                }
                Step::Fits => break 'waiting true,
                Step::Wide => break 'waiting false,
            }
        }
        let Some(next) = waiting::nearest(work, at, Tag::Node) else {
            break 'waiting true;
        };
        at = next;
        node = waiting::node_at(work, at);
        mode = Mode(0);
    };
    let left = steps;
    if fits {
        Ok(Fit {
            mode: Mode(1),
            left,
        })
    } else {
        Ok(Fit {
            mode: Mode(0),
            left,
        })
    }
}

// Whether a group's child fits, read flat, with what waits after it: then it goes flat, else broken. Or the node that is due when no step is left.
pub fn fitting(
    table: &[u32],
    work: &mut [u32],
    width: u32,
    child: NodeNo,
    depth: usize,
    column: Column,
    left: u32,
) -> Result<Fit, NodeNo>
    requires { Fitting table.now work.old width child.0 depth column.0 }
    ensures { Fitted table.now width child.0 depth column.0 left work.old result work.new }
{
    let down = groups_down(table, child, left);
    walked(
        table,
        work,
        width,
        NodeNo(child.0 - down),
        depth,
        column,
        left - down,
    )
}
