// Summaries of nodes: how far a fit test comes through each of them, in either mode, found once for each node whatever it unfolds to; and by
// them the first node below a given one that breaks a group or ends its fit test, found on one way down. Both take time that grows with the
// nodes of the table: a node that is shared is never read twice on the way.
//
// A summary is one word: 0 where no Text is passed; one more than the columns of the Texts passed; NEVER where the walk doesn't come through.
// kept: a word, for speed: why for a Group over 1,000 joins takes 70,000 instructions a call, with an enum 133,000 (callgrind).
// Nothing here is an entry point of the library: each function says what it asks of its caller.

#![tactic(auto)]

ghost use Rattle.std.specs.Prelude.{◌≡◌, ◌+◌, ◌*◌, ◌/◌, ◌≤◌, ◌<◌, length, get_or};
ghost use Rattle.summary.specs.Promise.{place_of, join_words, Room, Says, Reads, Below, Summarized, Asked, Leads, Stepped, met_of};

use table::{
    ALIGN, ANNOTATED, APPEND, Column, FLAT_ALT, GROUP, HARDLINE, NEST, NIL, NodeNo, TEXT, UNION,
    Words,
};

// A Fail or a Hardline stops the walk, or its Texts have more columns than any width.
const NEVER: u32 = 65538;

// Why a group goes broken or flat: the first node that breaks its fit test, with the column reached there, for a Text at its end; or what ends it
// flat.
#[derive(Clone, Copy)]
pub enum Reason {
    AtFail(NodeNo, Column),
    HardlineInside(NodeNo, Column),
    TextPast(NodeNo, Column),
    NothingLeft,
    HardlineAfter(NodeNo),
}

// One step of the way down: to a node below, from a column; or through, to a column.
#[derive(Clone, Copy)]
enum Step {
    Down(NodeNo, Column),
    Through(Column),
}

// ---- the summaries

// A node's summary, broken or flat.
fn summary_at(memo: &[u32], node: u32, flat: bool) -> u32
    requires { (node < 1024) × (node * 2 + 2 ≤ length memo.now) }
    ensures { result ≡ get_or memo.now (place_of node flat) 0 }
{
    let at = (node as usize) * 2;
    if flat { memo[at + 1] } else { memo[at] }
}

// One part after another.
fn joined(first: u32, second: u32) -> u32
    requires { (first ≤ 65538) × (second ≤ 65538) }
    ensures { result ≡ join_words first second }
{
    if first == 0 {
        second
    } else if second == 0 {
        first
    } else if first + second <= NEVER {
        first + second - 1
    } else {
        NEVER
    }
}

// A node's words.
fn words_at(table: &[u32], node: u32) -> Words
    requires { (node < 1024) × (node * 4 + 4 ≤ length table.now) }
    ensures { Reads table.now node result }
{
    let at = (node as usize) * 4;
    Words {
        kind: table[at],
        a: table[at + 1],
        b: table[at + 2],
        c: table[at + 3],
    }
}

// The summary of a node, by those of the nodes below it.
fn node_summary(table: &[u32], memo: &[u32], node: u32, flat: bool) -> u32
    requires { Below table.now memo.now node }
    ensures { Says table.now node flat result }
{
    let w = words_at(table, node);
    match w.kind {
        NIL => 0,
        APPEND => joined(summary_at(memo, w.a, flat), summary_at(memo, w.b, flat)),
        GROUP | NEST | ANNOTATED | ALIGN => summary_at(memo, w.a, flat),
        FLAT_ALT if flat => summary_at(memo, w.b, flat),
        FLAT_ALT => summary_at(memo, w.a, flat),
        TEXT => w.c + 1,
        UNION => summary_at(memo, w.b, flat),
        _ => NEVER,
    }
}

// The summaries of all nodes, from node 0 up, two words each: broken, then flat.
// Not inlined, as first_reason isn't: within why their pointers lie on the stack, 74,000 instructions a call in place of 70,000.
#[inline(never)]
pub fn summarize(table: &[u32], memo: &mut [u32])
    requires { Room table.now memo.old (length table.now / 4) }
    ensures { Summarized table.now memo.old (length table.now / 4) memo.new }
{
    let nodes = table.len() / 4;
    for n in 0..nodes {
        let broken = node_summary(table, memo, n as u32, false);
        let flat = node_summary(table, memo, n as u32, true);
        memo[n * 2] = broken;
        memo[n * 2 + 1] = flat;
    }
}

// ---- one way down

// A step: into the second part of a join if the walk comes through the first, else into the first.
fn step_down(
    table: &[u32],
    memo: &[u32],
    node: NodeNo,
    flat: bool,
    column: Column,
    width: u32,
) -> Result<Step, Reason>
    requires { Asked table.now memo.now node.0 column.0 width (length table.now / 4) }
    ensures { Stepped table.now node.0 flat column.0 width result }
{
    let w = words_at(table, node.0);
    match w.kind {
        NIL => Ok(Step::Through(column)),
        APPEND => {
            let first = summary_at(memo, w.a, flat);
            if first == 0 {
                return Ok(Step::Down(NodeNo(w.b), column));
            }
            let end = Column(column.0 + (first - 1));
            if end.0 <= width {
                Ok(Step::Down(NodeNo(w.b), end))
            } else {
                Ok(Step::Down(NodeNo(w.a), column))
            }
        }
        GROUP | NEST | ANNOTATED | ALIGN => Ok(Step::Down(NodeNo(w.a), column)),
        FLAT_ALT if flat => Ok(Step::Down(NodeNo(w.b), column)),
        FLAT_ALT => Ok(Step::Down(NodeNo(w.a), column)),
        HARDLINE if flat => Err(Reason::HardlineInside(node, column)),
        HARDLINE => Err(Reason::HardlineAfter(node)),
        TEXT => {
            let end = Column(column.0 + w.c);
            if end.0 <= width {
                Ok(Step::Through(end))
            } else {
                Err(Reason::TextPast(node, end))
            }
        }
        UNION => Ok(Step::Down(NodeNo(w.b), column)),
        _ => Err(Reason::AtFail(node, column)),
    }
}

// Where the walk down a node leads, read flat or broken from a column: through it, to a column; or to a reason.
// kept: no index is counted; the next node comes out of the step before.
#[inline(never)]
pub fn first_reason(
    table: &[u32],
    memo: &[u32],
    node: NodeNo,
    flat: bool,
    column: Column,
    width: u32,
) -> Result<Column, Reason>
    requires { Asked table.now memo.now node.0 column.0 width (length table.now / 4) }
    ensures { Leads table.now node.0 flat column.0 width (met_of result) }
{
    let mut down = node;
    let mut col = column;
    loop {
        match step_down(table, memo, down, flat, col, width)? {
            Step::Down(next, end) => {
                down = next;
                col = end;
            }
            Step::Through(end) => return Ok(end),
        }
    }
}
