// The engine: `run` lays a valid table out, node after node; `best` tells its end alone.
//
// The node due is visited, then what waits is taken up: ends of annotations and of trials, until a node is due again or nothing waits.
// Not an entry point of the library: the crate layout tests sizes and the table before it comes here, and clears the buffers after it.

// kept: table, text, out, events and work are lent apart, here and in layout and why, as document 01 has them; three are `&mut`.

#![tactic(auto)]

ghost use Rattle.render.specs.Visit.{Start, Ready, Visited, Held, Came};
ghost use Rattle.render.specs.TakeUp.{Rises, TakenUp, TurnedUp};
ghost use Rattle.render.specs.Best.{Laid, RanTo};

use lay::{State, Stopped, Turn};
use page::Page;
use table::{Column, Indent, NodeNo, Refusal};
use waiting::{Due, Mode, Tag};

// The end of a layout: the steps left, the bytes and the events used.
#[derive(Clone, Copy)]
pub struct End {
    pub left: u32,
    pub used: u32,
    pub events: u32,
}

// How a run ended; or the state of the layout and the node due in it, where the steps equal the limit.
#[derive(Clone, Copy)]
pub enum Ran {
    Ended(Result<End, Stopped>),
    AtLimit(State, Due),
}

// A node due, and the steps left.
#[derive(Clone, Copy)]
pub struct Nested {
    pub left: u32,
    pub due: Due,
}

// Nests in a row are gone down from the node due, as far as there are steps.
fn nests_down(table: &[u32], steps: u32, start: Due) -> Nested
    requires { Held table.now start }
    ensures { Came table.now steps start result }
{
    let mut due = start;
    for left in (0..steps).rev() {
        let Some(node) = fitting::next_in_row(table, table::NEST, due.node) else {
            return Nested {
                left: left + 1,
                due,
            };
        };
        let at = (due.node.0 as usize) * 4;
        let indent = lay::nest_by(due.indent, table[at + 2], table[at + 3]);
        due = Due {
            node,
            indent,
            ..due
        };
    }
    Nested { left: 0, due }
}

// The node due is visited. A word is read where it is used: read all at once they would take the registers of others.
fn visit(
    table: &[u32],
    text: &[u8],
    out: &mut [u8],
    events: &mut [u32],
    work: &mut [u32],
    width: u32,
    s: State,
    due: Due,
) -> Result<Turn, Stopped>
    requires { Ready table.now text.now out.old events.old work.old width s due }
    ensures { Visited table.now text.now
        out.old events.old work.old width s due
        result out.new events.new work.new }
{
    let at = (due.node.0 as usize) * 4;
    let kind = table[at];
    let a = table[at + 1];
    match kind {
        table::NIL => Ok(Turn::Done(s)),
        table::APPEND => lay::lay_append(work, s, due, a, table[at + 2]),
        table::GROUP => lay::lay_group(table, work, width, s, due, a),
        table::FLAT_ALT => if due.mode.0 == 0 {
            Ok(Turn::Go(s, lay::child_of(due, a)))
        } else {
            Ok(Turn::Go(s, lay::child_of(due, table[at + 2])))
        },
        table::NEST => {
            let child = Due {
                node: NodeNo(a),
                indent: lay::nest_by(due.indent, table[at + 2], table[at + 3]),
                ..due
            };
            let row = nests_down(table, s.left, child);
            Ok(Turn::Go(
                State {
                    left: row.left,
                    ..s
                },
                row.due,
            ))
        }
        table::HARDLINE => lay::lay_hardline(out, work, s, due.indent),
        table::TEXT => lay::lay_text(text, out, width, s, a, table[at + 2], table[at + 3]),
        table::ANNOTATED => lay::lay_annotated(events, work, s, due, a, table[at + 2]),
        table::UNION => lay::lay_union(work, s, due, a, table[at + 2]),
        table::ALIGN => {
            let child = Due {
                node: NodeNo(a),
                indent: Indent::from(s.page.column),
                ..due
            };
            Ok(Turn::Go(s, child))
        }
        _ => lay::lay_fail(work, s),
    }
}

// Ends are taken up, until a node is due or nothing waits. A trial whose arm is done is given up if a Text laid in it ended past width.
// kept: the state's own depth counts down; a `for` would count it a second time.
fn take_up_ends(events: &mut [u32], work: &[u32], state: State) -> Result<Turn, Stopped>
    requires { Rises state events.old work.now }
    ensures { TakenUp state events.old work.now result events.new }
{
    let mut s = state;
    while 0 < s.depth {
        let d = s.depth - 1;
        match waiting::tag_at(work, d) {
            Tag::Node => {
                s.depth = d;
                return Ok(Turn::Go(s, waiting::due_at(work, d)));
            }
            Tag::Trial => {
                let saved = waiting::saved_at(work, d);
                if s.past != 0 {
                    return Ok(Turn::Go(lay::restored(s, saved, d), waiting::due_at(work, d)));
                }
                s.past = saved.past;
            }
            Tag::Closing => {
                let now = s.page;
                let Some(page) = page::note_event(events, now, 0, waiting::label_at(work, d)) else {
                    return Err(Stopped {
                        why: Refusal::NoEvents,
                        place: waiting::node_at(work, d),
                        left: s.left,
                    });
                };
                s.page = page;
            }
        }
        s.depth = d;
    }
    Ok(Turn::Done(s))
}

// A node is done: a node on top is due at once, as mostly; else ends are taken up first.
// kept: the first arm of `take_up_ends` again, for speed (docs/PERFORMANCE.md).
fn take_up(events: &mut [u32], work: &[u32], state: State) -> Result<Turn, Stopped>
    requires { Rises state events.old work.now }
    ensures { TakenUp state events.old work.now result events.new }
{
    if 0 < state.depth {
        let d = state.depth - 1;
        if let Tag::Node = waiting::tag_at(work, d) {
            return Ok(Turn::Go(State { depth: d, ..state }, waiting::due_at(work, d)));
        }
    }
    take_up_ends(events, work, state)
}

// A visit, and what waits after it.
fn turn(
    table: &[u32],
    text: &[u8],
    out: &mut [u8],
    events: &mut [u32],
    work: &mut [u32],
    width: u32,
    s: State,
    due: Due,
) -> Result<Turn, Stopped>
    requires { Ready table.now text.now out.old events.old work.old width s due }
    ensures { TurnedUp table.now text.now
        out.old events.old work.old width s due
        result out.new events.new work.new }
{
    match visit(table, text, out, events, work, width, s, due)? {
        Turn::Go(on, next) => Ok(Turn::Go(on, next)),
        Turn::Done(on) => take_up(events, work, on),
    }
}

// The run over a valid table of so many nodes: the root at indentation 0, broken.
// kept: no index is counted; what is due next comes out of the turn before.
pub fn run(
    table: &[u32],
    text: &[u8],
    out: &mut [u8],
    events: &mut [u32],
    work: &mut [u32],
    width: u32,
    limit: u32,
    nodes: u32,
) -> Ran
    requires { Start table.now text.now out.old events.old work.old width nodes }
    ensures { RanTo table.now text.now out.old events.old width limit nodes
        result out.new events.new work.new }
{
    let mut due = Due {
        node: NodeNo(nodes - 1),
        indent: Indent(0),
        mode: Mode(0),
    };
    let mut s = State {
        page: Page {
            column: Column(0),
            used: 0,
            events: 0,
        },
        left: limit,
        past: 0,
        depth: 0,
    };
    loop {
        if s.left == 0 {
            return Ran::AtLimit(s, due);
        }
        s.left = s.left - 1;
        match turn(table, text, out, events, work, width, s, due) {
            Ok(Turn::Go(on, next)) => {
                due = next;
                s = on;
            }
            Ok(Turn::Done(on)) => {
                return Ran::Ended(Ok(End {
                    left: on.left,
                    used: on.page.used as u32,
                    events: on.page.events as u32,
                }));
            }
            Err(stopped) => return Ran::Ended(Err(stopped)),
        }
    }
}

// How the run ended, whatever was due.
pub fn best(
    table: &[u32],
    text: &[u8],
    out: &mut [u8],
    events: &mut [u32],
    work: &mut [u32],
    width: u32,
    limit: u32,
    nodes: u32,
) -> Result<End, Stopped>
    requires { Start table.now text.now out.old events.old work.old width nodes }
    ensures { Laid table.now text.now out.old events.old width limit nodes
        result out.new events.new }
{
    match run(table, text, out, events, work, width, limit, nodes) {
        Ran::Ended(end) => end,
        Ran::AtLimit(_, due) => Err(Stopped {
            why: Refusal::NoSteps,
            place: due.node,
            left: 0,
        }),
    }
}
