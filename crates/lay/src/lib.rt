// What the engine does at a node of each kind: one function a kind, over the state of a layout on its way.
//
// The node due stays in locals; what waits stands in the work area (crate waiting), bytes and events on the page (crate page). Trials need no
// second buffer: their bytes and events stand on the page, and it is put back when the trial is given up.
// Nothing here is an entry point of the library: each function says what it asks of its caller.

#![tactic(auto)]

ghost use Rattle.std.specs.Prelude.{◌≡◌, false, ◌||◌, ◌∷◌, ◌+◌, ◌*◌, ◌/◌, ◌≤◌, ◌<◌, length, take, drop, ltb};
ghost use Rattle.table.specs.Node.{way_of};
ghost use Rattle.rules.specs.Call.{event_words};
ghost use Rattle.rules.specs.Layout.{nested, wrote, fed};
ghost use Rattle.machine.specs.Turn.{give_up, grouped, on as going, event as noted};
ghost use Rattle.machine.specs.Waiting.{node as waits, trial as tries, closing, save, next_indent};
ghost use Rattle.waiting.specs.Area.{area_words, due_of};
ghost use Rattle.waiting.specs.Stack.{mode_of, flag_of, stack_of};
ghost use Rattle.fitting.specs.Fitting.{Fitting};
ghost use Rattle.table.specs.declared.refusal.Refusal.TheVariants.{NoOutput};
ghost use Rattle.lay.specs.Turning.{restored_of, Kept, Wrote, Annotated, Restoring};

use fitting::Fit;
use page::Page;
use table::{Indent, NodeNo, Refusal};
use waiting::{Due, Saved, Tag};

// A layout on its way: the steps left, whether a Text ended past width in the innermost trial (0 is no), how many entries wait, and the page.
// kept: a bool for `past` leaves bytes behind it that are copied at each turn; the figure is at `waiting::Mode`.
// The state comes first in a turn and the page last in it: then a compiler keeps each of its numbers in a register of its own, a tenth of all
// instructions (docs/PERFORMANCE.md).
#[derive(Clone, Copy)]
pub struct State {
    pub left: u32,
    pub past: u32,
    pub depth: usize,
    pub page: Page,
}

// Where a turn leads: a node is due, or the node is done.
#[derive(Clone, Copy)]
pub enum Turn {
    Go(State, Due),
    Done(State),
}

// A run that stops: why, the place and the steps left.
#[derive(Clone, Copy)]
pub struct Stopped {
    pub why: Refusal,
    pub place: NodeNo,
    pub left: u32,
}

// The output has no room.
fn no_output(s: State) -> Stopped
    ensures { result ≡ record { why = NoOutput; place = record { 0 = 0 }; left = s.left } }
{
    Stopped {
        why: Refusal::NoOutput,
        place: NodeNo(0),
        left: s.left,
    }
}

// A Text is written whole, or refused.
pub fn lay_text(
    text: &[u8],
    out: &mut [u8],
    width: u32,
    s: State,
    from: u32,
    len: u32,
    columns: u32,
) -> Result<Turn, Stopped>
    requires len_in_bounds { (from + len ≤ length text.now) × (length text.now ≤ 65536) × (columns ≤ 65536) }
    requires column_bound { (s.page.column.0 ≤ 65536) × (s.page.used ≤ length out.old) × (length out.old ≤ 65536) }
    ensures { Wrote s out.old result out.new
        (wrote (take len (drop from text.now)) columns)
        (flag_of s.past || ltb width (s.page.column.0 + columns)) }
{
    let Some(page) = page::write_text(text, from, len, columns, out, s.page) else {
        return Err(no_output(s));
    };
    let past = if width < page.column.0 { 1 } else { s.past };
    Ok(Turn::Done(State { page, past, ..s }))
}

// A Hardline and its blanks are written whole, or refused: to the indentation of the next waiting node, else its own.
pub fn lay_hardline(out: &mut [u8], work: &[u32], s: State, own: Indent) -> Result<Turn, Stopped>
    requires depth_bound { (s.depth ≤ 1024) × (area_words ≤ length work.now) }
    requires used_in_bounds { (s.page.used ≤ length out.old) × (length out.old ≤ 65536) }
    ensures { Wrote s out.old result out.new
        (fed (next_indent own.0 (stack_of s.depth work.now)))
        (flag_of s.past) }
{
    let indent = waiting::next_indent(work, s.depth, own);
    let Some(page) = page::feed_line(out, s.page, indent) else {
        return Err(no_output(s));
    };
    Ok(Turn::Done(State { page, ..s }))
}

// A node is due with the indentation and the mode of another.
pub fn child_of(due: Due, child: u32) -> Due
    ensures { result ≡ due_of child due.indent.0 due.mode.0 }
{
    Due {
        node: NodeNo(child),
        ..due
    }
}

// The first goes on, the second waits.
pub fn lay_append(
    work: &mut [u32],
    s: State,
    due: Due,
    first: u32,
    second: u32,
) -> Result<Turn, Stopped>
    requires { (s.depth < 1024) × (area_words ≤ length work.old) }
    ensures { Kept s result work.new (λ p. going p s.left (flag_of s.past)
        (waits first due.indent.0 (mode_of due.mode.0)
        ∷ waits second due.indent.0 (mode_of due.mode.0)
        ∷ stack_of s.depth work.old)) }
{
    waiting::push_node(work, s.depth, child_of(due, second));
    let deeper = State {
        depth: s.depth + 1,
        ..s
    };
    Ok(Turn::Go(deeper, child_of(due, first)))
}

// The first arm goes on as a trial.
pub fn lay_union(
    work: &mut [u32],
    s: State,
    due: Due,
    first: u32,
    second: u32,
) -> Result<Turn, Stopped>
    requires { (s.depth < 1024) × (area_words ≤ length work.old) × (s.page.used ≤ 65536) × (s.page.events ≤ 4096) }
    ensures { Kept s result work.new (λ p. going p s.left false
        (waits first due.indent.0 (mode_of due.mode.0)
        ∷ tries second due.indent.0 (mode_of due.mode.0) (save p (flag_of s.past))
        ∷ stack_of s.depth work.old)) }
{
    let saved = Saved {
        page: s.page,
        past: s.past,
    };
    waiting::push_trial(work, s.depth, child_of(due, second), saved);
    let deeper = State {
        past: 0,
        depth: s.depth + 1,
        ..s
    };
    Ok(Turn::Go(deeper, child_of(due, first)))
}

// A group's child goes on, flat or broken as the fit test says; met flat it stays flat and nothing is tested.
pub fn lay_group(
    table: &[u32],
    work: &mut [u32],
    width: u32,
    s: State,
    due: Due,
    child: u32,
) -> Result<Turn, Stopped>
    requires { Fitting table.now work.old width child s.depth s.page.column.0 }
    ensures { Kept s result work.new (λ p. grouped table.now width (mode_of due.mode.0) child due.indent.0
        p s.left (flag_of s.past) (stack_of s.depth work.old)) }
{
    if due.mode.0 != 0 {
        return Ok(Turn::Go(s, child_of(due, child)));
    }
    match fitting::fitting(
        table,
        work,
        width,
        NodeNo(child),
        s.depth,
        s.page.column,
        s.left,
    ) {
        Ok(Fit { mode, left }) => Ok(Turn::Go(
            State { left, ..s },
            Due {
                node: NodeNo(child),
                mode,
                ..due
            },
        )),
        Err(place) => Err(Stopped {
            why: Refusal::NoSteps,
            place,
            left: 0,
        }),
    }
}

// The trial that ends at height d is given up: the state is as it was before the Union, but for the steps left.
pub fn restored(s: State, saved: Saved, d: usize) -> State
    ensures { result ≡ restored_of s.left saved d }
{
    let page = page::put_back(s.page, saved.page);
    State {
        page,
        past: saved.past,
        depth: d,
        ..s
    }
}

// The innermost trial is given up, if there is one: its second arm stands in its place.
pub fn lay_fail(work: &[u32], s: State) -> Result<Turn, Stopped>
    requires { (s.depth ≤ 1024) × (area_words ≤ length work.now) }
    ensures { Restoring s work.now result (λ p. give_up p s.left (stack_of s.depth work.now)) }
{
    let Some(d) = waiting::nearest(work, s.depth, Tag::Trial) else {
        return Err(Stopped {
            why: Refusal::FailMet,
            place: NodeNo(0),
            left: s.left,
        });
    };
    let saved = waiting::saved_at(work, d);
    Ok(Turn::Go(restored(s, saved, d), waiting::due_at(work, d)))
}

// An annotation opens; its child goes on with its end waiting.
pub fn lay_annotated(
    events: &mut [u32],
    work: &mut [u32],
    s: State,
    due: Due,
    child: u32,
    label: u32,
) -> Result<Turn, Stopped>
    requires depth_bound { (s.depth < 1024) × (area_words ≤ length work.old) }
    requires event_words_in_bounds { (s.page.events * event_words ≤ length events.old) × (length events.old / event_words ≤ 4096) × (s.page.used ≤ 65536) }
    ensures { Annotated s events.old result events.new work.new
        (λ L p. noted L due.node.0 1 label p s.left (flag_of s.past)
        (waits child due.indent.0 (mode_of due.mode.0) ∷ closing due.node.0 label ∷ stack_of s.depth work.old)) }
{
    let Some(page) = page::note_event(events, s.page, 1, label) else {
        return Err(Stopped {
            why: Refusal::NoEvents,
            place: due.node,
            left: s.left,
        });
    };
    waiting::push_closing(work, s.depth, due.node, label);
    let deeper = State {
        page,
        depth: s.depth + 1,
        ..s
    };
    Ok(Turn::Go(deeper, child_of(due, child)))
}

// An indentation by a Nest's amount and way.
// kept: the way is a word that C lends, the Nest's own.
pub fn nest_by(indent: Indent, amount: u32, way: u32) -> Indent
    requires { indent.0 + amount ≤ 2000000 }
    ensures { result.0 ≡ nested (way_of way) amount indent.0 }
{
    if way == 0 {
        return Indent(indent.0 + amount);
    }
    if indent.0 < amount {
        Indent(0)
    } else {
        Indent(indent.0 - amount)
    }
}
