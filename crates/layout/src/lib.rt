// The public calls: a layout at any width, the whole sheet, and the row label.
//
// No public function has a `requires`: any table, text, width, limit and buffers get an answer, and the call ends. The table and the
// text are only read. A refusal leaves every byte of the output and every event zero; what is past the used part is zero after answer 0 too;
// the work area is zero after every call. An event is `rules::EVENT_WORDS` words: offset, mark (1 opens, 0 closes), label.

#![tactic(auto)]

ghost use Rattle.std.specs.Prelude.{◌≡◌, []};
ghost use Rattle.rules.specs.Call.{buffers_right};
ghost use Rattle.layout.specs.Called.{given, lent, report_of, Decided, called_with, default_width, label_width, default_steps};

use rules::EVENT_WORDS;
use table::{Fault, NodeNo, Refusal};

// The whole sheet's width in columns.
pub const DEFAULT_WIDTH: u32 = 42;

// The row label's width in columns.
pub const LABEL_WIDTH: u32 = 42;

// The step limit of both.
pub const DEFAULT_STEPS: u32 = 1000000;

// A document is laid out: the steps, and how many bytes and events are used.
#[derive(Clone, Copy)]
pub struct Laid {
    pub steps: u32,
    pub used: u32,
    pub events: u32,
}

// A call is refused: why, the place of it, and the steps until then. Nothing is used.
#[derive(Clone, Copy)]
pub struct Refused {
    pub why: Refusal,
    pub place: NodeNo,
    pub steps: u32,
}

// A table with a fault is refused before any step.
impl From<Fault> for Refused {
    ghost from_gives = { λ fault refused. refused ≡ record { why = fault.why; place = fault.place; steps = 0 } };

    fn from(fault: Fault) -> Refused {
        Refused {
            why: fault.why,
            place: fault.place,
            steps: 0,
        }
    }
}

// The same in document 01's numbers: the answer and its place, the steps, and how many bytes and events are used.
// kept: numbers, since C is told these five words.
#[derive(Clone, Copy)]
pub struct Report {
    pub answer: u32,
    pub place: NodeNo,
    pub steps: u32,
    pub used: u32,
    pub events: u32,
}

impl From<Result<Laid, Refused>> for Report {
    ghost from_gives = { λ answer report. report ≡ report_of answer };

    fn from(answer: Result<Laid, Refused>) -> Report {
        match answer {
            Ok(laid) => Report {
                answer: 0,
                place: NodeNo(0),
                steps: laid.steps,
                used: laid.used,
                events: laid.events,
            },
            Err(refused) => Report {
                answer: u32::from(refused.why),
                place: refused.place,
                steps: refused.steps,
                used: 0,
                events: 0,
            },
        }
    }
}

// Whether the buffers, the width and the limit are within their bounds.
pub fn buffers_right(out: usize, events: usize, work: usize, width: u32, limit: u32) -> bool
    ensures { result ≡ buffers_right (given [] [] width limit out events work) }
{
    (out <= 65536)
        & (events / EVENT_WORDS <= 4096)
        & (16384 <= work)
        & (width <= 65535)
        & (limit <= 100000000)
}

// The answer, with the buffers as the run left them.
fn decide(
    table: &[u32],
    text: &[u8],
    width: u32,
    limit: u32,
    out: &mut [u8],
    events: &mut [u32],
    work: &mut [u32],
) -> Result<Laid, Refused>
    ensures { Decided
        (lent table.now text.now width limit out.old events.old work.old)
        (report_of result) out.new events.new }
{
    if !buffers_right(out.len(), events.len(), work.len(), width, limit) {
        return Err(Refused {
            why: Refusal::BadSize,
            place: NodeNo(0),
            steps: 0,
        });
    }
    table::validate(table, text)?;
    let nodes = (table.len() / 4) as u32;
    match render::best(table, text, out, events, work, width, limit, nodes) {
        Ok(end) => Ok(Laid {
            steps: limit - end.left,
            used: end.used,
            events: end.events,
        }),
        Err(stopped) => Err(Refused {
            why: stopped.why,
            place: stopped.place,
            steps: limit - stopped.left,
        }),
    }
}

// Lays a table out at a width, with a step limit.
pub fn layout(
    table: &[u32],
    text: &[u8],
    width: u32,
    limit: u32,
    out: &mut [u8],
    events: &mut [u32],
    work: &mut [u32],
) -> Result<Laid, Refused>
    ensures { called_with
        table.now text.now width limit out.old events.old work.old
        (report_of result) out.new events.new work.new }
{
    let answer = decide(table, text, width, limit, out, events, work);
    let report = Report::from(answer);
    let used = report.used as usize;
    let words = report.events as usize * EVENT_WORDS;
    buffer::fill_from(out, used, 0);
    buffer::fill_from(events, words, 0);
    buffer::clear_dirty_words(work);
    answer
}

// kept: the two below differ in a width: document 01 names two routines that take none.

// The whole sheet, at the default width and step limit.
pub fn sheet(
    table: &[u32],
    text: &[u8],
    out: &mut [u8],
    events: &mut [u32],
    work: &mut [u32],
) -> Result<Laid, Refused>
    ensures { called_with
        table.now text.now default_width default_steps out.old events.old work.old
        (report_of result) out.new events.new work.new }
{
    layout(table, text, DEFAULT_WIDTH, DEFAULT_STEPS, out, events, work)
}

// The row label, at its own width and the default step limit.
pub fn label(
    table: &[u32],
    text: &[u8],
    out: &mut [u8],
    events: &mut [u32],
    work: &mut [u32],
) -> Result<Laid, Refused>
    ensures { called_with
        table.now text.now label_width default_steps out.old events.old work.old
        (report_of result) out.new events.new work.new }
{
    layout(table, text, LABEL_WIDTH, DEFAULT_STEPS, out, events, work)
}
