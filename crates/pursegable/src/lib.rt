// The library. pursegable_c exports each public function under its name here, with the same clauses, and is what C and Rust programs link;
// c/pursegable.h says the same in C.
//
// No public function has a `requires`. At an export a slice is a pointer and a length in elements; null or overlapping buffers are the caller's business.
// Here, in order: the report; layout, sheet and label over event records; the layout over the events' words.
// asking.rt: why a group broke. building.rt: the constructors and the block layouts; constructors.rt: which constructor a number makes; counts.rt: the lent counts.

#![tactic(auto)]

mod asking;
mod building;
mod constructors;
mod counts;

ghost use Rattle.std.specs.Prelude.{◌≡◌, length};
ghost use Rattle.layout.specs.Called.{default_width, label_width, default_steps};
ghost use Rattle.pursegable.specs.Exported.{five_of, told, limit_for, ExportedRecords, ExportedWords};

pub use asking::pursegable_why;
pub use building::{
    pursegable_block, pursegable_concat, pursegable_intersperse, pursegable_make, pursegable_text,
};
use events::Event;
use layout::Report;

// The words of a report: answer, place, steps, used bytes, used events.
const REPORT_WORDS: usize = 5;

// A step limit above every lawful one.
const NO_LIMIT: u32 = 100000001;

// The limit to lay out with: without room for the report it is one that answers 1 and clears every buffer.
fn limit_for(limit: u32, words: usize) -> u32
    ensures { result ≡ limit_for limit words }
{
    if words < REPORT_WORDS {
        return NO_LIMIT;
    }
    limit
}

// Fills the report with these words, where there is room for it; the rest of it is zero.
fn tell(words: [u32; REPORT_WORDS], report: &mut [u32])
    ensures { report.new ≡ told words (length report.old) }
{
    report.fill(0);
    if report.len() < REPORT_WORDS {
        return;
    }
    report[..REPORT_WORDS].copy_from_slice(&words);
}

// What a layout answers, in the words of its report.
fn five_of(r: Report) -> [u32; REPORT_WORDS]
    ensures { result ≡ five_of r }
{
    [r.answer, r.place.0, r.steps, r.used, r.events]
}

// Lays a table out at a width, with a step limit. The answer is returned, and is the report's first word.
pub fn pursegable_layout(
    table: &[u32],
    text: &[u8],
    width: u32,
    limit: u32,
    out: &mut [u8],
    events: &mut [Event],
    work: &mut [u32],
    report: &mut [u32],
) -> u32
    ensures { ExportedRecords
        table.now text.now width limit
        out.old events.old work.old report.old
        result out.new events.new work.new report.new }
{
    let words = report.len();
    let limit = limit_for(limit, words);
    let answer = events::layout(table, text, width, limit, out, events, work);
    let r = Report::from(answer);
    tell(five_of(r), report);
    r.answer
}

// The whole sheet, at the default width and step limit.
pub fn pursegable_sheet(
    table: &[u32],
    text: &[u8],
    out: &mut [u8],
    events: &mut [Event],
    work: &mut [u32],
    report: &mut [u32],
) -> u32
    ensures { ExportedRecords
        table.now text.now default_width default_steps
        out.old events.old work.old report.old
        result out.new events.new work.new report.new }
{
    pursegable_layout(
        table,
        text,
        layout::DEFAULT_WIDTH,
        layout::DEFAULT_STEPS,
        out,
        events,
        work,
        report,
    )
}

// The row label, at its own width and the default step limit.
pub fn pursegable_label(
    table: &[u32],
    text: &[u8],
    out: &mut [u8],
    events: &mut [Event],
    work: &mut [u32],
    report: &mut [u32],
) -> u32
    ensures { ExportedRecords
        table.now text.now label_width default_steps
        out.old events.old work.old report.old
        result out.new events.new work.new report.new }
{
    pursegable_layout(
        table,
        text,
        layout::LABEL_WIDTH,
        layout::DEFAULT_STEPS,
        out,
        events,
        work,
        report,
    )
}

// As pursegable_layout, with the events as words, `rules::EVENT_WORDS` to a record: nothing is copied.
pub fn pursegable_layout_words(
    table: &[u32],
    text: &[u8],
    width: u32,
    limit: u32,
    out: &mut [u8],
    events: &mut [u32],
    work: &mut [u32],
    report: &mut [u32],
) -> u32
    ensures { ExportedWords
        table.now text.now width limit
        out.old events.old work.old report.old
        result out.new events.new work.new report.new }
{
    let limit = limit_for(limit, report.len());
    let answer = layout::layout(table, text, width, limit, out, events, work);
    let r = Report::from(answer);
    tell(five_of(r), report);
    r.answer
}
