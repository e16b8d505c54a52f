// Event records: a lent slice of structs, each an offset, an open-or-close mark (1 or 0) and a label.
//
// The engine notes its events as words; the functions here are all that write records.
// A record's size stands in one place, `rules::EVENT_WORDS` with `event_words` of rules' specs. A field more is that number, a field of `Event`, a
// line of `none` and `record_at`, and one of `none`, `event_at` and `record_of` in specs/.

#![tactic(auto)]

ghost use Rattle.std.specs.Prelude.{◌≡◌, length, set, replicate};
ghost use Rattle.layout.specs.Called.{report_of};
ghost use Rattle.events.specs.Records.{none, record_at, published, most};
ghost use Rattle.events.specs.Called.{asked, Called, called_with};

use layout::{Laid, Refused, Report};
use rules::EVENT_WORDS;
use table::{NodeNo, Refusal};

// kept: the mark is a number, as C reads it.
#[repr(C)]
#[derive(Clone, Copy)]
pub struct Event {
    pub offset: u32,
    pub mark: u32,
    pub label: u32,
}

// The record of no event.
// kept: public, with its definition `none`.
pub fn none() -> Event
    ensures { result ≡ none }
{
    Event {
        offset: 0,
        mark: 0,
        label: 0,
    }
}

// Record k of the first `used` that the words hold; past them there is none.
pub fn record_at(words: &[u32], used: u32, k: usize) -> Event
    ensures { result ≡ record_at words.now used k }
{
    if used as usize <= k || words.len() / EVENT_WORDS <= k {
        return none();
    }
    let at = k * EVENT_WORDS;
    Event {
        offset: words[at],
        mark: words[at + 1],
        label: words[at + 2],
    }
}

// Puts one record in its place; past the end there is none, and nothing is done.
pub fn push(events: &mut [Event], at: usize, e: Event)
    ensures { events.new ≡ set events.old at e }
{
    if at < events.len() {
        events[at] = e;
    }
}

// Every record is zero.
pub fn clear(events: &mut [Event])
    ensures { events.new ≡ replicate (length events.old) none }
{
    events.fill(none());
}

// Writes every record: the first `used` from the words, zeros past them.
pub fn publish(words: &[u32], used: u32, out: &mut [Event])
    ensures { out.new ≡ published words.now used (length out.old) }
{
    for (k, slot) in out.iter_mut().enumerate() {
        *slot = record_at(words, used, k);
    }
}

// The most records that a call may lend, and their words.
const RECORDS: usize = 4096;

const WORDS: usize = RECORDS * EVENT_WORDS;

// Lays out with the events as words, of which there are enough for the most records; more records than that are answer 1.
fn staged(
    table: &[u32],
    text: &[u8],
    width: u32,
    limit: u32,
    out: &mut [u8],
    slots: usize,
    words: &mut [u32],
    work: &mut [u32],
) -> Result<Laid, Refused>
    requires { length words.old ≡ most }
    ensures { Called
        (asked table.now text.now width limit (length out.old) slots (length work.old))
        (report_of result) out.new (published words.new (report_of result).events slots) work.new }
{
    if RECORDS < slots {
        out.fill(0);
        work.fill(0);
        return Err(Refused {
            why: Refusal::BadSize,
            place: NodeNo(0),
            steps: 0,
        });
    }
    let n = slots * EVENT_WORDS;
    layout::layout(table, text, width, limit, out, &mut words[..n], work)
}

// Lays a table out over lent buffers, the events as records.
pub fn layout(
    table: &[u32],
    text: &[u8],
    width: u32,
    limit: u32,
    out: &mut [u8],
    events: &mut [Event],
    work: &mut [u32],
) -> Result<Laid, Refused>
    ensures { called_with
        table.now text.now width limit out.old events.old work.old
        (report_of result) out.new events.new work.new }
{
    let mut words = [0u32; WORDS];
    let slots = events.len();
    let answer = staged(table, text, width, limit, out, slots, &mut words, work);
    let report = Report::from(answer);
    publish(&words, report.events, events);
    answer
}
