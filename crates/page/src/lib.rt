// The page that a layout is written on: the column, the bytes of output used so far, and the events noted so far.
//
// `write_text` and `feed_line` put bytes on it, `note_event` an event, and `put_back` gives it back as it was before a trial that is given
// up. The bytes and the events stand in buffers that the caller lends; an event is three words there. What was put on the page before
// stays, so that a page kept from before reads as it did.
// Contracts speak of the layout rules' pages alone, and nothing here knows what waits: any engine may use it.
// Nothing here is an entry point of the library: each function says what it asks of its caller.

// kept: the lengths of what is lent stand in each clause, since the buffers are lent apart (document 01).

#![tactic(auto)]

ghost use Rattle.std.specs.Prelude.{◌+◌, ◌*◌, ◌/◌, ◌≤◌, length, take, drop};
ghost use Rattle.rules.specs.Call.{event_words};
ghost use Rattle.rules.specs.Layout.{wrote, fed, marked};
ghost use Rattle.page.specs.Putting.{Written, Noted, PutBack};

use rules::EVENT_WORDS;
use table::{Column, Indent};

// Counts are as wide as a place in a buffer (docs/PERFORMANCE.md).
#[derive(Clone, Copy)]
pub struct Page {
    pub column: Column,
    pub used: usize,
    pub events: usize,
}

// A text is written whole, and the column grows by its columns; or there is no room for it.
pub fn write_text(
    text: &[u8],
    from: u32,
    len: u32,
    columns: u32,
    out: &mut [u8],
    page: Page,
) -> Option<Page>
    requires len_in_bounds { (from + len ≤ length text.now) × (length text.now ≤ 65536) × (columns ≤ 65536) }
    requires column_bound { (page.column.0 ≤ 65536) × (page.used ≤ length out.old) × (length out.old ≤ 65536) }
    ensures { Written page out.old result out.new
        (wrote (take len (drop from text.now)) columns) }
{
    let n = len as usize;
    if out.len() - page.used < n {
        return None;
    }
    buffer::copy_over(text, from as usize, n, out, page.used);
    Some(Page {
        column: Column(page.column.0 + columns),
        used: page.used + n,
        ..page
    })
}

// Byte 10 and blanks to an indentation, which becomes the column; or there is no room for them.
pub fn feed_line(out: &mut [u8], page: Page, indent: Indent) -> Option<Page>
    requires { (page.used ≤ length out.old) × (length out.old ≤ 65536) }
    ensures { Written page out.old result out.new (fed indent.0) }
{
    let blanks = indent.0 as usize;
    if out.len() - page.used <= blanks {
        return None;
    }
    buffer::newline(out, page.used, blanks);
    Some(Page {
        column: Column::from(indent),
        used: page.used + 1 + blanks,
        ..page
    })
}

// One event more, open (1) or close (0) with a label, its offset the number of bytes before it; or there is no room for it.
// kept: the mark is the event's second word, a number as C reads it.
pub fn note_event(events: &mut [u32], page: Page, mark: u32, label: u32) -> Option<Page>
    requires { (page.events * event_words ≤ length events.old) × (length events.old / event_words ≤ 4096) × (page.used ≤ 65536) }
    ensures { Noted page events.old result events.new (marked mark label) }
{
    let at = page.events * EVENT_WORDS;
    if events.len() - at < EVENT_WORDS {
        return None;
    }
    events[at] = page.used as u32;
    events[at + 1] = mark;
    events[at + 2] = label;
    Some(Page {
        events: page.events + 1,
        ..page
    })
}

// A trial is given up: the page is as it was saved before it. The trial's bytes and events stay behind what is used.
// kept: its definition and three edits speak of both pages.
pub fn put_back(page: Page, saved: Page) -> Page
    ensures { PutBack page saved result }
{
    saved
}
