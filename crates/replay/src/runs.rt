// Runs: each table is laid out, and how that ended is written, as document 01's interpreter says it of the same run.
//
// A run is a line: the table's words in decimal, the text bytes in hexadecimal, width, limit, room and slots, and a name, with
// `|` between. All buffers are soiled before the call. Written are answer, place and steps, the bytes used, the words of the
// events used, how much of output, events and work is not zero and must be, and the name.
use crate::base::Base;
use crate::lines::{narrow, numbers, past};
use layout::Report;
use rules::EVENT_WORDS;
use std::io;
use std::io::Write;

// Room for some more event records than a call may be lent, in words.
const SLOTS: usize = 4100;

const EVENTS: usize = SLOTS * EVENT_WORDS;

// The bytes as words, as far as there is room.
fn widen(bytes: &[u8], wide: &mut [u32]) {
    for (word, byte) in wide.iter_mut().zip(bytes) {
        *word = u32::from(*byte);
    }
}

// Writes the words, and a bar.
fn write_words<W: Write>(print: &mut W, words: &[u32]) -> io::Result<()> {
    for word in words {
        write!(print, "{word} ")?;
    }
    print.write_all(b"| ")
}

// How many words are not zero.
// kept: by a fold over u32: `filter` and `count` take several times as long, over up to 94,000 words a run.
fn soiled(words: &[u32]) -> u32 {
    words.iter().fold(
        0,
        |count: u32, word| count.wrapping_add((*word != 0) as u32),
    )
}

// Writes how a run ended and what its buffers hold, the output as words.
fn report<W: Write>(
    print: &mut W,
    r: Report,
    out: &[u32],
    events: &[u32],
    work: &[u32],
    name: &[u8],
) -> io::Result<()> {
    let used = (r.used as usize).min(out.len());
    let marked = (r.events as usize * EVENT_WORDS).min(events.len());
    let answer = r.answer;
    let place = r.place.0;
    let steps = r.steps;
    write!(print, "{answer} {place} {steps} ")?;
    print.write_all(b"| ")?;
    write_words(print, &out[..used])?;
    write_words(print, &events[..marked])?;
    let out = soiled(&out[used..]);
    let events = soiled(&events[marked..]);
    let work = soiled(work);
    write!(print, "{out} {events} {work} ")?;
    print.write_all(b"|")?;
    print.write_all(name)?;
    print.write_all(b"\n")
}

// Lays a table out in these buffers.
fn run<W: Write>(
    print: &mut W,
    table: &[u32],
    text: &[u8],
    width: u32,
    limit: u32,
    out: &mut [u8],
    events: &mut [u32],
    work: &mut [u32],
    name: &[u8],
) -> io::Result<()> {
    // Made before the call: made after it, the words are cleared twice.
    let mut wide = [0u32; 65600];
    let r = Report::from(layout::layout(table, text, width, limit, out, events, work));
    widen(out, &mut wide);
    let room = out.len().min(65600);
    report(print, r, &wide[..room], events, work, name)
}

// Lays a table out in soiled buffers of these sizes.
fn lay_out<W: Write>(
    print: &mut W,
    table: &[u32],
    text: &[u8],
    width: u32,
    limit: u32,
    room: u32,
    slots: u32,
    name: &[u8],
) -> io::Result<()> {
    let mut out = [90u8; 65600];
    let mut events = [1515870810u32; EVENTS];
    let mut work = [1515870810u32; 16384];
    let room = (room as usize).min(65600);
    let words = (slots as usize).min(SLOTS) * EVENT_WORDS;
    run(
        print,
        table,
        text,
        width,
        limit,
        &mut out[..room],
        &mut events[..words],
        &mut work,
        name,
    )
}

// Replays one run.
pub fn replay<W: Write>(print: &mut W, line: &[u8]) -> io::Result<()> {
    let mut words = [0u32; 4200];
    let table = numbers(line, 0, Base { value: 10 }, &mut words);
    let mut wide = [0u32; 65600];
    let bytes = numbers(line, past(line, table.end), Base { value: 16 }, &mut wide);
    let mut text = [0u8; 65600];
    let mut sizes = [0u32; 4];
    let asked = numbers(line, past(line, bytes.end), Base { value: 10 }, &mut sizes);
    let t = table.count;
    let n = bytes.count;
    narrow(&wide[..n], &mut text);
    let name = past(line, asked.end);
    lay_out(
        print,
        &words[..t],
        &text[..n],
        sizes[0],
        sizes[1],
        sizes[2],
        sizes[3],
        &line[name..],
    )
}
