// From a chest's test results to the printed strip, or a message that names the line and what is wrong. Nothing is printed of a sheet
// that can't be laid out whole, and a write that fails is told.
// In order: refusals and their messages; printing; the whole run. marks.rt: where a mark is open.

// kept: arrays of a fixed length, here and in every program: the project has no heap.

#![tactic(auto)]

use buffer::lines::Lines;
use buffer::parts::front;
use build::Why;
use chest::NoRoom;
use layout::Refused;
use marks::marked;
use results::input::FaultAt;
use rules::EVENT_WORDS;
use std::io::Write;
use std::{fmt, io};

mod marks;

// Room for the most events that a call may have.
const EVENTS: usize = 4096 * EVENT_WORDS;

// ---- refusals

// Why the sheet was not printed, or not whole.
#[derive(Clone, Copy)]
pub enum Refusal {
    NoInput,
    Fault(FaultAt),
    NoRoom(NoRoom),
    Layout(Refused),
    Unwritten,
}

// Why something doesn't fit, behind what it is.
fn lacks(why: Why) -> &'static str {
    match why {
        Why::Nodes => " does not fit in the table's 1,024 nodes\n",
        Why::Bytes => " does not fit in the 65,536 bytes of text\n",
        Why::Sizes => " does not fit: the constructors answer 1\n",
        Why::Operand => " does not fit: the constructors answer 11\n",
        Why::Amount => " does not fit: the constructors answer 3\n",
        Why::Text => " does not fit: the constructors answer 5\n",
    }
}

// Tells what has no room: each part is tried, whatever became of the one before it.
fn tell_full<W: fmt::Write>(
    f: &mut fmt::Formatter<W>,
    line: usize,
    what: &str,
    why: Why,
) -> fmt::Result {
    let _ = write!(f, "line {line}: ");
    let _ = f.write_str(what);
    f.write_str(lacks(why))
}

// What is told of it: a line. Its last part has the line feed, so that the two go out in one write, but for the layout's number.
impl fmt::Display for Refusal {
    fn fmt<W: fmt::Write>(&self, f: &mut fmt::Formatter<W>) -> fmt::Result {
        match *self {
            Refusal::NoInput => f.write_str("there is no input\n"),
            Refusal::Fault(fault) => write!(f, "{fault}"),
            Refusal::NoRoom(NoRoom::Line(line, why)) => {
                tell_full(f, line, "this is the first line that", why)
            }
            Refusal::NoRoom(NoRoom::Footer(line, why)) => {
                tell_full(f, line, "the footer after this last line", why)
            }
            Refusal::Layout(refused) => {
                let answer = u32::from(refused.why);
                writeln!(f, "the layout answers {answer}")
            }
            Refusal::Unwritten => f.write_str(
                "the sheet could not be written whole: do not use what was printed\n",
            ),
        }
    }
}

// ---- printing

// Prints one line behind its margin: `! ` where a mark is open.
fn print_line<W: Write>(print: &mut W, line: &[u8], marked: bool) -> io::Result<()> {
    print.write_all(if marked { b"! " } else { b"  " })?;
    print.write_all(line)?;
    print.write_all(b"\n")
}

// Prints every line of the output behind its margin, up to the first write that fails.
fn print_all<W: Write>(print: &mut W, out: &[u8], events: &[u32]) -> io::Result<()> {
    let mut at = 0;
    for line in Lines::new(out) {
        print_line(print, line, marked(events, at))?;
        at += line.len() + 1;
    }
    Ok(())
}

// Lays the sheet out and prints it. What was printed before a write failed can't be taken back.
fn lay_out<W: Write>(table: &[u32], text: &[u8], print: &mut W) -> Result<(), Refusal> {
    let mut out = [0u8; 65536];
    let mut events = [0u32; EVENTS];
    let mut work = [0u32; 16384];
    let laid = layout::sheet(table, text, &mut out, &mut events, &mut work).map_err(
        Refusal::Layout,
    )?;
    let used = laid.used as usize;
    let words = (laid.events as usize * EVENT_WORDS).min(EVENTS);
    print_all(print, front(&out, used), &events[..words]).map_err(|_| Refusal::Unwritten)
}

// ---- the whole run

// The results without the byte order mark that some editors put in front of them: it is no part of the first note.
fn unmarked(input: &[u8]) -> &[u8] {
    input.strip_prefix(b"\xEF\xBB\xBF").unwrap_or(input)
}

// Checks the results, builds their sheet, lays it out and prints it.
fn printed<W: Write>(input: &[u8], print: &mut W) -> Result<(), Refusal> {
    let input = unmarked(input);
    if input.is_empty() {
        return Err(Refusal::NoInput);
    }
    results::input::check(input).map_err(Refusal::Fault)?;
    let mut table = [0u32; 4096];
    let mut text = [0u8; 65536];
    let (c, n) = chest::build(input, &mut table, &mut text).map_err(Refusal::NoRoom)?;
    let words = (n.0 as usize * 4 + 4).min(4096);
    let bytes = c.bytes as usize;
    lay_out(&table[..words], front(&text, bytes), print)
}

// Prints the sheet of a chest's results, or tells why it was not printed whole; gives that too.
pub fn run<P: Write, T: Write>(input: &[u8], print: &mut P, tell: &mut T) -> Result<(), Refusal> {
    let ended = printed(input, print);
    if let Err(refusal) = ended {
        let _ = write!(tell, "{refusal}");
    }
    ended
}
