// Cases: tables with their texts, each with the answer and the place that document 01 gives.
//
// A case is a line: answer and place, the table's words in decimal, the text bytes in hexadecimal, and a name, with `|` between. Written are
// the answer and place that validation gives, the name and, where the line has others, what was wanted.
use crate::base::Base;
use crate::lines::{narrow, numbers, past};
use std::io;
use std::io::Write;
use table::Fault;

// Writes what was found and the case's name, and what was wanted where it is something else.
// kept: answer and place are numbers, as the list writes them.
fn report<W: Write>(
    print: &mut W,
    found: Result<(), Fault>,
    answer: u32,
    place: u32,
    name: &[u8],
) -> io::Result<bool> {
    let (found_answer, found_place) = match found {
        Ok(()) => (0, 0),
        Err(fault) => (u32::from(fault.why), fault.place.0),
    };
    write!(print, "{found_answer} {found_place}")?;
    print.write_all(name)?;
    let right = (found_answer == answer) & (found_place == place);
    if !right {
        write!(print, ": WRONG, wanted {answer} {place}")?;
    }
    print.write_all(b"\n")?;
    Ok(right)
}

// Replays one case: whether answer and place were as wanted.
pub fn replay<W: Write>(print: &mut W, line: &[u8]) -> io::Result<bool> {
    let mut wanted = [0u32; 2];
    let head = numbers(line, 0, Base { value: 10 }, &mut wanted);
    let mut words = [0u32; 4200];
    let table = numbers(line, past(line, head.end), Base { value: 10 }, &mut words);
    let mut wide = [0u32; 65600];
    let bytes = numbers(line, past(line, table.end), Base { value: 16 }, &mut wide);
    let mut text = [0u8; 65600];
    let t = table.count;
    let n = bytes.count;
    narrow(&wide[..n], &mut text);
    let name = past(line, bytes.end);
    report(
        print,
        table::validate(&words[..t], &text[..n]),
        wanted[0],
        wanted[1],
        &line[name..],
    )
}
