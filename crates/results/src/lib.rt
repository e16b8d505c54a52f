// A chest's test results: one pallet a line, `note;force;pluck point;remark`. Here: what a line says. numbers.rt: numbers; input.rt: which
// line is at fault first; tolerance.rt: which rows are out of tolerance. No public function has a `requires`; each says its whole answer
// by a definition of specs/.

#![tactic(auto)]

ghost use Rattle.std.specs.Prelude.{◌≡◌, ◌<◌, ◌≤◌, length, IfOk, IfErr};
ghost use Rattle.results.specs.Pallets.{separator, fields_of, Ordered, pallet_of, said, parsed};

use buffer::parts::{columns, has_controls, is_blank, part_end};
use buffer::utf8::well_formed;
use numbers::{number, tenths};
use std::fmt;

pub mod input;
mod numbers;
pub mod tolerance;

// The longest line in bytes, and the longest note in columns.
const LONGEST_LINE: usize = 200;

const WIDEST_NOTE: usize = 5;

// One pallet of a line: where force, pluck point and remark start, the force in grams, and the pluck point in tenths of a millimetre.
// The note starts the line, and each field but the remark ends before the `;` in front of the next.
#[derive(Clone, Copy)]
pub struct Pallet {
    pub force: usize,
    pub pluck: usize,
    pub remark: usize,
    pub grams: u32,
    pub tenths: u32,
}

// What is wrong with a line.
#[derive(Clone, Copy)]
pub enum Fault {
    TooLong,
    NotUtf8,
    Control,
    NoForce,
    NoPluck,
    NoRemark,
    Note,
    Force,
    Pluck,
}

// The end of a message, with its line feed, so that both go out in one write.
impl fmt::Display for Fault {
    fn fmt<W: fmt::Write>(&self, f: &mut fmt::Formatter<W>) -> fmt::Result {
        f.write_str(match self {
            Fault::TooLong => "it is longer than 200 bytes\n",
            Fault::NotUtf8 => "it is not UTF-8\n",
            Fault::Control => "it has a control character\n",
            Fault::NoForce => "the force is missing (note;force;pluck point;remark)\n",
            Fault::NoPluck => "the pluck point is missing (note;force;pluck point;remark)\n",
            Fault::NoRemark => {
                "the ; before the remark is missing (note;force;pluck point;remark)\n"
            }
            Fault::Note => "the note must have 1 to 5 characters, not all of them blanks\n",
            Fault::Force => "the force is not a whole number of grams, 0 to 9999\n",
            Fault::Pluck => "the pluck point is not a number of millimetres like 1.2\n",
        })
    }
}

// Where the three separators stand.
#[derive(Clone, Copy)]
pub struct Cuts {
    pub first: usize,
    pub second: usize,
    pub third: usize,
}

// What a line says that is not at fault: nothing, a heading or a pallet.
#[derive(Clone, Copy)]
pub enum Line {
    Empty,
    Heading,
    Row(Pallet),
}

// The first separator from a place on, or which field is missing.
fn cut(s: &[u8], from: usize, missing: Fault) -> Result<usize, Fault>
    ensures at { IfOk result (λ at. (at ≡ separator s.now from) × (at < length s.now)) }
    ensures none { IfErr result (λ e. (e ≡ missing) × (length s.now ≤ separator s.now from)) }
{
    let at = part_end(s, from, b';');
    if at < s.len() { Ok(at) } else { Err(missing) }
}

// Where the separators stand.
fn fields(s: &[u8]) -> Result<Cuts, Fault>
    ensures { (result ≡ fields_of s.now)
        × Ordered result (length s.now) }
{
    let first = cut(s, 0, Fault::NoForce)?;
    let second = cut(s, first + 1, Fault::NoPluck)?;
    let third = cut(s, second + 1, Fault::NoRemark)?;
    Ok(Cuts {
        first,
        second,
        third,
    })
}

// The pallet whose separators stand there: the note is looked at first, then the force, then the pluck point.
fn pallet_at(s: &[u8], cuts: Cuts) -> Result<Line, Fault>
    requires { (cuts.first < cuts.second) × (cuts.second < cuts.third) × (cuts.third < length s.now) }
    ensures { result ≡ pallet_of s.now cuts.first cuts.second cuts.third }
{
    let note = &s[..cuts.first];
    if is_blank(note) || WIDEST_NOTE < columns(note) {
        return Err(Fault::Note);
    }
    let force = cuts.first + 1;
    let pluck = cuts.second + 1;
    let remark = cuts.third + 1;
    let grams = number(&s[force..cuts.second]).ok_or(Fault::Force)?;
    let tenths = tenths(&s[pluck..cuts.third]).ok_or(Fault::Pluck)?;
    Ok(Line::Row(Pallet {
        force,
        pluck,
        remark,
        grams,
        tenths,
    }))
}

// What a line says that is short enough and all of printable characters.
#[tactic(auto, unfolding(crate::specs::Pallets::said, crate::specs::Pallets::pallet_at))]
fn said(s: &[u8]) -> Result<Line, Fault>
    ensures { result ≡ said s.now }
{
    if s.is_empty() {
        return Ok(Line::Empty);
    }
    if s[0] == b'#' {
        return Ok(Line::Heading);
    }
    pallet_at(s, fields(s)?)
}

// What a line says, or what is wrong with it; it is given without its line end.
#[tactic(auto, unfolding(crate::specs::Pallets::parsed))]
pub fn parse(s: &[u8]) -> Result<Line, Fault>
    ensures { result ≡ parsed s.now }
{
    // First, for speed: of an empty line the tests below take most of the time.
    if s.is_empty() {
        return Ok(Line::Empty);
    }
    if LONGEST_LINE < s.len() {
        return Err(Fault::TooLong);
    }
    if !well_formed(s) {
        return Err(Fault::NotUtf8);
    }
    if has_controls(s) {
        return Err(Fault::Control);
    }
    said(s)
}
