// What is within tolerance: a pallet's label, how a line stands, and of a whole input how many rows it has and which are out.
// No public function has a `requires`; each says its whole answer by a definition of specs/.
ghost use Rattle.std.specs.Prelude.{◌≡◌, ◌&&◌, leb, length, drop};
ghost use Rattle.buffer.specs.Parts.{lines};
ghost use Rattle.results.specs.Tolerance.{label_of};
ghost use Rattle.results.specs.Marks.{number_of, label_number};
ghost use Rattle.results.specs.Standing.{standing_of, row_count, out_notes, next_out, Names};

use crate::{Line, parse};
use buffer::lines::{Lines, body};
use buffer::parts::{behind, part_end};

// Tolerances: force in grams, pluck point in tenths of a millimetre, both ends within.
const FORCE_LOW: u32 = 90;

const FORCE_HIGH: u32 = 130;

const PLUCK_LOW: u32 = 8;

const PLUCK_HIGH: u32 = 16;

// The mark of a row: what of it is out of tolerance.
#[derive(Clone, Copy)]
pub enum Mark {
    Force,
    Pluck,
    Both,
}

// The label that stands for it in the table.
impl From<Mark> for u32 {
    ghost from_gives = { λ mark n. n ≡ number_of mark };

    fn from(mark: Mark) -> u32 {
        match mark {
            Mark::Force => 1,
            Mark::Pluck => 2,
            Mark::Both => 3,
        }
    }
}

// How a line stands to the tolerance.
#[derive(Clone, Copy)]
enum Standing {
    NoRow,
    Within,
    Out,
}

// How many rows an input has, and how many of them are out of tolerance.
#[derive(Clone, Copy)]
pub struct Tally {
    pub rows: usize,
    pub out: usize,
}

// A row out of tolerance: where it starts, where its note ends and where its line ends.
#[derive(Clone, Copy)]
pub struct Out {
    pub start: usize,
    pub note: usize,
    pub end: usize,
}

// Whether a measurement is within its tolerance.
fn lies_in(x: u32, low: u32, high: u32) -> bool
    ensures { result ≡ (leb low x && leb x high) }
{
    low <= x && x <= high
}

// The mark of a row, if it is out of tolerance.
#[tactic(auto, unfolding(crate::specs::Tolerance::label_of))]
pub fn label(force: u32, pluck: u32) -> Option<Mark>
    ensures { label_number result ≡ label_of force pluck }
{
    let force_right = lies_in(force, FORCE_LOW, FORCE_HIGH);
    let pluck_right = lies_in(pluck, PLUCK_LOW, PLUCK_HIGH);
    match (force_right, pluck_right) {
        (true, true) => None,
        (false, true) => Some(Mark::Force),
        (true, false) => Some(Mark::Pluck),
        (false, false) => Some(Mark::Both),
    }
}

// How a line stands; a carriage return at its end is none of its bytes.
#[tactic(auto, unfolding(crate::specs::Standing::standing, crate::specs::Standing::standing_of))]
fn stands(line: &[u8]) -> Standing
    ensures { result ≡ standing_of line.now }
{
    match parse(body(line)) {
        Ok(Line::Row(p)) => match label(p.grams, p.tenths) {
            None => Standing::Within,
            Some(_) => Standing::Out,
        },
        Ok(Line::Empty) | Ok(Line::Heading) | Err(_) => Standing::NoRow,
    }
}

// How many rows there are, and how many are out.
pub fn count(input: &[u8]) -> Tally
    ensures { (result.rows ≡ row_count (lines input.now))
        × (result.out ≡ length (out_notes (lines input.now))) }
{
    let mut rows = 0;
    let mut out = 0;
    for line in Lines::new(input) {
        match stands(line) {
            Standing::NoRow => {}
            Standing::Within => rows += 1,
            Standing::Out => {
                rows += 1;
                out += 1;
            }
        }
    }
    Tally { rows, out }
}

// The next row out of tolerance, of the lines that start at a place.
pub fn next_out(input: &[u8], from: usize) -> Option<Out>
    ensures { (result ≡ next_out from (lines (drop from input.now)))
        × Names result input.now from }
{
    let mut start = from;
    for line in Lines::new(behind(input, from)) {
        let end = start + line.len();
        if let Standing::Out = stands(line) {
            let note = part_end(line, 0, b';');
            return Some(Out {
                start,
                note: start + note,
                end,
            });
        }
        start = end + 1;
    }
    None
}
