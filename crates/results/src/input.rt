// The whole input: which line is at fault first.
ghost use Rattle.std.specs.Prelude.{◌≡◌};
ghost use Rattle.buffer.specs.Parts.{lines};
ghost use Rattle.results.specs.Pallets.{verdict_at, checked};

use crate::{Fault, parse};
use buffer::lines::{Lines, body};
use std::fmt;

// A line at fault, counted from 1, and what is wrong with it.
#[derive(Clone, Copy)]
pub struct FaultAt {
    pub line: usize,
    pub fault: Fault,
}

impl fmt::Display for FaultAt {
    fn fmt<W: fmt::Write>(&self, f: &mut fmt::Formatter<W>) -> fmt::Result {
        let line = self.line;
        let fault = self.fault;
        // Where the line can't be told, what is wrong with it is tried all the same.
        let _ = write!(f, "line {line}: ");
        write!(f, "{fault}")
    }
}

// Whether a line is at fault; a carriage return at its end is none of its bytes.
#[tactic(auto, unfolding(crate::specs::Pallets::verdict_of))]
fn told(line: &[u8]) -> Result<(), Fault>
    ensures { result ≡ verdict_at line.now }
{
    parse(body(line))?;
    Ok(())
}

// The first line at fault.
#[tactic(auto, unfolding(crate::specs::Pallets::checked))]
pub fn check(input: &[u8]) -> Result<(), FaultAt>
    ensures { result ≡ checked 0 (lines input.now) }
{
    let mut before = 0;
    for line in Lines::new(input) {
        if let Err(fault) = told(line) {
            return Err(FaultAt {
                line: before + 1,
                fault,
            });
        }
        before += 1;
    }
    Ok(())
}
