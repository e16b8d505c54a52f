// Replays what stands on standard input: cases first, then a line that starts with `%`, then runs. `rt` holds what is written to the
// file stdout, which has what document 01 says; compare/README.md tells how both files are made. A line that starts with `#` or `%` is
// neither, and so is an empty one. A line after the cases counts them.
//
// lines.rt: the lists of numbers in a line; cases.rt: one case, validated; runs.rt: one run, laid out.

#![tactic(auto)]

use buffer::lines::Lines;
use buffer::parts::{behind, front, part_end};
use std::io;
use std::io::{Read, Write};

mod base;
mod cases;
mod lines;
mod runs;

// How many cases were replayed, and how many went wrong.
#[derive(Clone, Copy)]
struct Tally {
    cases: u32,
    wrong: u32,
}

// Whether a line says something.
fn says(line: &[u8]) -> bool {
    !matches!(line, [] | [b'#', ..] | [b'%', ..])
}

// Replays every case.
fn replay_cases<W: Write>(print: &mut W, input: &[u8]) -> io::Result<Tally> {
    let mut cases: u32 = 0;
    let mut wrong: u32 = 0;
    for line in Lines::new(input) {
        if !says(line) {
            continue;
        }
        cases = cases.wrapping_add(1);
        if !cases::replay(print, line)? {
            wrong = wrong.wrapping_add(1);
        }
    }
    Ok(Tally { cases, wrong })
}

// Replays every run.
fn replay_runs<W: Write>(print: &mut W, input: &[u8]) -> io::Result<()> {
    for line in Lines::new(input) {
        if says(line) {
            runs::replay(print, line)?;
        }
    }
    Ok(())
}

// Replays both lists.
fn replay<W: Write>(print: &mut W, input: &[u8]) -> io::Result<()> {
    let bar = part_end(input, 0, b'%');
    let Tally { cases, wrong } = replay_cases(print, front(input, bar))?;
    writeln!(print, "{cases} cases, {wrong} wrong")?;
    replay_runs(print, behind(input, bar))
}

fn main(rt: HostRuntime) -> io::Result<()> {
    let mut space = [0u8; 262144];
    let n = io::copy(&mut rt.stdin().take(262144), &mut &mut space[..])? as usize;
    replay(&mut rt.stdout(), front(&space, n))
}
