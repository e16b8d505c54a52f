// Tells what is wrong with each of several bad inputs: standard input has them one behind the other, each ended by a `%` and a line feed.
// Of a sound one it prints the sheet, so a message that is missing shows; the last seven are sound, for the comma, the footers,
// a byte order mark and words that are cut.

#![tactic(auto)]

use buffer::parts::{behind, front};
use std::io;
use std::io::Read;

// Runs every input.
fn run_all<P: Print>(input: &[u8], rt: &P) {
    let mut rest = input;
    // kept: no index is counted, and `split` passes over the `%` alone, not the line feed behind it
    while let Some(end) = rest.iter().position(|b| *b == b'%') {
        let _told = strip::run(&rest[..end], &mut io::writer(rt), &mut io::writer(rt));
        rest = behind(rest, end + 2);
    }
}

fn main(rt: HostRuntime) -> io::Result<()> {
    let mut space = [0u8; 65536];
    let n = io::copy(&mut rt.stdin().take(65536), &mut &mut space[..])? as usize;
    run_all(front(&space, n), &rt);
    Ok(())
}
