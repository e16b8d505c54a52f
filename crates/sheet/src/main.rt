// The main job: reads a chest's test results from standard input and prints its sheet for the strip, with `! ` in the margin beside
// each row out of tolerance. A fault is told on standard error, and then nothing is printed.

#![tactic(auto)]

use buffer::parts::front;
use std::io;
use std::io::{Read, Write};

// Whether nothing is left to read.
fn at_end<R: Read>(from: &mut R) -> bool {
    let mut one = [0u8; 1];
    matches!(from.read(&mut one), Ok(0))
}

fn main(rt: HostRuntime) {
    let mut from = rt.stdin();
    let mut tell = rt.stderr();
    let mut space = [0u8; 65536];
    let read = io::copy(&mut from.by_ref().take(65536), &mut &mut space[..]);
    let Ok(n) = read else {
        let _ = tell.write_all(b"the input could not be read to its end\n");
        return;
    };
    if n == 65536 {
        let _ = tell.write_all(b"the input is longer than 65,535 bytes\n");
        return;
    }
    if !at_end(&mut from) {
        let _ = tell.write_all(b"the input could not be read to its end\n");
        return;
    }
    let n = n as usize;
    let _told = strip::run(front(&space, n), &mut rt.stdout(), &mut tell);
}
