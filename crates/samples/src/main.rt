// Samples of what the library is used for: the README's example (example.rt), then a block in its four layouts (blocks.rt), and why
// a group went flat that unfolds to more nodes than could be read (shared.rt).

#![tactic(auto)]

use std::io;

mod blocks;
mod example;
mod shared;

fn main(rt: HostRuntime) -> io::Result<()> {
    let mut print = rt.stdout();
    example::example(&mut print)?;
    blocks::blocks(&mut print)?;
    shared::shared(&mut print)
}
