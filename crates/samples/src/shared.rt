// A Group over 1,000 joins of one node with itself, which unfolds to more than 2^1,000 nodes: why is asked at step 1, with limit 1, and
// answers at once.
ghost use Rattle.std.specs.Prelude.{◌≡◌, length};

use std::io;
use std::io::Write;
use summary::Reason;

// The words of 1,002 nodes: a Nil, the joins, the Group.
const WORDS: usize = 4008;

const JOINS: usize = 1000;

// Joins of the node before with itself.
fn join(table: &mut [u32])
    requires { length table.old ≡ 4008 }
{
    for n in 1..=JOINS {
        let at = n * 4;
        let before = (n - 1) as u32;
        table[at] = table::APPEND;
        table[at + 1] = before;
        table[at + 2] = before;
    }
}

// Builds the table, asks and writes the answer.
pub fn shared<W: Write>(print: &mut W) -> io::Result<()> {
    let mut table = [0u32; WORDS];
    join(&mut table);
    table[4004] = table::GROUP;
    table[4005] = 1000;
    let mut out = [0u8; 1];
    let mut events = [0u32; 3];
    let mut work = [0u32; 16384];
    let answer = why::why(&table, b"", 42, 1, 1, &mut out, &mut events, &mut work);
    if matches!(answer, Ok(Reason::NothingLeft)) {
        print.write_all(b"flat: nothing was left\n")?;
    }
    Ok(())
}
