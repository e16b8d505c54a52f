// The constructors and the block layouts, exported: by number, over words that the caller lends.
// The builder's counts are three of those words: nodes in use, text bytes in use, and the node made. A refusal leaves every buffer as it was.
// Each export says its answer and every lent buffer afterwards by a definition of specs/Building.antt.
ghost use Rattle.std.specs.Prelude.{◌≡◌, ◌≤◌, length, take};
ghost use Rattle.build.specs.Constructors.{text_made, concat_made, intersperse_made};
ghost use Rattle.block.specs.Block.{format_made};
ghost use Rattle.pursegable.specs.Building.{left, built, makes, flags_of, block_from};

use crate::constructors::{any, known};
use crate::counts::{COUNTS_WORDS, counts_of, settle};
use block::Block;
use table::{Column, Indent, NodeNo};

// The most affixes of a block.
const AFFIXES: usize = 8;

// Any constructor but text, concat and intersperse. Its operands are a node's words as the table has them.
pub fn pursegable_make(
    what: u32,
    a: u32,
    b: u32,
    c: u32,
    table: &mut [u32],
    text: &mut [u8],
    counts: &mut [u32],
) -> u32
    ensures { left result table.new text.new counts.new ≡
        makes what a b c
        table.old text.old counts.old }
{
    if counts.len() < COUNTS_WORDS {
        return 1;
    }
    if !known(what) {
        return 2;
    }
    let made = any(what, a, b, c, counts_of(counts), table, text);
    settle(made, counts)
}

// A Text of these bytes, so many columns wide.
pub fn pursegable_text(
    bytes: &[u8],
    columns: u32,
    table: &mut [u32],
    text: &mut [u8],
    counts: &mut [u32],
) -> u32
    ensures { left result table.new text.new counts.new ≡
        built (λ c t x. text_made c t x bytes.now columns)
        table.old text.old counts.old }
{
    if counts.len() < COUNTS_WORDS {
        return 1;
    }
    let made = counts_of(counts).text(table, text, bytes, Column(columns));
    settle(made, counts)
}

// The nodes joined.
pub fn pursegable_concat(nodes: &[u32], table: &mut [u32], text: &[u8], counts: &mut [u32]) -> u32
    ensures { left result table.new text.now counts.new ≡
        built (λ c t x. concat_made c t x nodes.now)
        table.old text.now counts.old }
{
    if counts.len() < COUNTS_WORDS {
        return 1;
    }
    let made = counts_of(counts).concat(table, text, nodes);
    settle(made, counts)
}

// The nodes joined, with the separator between each two.
pub fn pursegable_intersperse(
    nodes: &[u32],
    separator: u32,
    table: &mut [u32],
    text: &[u8],
    counts: &mut [u32],
) -> u32
    ensures { left result table.new text.now counts.new ≡
        built (λ c t x. intersperse_made c t x nodes.now separator)
        table.old text.now counts.old }
{
    if counts.len() < COUNTS_WORDS {
        return 1;
    }
    let made = counts_of(counts).intersperse(table, text, nodes, NodeNo(separator));
    settle(made, counts)
}

// The first flags are set where their byte is not 0.
fn set_flags(bytes: &[u8], flags: &mut [bool])
    requires { length bytes.now ≤ length flags.old }
    ensures { take (length bytes.now) flags.new ≡ flags_of bytes.now }
{
    for (i, byte) in bytes.iter().enumerate() {
        flags[i] = *byte != 0;
    }
}

// The layouts of a body between affixes: their prefixes, their suffixes, and for each whether it is nested. Way 0 adds, 1 subtracts.
// The affixes come as three lists; a flag is a byte, for want of a bool that C and Rust agree on.
pub fn pursegable_block(
    body: u32,
    amount: u32,
    way: u32,
    prefixes: &[u32],
    suffixes: &[u32],
    nests: &[u8],
    table: &mut [u32],
    text: &[u8],
    counts: &mut [u32],
) -> u32
    ensures { left result table.new text.now counts.new ≡
        built (λ c t x. format_made c t x (block_from body amount way) prefixes.now suffixes.now (flags_of nests.now))
        table.old text.now counts.old }
{
    if counts.len() < COUNTS_WORDS {
        return 1;
    }
    let n = nests.len();
    if AFFIXES < n {
        return 1;
    }
    let mut flags = [false; AFFIXES];
    set_flags(nests, &mut flags);
    let block = Block {
        body: NodeNo(body),
        amount: Indent(amount),
        way: way,
    };
    let made = block.format(
        counts_of(counts),
        table,
        text,
        prefixes,
        suffixes,
        &flags[..n],
    );
    settle(made, counts)
}
