// The four layouts of one block: on one line, with the body on its own, and with one or two affixes on the first line.
use block::Block;
use build::{Counts, Made};
use std::io;
use std::io::Write;
use table::{Column, Indent, NodeNo};

// A line, or a line end, and then the text.
fn after_line(
    c: Counts,
    table: &mut [u32],
    text: &mut [u8],
    bytes: &[u8],
    columns: u32,
    hard: bool,
) -> Made {
    let (c, line) = broken(c, table, text, hard)?;
    let (c, word) = c.text(table, text, bytes, Column(columns))?;
    c.append(table, text, line, word)
}

// A line end, or a line.
fn broken(c: Counts, table: &mut [u32], text: &mut [u8], hard: bool) -> Made {
    if hard {
        return c.hardline(table, text);
    }
    c.line(table, text)
}

// The body, its closing brace, and the block of both under two binders and a brace.
fn closed(
    c: Counts,
    table: &mut [u32],
    text: &mut [u8],
    outer: NodeNo,
    inner: NodeNo,
    brace: NodeNo,
    none: NodeNo,
) -> Made {
    let (c, body) = after_line(c, table, text, b"result: x + y - z", 17, false)?;
    let (c, close) = after_line(c, table, text, b"}", 1, false)?;
    let prefixes = [outer.0, inner.0, brace.0];
    let suffixes = [none.0, none.0, close.0];
    let nests = [true, true, true];
    let block = Block {
        body,
        amount: Indent(4),
        way: 0,
    };
    block.format(c, table, text, &prefixes, &suffixes, &nests)
}

// The opening brace behind two binders, and what it opens. With `hard` the brace starts a line of its own.
fn opened(
    c: Counts,
    table: &mut [u32],
    text: &mut [u8],
    outer: NodeNo,
    inner: NodeNo,
    hard: bool,
) -> Made {
    let (c, brace) = after_line(c, table, text, b"{", 1, hard)?;
    let (c, none) = c.nil(table, text)?;
    closed(c, table, text, outer, inner, brace, none)
}

// The block: a body in braces under two binders.
fn built(table: &mut [u32], text: &mut [u8], hard: bool) -> Made {
    let c = Counts { nodes: 0, bytes: 0 };
    let (c, outer) = c.text(table, text, b"\\x y ->", Column(7))?;
    let (c, inner) = after_line(c, table, text, b"\\z ->", 5, false)?;
    opened(c, table, text, outer, inner, hard)
}

// Builds the block, lays it out and writes it; what can't be built is said.
fn sample<W: Write>(print: &mut W, hard: bool, width: u32) -> io::Result<()> {
    let mut table = [0u32; 1024];
    let mut text = [0u8; 64];
    let Ok((_, n)) = built(&mut table, &mut text, hard) else {
        return print.write_all(b"refused\n");
    };
    let node = n.0 as usize;
    if 256 <= node {
        return Ok(());
    }
    let words = node * 4 + 4;
    let mut out = [0u8; 256];
    let mut events = [0u32; 3];
    let mut work = [0u32; 16384];
    let Ok(laid) = layout::layout(
        &table[..words],
        &text,
        width,
        10000,
        &mut out,
        &mut events,
        &mut work,
    ) else {
        return Ok(());
    };
    let used = laid.used as usize;
    if 256 < used {
        return Ok(());
    }
    print.write_all(&out[..used])?;
    print.write_all(b"\n\n")
}

// All four.
pub fn blocks<W: Write>(print: &mut W) -> io::Result<()> {
    sample(print, false, 35)?;
    sample(print, false, 34)?;
    sample(print, true, 34)?;
    sample(print, false, 20)
}
