// The README's example: two words and a softline, built by the constructors and laid out at 12 columns.
use build::{Counts, Made};
use std::io;
use std::io::Write;
use table::Column;

// The document's counts: two words with a softline between them.
fn built(table: &mut [u32], text: &mut [u8]) -> Made {
    let c = Counts { nodes: 0, bytes: 0 };
    let (c, note) = c.text(table, text, b"Fis", Column(3))?;
    let (c, blank) = c.softline(table, text)?;
    let (c, remark) = c.text(table, text, b"neu beledern", Column(12))?;
    c.concat(table, text, &[note.0, blank.0, remark.0])
}

// Builds the three nodes, lays them out and writes them.
pub fn example<W: Write>(print: &mut W) -> io::Result<()> {
    let mut table = [0u32; 64];
    let mut text = [0u8; 64];
    let Ok((c, _)) = built(&mut table, &mut text) else {
        return Ok(());
    };
    let words = c.nodes as usize * 4;
    let bytes = c.bytes as usize;
    if 64 < words || 64 < bytes {
        return Ok(());
    }
    let mut out = [0u8; 64];
    let mut events = [0u32; 3];
    let mut work = [0u32; 16384];
    let Ok(laid) = layout::layout(
        &table[..words],
        &text[..bytes],
        12,
        1000,
        &mut out,
        &mut events,
        &mut work,
    ) else {
        return Ok(());
    };
    let used = laid.used as usize;
    if 64 < used {
        return Ok(());
    }
    print.write_all(&out[..used])?;
    print.write_all(b"\n")
}
