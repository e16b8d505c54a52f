// Constructors put together of others. All of it is asked for first, or with its first part, so that no other part refuses.
// kept: `let .. else` where a constructor's answer is taken apart: document 01 names that form for the composed constructors.
ghost use Rattle.std.specs.Prelude.{◌≡◌, true, ◌*◌, ◌≤◌, leb, length, take, replicate};
ghost use Rattle.build.specs.Parts.{line, line₀};
ghost use Rattle.build.specs.Solid.{indent_adds};
ghost use Rattle.build.specs.Outcome.{asked_for, asks_for, outcome, first_made};
ghost use Rattle.build.specs.Constructors.{has, text_made, space_made, line_made, line₀_made};
ghost use Rattle.build.specs.Constructors.{softline_made, softline₀_made, hang_made, indent_made};

use crate::{Asks, Counts, Made, Why, words_of};
use table::{Column, HARDLINE, Indent, NodeNo};

impl Counts {
    pub fn space(self, table: &mut [u32], text: &mut [u8]) -> Made
        ensures { outcome result table.new text.new
            ≡ space_made self table.old text.old }
    {
        self.text(table, text, b" ", Column(1))
    }

    // A Hardline or a blank; the Hardline asks for so many nodes, so that a softline's Group can be among them.
    fn broken_or_blank(self, table: &mut [u32], text: &mut [u8], nodes: usize) -> Made
        requires { 3 ≤ nodes }
        ensures { outcome result table.new text.new
            ≡ first_made self table.old text.old (asks_for true true nodes 1) line }
    {
        let asks = Asks {
            bytes: 1,
            ..Asks::of(true, nodes)
        };
        let made = self.node(table, text, asks, words_of(HARDLINE, 0, 0, 0));
        let Ok((c, broken)) = made else {
            return made;
        };
        let made = c.space(table, text);
        let Ok((c, flat)) = made else {
            return made;
        };
        c.flat_alt(table, text, broken, flat)
    }

    // The same with a Nil for the blank.
    // kept: `line_` lends its text as `&` and `line` as `&mut`, which no one parameter or closure serves; what both share is `node`.
    fn broken_or_nil(self, table: &mut [u32], text: &[u8], nodes: usize) -> Made
        requires { 3 ≤ nodes }
        ensures { outcome result table.new text.now
            ≡ first_made self table.old text.now (asks_for true true nodes 0) line₀ }
    {
        let made = self.node(
            table,
            text,
            Asks::of(true, nodes),
            words_of(HARDLINE, 0, 0, 0),
        );
        let Ok((c, broken)) = made else {
            return made;
        };
        let made = c.nil(table, text);
        let Ok((c, flat)) = made else {
            return made;
        };
        c.flat_alt(table, text, broken, flat)
    }

    // Three nodes and one byte.
    pub fn line(self, table: &mut [u32], text: &mut [u8]) -> Made
        ensures { outcome result table.new text.new
            ≡ line_made self table.old text.old }
    {
        self.broken_or_blank(table, text, 3)
    }

    pub fn line_(self, table: &mut [u32], text: &[u8]) -> Made
        ensures { outcome result table.new text.now
            ≡ line₀_made self table.old text.now }
    {
        self.broken_or_nil(table, text, 3)
    }

    pub fn softline(self, table: &mut [u32], text: &mut [u8]) -> Made
        ensures { outcome result table.new text.new
            ≡ softline_made self table.old text.old }
    {
        let made = self.broken_or_blank(table, text, 4);
        let Ok((c, n)) = made else {
            return made;
        };
        c.group(table, text, n)
    }

    pub fn softline_(self, table: &mut [u32], text: &[u8]) -> Made
        ensures { outcome result table.new text.now
            ≡ softline₀_made self table.old text.now }
    {
        let made = self.broken_or_nil(table, text, 4);
        let Ok((c, n)) = made else {
            return made;
        };
        c.group(table, text, n)
    }

    // Nests, then aligns.
    pub fn hang(self, table: &mut [u32], text: &[u8], n: NodeNo, amount: Indent, way: u32) -> Made
        ensures { outcome result table.new text.now
            ≡ hang_made self table.old text.now n.0 amount.0 way }
    {
        let made = self.nest_before(table, text, n, amount, way, 1);
        let Ok((c, nested)) = made else {
            return made;
        };
        c.align(table, text, nested)
    }

    // How many nodes `indent` adds.
    fn indent_adds(self, table: &[u32], n: NodeNo, by: Indent) -> usize
        ensures { result ≡ indent_adds (take (self.nodes * 4) table.now) n.0 by.0 }
    {
        if by.0 == 0 {
            return 2;
        }
        if self.is_nil(table, n) {
            return 3;
        }
        4
    }

    // What `indent` asks for.
    fn ask_indent(self, table: &[u32], bytes: usize, n: NodeNo, by: Indent) -> Result<(), Why>
        ensures { result
            ≡ asked_for self (length table.now) bytes
            (asks_for (has self n.0) (leb by.0 1000) (indent_adds (take (self.nodes * 4) table.now) n.0 by.0) by.0) }
    {
        let asks = Asks {
            amount: by.0 <= 1000,
            bytes: by.0 as usize,
            ..Asks::of(self.has(n), self.indent_adds(table, n, by))
        };
        self.ask(table.len(), bytes, asks)
    }

    // One Text of so many blanks.
    fn blanks(self, table: &mut [u32], text: &mut [u8], by: Indent) -> Made
        requires { by.0 ≤ 1000 }
        ensures { outcome result table.new text.new
            ≡ text_made self table.old text.old (replicate by.0 32) by.0 }
    {
        let blanks = [b' '; 1000];
        let columns = Column::from(by);
        self.text(table, text, &blanks[..by.0 as usize], columns)
    }

    // One Text of blanks before the node, then hangs by as much.
    pub fn indent(self, table: &mut [u32], text: &mut [u8], n: NodeNo, by: Indent) -> Made
        ensures { outcome result table.new text.new
            ≡ indent_made self table.old text.old n.0 by.0 }
    {
        self.ask_indent(table, text.len(), n, by)?;
        let made = self.blanks(table, text, by);
        let Ok((c, blank)) = made else {
            return made;
        };
        let made = c.append(table, text, blank, n);
        let Ok((c, joined)) = made else {
            return made;
        };
        c.hang(table, text, joined, by, 0)
    }
}
