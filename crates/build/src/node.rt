// The constructors of one node, and Text with its bytes.
ghost use Rattle.std.specs.Prelude.{◌≡◌};
ghost use Rattle.build.specs.Outcome.{outcome};
ghost use Rattle.build.specs.Constructors.{nil_made, append_made, group_made, flat_alt_made, nest_made, hardline_made, text_made};
ghost use Rattle.build.specs.Constructors.{annotate_made, union_made, align_made, fail_made};

use crate::{Asks, Counts, Made, words_of};
use table::{
    ALIGN, ANNOTATED, APPEND, Column, FAIL, FLAT_ALT, GROUP, HARDLINE, Indent, NIL, NodeNo, TEXT,
    UNION, columns_right,
};

impl Counts {
    pub fn nil(self, table: &mut [u32], text: &[u8]) -> Made
        ensures { outcome result table.new text.now
            ≡ nil_made self table.old text.now }
    {
        self.one(table, text, true, words_of(NIL, 0, 0, 0))
    }

    pub fn hardline(self, table: &mut [u32], text: &[u8]) -> Made
        ensures { outcome result table.new text.now
            ≡ hardline_made self table.old text.now }
    {
        self.one(table, text, true, words_of(HARDLINE, 0, 0, 0))
    }

    pub fn fail(self, table: &mut [u32], text: &[u8]) -> Made
        ensures { outcome result table.new text.now
            ≡ fail_made self table.old text.now }
    {
        self.one(table, text, true, words_of(FAIL, 0, 0, 0))
    }

    pub fn flat_alt(self, table: &mut [u32], text: &[u8], broken: NodeNo, flat: NodeNo) -> Made
        ensures { outcome result table.new text.now
            ≡ flat_alt_made self table.old text.now broken.0 flat.0 }
    {
        let present = self.has_both(broken, flat);
        self.one(
            table,
            text,
            present,
            words_of(FLAT_ALT, broken.0, flat.0, 0),
        )
    }

    pub fn annotate(self, table: &mut [u32], text: &[u8], n: NodeNo, label: u32) -> Made
        ensures { outcome result table.new text.now
            ≡ annotate_made self table.old text.now n.0 label }
    {
        let present = self.has(n);
        self.one(table, text, present, words_of(ANNOTATED, n.0, label, 0))
    }

    pub fn union(self, table: &mut [u32], text: &[u8], first: NodeNo, second: NodeNo) -> Made
        ensures { outcome result table.new text.now
            ≡ union_made self table.old text.now first.0 second.0 }
    {
        let present = self.has_both(first, second);
        self.one(table, text, present, words_of(UNION, first.0, second.0, 0))
    }

    pub fn align(self, table: &mut [u32], text: &[u8], n: NodeNo) -> Made
        ensures { outcome result table.new text.now
            ≡ align_made self table.old text.now n.0 }
    {
        let present = self.has(n);
        self.one(table, text, present, words_of(ALIGN, n.0, 0, 0))
    }

    // A Nil gives the other node, the left one looked at first.
    pub fn append(self, table: &mut [u32], text: &[u8], a: NodeNo, b: NodeNo) -> Made
        ensures { outcome result table.new text.now
            ≡ append_made self table.old text.now a.0 b.0 }
    {
        let present = self.has_both(a, b);
        if self.is_nil(table, a) {
            return self.given_back(table, text, present, b);
        }
        if self.is_nil(table, b) {
            return self.given_back(table, text, present, a);
        }
        self.one(table, text, present, words_of(APPEND, a.0, b.0, 0))
    }

    // Group, Nil and Text of bytes below 128 are given back.
    pub fn group(self, table: &mut [u32], text: &[u8], n: NodeNo) -> Made
        ensures { outcome result table.new text.now
            ≡ group_made self table.old text.now n.0 }
    {
        let present = self.has(n);
        if self.stays(table, text, n) {
            return self.given_back(table, text, present, n);
        }
        self.one(table, text, present, words_of(GROUP, n.0, 0, 0))
    }

    // Nil is given back, and anything at amount 0. Way 0 adds, 1 subtracts.
    pub fn nest(self, table: &mut [u32], text: &[u8], n: NodeNo, amount: Indent, way: u32) -> Made
        ensures { outcome result table.new text.now
            ≡ nest_made self table.old text.now n.0 amount.0 way }
    {
        self.nest_before(table, text, n, amount, way, 0)
    }

    // Empty bytes make a Nil.
    pub fn text(self, table: &mut [u32], text: &mut [u8], bytes: &[u8], columns: Column) -> Made
        ensures { outcome result table.new text.new
            ≡ text_made self table.old text.old bytes.now columns.0 }
    {
        let size = bytes.len();
        let right = columns_right(bytes, columns);
        let asks = Asks {
            text: right,
            bytes: size,
            ..Asks::of(true, 1)
        };
        self.ask(table.len(), text.len(), asks)?;
        if size == 0 {
            return self.add(table, words_of(NIL, 0, 0, 0));
        }
        let at = self.bytes;
        buffer::copy(bytes, 0, size, text, at as usize);
        let long = size as u32;
        let longer = Counts {
            nodes: self.nodes,
            bytes: at + long,
        };
        longer.add(table, words_of(TEXT, at, long, columns.0))
    }
}
