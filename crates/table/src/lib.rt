// The node table: the types of its numbers, what is wrong with one node, and validation with answers 1 to 5.
// kind.rt: the kinds by name and as a table. text.rt: what is right in a Text. refusal.rt: why a call is refused.
// No public function has a `requires`. Each promise is an equation with a definition of specs/, so one answer and one place are
// possible for each table and text, and two outcomes that a promise allows are equal.

#![tactic(auto)]

ghost use Rattle.std.specs.Prelude.{◌≡◌, true, List, ℕ, ◌/◌, ◌≤◌, length};
ghost use Rattle.table.specs.Kinds.{kinds};
ghost use Rattle.table.specs.Refusal.{answer_of};
ghost use Rattle.table.specs.Parts.{Tells};
ghost use Rattle.table.specs.Fault.{unused_zero, children_below, nest_in_range, fault_of, first_fault, sizes_right, check};

mod kind;
mod refusal;
mod text;

pub use kind::{
    ALIGN, ANNOTATED, APPEND, FAIL, FLAT_ALT, GROUP, HARDLINE, KIND_COUNT, Kind, KindInfo, NEST,
    NIL, TEXT, UNION, all_kinds,
};
pub use refusal::Refusal;
use text::Seen;
pub use text::columns_right;

// A node's four words, where they travel together.
// kept: numbers, since they are words of the table that C lends, and document 01 names the lent slice read four words to a node.
#[derive(Clone, Copy)]
pub struct Words {
    pub kind: u32,
    pub a: u32,
    pub b: u32,
    pub c: u32,
}

// A column of the sheet.
#[derive(Clone, Copy)]
pub struct Column(pub u32);

// An indentation.
#[derive(Clone, Copy)]
pub struct Indent(pub u32);

// A node's number.
#[derive(Clone, Copy)]
pub struct NodeNo(pub u32);

// Align sets the indentation to the column.
impl From<Column> for Indent {
    ghost from_gives = { λ column indent. indent.0 ≡ column.0 };

    fn from(column: Column) -> Indent {
        Indent(column.0)
    }
}

// The indentation that a Hardline writes blanks to becomes the column.
impl From<Indent> for Column {
    ghost from_gives = { λ indent column. column.0 ≡ indent.0 };

    fn from(indent: Indent) -> Column {
        Column(indent.0)
    }
}

// The first fault of a table: why it is refused, and the node it is at; node 0 where the sizes are wrong.
#[derive(Clone, Copy)]
pub struct Fault {
    pub why: Refusal,
    pub place: NodeNo,
}

// ---- one node

impl Words {
    // Words that the kind doesn't use are 0.
    fn unused_zero(self, used: u32) -> bool
        ensures { result ≡ unused_zero used self.a self.b self.c }
    {
        match used {
            0 => (self.a == 0) & (self.b == 0) & (self.c == 0),
            1 => (self.b == 0) & (self.c == 0),
            2 => self.c == 0,
            _ => true,
        }
    }

    // A child's number is below its parent's.
    fn children_below(self, n: NodeNo, children: u32) -> bool
        ensures { result ≡ children_below n.0 children self.a self.b }
    {
        match children {
            0 => true,
            1 => self.a < n.0,
            _ => (self.a < n.0) & (self.b < n.0),
        }
    }

    // Amount 0 to 1,000; 0 adds, 1 subtracts.
    fn nest_in_range(self) -> bool
        ensures { result ≡ nest_in_range self.kind self.b self.c }
    {
        self.kind != NEST || (self.b <= 1000 && self.c <= 1)
    }

    // Whether the node is plainly right: an Append or a Group of nodes below it, the most common kinds. `false` decides nothing. Their
    // children and used words are those of KINDS: `append-entry` and `group-entry` of proofs/KindRule.
    // kept: by the table alone such a node costs 35 instructions in place of 19 (callgrind, 1,024 joins and groups).
    fn plainly_right(self, n: NodeNo) -> bool
        ensures { result ≡ true → (text : List ℕ) → fault_of text n.0 self.kind self.a self.b self.c ≡ 0 }
    {
        match self.kind {
            APPEND => (self.a < n.0) & (self.b < n.0) & (self.c == 0),
            GROUP => (self.a < n.0) & (self.b == 0) & (self.c == 0),
            _ => false,
        }
    }

    // The first of 2, 3, 4, 5. By KINDS a Text uses all its words and has no child (`text-entry` of proofs/KindRule), so it is looked at
    // first, by itself.
    fn fault(self, n: NodeNo, seen: &Seen, infos: &[KindInfo; 11]) -> Result<(), Refusal>
        requires { infos.now ≡ kinds }
        ensures { answer_of result ≡ fault_of seen.now.text.now n.0 self.kind self.a self.b self.c }
    {
        let kind = Kind::try_from(self.kind)?;
        if let Kind::Text = kind {
            return seen.fault(self.a, self.b, self.c);
        }
        let info = kind.info(infos);
        if !self.unused_zero(info.words) {
            return Err(Refusal::BadKind);
        }
        if !self.children_below(n, info.children) {
            return Err(Refusal::BadChild);
        }
        if !self.nest_in_range() {
            return Err(Refusal::BadChild);
        }
        Ok(())
    }
}

// ---- the whole table

// The first fault of the nodes from 0 up, unreachable ones too.
fn first_fault(table: &[u32], seen: &Seen) -> Result<(), Fault>
    requires { length table.now ≤ 4096 }
    ensures { Tells result (first_fault table.now seen.now.text.now (length table.now / 4)) }
{
    let infos = all_kinds();
    let (nodes, _) = table.as_chunks::<4>();
    for (n, &[kind, a, b, c]) in nodes.iter().enumerate() {
        let place = NodeNo(n as u32);
        let node = Words { kind, a, b, c };
        if node.plainly_right(place) {
            continue;
        }
        if let Err(why) = node.fault(place, seen, &infos) {
            return Err(Fault { why, place });
        }
    }
    Ok(())
}

fn sizes_right(words: usize, bytes: usize) -> bool
    ensures { result ≡ sizes_right words bytes }
{
    (words != 0) & (words % 4 == 0) & (words <= 4096) & (bytes <= 65536)
}

// Whether a table with its text is valid, else its first fault: answers 1 to 5 with the place, in document 01's order.
pub fn validate(table: &[u32], text: &[u8]) -> Result<(), Fault>
    ensures { Tells result (check table.now text.now) }
{
    if !sizes_right(table.len(), text.len()) {
        return Err(Fault {
            why: Refusal::BadSize,
            place: NodeNo(0),
        });
    }
    first_fault(table, &Seen::of(text))
}
