// The constructors: each adds nodes to the lent table and bytes to the lent text, or refuses and leaves both as they were.
// No public method has a `requires`. Each says its whole outcome by a definition of specs/Constructors.antt, so one outcome is possible.
// Here: what is asked before anything is added, reading the counted nodes, and the parts that ask for a whole.
// node.rt: one node; composed.rt: several; lists.rt: lists of nodes.

#![tactic(auto)]

ghost use Rattle.std.specs.Prelude.{Ok, ◌≡◌, true, ◌&&◌, ◌||◌, [], ◌∷◌, ◌++◌, ◌+◌, ◌-◌, ◌*◌, ◌≤◌, ◌<◌, length, take, eqb};
ghost use Rattle.table.specs.Node.{word};
ghost use Rattle.build.specs.Draft.{counts_of, counted, over, older, add};
ghost use Rattle.build.specs.Parts.{stays, nest};
ghost use Rattle.build.specs.Solid.{nest_adds};
ghost use Rattle.build.specs.Outcome.{number, fits, asked_for, asks_for, answered, outcome, made, first_made};
ghost use Rattle.build.specs.Constructors.{has, nest_right};

use buffer::utf8::below_128;
use table::{GROUP, Indent, NEST, NIL, NodeNo, TEXT, Words};

mod composed;
mod lists;
mod node;

// How many nodes and text bytes are in use.
// kept: (counts, table, text) are lent apart. A struct with two `&mut` fields would have each method promise of both that it keeps
// its reference, two clauses more in each contract.
#[derive(Clone, Copy)]
pub struct Counts {
    pub nodes: u32,
    pub bytes: u32,
}

// Why a constructor refuses; as u32 document 01's number.
#[derive(Clone, Copy)]
pub enum Why {
    Sizes,
    Operand,
    Amount,
    Text,
    Bytes,
    Nodes,
}

impl From<Why> for u32 {
    ghost from_gives = { λ why n. n ≡ number why };

    fn from(why: Why) -> u32
        ensures { result ≡ number why }
    {
        match why {
            Why::Sizes => 1,
            Why::Operand => 11,
            Why::Amount => 3,
            Why::Text => 5,
            Why::Bytes => 12,
            Why::Nodes => 10,
        }
    }
}

// What a constructor answers: the counts with the new node, or why it refuses.
pub type Made = Result<(Counts, NodeNo), Why>;

// What a constructor asks for before it adds anything: operands present, amount and text right, nodes and bytes to add.
#[derive(Clone, Copy)]
pub struct Asks {
    pub present: bool,
    pub amount: bool,
    pub text: bool,
    pub nodes: usize,
    pub bytes: usize,
}

impl Asks {
    // So many nodes and no byte, with nothing but the operands to be wrong.
    fn of(present: bool, nodes: usize) -> Asks
        ensures { result ≡ asks_for present true nodes 0 }
    {
        Asks {
            present,
            amount: true,
            text: true,
            nodes,
            bytes: 0,
        }
    }
}

// A node's words: its kind, then its own, 0 where it has none.
fn words_of(kind: u32, a: u32, b: u32, c: u32) -> Words
    ensures { result ≡ record { kind = kind; a = a; b = b; c = c } }
{
    Words { kind, a, b, c }
}

// Whether `more` fits behind `before`, below the limit and in what is lent.
fn fits(before: u32, more: usize, limit: usize, lent: usize) -> bool
    ensures { result ≡ fits before (before + more) limit lent }
{
    let Some(after) = (before as usize).checked_add(more) else {
        return false;
    };
    more == 0 || after <= limit && after <= lent
}

// Amount 0 to 1,000; 0 adds, 1 subtracts.
// kept: any way gets an answer, `Why::Amount` for one that is neither; a narrower type would ask more of callers.
pub fn nest_right(amount: Indent, way: u32) -> bool
    ensures { result ≡ nest_right amount.0 way }
{
    amount.0 <= 1000 && way <= 1
}

// Puts the words where node n stands.
// kept: four stores, for speed. 16 million constructors took 0.23 s so, and 0.39 s by `copy_from_slice` of the four words.
fn put(table: &mut [u32], n: usize, words: Words)
    requires { n * 4 + 3 < length table.old }
    ensures { table.new
        ≡ over (take (n * 4) table.old ++ (words.kind ∷ words.a ∷ words.b ∷ words.c ∷ [])) table.old }
{
    let at = n * 4;
    table[at] = words.kind;
    table[at + 1] = words.a;
    table[at + 2] = words.b;
    table[at + 3] = words.c;
}

impl Counts {
    // The first refusal, in document 01's order, of what is asked for over a table and a text of these lengths.
    pub fn ask(self, words: usize, bytes: usize, asks: Asks) -> Result<(), Why>
        ensures { result ≡ asked_for self words bytes asks }
    {
        if words / 4 < self.nodes as usize || bytes < self.bytes as usize {
            return Err(Why::Sizes);
        }
        if !asks.present {
            return Err(Why::Operand);
        }
        if !asks.amount {
            return Err(Why::Amount);
        }
        if !asks.text {
            return Err(Why::Text);
        }
        if !fits(self.bytes, asks.bytes, 65536, bytes) {
            return Err(Why::Bytes);
        }
        if !fits(self.nodes, asks.nodes, 1024, words / 4) {
            return Err(Why::Nodes);
        }
        Ok(())
    }

    // Word i of node n; 0 where n is not counted.
    fn word(self, table: &[u32], n: NodeNo, i: usize) -> u32
        requires { i < 4 }
        ensures { result ≡ word (take (self.nodes * 4) table.now) n.0 i }
    {
        if !self.has(n) {
            return 0;
        }
        table.get(n.0 as usize * 4 + i).copied().unwrap_or(0)
    }

    // By the kind word alone.
    pub fn is_nil(self, table: &[u32], n: NodeNo) -> bool
        ensures { result ≡ eqb (word (take (self.nodes * 4) table.now) n.0 0) 0 }
    {
        self.word(table, n, 0) == NIL
    }

    // Whether n is a present node.
    pub fn has(self, n: NodeNo) -> bool
        ensures { result ≡ has self n.0 }
    {
        n.0 < self.nodes
    }

    fn has_both(self, a: NodeNo, b: NodeNo) -> bool
        ensures { result ≡ has self a.0 && has self b.0 }
    {
        self.has(a) && self.has(b)
    }

    // Whether Group gives the node back.
    fn stays(self, table: &[u32], text: &[u8], n: NodeNo) -> bool
        ensures { result ≡ stays (counted self table.now text.now) n.0 }
    {
        let k = self.word(table, n, 0);
        if k == NIL {
            return true;
        }
        if k == GROUP {
            return true;
        }
        if k != TEXT {
            return false;
        }
        let from = self.word(table, n, 1) as usize;
        let size = self.word(table, n, 2) as usize;
        let end = from + size;
        if (self.bytes as usize) < end {
            return false;
        }
        if text.len() < end {
            return false;
        }
        below_128(&text[from..end])
    }

    // The next node, where there is room for it.
    fn add(self, table: &mut [u32], words: Words) -> Made
        requires { (self.nodes < 1024) × (self.nodes * 4 + 3 < length table.old) }
        ensures { (result ≡ Ok (counts_of (self.nodes + 1) self.bytes, record { 0 = self.nodes }))
            × (table.new
            ≡ over (take (self.nodes * 4) table.old ++ (words.kind ∷ words.a ∷ words.b ∷ words.c ∷ [])) table.old) }
    {
        let nodes = self.nodes;
        put(table, nodes as usize, words);
        Ok((
            Counts {
                nodes: nodes + 1,
                bytes: self.bytes,
            },
            NodeNo(nodes),
        ))
    }

    // A node of these words, with which all of a whole is asked for that it is the first part of.
    fn node(self, table: &mut [u32], text: &[u8], asks: Asks, words: Words) -> Made
        requires { 0 < asks.nodes }
        ensures { outcome result table.new text.now
            ≡ first_made self table.old text.now asks
            (λ s. add s words.kind words.a words.b words.c) }
    {
        self.ask(table.len(), text.len(), asks)?;
        self.add(table, words)
    }

    // One node of these words, by itself; nothing but its operands can be wrong.
    fn one(self, table: &mut [u32], text: &[u8], present: bool, words: Words) -> Made
        ensures { outcome result table.new text.now
            ≡ made self table.old text.now present true true
            (λ s. add s words.kind words.a words.b words.c) }
    {
        self.node(table, text, Asks::of(present, 1), words)
    }

    // An older node, given back, with which more is asked for over a table and a text of these lengths.
    fn older(self, words: usize, bytes: usize, asks: Asks, n: NodeNo) -> Made
        ensures { result ≡ answered (asked_for self words bytes asks) (Ok (self, n)) }
    {
        self.ask(words, bytes, asks)?;
        Ok((self, n))
    }

    // An older node by itself; nothing but the operands can be wrong.
    fn given_back(self, table: &[u32], text: &[u8], present: bool, n: NodeNo) -> Made
        ensures { outcome result table.now text.now
            ≡ made self table.now text.now present true true (λ s. older s n.0) }
    {
        self.older(table.len(), text.len(), Asks::of(present, 0), n)
    }

    // Whether Nest gives the node back.
    fn nest_stays(self, table: &[u32], n: NodeNo, amount: Indent) -> bool
        ensures { result ≡ eqb (word (take (self.nodes * 4) table.now) n.0 0) 0 || eqb amount.0 0 }
    {
        self.is_nil(table, n) || amount.0 == 0
    }

    // A Nest, which asks for so many nodes behind it too.
    fn nest_before(
        self,
        table: &mut [u32],
        text: &[u8],
        n: NodeNo,
        amount: Indent,
        way: u32,
        more: usize,
    ) -> Made
        requires { more ≤ 1 }
        ensures { outcome result table.new text.now
            ≡ first_made self table.old text.now
            (asks_for (has self n.0) (nest_right amount.0 way) (nest_adds (take (self.nodes * 4) table.old) n.0 amount.0 + more) 0)
            (λ s. nest s n.0 amount.0 way) }
    {
        let amount_right = nest_right(amount, way);
        let present = self.has(n);
        if self.nest_stays(table, n, amount) {
            let asks = Asks {
                amount: amount_right,
                ..Asks::of(present, more)
            };
            return self.older(table.len(), text.len(), asks, n);
        }
        let asks = Asks {
            amount: amount_right,
            ..Asks::of(present, 1 + more)
        };
        self.node(table, text, asks, words_of(NEST, n.0, amount.0, way))
    }
}
