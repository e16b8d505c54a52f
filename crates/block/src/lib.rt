// The block layouts, over what the constructors promise. Each part is asked of them in document 01's order; parts.rt has an
// alternative and its Core, affixes.rt Head and Tail, lists.rt the affixes as they are handed on. `format` has no `requires`, and says
// its whole outcome by one definition, so one outcome is possible.

// kept: that counts lie in the table and nodes below them stands in each clause: it ties them to the table lent beside (document 01).

#![tactic(auto)]

ghost use Rattle.std.specs.Prelude.{◌≡◌, true, ◌+◌, ◌-◌, ◌<◌, ◌≤◌, length};
ghost use Rattle.build.specs.Outcome.{outcome, made};
ghost use Rattle.build.specs.Constructors.{nest_right};
ghost use Rattle.block.specs.Block.{alternative, unions, layouts, block_of, sizes_right, operands, least, format_made};
ghost use Rattle.block.specs.Run.{Ready, Runs};
ghost use Rattle.block.specs.Operands.{AllPresent, Askable};

use build::{Asks, Counts, Made, Why};
use lists::Affixes;
use parts::alternative;
use table::{Indent, NodeNo};

mod affixes;
mod lists;
mod parts;

// What stands in a block, and by how much it is nested. Way 0 adds, 1 subtracts.
// kept: `way` by number, as the constructors take it: any has an answer (`build::nest_right`), and C hands it on.
#[derive(Clone, Copy)]
pub struct Block {
    pub body: NodeNo,
    pub amount: Indent,
    pub way: u32,
}

// The Nil and the guard that all alternatives share.
#[derive(Clone, Copy)]
pub struct Shared {
    pub none: NodeNo,
    pub guard: NodeNo,
}

// The alternatives from `split` affixes before down to one, each in a union with what stands.
fn unions(
    c: Counts,
    table: &mut [u32],
    text: &[u8],
    block: Block,
    shared: Shared,
    affixes: Affixes,
    n: NodeNo,
    split: usize,
) -> Made
    requires { Ready c table.old text.now
        × AllPresent c block shared affixes.prefixes.now affixes.suffixes.now
        × (split ≤ length affixes.prefixes.now)
        × (n.0 < c.nodes) }
    ensures { Runs c table.old text.now
        (λ s. unions s block shared affixes.entry.prefixes.now affixes.entry.suffixes.now affixes.entry.nests.now n.0 split)
        result table.new }
{
    let mut c = c;
    let mut n = n;
    for split in (1..=split).rev() {
        let (next, other) = alternative(c, table, text, block, shared, affixes, split)?;
        (c, n) = next.union(table, text, n, other)?;
    }
    Ok((c, n))
}

// One Nil, one Fail and the guard; then all affixes before, and down to one.
fn layouts(c: Counts, table: &mut [u32], text: &[u8], block: Block, affixes: Affixes) -> Made
    requires { Ready c table.old text.now × Askable c block affixes.prefixes.now affixes.suffixes.now }
    ensures { Runs c table.old text.now
        (λ s. layouts s block affixes.entry.prefixes.now affixes.entry.suffixes.now affixes.entry.nests.now
        (length affixes.entry.prefixes.now - 1))
        result table.new }
{
    let all = affixes.prefixes.len();
    let (c, none) = c.nil(table, text)?;
    let (c, failing) = c.fail(table, text)?;
    let (c, guard) = c.flat_alt(table, text, failing, none)?;
    let shared = Shared { none, guard };
    let (c, n) = alternative(c, table, text, block, shared, affixes, all)?;
    unions(c, table, text, block, shared, affixes, n, all - 1)
}

// All layouts, built on a table of their own and laid over the lent one if they fit, so that a refusal leaves it as it was.
fn placed(c: Counts, table: &mut [u32], text: &[u8], block: Block, affixes: Affixes) -> Made
    requires { Ready c table.old text.now
        × Askable c block affixes.prefixes.now affixes.suffixes.now
        × (c.nodes + 3 ≤ 1024) }
    ensures { outcome result table.new text.now
        ≡ made c table.old text.now true true true
        (λ s. layouts s block affixes.entry.prefixes.now affixes.entry.suffixes.now affixes.entry.nests.now
        (length affixes.entry.prefixes.now - 1)) }
{
    let mut own = [0u32; 4096];
    let used = c.nodes as usize * 4;
    buffer::copy(table, 0, used, &mut own, 0);
    let (d, n) = layouts(c, &mut own, text, block, affixes)?;
    let nodes = d.nodes as usize;
    if table.len() / 4 < nodes {
        return Err(Why::Nodes);
    }
    buffer::copy(&own, used, nodes * 4 - used, table, used);
    Ok((d, n))
}

// At most 8 affixes, each with a prefix, a suffix and a flag.
fn sizes_right(prefixes: usize, suffixes: usize, nests: usize) -> bool
    ensures { result ≡ sizes_right prefixes suffixes nests }
{
    prefixes <= 8 && suffixes == prefixes && nests == prefixes
}

fn operands(c: Counts, block: Block, affixes: Affixes) -> bool
    ensures { result ≡ operands c block affixes.entry.prefixes.now affixes.entry.suffixes.now }
{
    c.has(block.body) && (c.has_all(affixes.prefixes) && c.has_all(affixes.suffixes))
}

// What is built at least: nothing without affixes, else the Nil, the Fail and the guard.
fn least(affixes: usize) -> usize
    ensures { result ≡ least affixes }
{
    if affixes == 0 { 0 } else { 3 }
}

// What is asked for the whole is asked first: with the Nil, the Fail and the guard, if there are affixes.
fn within(c: Counts, table: &mut [u32], text: &[u8], block: Block, affixes: Affixes) -> Made
    ensures { outcome result table.new text.now
        ≡ made c table.old text.now
        (operands c block affixes.entry.prefixes.now affixes.entry.suffixes.now)
        (nest_right block.amount.0 block.way)
        true
        (λ s. block_of s block affixes.entry.prefixes.now affixes.entry.suffixes.now affixes.entry.nests.now) }
{
    let body = block.body;
    let amount = block.amount;
    let present = operands(c, block, affixes);
    let right = build::nest_right(amount, block.way);
    let few = least(affixes.prefixes.len());
    c.ask(
        table.len(),
        text.len(),
        Asks {
            present,
            amount: right,
            text: true,
            nodes: few,
            bytes: 0,
        },
    )?;
    if affixes.prefixes.is_empty() {
        return Ok((c, body));
    }
    placed(c, table, text, block, affixes)
}

impl Block {
    // The block layouts of the body between the affixes, in document 01's order. The affixes come as three lists: their prefixes,
    // their suffixes, and whether each is nested.
    pub fn format(
        self,
        c: Counts,
        table: &mut [u32],
        text: &[u8],
        prefixes: &[u32],
        suffixes: &[u32],
        nests: &[bool],
    ) -> Made
        ensures { outcome result table.new text.now
            ≡ format_made c table.old text.now
            self prefixes.now suffixes.now nests.now }
    {
        if sizes_right(prefixes.len(), suffixes.len(), nests.len()) {
            let affixes = Affixes {
                prefixes,
                suffixes,
                nests,
            };
            return within(c, table, text, self, affixes);
        }
        Err(Why::Sizes)
    }
}
