// An alternative and its Core, each a run on a table of its own: all of it, or a refusal for want of nodes (specs/Run.antt).
ghost use Rattle.std.specs.Prelude.{◌≡◌, true, ◌<◌, ◌≤◌, length};
ghost use Rattle.build.specs.Constructors.{has_all};
ghost use Rattle.block.specs.Block.{nested, core, wrap, wraps, alternative};
ghost use Rattle.block.specs.Run.{Ready, Shares, Runs};
ghost use Rattle.block.specs.Operands.{Bodied, AllPresent};

use crate::affixes::{bare, guarded, head, list, tail};
use crate::lists::Affixes;
use crate::{Block, Shared};
use build::{Counts, Made};
use table::NodeNo;

// A node, nested by the amount if flagged.
pub fn nested(
    c: Counts,
    table: &mut [u32],
    text: &[u8],
    block: Block,
    n: NodeNo,
    flag: bool,
) -> Made
    requires { Ready c table.old text.now × Bodied c block × (n.0 < c.nodes) }
    ensures { Runs c table.old text.now
        (λ s. nested s block n.0 flag)
        result table.new }
{
    let amount = block.amount;
    if flag {
        return c.nest(table, text, n, amount, block.way);
    }
    Ok((c, n))
}

// Body, joined to the guard if asked, nested, then after's suffixes.
pub fn core(
    c: Counts,
    table: &mut [u32],
    text: &[u8],
    block: Block,
    shared: Shared,
    asked: bool,
    after: &[u32],
) -> Made
    requires { Ready c table.old text.now × Bodied c block × Shares c shared × (has_all c after.now ≡ true) }
    ensures { Runs c table.old text.now
        (λ s. core s block shared asked after.now)
        result table.new }
{
    let body = block.body;
    let none = shared.none;
    let (c, n) = guarded(c, table, text, shared, body, asked)?;
    let (c, n) = nested(c, table, text, block, n, true)?;
    let (c, suffixes) = list(c, table, text, none, after)?;
    c.append(table, text, n, suffixes)
}

// A prefix joined before what stands, nested if flagged, grouped.
pub fn wrap(
    c: Counts,
    table: &mut [u32],
    text: &[u8],
    block: Block,
    n: NodeNo,
    prefix: NodeNo,
    flag: bool,
) -> Made
    requires { Ready c table.old text.now × Bodied c block × (n.0 < c.nodes) × (prefix.0 < c.nodes) }
    ensures { Runs c table.old text.now
        (λ s. wrap s block n.0 prefix.0 flag)
        result table.new }
{
    let (c, n) = c.append(table, text, prefix, n)?;
    let (c, n) = nested(c, table, text, block, n, flag)?;
    c.group(table, text, n)
}

// From the last of after to the first.
pub fn wraps(
    c: Counts,
    table: &mut [u32],
    text: &[u8],
    block: Block,
    n: NodeNo,
    prefixes: &[u32],
    nests: &[bool],
) -> Made
    requires { Ready c table.old text.now
        × Bodied c block
        × (n.0 < c.nodes)
        × (has_all c prefixes.now ≡ true)
        × (length nests.now ≡ length prefixes.now) }
    ensures { Runs c table.old text.now
        (λ s. wraps s block n.0 prefixes.now nests.now)
        result table.new }
{
    let mut c = c;
    let mut n = n;
    for (&prefix, &flag) in prefixes.iter().rev().zip(nests.iter().rev()) {
        (c, n) = wrap(c, table, text, block, n, NodeNo(prefix), flag)?;
    }
    Ok((c, n))
}

// Head joined to Tail, where "before" is the first `split` affixes.
pub fn alternative(
    c: Counts,
    table: &mut [u32],
    text: &[u8],
    block: Block,
    shared: Shared,
    affixes: Affixes,
    split: usize,
) -> Made
    requires { Ready c table.old text.now
        × AllPresent c block shared affixes.prefixes.now affixes.suffixes.now
        × (split ≤ length affixes.prefixes.now) }
    ensures { Runs c table.old text.now
        (λ s. alternative s block shared affixes.entry.prefixes.now affixes.entry.suffixes.now affixes.entry.nests.now split)
        result table.new }
{
    let (c, front) = head(c, table, text, shared, &affixes.prefixes[..split])?;
    let asked = bare(c, table, text, &affixes.prefixes[..split]);
    let (c, middle) = core(
        c,
        table,
        text,
        block,
        shared,
        asked,
        &affixes.suffixes[split..],
    )?;
    let (c, wrapped) = wraps(
        c,
        table,
        text,
        block,
        middle,
        &affixes.prefixes[split..],
        &affixes.nests[split..],
    )?;
    let (c, back) = tail(c, table, text, shared, wrapped, &affixes.suffixes[..split])?;
    c.append(table, text, front, back)
}
