// Lists of a block's affixes: joined, guarded, and grouped as Head and Tail. Each is a run on a table of its own: all of it, or a refusal
// for want of nodes (specs/Run.antt).
ghost use Rattle.std.specs.Prelude.{◌≡◌, true, ◌<◌};
ghost use Rattle.build.specs.Draft.{counted};
ghost use Rattle.build.specs.Constructors.{has_all};
ghost use Rattle.block.specs.Affixes.{list, all_nil, bare, guarded, head, tail};
ghost use Rattle.block.specs.Run.{Ready, Shares, Runs};

use crate::Shared;
use build::{Counts, Made};
use table::NodeNo;

// A list joined by itself; an empty one is the shared Nil.
pub fn list(c: Counts, table: &mut [u32], text: &[u8], none: NodeNo, nodes: &[u32]) -> Made
    requires { Ready c table.old text.now × (none.0 < c.nodes) × (has_all c nodes.now ≡ true) }
    ensures { Runs c table.old text.now
        (λ s. list s none.0 nodes.now)
        result table.new }
{
    if nodes.len() == 0 {
        return Ok((c, none));
    }
    c.concat(table, text, nodes)
}

// Whether every one of the nodes is a Nil.
pub fn all_nil(c: Counts, table: &[u32], text: &[u8], nodes: &[u32]) -> bool
    ensures { result ≡ all_nil (counted c table.now text.now) nodes.now }
{
    nodes.iter().all(|&n| c.is_nil(table, NodeNo(n)))
}

// Whether there is more than one before, and every prefix is a Nil.
pub fn bare(c: Counts, table: &[u32], text: &[u8], before: &[u32]) -> bool
    ensures { result ≡ bare (counted c table.now text.now) before.now }
{
    1 < before.len() && all_nil(c, table, text, before)
}

// A node, joined to the guard if asked.
pub fn guarded(
    c: Counts,
    table: &mut [u32],
    text: &[u8],
    shared: Shared,
    n: NodeNo,
    asked: bool,
) -> Made
    requires { Ready c table.old text.now × Shares c shared × (n.0 < c.nodes) }
    ensures { Runs c table.old text.now
        (λ s. guarded s shared n.0 asked)
        result table.new }
{
    let guard = shared.guard;
    if asked {
        return c.append(table, text, n, guard);
    }
    Ok((c, n))
}

// A group of before's prefixes, then the guard if there is more than one.
pub fn head(c: Counts, table: &mut [u32], text: &[u8], shared: Shared, before: &[u32]) -> Made
    requires { Ready c table.old text.now × Shares c shared × (has_all c before.now ≡ true) }
    ensures { Runs c table.old text.now
        (λ s. head s shared before.now)
        result table.new }
{
    let none = shared.none;
    let (c, n) = list(c, table, text, none, before)?;
    let (c, n) = guarded(c, table, text, shared, n, 1 < before.len())?;
    c.group(table, text, n)
}

// A group of Core and before's suffixes.
pub fn tail(
    c: Counts,
    table: &mut [u32],
    text: &[u8],
    shared: Shared,
    n: NodeNo,
    before: &[u32],
) -> Made
    requires { Ready c table.old text.now
        × Shares c shared
        × (n.0 < c.nodes)
        × (has_all c before.now ≡ true) }
    ensures { Runs c table.old text.now
        (λ s. tail s shared n.0 before.now)
        result table.new }
{
    let none = shared.none;
    let (c, suffixes) = list(c, table, text, none, before)?;
    let (c, n) = c.append(table, text, n, suffixes)?;
    c.group(table, text, n)
}
