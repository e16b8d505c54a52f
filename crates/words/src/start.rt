// The nodes that all share, over an empty table and text.
ghost use Rattle.std.specs.Prelude.{◌≡◌};
ghost use Rattle.table.specs.Document as document;
ghost use Rattle.table.specs.Document.{nil};
ghost use Rattle.build.specs.Outcome.{outcome};
ghost use Rattle.build.specs.Promise.{ValidSoFar};
ghost use Rattle.words.specs.Build.{Is};
ghost use Rattle.words.specs.Start.{answer, breaking, sharing, Started};

use crate::Shared;
use build::{Counts, Why};
use table::NodeNo;

// The counts and the shared nodes; or why there is no room for all of them.
pub type Start = Result<(Counts, Shared), Why>;

// The places to break that are shared beside these two nodes.
fn breaks(c: Counts, table: &mut [u32], text: &mut [u8], none: NodeNo, hardline: NodeNo) -> Start
    ensures same { outcome (answer result) table.new text.new ≡ breaking c table.old text.old }
    ensures shares { ValidSoFar c table.old text.old
        → Is c table.old text.old none nil
        → Is c table.old text.old hardline document.hardline
        → Started result table.new text.new }
{
    let (c, line) = c.line(table, text)?;
    let (c, softline) = c.group(table, text, line)?;
    Ok((
        c,
        Shared {
            none,
            hardline,
            line,
            softline,
        },
    ))
}

// The nodes that all rows and the footer share, over an empty table and text. Where there is no room for all, those before the first that
// has none are left behind.
pub fn share(table: &mut [u32], text: &mut [u8]) -> Start
    ensures same { outcome (answer result) table.new text.new ≡ sharing table.old text.old }
    ensures started { Started result table.new text.new }
{
    let c = Counts { nodes: 0, bytes: 0 };
    let (c, none) = c.nil(table, text)?;
    let (c, hardline) = c.hardline(table, text)?;
    breaks(c, table, text, none, hardline)
}
