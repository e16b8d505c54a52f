// Which constructor a number makes: a kind's number its own, and the numbers after the kinds' the composed ones.
// Those that write into the text are apart: to lend a text that is only read is cheaper to check.
// kept: numbers and a match over them, since C names a constructor by its number.
ghost use Rattle.std.specs.Prelude.{◌≡◌};
ghost use Rattle.build.specs.Outcome.{outcome};
ghost use Rattle.pursegable.specs.Building.{known, reading_made, any_made};

use build::{Counts, Made};
use table::{Indent, NodeNo};

// Those after the kinds' numbers.
const SPACE: u32 = 11;

const LINE: u32 = 12;

const LINE_: u32 = 13;

const SOFTLINE: u32 = 14;

const SOFTLINE_: u32 = 15;

const HANG: u32 = 16;

const INDENT: u32 = 17;

const ENCLOSE: u32 = 18;

// Whether a number makes something here: Text has an export of its own.
pub fn known(what: u32) -> bool
    ensures { result ≡ known what }
{
    (what <= ENCLOSE) & (what != table::TEXT)
}

// A constructor that leaves the text as it is. Each arm returns by itself: an answer that is carried to the end costs a check at every place.
fn reading(what: u32, a: u32, b: u32, d: u32, c: Counts, table: &mut [u32], text: &[u8]) -> Made
    ensures { outcome result table.new text.now ≡ reading_made what a b d c table.old text.now }
{
    let n = NodeNo(a);
    let m = NodeNo(b);
    match what {
        table::NIL => return c.nil(table, text),
        table::APPEND => return c.append(table, text, n, m),
        table::GROUP => return c.group(table, text, n),
        table::FLAT_ALT => return c.flat_alt(table, text, n, m),
        table::NEST => return c.nest(table, text, n, Indent(b), d),
        table::HARDLINE => return c.hardline(table, text),
        table::ANNOTATED => return c.annotate(table, text, n, b),
        table::UNION => return c.union(table, text, n, m),
        table::ALIGN => return c.align(table, text, n),
        table::FAIL => return c.fail(table, text),
        LINE_ => return c.line_(table, text),
        SOFTLINE_ => return c.softline_(table, text),
        HANG => return c.hang(table, text, n, Indent(b), d),
        _ => return c.enclose(table, text, n, m, NodeNo(d)),
    }
}

// Any constructor: here those that write blanks.
pub fn any(what: u32, a: u32, b: u32, d: u32, c: Counts, table: &mut [u32], text: &mut [u8]) -> Made
    ensures { outcome result table.new text.new ≡ any_made what a b d c table.old text.old }
{
    match what {
        SPACE => return c.space(table, text),
        LINE => return c.line(table, text),
        SOFTLINE => return c.softline(table, text),
        INDENT => return c.indent(table, text, NodeNo(a), Indent(b)),
        _ => return reading(what, a, b, d, c, table, text),
    }
}
