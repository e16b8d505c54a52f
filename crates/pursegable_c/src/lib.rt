// The static library: what C and Rust programs link. c/pursegable.h says the same in C.
//
// Each export is a function of pursegable under its own name, with the clauses of that function, and only calls it: so a symbol is a name there.
// kept: the functions twice, since a crate can depend on a library only, and an archive holds its own crate's functions alone.
// No export has a `requires`. A slice is a pointer and a length in elements; null or overlapping buffers are the caller's business.
// In order: layout, sheet and label over event records; the layout over the events' words; why a group broke; the constructors and the block layouts.

#![tactic(auto)]

ghost use Rattle.std.specs.Prelude.{◌≡◌};
ghost use Rattle.build.specs.Constructors.{text_made, concat_made, intersperse_made};
ghost use Rattle.block.specs.Block.{format_made};
ghost use Rattle.layout.specs.Called.{default_width, label_width, default_steps};
ghost use Rattle.pursegable.specs.Exported.{ExportedRecords, ExportedWords};
ghost use Rattle.pursegable.specs.WhyExported.{ExportedWhy};
ghost use Rattle.pursegable.specs.Building.{left, built, makes, flags_of, block_from};

use events::Event;

// Lays a table out at a width, with a step limit. The answer is returned, and is the report's first word.
#[unsafe(no_mangle)]
pub extern "C" fn pursegable_layout(
    table: &[u32],
    text: &[u8],
    width: u32,
    limit: u32,
    out: &mut [u8],
    events: &mut [Event],
    work: &mut [u32],
    report: &mut [u32],
) -> u32
    ensures { ExportedRecords
        table.now text.now width limit
        out.old events.old work.old report.old
        result out.new events.new work.new report.new }
{
    pursegable::pursegable_layout(table, text, width, limit, out, events, work, report)
}

// The whole sheet, at the default width and step limit.
#[unsafe(no_mangle)]
pub extern "C" fn pursegable_sheet(
    table: &[u32],
    text: &[u8],
    out: &mut [u8],
    events: &mut [Event],
    work: &mut [u32],
    report: &mut [u32],
) -> u32
    ensures { ExportedRecords
        table.now text.now default_width default_steps
        out.old events.old work.old report.old
        result out.new events.new work.new report.new }
{
    pursegable::pursegable_sheet(table, text, out, events, work, report)
}

// The row label, at its own width and the default step limit.
#[unsafe(no_mangle)]
pub extern "C" fn pursegable_label(
    table: &[u32],
    text: &[u8],
    out: &mut [u8],
    events: &mut [Event],
    work: &mut [u32],
    report: &mut [u32],
) -> u32
    ensures { ExportedRecords
        table.now text.now label_width default_steps
        out.old events.old work.old report.old
        result out.new events.new work.new report.new }
{
    pursegable::pursegable_label(table, text, out, events, work, report)
}

// As pursegable_layout, with the events as words, `rules::EVENT_WORDS` to a record: nothing is copied.
#[unsafe(no_mangle)]
pub extern "C" fn pursegable_layout_words(
    table: &[u32],
    text: &[u8],
    width: u32,
    limit: u32,
    out: &mut [u8],
    events: &mut [u32],
    work: &mut [u32],
    report: &mut [u32],
) -> u32
    ensures { ExportedWords
        table.now text.now width limit
        out.old events.old work.old report.old
        result out.new events.new work.new report.new }
{
    pursegable::pursegable_layout_words(table, text, width, limit, out, events, work, report)
}

// Why the Group that is visited at this step goes flat or broken. The answer is returned, and is the report's first word.
#[unsafe(no_mangle)]
pub extern "C" fn pursegable_why(
    table: &[u32],
    text: &[u8],
    width: u32,
    limit: u32,
    step: u32,
    out: &mut [u8],
    events: &mut [u32],
    work: &mut [u32],
    report: &mut [u32],
) -> u32
    ensures { ExportedWhy
        table.now text.now width limit step
        out.old events.old work.old report.old
        result out.new events.new work.new report.new }
{
    pursegable::pursegable_why(table, text, width, limit, step, out, events, work, report)
}

// Any constructor but text, concat and intersperse. Its operands are a node's words as the table has them.
#[unsafe(no_mangle)]
pub extern "C" fn pursegable_make(
    what: u32,
    a: u32,
    b: u32,
    c: u32,
    table: &mut [u32],
    text: &mut [u8],
    counts: &mut [u32],
) -> u32
    ensures { left result table.new text.new counts.new ≡
        makes what a b c
        table.old text.old counts.old }
{
    pursegable::pursegable_make(what, a, b, c, table, text, counts)
}

// A Text of these bytes, so many columns wide.
#[unsafe(no_mangle)]
pub extern "C" fn pursegable_text(
    bytes: &[u8],
    columns: u32,
    table: &mut [u32],
    text: &mut [u8],
    counts: &mut [u32],
) -> u32
    ensures { left result table.new text.new counts.new ≡
        built (λ c t x. text_made c t x bytes.now columns)
        table.old text.old counts.old }
{
    pursegable::pursegable_text(bytes, columns, table, text, counts)
}

// The nodes joined.
#[unsafe(no_mangle)]
pub extern "C" fn pursegable_concat(
    nodes: &[u32],
    table: &mut [u32],
    text: &[u8],
    counts: &mut [u32],
) -> u32
    ensures { left result table.new text.now counts.new ≡
        built (λ c t x. concat_made c t x nodes.now)
        table.old text.now counts.old }
{
    pursegable::pursegable_concat(nodes, table, text, counts)
}

// The nodes joined, with the separator between each two.
#[unsafe(no_mangle)]
pub extern "C" fn pursegable_intersperse(
    nodes: &[u32],
    separator: u32,
    table: &mut [u32],
    text: &[u8],
    counts: &mut [u32],
) -> u32
    ensures { left result table.new text.now counts.new ≡
        built (λ c t x. intersperse_made c t x nodes.now separator)
        table.old text.now counts.old }
{
    pursegable::pursegable_intersperse(nodes, separator, table, text, counts)
}

// The layouts of a body between affixes: their prefixes, their suffixes, and for each whether it is nested. Way 0 adds, 1 subtracts.
// The affixes come as three lists; a flag is a byte, for want of a bool that C and Rust agree on.
#[unsafe(no_mangle)]
pub extern "C" fn pursegable_block(
    body: u32,
    amount: u32,
    way: u32,
    prefixes: &[u32],
    suffixes: &[u32],
    nests: &[u8],
    table: &mut [u32],
    text: &[u8],
    counts: &mut [u32],
) -> u32
    ensures { left result table.new text.now counts.new ≡
        built (λ c t x. format_made c t x (block_from body amount way) prefixes.now suffixes.now (flags_of nests.now))
        table.old text.now counts.old }
{
    pursegable::pursegable_block(
        body, amount, way, prefixes, suffixes, nests, table, text, counts,
    )
}
