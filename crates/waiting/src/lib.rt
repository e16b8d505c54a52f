// How the lent work area holds what waits: all that reads or writes it is here.
//
// It has three parts, each with a place for every entry that can wait. The first holds the entries, the top last: node, indentation, mode,
// tag. The end of an annotation has its label for an indentation. The second holds what trials saved, at the place of the trial's end:
// column, bytes, events, whether a Text had ended past width, and two words that are free. The third holds the numbers of the nodes that a
// fit test has still to walk.
//
// First the pushes, then what is read of an entry, then the searches.
// Nothing here is an entry point of the library: each function says what it asks of its caller.

// kept: the area's length and a height's bound stand in each clause: the area is lent (document 01), so no type holds them.

#![tactic(auto)]

ghost use Rattle.std.specs.Prelude.{◌≡◌, [], ◌∷◌, ◌+◌, ◌*◌, ◌≤◌, ◌<◌, length, get_or};
ghost use Rattle.std.proofs.lemmas.List.Edits.{sets};
ghost use Rattle.machine.specs.Waiting.{trial, closing, next_indent};
ghost use Rattle.waiting.specs.Area.{area_words, fit_from, tag_in, tag_word, tag_at, number_at, indent_at, due_at, saved_words_at};
ghost use Rattle.waiting.specs.Stack.{mode_of, saved_of, top, stack_of, FitPushed, Nearest};

use machine::PLACES;
use page::Page;
use table::{Column, Indent, NodeNo};

// The words of an entry, and of what a trial saved.
const ENTRY_WORDS: usize = 4;

const SAVED_WORDS: usize = 6;

// Where what trials saved starts, and where the fit test's nodes start.
const SAVED: usize = PLACES * ENTRY_WORDS;

const FIT: usize = SAVED + PLACES * SAVED_WORDS;

// What an entry is: a node, the end of a trial, the end of an annotation.
#[derive(Clone, Copy, PartialEq, Eq)]
pub enum Tag {
    Node,
    Trial,
    Closing,
}

// 0 is broken, any other flat.
// kept: an enum has a tag of one byte, and the bytes behind it are copied at each turn: with one here and a bool for `past` a call took 19 to 28%
// more instructions, and 25 to 43% more time.
#[derive(Clone, Copy)]
pub struct Mode(pub u32);

// A tag as a word of the work area.
impl From<Tag> for u32 {
    ghost from_gives = { λ tag word. word ≡ tag_word tag };

    fn from(tag: Tag) -> u32 {
        tag as u32
    }
}

impl From<u32> for Tag {
    ghost from_gives = { λ word tag. tag ≡ tag_in word };

    fn from(word: u32) -> Tag {
        match word {
            0 => Tag::Node,
            1 => Tag::Trial,
            _ => Tag::Closing,
        }
    }
}

// A node that is due, or that will be when it is taken up, with its indentation and mode.
#[derive(Clone, Copy)]
pub struct Due {
    pub node: NodeNo,
    pub indent: Indent,
    pub mode: Mode,
}

// What a trial saves: the page, and whether a Text had ended past width (0 is no).
#[derive(Clone, Copy)]
pub struct Saved {
    pub page: Page,
    pub past: u32,
}

// ---- pushes

// Four words from `at` on.
// kept: copied from an array the words go by way of the stack, with a test for overlap: five instructions more a push.
fn put_words(work: &mut [u32], at: usize, first: u32, second: u32, third: u32, fourth: u32)
    requires { at + 4 ≤ length work.old }
    ensures { work.new ≡ sets work.old at (first ∷ second ∷ third ∷ fourth ∷ []) }
{
    work[at] = first;
    work[at + 1] = second;
    work[at + 2] = third;
    work[at + 3] = fourth;
}

// A node waits on top of `depth` entries.
pub fn push_node(work: &mut [u32], depth: usize, due: Due)
    requires { (depth < 1024) × (area_words ≤ length work.old) }
    ensures { stack_of (depth + 1) work.new ≡ top due ∷ stack_of depth work.old }
{
    let tag = u32::from(Tag::Node);
    put_words(
        work,
        depth * ENTRY_WORDS,
        due.node.0,
        due.indent.0,
        due.mode.0,
        tag,
    );
}

// The end of an annotation waits on top of `depth` entries.
pub fn push_closing(work: &mut [u32], depth: usize, node: NodeNo, label: u32)
    requires { (depth < 1024) × (area_words ≤ length work.old) }
    ensures { stack_of (depth + 1) work.new ≡ closing node.0 label ∷ stack_of depth work.old }
{
    let tag = u32::from(Tag::Closing);
    put_words(work, depth * ENTRY_WORDS, node.0, label, 0, tag);
}

// The end of a trial waits on top of `depth` entries, with its second arm and what it saved.
pub fn push_trial(work: &mut [u32], depth: usize, second: Due, saved: Saved)
    requires { (depth < 1024) × (area_words ≤ length work.old) × (saved.page.used ≤ 65536) × (saved.page.events ≤ 4096) }
    ensures { stack_of (depth + 1) work.new
        ≡ trial second.node.0 second.indent.0 (mode_of second.mode.0) (saved_of saved) ∷ stack_of depth work.old }
{
    let tag = u32::from(Tag::Trial);
    put_words(
        work,
        depth * ENTRY_WORDS,
        second.node.0,
        second.indent.0,
        second.mode.0,
        tag,
    );
    let page = saved.page;
    put_words(
        work,
        SAVED + depth * SAVED_WORDS,
        page.column.0,
        page.used as u32,
        page.events as u32,
        saved.past,
    );
}

// One node more for the fit test to walk, on top of `count`.
pub fn push_fit(work: &mut [u32], count: usize, node: NodeNo)
    requires { (count ≤ 1024) × (area_words ≤ length work.old) }
    ensures { FitPushed work.old count node.0 work.new }
{
    work[FIT + count] = node.0;
}

// ---- what is read

// The node that the fit test walks next, where `count` are left below it.
pub fn fit_node(work: &[u32], count: usize) -> NodeNo
    requires { (count ≤ 1024) × (area_words ≤ length work.now) }
    ensures { result.0 ≡ get_or work.now (fit_from + count) 0 }
{
    NodeNo(work[FIT + count])
}

// The tag of the entry at height d.
pub fn tag_at(work: &[u32], d: usize) -> Tag
    requires { (d < 1024) × (area_words ≤ length work.now) }
    ensures { result ≡ tag_in (tag_at work.now d) }
{
    Tag::from(work[d * ENTRY_WORDS + 3])
}

// The node of the entry at height d: what waits, a second arm, or the Annotated node.
pub fn node_at(work: &[u32], d: usize) -> NodeNo
    requires { (d < 1024) × (area_words ≤ length work.now) }
    ensures { result.0 ≡ number_at work.now d }
{
    NodeNo(work[d * ENTRY_WORDS])
}

// The label of the annotation that ends at height d.
pub fn label_at(work: &[u32], d: usize) -> u32
    requires { (d < 1024) × (area_words ≤ length work.now) }
    ensures { result ≡ indent_at work.now d }
{
    work[d * ENTRY_WORDS + 1]
}

// The node at height d, which is due now: one that waited, or a second arm.
pub fn due_at(work: &[u32], d: usize) -> Due
    requires { (d < 1024) × (area_words ≤ length work.now) }
    ensures { result ≡ due_at work.now d }
{
    let at = d * ENTRY_WORDS;
    Due {
        node: NodeNo(work[at]),
        indent: Indent(work[at + 1]),
        mode: Mode(work[at + 2]),
    }
}

// What the trial that ends at height d saved.
pub fn saved_at(work: &[u32], d: usize) -> Saved
    requires { (d < 1024) × (area_words ≤ length work.now) }
    ensures { result ≡ saved_words_at work.now d }
{
    let at = SAVED + d * SAVED_WORDS;
    Saved {
        page: Page {
            column: Column(work[at]),
            used: work[at + 1] as usize,
            events: work[at + 2] as usize,
        },
        past: work[at + 3],
    }
}

// ---- searches

// The height of the nearest entry below `depth` that has this tag.
pub fn nearest(work: &[u32], depth: usize, tag: Tag) -> Option<usize>
    requires { (depth ≤ 1024) × (area_words ≤ length work.now) }
    ensures { Nearest work.now depth tag result }
{
    for d in (0..depth).rev() {
        if tag_at(work, d) == tag {
            return Some(d);
        }
    }
    None
}

// The indentation of the next waiting node, else its own; ends of annotations and trials are looked past.
pub fn next_indent(work: &[u32], depth: usize, own: Indent) -> Indent
    requires { (depth ≤ 1024) × (area_words ≤ length work.now) }
    ensures { result.0 ≡ next_indent own.0 (stack_of depth work.now) }
{
    match nearest(work, depth, Tag::Node) {
        Some(d) => due_at(work, d).indent,
        None => own,
    }
}
