// The kinds: each with its number, and the fixed table of their children and words.

ghost use Rattle.std.specs.Prelude.{◌≡◌};
ghost use Rattle.table.specs.Kinds.{kinds, kind_at, kind_number, Decodes};

use crate::refusal::Refusal;

// The kinds by number, for a match on a node's word.
// kept: a reader of the lent words matches them as they are; by `Kind` it would have a second way to fail, which validation rules out.
pub const NIL: u32 = 0;

pub const APPEND: u32 = 1;

pub const GROUP: u32 = 2;

pub const FLAT_ALT: u32 = 3;

pub const NEST: u32 = 4;

pub const HARDLINE: u32 = 5;

pub const TEXT: u32 = 6;

pub const ANNOTATED: u32 = 7;

pub const UNION: u32 = 8;

pub const ALIGN: u32 = 9;

pub const FAIL: u32 = 10;

// How many kinds there are.
pub const KIND_COUNT: u32 = 11;

// What a node is, in the order of document 01's numbers.
#[derive(Clone, Copy)]
pub enum Kind {
    Nil,
    Append,
    Group,
    FlatAlt,
    Nest,
    Hardline,
    Text,
    Annotated,
    Union,
    Align,
    Fail,
}

impl Kind {
    // Its line in the table of kinds.
    pub(crate) fn info(self, infos: &[KindInfo; 11]) -> KindInfo
        requires { infos.now ≡ kinds }
        ensures { result ≡ kind_at (kind_number self) }
    {
        infos[u32::from(self) as usize]
    }
}

impl TryFrom<u32> for Kind {
    type Error = Refusal;

    ghost try_from_gives = { Decodes };

    fn try_from(word: u32) -> Result<Kind, Refusal> {
        if KIND_COUNT <= word {
            return Err(Refusal::BadKind);
        }
        match word {
            NIL => Ok(Kind::Nil),
            APPEND => Ok(Kind::Append),
            GROUP => Ok(Kind::Group),
            FLAT_ALT => Ok(Kind::FlatAlt),
            NEST => Ok(Kind::Nest),
            HARDLINE => Ok(Kind::Hardline),
            TEXT => Ok(Kind::Text),
            ANNOTATED => Ok(Kind::Annotated),
            UNION => Ok(Kind::Union),
            ALIGN => Ok(Kind::Align),
            FAIL => Ok(Kind::Fail),
            _ => unreachable!(),
        }
    }
}

impl From<Kind> for u32 {
    ghost from_gives = { λ kind word. word ≡ kind_number kind };

    fn from(kind: Kind) -> u32 {
        kind as u32
    }
}

// How many children a kind has, and how many words it uses. Children and used words come first among a, b, c.
#[derive(Clone, Copy)]
pub struct KindInfo {
    pub children: u32,
    pub words: u32,
}

// Nothing but its kind.
const LEAF: KindInfo = KindInfo {
    children: 0,
    words: 0,
};

// A child.
const CHILD: KindInfo = KindInfo {
    children: 1,
    words: 1,
};

// Two children.
const PAIR: KindInfo = KindInfo {
    children: 2,
    words: 2,
};

// A child, an amount and a way.
const NESTED: KindInfo = KindInfo {
    children: 1,
    words: 3,
};

// Offset, length and columns.
const RANGE: KindInfo = KindInfo {
    children: 0,
    words: 3,
};

// A child and a label.
const LABELLED: KindInfo = KindInfo {
    children: 1,
    words: 2,
};

// For each kind, in the order of Kind, how many children it has and which words it uses: read by validation; the file writer of request
// 2026-04 is to read it too.
const KINDS: [KindInfo; 11] = [
    LEAF, PAIR, CHILD, PAIR, NESTED, LEAF, RANGE, LABELLED, PAIR, CHILD, LEAF,
];

// The whole table. A reader takes it once, before its loop: a constant array is built anew at every read.
pub fn all_kinds() -> [KindInfo; 11]
    ensures { result ≡ kinds }
{
    KINDS
}
