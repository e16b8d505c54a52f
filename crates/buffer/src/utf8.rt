// Text bytes: whether all are below 128, whether there is a line feed; then whether they are well-formed UTF-8 by RFC 3629.
// Only `plainly_below_128`, a shortcut of validation, has a `requires`.
ghost use Rattle.std.specs.Prelude.{◌≡◌, true, ◌+◌, ◌≤◌, length, take, drop};
ghost use Rattle.buffer.specs.Utf8.{well_formed, ascii, no_feed, start};
ghost use Rattle.buffer.specs.Reader.{starts, GoesOn};

// Whether all bytes are below 128. It is no `all`: it reads to the end, so that it goes by whole blocks.
pub fn below_128(bytes: &[u8]) -> bool
    ensures { result ≡ ascii bytes.now }
{
    bytes.iter().fold(true, |low, b| low & (*b < 128))
}

// Whether there is no line feed, byte 10.
pub fn no_feed(bytes: &[u8]) -> bool
    ensures { result ≡ no_feed bytes.now }
{
    bytes.iter().fold(true, |without, b| without & (*b != 10))
}

// Bytes that are looked at together.
const BLOCK: usize = 32;

// Whether a part is seen at once to be below 128: all of the text is, or the block that starts with it is. `false` decides nothing.
pub fn plainly_below_128(text: &[u8], plain: bool, at: usize, n: usize) -> bool
    requires { (plain ≡ ascii text.now) × (at + n ≤ length text.now) }
    ensures { result ≡ true → ascii (take n (drop at text.now)) ≡ true }
{
    if plain {
        return true;
    }
    if n <= BLOCK && BLOCK <= text.len() - at {
        return below_128(&text[at..at + BLOCK]);
    }
    false
}

// What a character still owes: so many octets, the next between low and high, the others UTF8-tails.
#[derive(Clone, Copy)]
struct Owing {
    count: u32,
    low: u8,
    high: u8,
}

impl Owing {
    // So many octets, the first between low and high.
    fn octets(count: u32, low: u8, high: u8) -> Owing
        ensures { result ≡ record { count = count; low = low; high = high } }
    {
        Owing { count, low, high }
    }

    // So many UTF8-tails.
    fn tails(count: u32) -> Owing
        ensures { result ≡ record { count = count; low = 0x80; high = 0xBF } }
    {
        Owing {
            count,
            low: 0x80,
            high: 0xBF,
        }
    }
}

// What a first octet owes, by RFC 3629, section 4; `None` where no character starts with it.
fn start_of(b: u8) -> Option<Owing>
    ensures { starts result ≡ start b }
{
    match b {
        0x00..=0x7F => Some(Owing::tails(0)),
        0xC2..=0xDF => Some(Owing::tails(1)),
        0xE0 => Some(Owing::octets(2, 0xA0, 0xBF)),
        0xE1..=0xEC | 0xEE..=0xEF => Some(Owing::tails(2)),
        0xED => Some(Owing::octets(2, 0x80, 0x9F)),
        0xF0 => Some(Owing::octets(3, 0x90, 0xBF)),
        0xF1..=0xF3 => Some(Owing::tails(3)),
        0xF4 => Some(Owing::octets(3, 0x80, 0x8F)),
        _ => None,
    }
}

// What is owed after one octet more; `None` where it can't stand there.
fn octet(o: Owing, b: u8) -> Option<Owing>
    ensures { GoesOn o b result }
{
    if o.count == 0 {
        return start_of(b);
    }
    if b < o.low || o.high < b {
        return None;
    }
    Some(Owing::tails(o.count - 1))
}

// kept: by RFC 3629's own table, whose rows three edits hold.

// Whether the bytes are well-formed UTF-8 by RFC 3629.
pub fn well_formed(bytes: &[u8]) -> bool
    ensures { result ≡ well_formed bytes.now }
{
    let mut o = Owing::tails(0);
    for b in bytes {
        if o.count == 0 && *b < 128 {
            continue;
        }
        let Some(next) = octet(o, *b) else {
            return false;
        };
        o = next;
    }
    o.count == 0
}
