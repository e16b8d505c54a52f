// Lists of numbers in lines of text.
//
// A line has lists with `|` between; what is no digit separates numbers, and `7*40` stands for 40 times 7. Numbers are taken
// modulo 2^32, and a list that is longer than the words lent for it is cut. In order: one number, one list, the line.
ghost use Rattle.std.specs.Prelude.{◌≡◌, ◌+◌, ◌-◌, ◌≤◌, ◌++◌, length, take, drop, replicate, nat_lt};
ghost use Rattle.buffer.specs.Run.{put};
ghost use Rattle.choice.specs.Pick.{pick};
ghost use Rattle.buffer.specs.Parts.{index_of};
ghost use Rattle.replay.specs.Numbers.{further, value_of, digits, between, value, listed, stored, count_after};
ghost use Rattle.replay.specs.Bases.{base_of, digit_in};
ghost use Rattle.replay.specs.Bytes.{bytes_of};

use crate::base::Base;
use buffer::parts::part_end;

// A number of a list, how many times it stands there, and where it ends.
#[derive(Clone, Copy)]
struct Item {
    value: u32,
    times: u32,
    end: usize,
}

// How many numbers were stored, and where their list ends.
// kept: a count beside the words that the caller lends: the project has no heap.
#[derive(Clone, Copy)]
pub struct Stored {
    pub count: usize,
    pub end: usize,
}

impl Base {
    // What a digit of this base is worth.
    fn digit(self, b: u8) -> Option<u32>
        ensures { result ≡ digit_in (base_of self) b }
    {
        let d = match b {
            b'0'..=b'9' => (b - b'0') as u32,
            b'a'..=b'f' => (b - b'a') as u32 + 10,
            _ => return None,
        };
        if d < self.value { Some(d) } else { None }
    }

    // A number with one digit more, modulo 2^32.
    fn further(self, value: u32, d: u32) -> u32
        ensures { result ≡ further (base_of self) value d }
    {
        value.wrapping_mul(self.value).wrapping_add(d)
    }
}

// The number whose first digit was `first` and whose others start at `from`.
fn number(s: &[u8], from: usize, base: Base, first: u32) -> Item
    requires { from ≤ length s.now }
    ensures { (result.value ≡ value_of (base_of base) first (drop from s.now))
        × (result.times ≡ 1)
        × (result.end ≡ from + digits (base_of base) (drop from s.now))
        × (result.end ≤ length s.now) }
{
    let mut value = first;
    for at in from..s.len() {
        let Some(d) = base.digit(s[at]) else {
            return Item {
                value,
                times: 1,
                end: at,
            };
        };
        value = base.further(value, d);
    }
    Item {
        value,
        times: 1,
        end: s.len(),
    }
}

// A number with its `*count`, if it has one.
fn repeated(s: &[u8], from: usize, base: Base, first: u32) -> Item
    requires { from ≤ length s.now }
    ensures { (listed (base_of base) (value first) (drop from s.now)
        ≡ replicate result.times result.value ++ listed (base_of base) between (drop result.end s.now))
        × (from ≤ result.end)
        × (result.end ≤ length s.now) }
{
    let one = number(s, from, base, first);
    let end = one.end;
    if end < s.len() {
        if s[end] == b'*' {
            let many = number(s, end + 1, Base { value: 10 }, 0);
            return Item {
                value: one.value,
                times: many.value,
                end: many.end,
            };
        }
    }
    one
}

// Stores v so many times from `count` on, as far as there is room, and gives the new count.
fn store(out: &mut [u32], count: usize, times: usize, v: u32) -> usize
    requires { count ≤ length out.old }
    ensures { (out.new ≡ stored out.old count (replicate times v))
        × (result ≡ count_after out.old count (replicate times v)) }
{
    let room = out.len() - count;
    if room < times {
        buffer::fill(out, count, room, v);
        return out.len();
    }
    buffer::fill(out, count, times, v);
    count + times
}

// Stores the numbers of a list, as far as there is room, and gives their count.
fn store_list(s: &[u8], base: Base, out: &mut [u32]) -> usize
    ensures { (out.new ≡ stored out.old 0 (listed (base_of base) between s.now))
        × (result ≡ count_after out.old 0 (listed (base_of base) between s.now)) }
{
    let mut count = 0;
    let mut at = 0;
    // kept: no index is counted, a step goes past a whole number with its count
    while at < s.len() {
        let d = base.digit(s[at]);
        at += 1;
        if let Some(d) = d {
            let it = repeated(s, at, base, d);
            count = store(out, count, it.times as usize, it.value);
            at = it.end;
        }
    }
    count
}

// Stores the list of numbers that starts at `from` and ends at a `|` or with the line.
pub fn numbers(line: &[u8], from: usize, base: Base, out: &mut [u32]) -> Stored
    requires { from ≤ length line.now }
    ensures { (result.end ≡ from + index_of 124 (drop from line.now))
        × (out.new ≡ stored out.old 0 (listed (base_of base) between (take (result.end - from) (drop from line.now))))
        × (result.count ≡ count_after out.old 0 (listed (base_of base) between (take (result.end - from) (drop from line.now))))
        × (result.end ≤ length line.now)
        × (result.count ≤ length out.new) }
{
    let end = part_end(line, from, b'|');
    let count = store_list(&line[from..end], base, out);
    Stored { count, end }
}

// Past the `|` of a list that ended.
pub fn past(line: &[u8], end: usize) -> usize
    requires { end ≤ length line.now }
    ensures { (result ≡ pick (nat_lt end (length line.now)) (end + 1) end) × (result ≤ length line.now) }
{
    if end < line.len() { end + 1 } else { end }
}

// The numbers as bytes, as far as there is room for them; the bytes behind them stay.
pub fn narrow(wide: &[u32], bytes: &mut [u8])
    ensures { bytes.new ≡ put bytes.old 0 (take (length bytes.old) (bytes_of wide.now)) }
{
    // kept: of a zip over `iter_mut` no proof knows what was written
    for i in 0..wide.len().min(bytes.len()) {
        bytes[i] = (wide[i] % 256) as u8;
    }
}
