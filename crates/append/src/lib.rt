// Bytes written one behind the other into a lent buffer, and numbers as they are written. What has no room is left out whole, and the place
// then says so: it stands past the buffer's end, and stays there.
// No function has a `requires`; each says what the buffer holds afterwards.

#![tactic(auto)]

ghost use Rattle.std.specs.Prelude.{length, drop, ◌≡◌, []};
ghost use Rattle.append.specs.Append.{Adds};
ghost use Rattle.append.specs.Decimal.{digits_on, decimal, pointed};

use buffer::copy;
use buffer::parts::behind;

// Writes bytes at a place; gives the place behind them.
pub fn append(out: &mut [u8], at: usize, bytes: &[u8]) -> usize
    ensures { Adds out.old at bytes.now out.new result }
{
    let room = out.len();
    if room < at {
        return at;
    }
    if room - at < bytes.len() {
        return room + 1;
    }
    copy(bytes, 0, bytes.len(), out, at);
    at + bytes.len()
}

// Puts a number's digits at the end; gives where the first of them stands. What has no room is left out.
pub fn put_digits(out: &mut [u8], n: usize) -> usize
    ensures { drop result out.new ≡ digits_on (length out.old) n [] }
{
    let mut n = n;
    for at in (0..out.len()).rev() {
        out[at] = b'0' + (n % 10) as u8;
        n /= 10;
        if n == 0 {
            return at;
        }
    }
    0
}

// kept: digits by hand: `Adds` says that what has no room is left out whole, and `write!` leaves a part of it.

// Writes a number.
pub fn number(out: &mut [u8], at: usize, n: usize) -> usize
    ensures { Adds out.old at (decimal n) out.new result }
{
    let mut digits = [0u8; 20];
    let first = put_digits(&mut digits, n);
    append(out, at, behind(&digits, first))
}

// Writes tenths, with a point before the last digit.
pub fn tenths(out: &mut [u8], at: usize, n: usize) -> usize
    ensures { Adds out.old at (pointed n) out.new result }
{
    let at = number(out, at, n / 10);
    let at = append(out, at, b".");
    number(out, at, n % 10)
}
