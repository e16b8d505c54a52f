// Numbers as a line writes them.
ghost use Rattle.std.specs.Prelude.{◌≡◌, ◌||◌, eqb};
ghost use Rattle.results.specs.Numbers.{number_of, tenths_of};

// A whole number of one to four digits.
// kept: digits by hand: `parse` takes a sign and any length, `number_of` one to four digits.
pub fn number(s: &[u8]) -> Option<u32>
    ensures { result ≡ number_of s.now }
{
    if s.is_empty() || 4 < s.len() {
        return None;
    }
    let mut value = 0;
    for &b in s {
        if !b.is_ascii_digit() {
            return None;
        }
        value = value * 10 + u32::from(b - b'0');
    }
    Some(value)
}

// A decimal point, or a comma for it.
fn is_point(b: u8) -> bool
    ensures { result ≡ (eqb b 46 || eqb b 44) }
{
    b == b'.' || b == b','
}

// Tenths, written with one digit behind a point or a comma, as 1.2 or 10,5.
pub fn tenths(s: &[u8]) -> Option<u32>
    ensures { result ≡ tenths_of s.now }
{
    let n = s.len();
    if n < 3 || 4 < n || !is_point(s[n - 2]) {
        return None;
    }
    let whole = number(&s[..n - 2])?;
    let digit = number(&s[n - 1..])?;
    Some(whole * 10 + digit)
}
