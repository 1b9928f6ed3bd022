//! Integers by HTML's rules for parsing integers.
ghost use Rattle.std.specs.Prelude.{◌≡◌, pos};
ghost use Rattle.std.specs.Option.{option_map};
ghost use Rattle.text.specs.HtmlIntegers.{magnitude, integer, in_i64, in_u64};

use crate::words::skip_white_space;

/// The integer that the text gives, where it is in the range of an `i64`.
pub fn parse_integer(text: &[u8]) -> Option<i64>
    ensures { result ≡ in_i64 (integer text.now) }
{
    let value = match skip_white_space(text) {
        [b'-', rest @ ..] => -read_digits(rest)?,
        [b'+', rest @ ..] => read_digits(rest)?,
        rest => read_digits(rest)?,
    };
    i64::try_from(value).ok()
}

/// The number that the digits at the start of the text write, where there are any and it fits in 64 bits.
fn read_digits(text: &[u8]) -> Option<i128>
    ensures { result ≡ option_map pos (in_u64 (magnitude text.now)) }
{
    magnitude(text).map(i128::from)
}

/// The same, read no further than to the digit with which it no longer fits.
fn magnitude(text: &[u8]) -> Option<u64>
    ensures { result ≡ in_u64 (magnitude text.now) }
{
    let [first, ..] = text else {
        return None;
    };
    if !first.is_ascii_digit() {
        return None;
    }
    let mut value: u64 = 0;
    for b in text {
        if !b.is_ascii_digit() {
            return Some(value);
        }
        value = value.checked_mul(10)?.checked_add(u64::from(*b - b'0'))?;
    }
    Some(value)
}
