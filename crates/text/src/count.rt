//! The number of characters of a text.
ghost use Rattle.std.specs.Prelude.{◌≡◌, length};
ghost use Rattle.std.specs.Str.{chars};
ghost use Rattle.text.specs.CodePoints.{first_octet, first_octets};

/// How many code points the text has.
pub fn count_characters(text: &str) -> usize
    ensures octets { result ≡ first_octets text.now }
    ensures code_points { result ≡ length (chars text.now) }
{
    let mut count = 0;
    for b in text.as_bytes() {
        if is_first_octet(*b) {
            count += 1;
        }
    }
    count
}

/// Whether a character's first byte can be this one: whether it is outside 128 to 191.
fn is_first_octet(b: u8) -> bool
    ensures { result ≡ first_octet b }
{
    !matches!(b, 128..=191)
}
