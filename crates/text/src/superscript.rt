//! Superscript digits.
ghost use Rattle.std.specs.Prelude.{◌≡◌, ◌≤◌, true, ◌-◌, ◌++◌, length, drop};
ghost use Rattle.std.specs.Option.{SomeIff};
ghost use Rattle.text.specs.Superscripts.{all_digits, superscript_text, superscript_bytes, answer, written};

/// Why no superscripts were written.
#[derive(Clone, Copy, Debug, PartialEq, Eq)]
pub enum NotWritten {
    NotDigits,
    NoRoom,
}

/// Whether the text has no other bytes than ASCII digits.
pub fn is_digits(text: &[u8]) -> bool
    ensures { result ≡ all_digits text.now }
{
    text.iter().all(|b| b.is_ascii_digit())
}

/// Writes the superscripts of the digits, as UTF-8, at the start of `out`, and says how many bytes
/// they are. Where it refuses, `out` is as it was.
pub fn superscripts(text: &[u8], out: &mut [u8]) -> Result<usize, NotWritten>
    ensures result { result ≡ answer text.now (length out.old) }
    ensures after { out.new ≡ written text.now out.old }
{
    if !is_digits(text) {
        return Err(NotWritten::NotDigits);
    }
    let room = out.len();
    let left = room_left(text, room).ok_or(NotWritten::NoRoom)?;
    write(text, out);
    Ok(room - left)
}

/// The superscript of an ASCII digit, and nothing for another byte.
#[tactic(auto, unfolding(crate::specs::Rfc3629::encoded))]
fn superscript_of(b: u8) -> &'static str
    ensures { result.now ≡ superscript_text b }
{
    match b {
        b'0' => "\u{2070}",
        b'1' => "\u{B9}",
        b'2' => "\u{B2}",
        b'3' => "\u{B3}",
        b'4' => "\u{2074}",
        b'5' => "\u{2075}",
        b'6' => "\u{2076}",
        b'7' => "\u{2077}",
        b'8' => "\u{2078}",
        b'9' => "\u{2079}",
        _ => "",
    }
}

/// How many of `room` bytes the superscripts of the digits leave, where they fit.
fn room_left(text: &[u8], room: usize) -> Option<usize>
    requires { all_digits text.now ≡ true }
    ensures { SomeIff result (length (superscript_bytes text.now) ≤ room) (room - length (superscript_bytes text.now)) }
{
    text.iter()
        .try_fold(room, |left, b| left.checked_sub(superscript_of(*b).len()))
}

/// Writes the superscripts of the digits at the start of `out`.
fn write(text: &[u8], out: &mut [u8])
    requires digits { all_digits text.now ≡ true }
    requires room { length (superscript_bytes text.now) ≤ length out.old }
    ensures { out.new ≡ superscript_bytes text.now ++ drop (length (superscript_bytes text.now)) out.old }
{
    let mut bytes = text.iter().flat_map(|b| superscript_of(*b).bytes());
    for to in out.iter_mut() {
        let Some(byte) = bytes.next() else { break };
        *to = byte;
    }
}
