//! Texts in hexadecimal.
ghost use Rattle.std.specs.Prelude.{◌≡◌, ◌++◌};
ghost use Rattle.std.specs.List.{list_all};
ghost use Rattle.std.specs.Option.{option_map};
ghost use Rattle.style_file.specs.Refusals.{Gives};
ghost use Rattle.style_file.specs.Words.{is_nibble, hex_bytes, text_of};

use crate::refusal::Refusal;
use crate::word::byte_of;

/// Whether the word has no other bytes than hexadecimal digits.
fn is_hex(word: &[u8]) -> bool
    ensures { result ≡ list_all is_nibble word.now }
{
    word.iter().all(|digit| digit.is_ascii_hexdigit())
}

/// Appends the bytes that the word writes, two digits a byte. It asks for memory only where there are such bytes. On a
/// refusal nothing is promised of the bytes.
fn append_hex(bytes: &mut Vec<u8>, word: &[u8]) -> Result<(), Refusal>
    ensures { Gives (λ _. bytes.new.items) result (option_map (λ text. bytes.old.items ++ text) (hex_bytes word.now)) }
{
    let (pairs, rest) = word.as_chunks::<2>();
    if !rest.is_empty() {
        return Err(Refusal::Misplaced);
    }
    if !is_hex(word) {
        return Err(Refusal::Misplaced);
    }
    bytes.reserve(pairs.len())?;
    for [high, low] in pairs {
        bytes.push(byte_of(*high, *low).ok_or(Refusal::Misplaced)?)?;
    }
    Ok(())
}

/// Appends the text that the word writes; a dash stands for no bytes. On a refusal nothing is promised of the bytes.
pub(crate) fn append_text(bytes: &mut Vec<u8>, word: &[u8]) -> Result<(), Refusal>
    ensures { Gives (λ _. bytes.new.items) result (option_map (λ text. bytes.old.items ++ text) (text_of word.now)) }
{
    match word {
        b"-" => Ok(()),
        _ => append_hex(bytes, word),
    }
}
