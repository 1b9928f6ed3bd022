//! Single words of a style file. `tag_of`, `bit_of` and `white_space_of` are each a table of this format's words.
#![tactic(auto, using(style::proofs::Spelling::spelling))]

ghost use Rattle.std.specs.Prelude.{◌≡◌};
ghost use Rattle.std.specs.Option.{option_map};
ghost use Rattle.style_file.specs.Words.{tag_of, bit_of, white_space_of, colour_of, nibble_of, byte_of, record_of, count_of, property_of, setting_of};
ghost use Rattle.style_file.specs.Said.{said_setting};

use crate::item::Setting;
use style::rule::Tag;
use style::style::Property;
use style::values::{Colour, Display, WhiteSpace};
use text::integer::parse_integer;
use text::superscript::is_digits;

pub(crate) fn tag_of(word: &[u8]) -> Option<Tag>
    ensures { result ≡ tag_of word.now }
{
    match word {
        b"name" => Some(Tag::Name),
        b"class" => Some(Tag::Class),
        b"id" => Some(Tag::Id),
        _ => None,
    }
}

/// `0` for no, `1` for yes.
pub(crate) fn bit_of(word: &[u8]) -> Option<bool>
    ensures { result ≡ bit_of word.now }
{
    match word {
        b"0" => Some(false),
        b"1" => Some(true),
        _ => None,
    }
}

fn white_space_of(word: &[u8]) -> Option<WhiteSpace>
    ensures { result ≡ white_space_of word.now }
{
    match word {
        b"normal" => Some(WhiteSpace::Normal),
        b"pre" => Some(WhiteSpace::Pre),
        b"prewrap" => Some(WhiteSpace::PreWrap),
        _ => None,
    }
}

fn nibble_of(digit: u8) -> Option<u8>
    ensures { result ≡ nibble_of digit }
{
    u8::try_from(char::from(digit).to_digit(16)?).ok()
}

/// The byte that two hexadecimal digits write.
pub(crate) fn byte_of(high: u8, low: u8) -> Option<u8>
    ensures { result ≡ byte_of high low }
{
    let high = nibble_of(high)?;
    let low = nibble_of(low)?;
    Some(high * 16 + low)
}

/// Six hexadecimal digits: red, green and blue.
fn colour_of(word: &[u8]) -> Option<Colour>
    ensures { result ≡ colour_of word.now }
{
    let [a, b, c, d, e, f] = word else {
        return None;
    };
    let r = byte_of(*a, *b)?;
    let g = byte_of(*c, *d)?;
    let b = byte_of(*e, *f)?;
    Some(Colour { r, g, b })
}

/// A record's number in decimal.
pub(crate) fn record_of(word: &[u8]) -> Option<usize>
    ensures { result ≡ record_of word.now }
{
    if !is_digits(word) {
        return None;
    }
    usize::try_from(parse_integer(word)?).ok()
}

/// A field of a specificity in decimal.
pub(crate) fn count_of(word: &[u8]) -> Option<u16>
    ensures { result ≡ count_of word.now }
{
    u16::try_from(record_of(word)?).ok()
}

fn property_of(name: &[u8], value: &[u8]) -> Option<Property>
    ensures { result ≡ property_of name.now value.now }
{
    match name {
        b"colour" => colour_of(value).map(Property::Colour),
        b"bg" => colour_of(value).map(Property::BgColour),
        b"display" => Display::try_from(value).ok().map(Property::Display),
        b"ws" => white_space_of(value).map(Property::WhiteSpace),
        _ => None,
    }
}

/// A property's name and its value.
pub(crate) fn setting_of<'a>(property: &[u8], value: &'a [u8]) -> Option<Setting<'a>>
    ensures { option_map said_setting result ≡ setting_of property.now value.now }
{
    match property {
        b"before" => Some(Setting::Before(value)),
        b"after" => Some(Setting::After(value)),
        _ => Some(Setting::Plain(property_of(property, value)?)),
    }
}
