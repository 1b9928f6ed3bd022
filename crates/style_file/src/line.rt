//! One line of a style file.
#![tactic(auto, using(crate::proofs::Counted::counted))]

ghost use Rattle.std.specs.Prelude.{◌≡◌, map, IfOk};
ghost use Rattle.std.specs.Option.{option_map};
ghost use Rattle.text.specs.Infra.{words};
ghost use Rattle.style_file.specs.Items.{rule_of, house_of, mark_of, specificity_from, cell_of, item_of};
ghost use Rattle.style_file.specs.Said.{said};

use crate::item::{Item, RuleLine};
use crate::word::{bit_of, count_of, record_of, setting_of, tag_of};
use std::alloc::{AllocError, Global};
use style::values::{Specificity, StyleOrigin, Weight};
use text::words::words;

/// `rule TAG WORD ORIGIN IMPORTANT PROPERTY VALUE`, without its first word.
fn rule<'a>(words: &[&'a [u8]]) -> Option<Item<'a>>
    ensures { option_map said result ≡ rule_of (map (λ x. x.now) words.now) }
{
    let [tag, word, origin, important, property, value] = words else {
        return None;
    };
    Some(Item::Rule(RuleLine {
        tag: tag_of(tag)?,
        word,
        origin: StyleOrigin::try_from(*origin).ok()?,
        important: bit_of(important)?,
        setting: setting_of(property, value)?,
    }))
}

/// `house NAME PROPERTY VALUE`, without its first word.
fn house<'a>(words: &[&'a [u8]]) -> Option<Item<'a>>
    ensures { option_map said result ≡ house_of (map (λ x. x.now) words.now) }
{
    let [name, property, value] = words else {
        return None;
    };
    Some(Item::House {
        name,
        setting: setting_of(property, value)?,
    })
}

/// `mark RECORD`, without its first word.
fn mark<'a>(words: &[&'a [u8]]) -> Option<Item<'a>>
    ensures { option_map said result ≡ mark_of (map (λ x. x.now) words.now) }
{
    let [number] = words else {
        return None;
    };
    Some(Item::Mark(record_of(number)?))
}

/// `INLINE ID CLASS TYP`
fn specificity(inline: &[u8], id: &[u8], class: &[u8], typ: &[u8]) -> Option<Specificity>
    ensures { result ≡ specificity_from inline.now id.now class.now typ.now }
{
    Some(Specificity {
        inline: bit_of(inline)?,
        id: count_of(id)?,
        class: count_of(class)?,
        typ: count_of(typ)?,
    })
}

/// `cell PROPERTY VALUE ORIGIN IMPORTANT INLINE ID CLASS TYP`, without its first word.
fn cell<'a>(words: &[&'a [u8]]) -> Option<Item<'a>>
    ensures { option_map said result ≡ cell_of (map (λ x. x.now) words.now) }
{
    let [property, value, origin, important, inline, id, class, typ] = words else {
        return None;
    };
    let weight = Weight {
        important: bit_of(important)?,
        origin: StyleOrigin::try_from(*origin).ok()?,
        specificity: specificity(inline, id, class, typ)?,
    };
    Some(Item::Cell {
        weight,
        setting: setting_of(property, value)?,
    })
}

/// The item of a line's words, if they are understood.
pub(crate) fn item<'a>(words: &[&'a [u8]]) -> Option<Item<'a>>
    ensures { option_map said result ≡ item_of (map (λ x. x.now) words.now) }
{
    let [first, rest @ ..] = words else {
        return Some(Item::Nothing);
    };
    match *first {
        [b'#', ..] => Some(Item::Nothing),
        b"rule" => rule(rest),
        b"mark" => mark(rest),
        b"cell" => cell(rest),
        b"house" => house(rest),
        _ => None,
    }
}

/// The words of a line.
pub(crate) fn words_of(heap: Global, line: &[u8]) -> Result<Vec<&[u8]>, AllocError>
    ensures { IfOk result (λ v. map (λ x. x.now) v.items ≡ words line.now) }
{
    words(line).collect(heap)
}
