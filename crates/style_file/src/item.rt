//! What a line of a style file says.
use style::rule::Tag;
use style::style::Property;
use style::values::{StyleOrigin, Weight};

/// A property and its value. A text is still the word that writes it in hexadecimal.
#[derive(Clone, Copy)]
pub(crate) enum Setting<'a> {
    Plain(Property),
    Before(&'a [u8]),
    After(&'a [u8]),
}

/// A rule whose setting is not yet read, and whose word does not yet stand in the bytes of the file.
#[derive(Clone, Copy)]
pub(crate) struct RuleLine<'a> {
    pub(crate) tag: Tag,
    pub(crate) word: &'a [u8],
    pub(crate) origin: StyleOrigin,
    pub(crate) important: bool,
    pub(crate) setting: Setting<'a>,
}

/// The item of a line.
#[derive(Clone, Copy)]
pub(crate) enum Item<'a> {
    /// The line is empty or a comment.
    Nothing,
    Rule(RuleLine<'a>),
    Mark(usize),
    Cell {
        weight: Weight,
        setting: Setting<'a>,
    },
    House {
        name: &'a [u8],
        setting: Setting<'a>,
    },
}
