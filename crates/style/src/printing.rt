//! The names of origins and displays, printed and read.
#![tactic(auto, using(crate::proofs::Spelling::spelling))]

ghost use Rattle.std.specs.Prelude.{◌≡◌, Some};
ghost use Rattle.std.specs.Result.{result_ok};
ghost use Rattle.style.specs.Printing.{origin_name, display_name, origin_of, display_of, NamesAreRead};

use crate::values::{Display, StyleOrigin};
use std::fmt;

/// The word is none of the names.
#[derive(Clone, Copy, Debug, PartialEq, Eq)]
pub struct UnknownName;

impl fmt::Display for StyleOrigin {
    ghost output = { λ o. Some (origin_name o) };

    fn fmt<W: fmt::Write>(&self, f: &mut fmt::Formatter<W>) -> fmt::Result {
        f.write_str(match self {
            StyleOrigin::None => "none",
            StyleOrigin::Agent => "agent",
            StyleOrigin::User => "user",
            StyleOrigin::Author => "author",
        })
    }
}

impl<'a> TryFrom<&'a [u8]> for StyleOrigin {
    type Error = UnknownName;

    ghost try_from_gives = { λ word r. result_ok r ≡ origin_of word.now };

    fn try_from(word: &'a [u8]) -> Result<StyleOrigin, UnknownName> {
        match word {
            b"none" => Ok(StyleOrigin::None),
            b"agent" => Ok(StyleOrigin::Agent),
            b"user" => Ok(StyleOrigin::User),
            b"author" => Ok(StyleOrigin::Author),
            _ => Err(UnknownName),
        }
    }
}

impl fmt::Display for Display {
    ghost output = { λ d. Some (display_name d) };

    fn fmt<W: fmt::Write>(&self, f: &mut fmt::Formatter<W>) -> fmt::Result {
        f.write_str(match self {
            Display::None => "none",
            Display::Shown => "shown",
        })
    }
}

impl<'a> TryFrom<&'a [u8]> for Display {
    type Error = UnknownName;

    ghost try_from_gives = { λ word r. result_ok r ≡ display_of word.now };

    fn try_from(word: &'a [u8]) -> Result<Display, UnknownName> {
        match word {
            b"none" => Ok(Display::None),
            b"shown" => Ok(Display::Shown),
            _ => Err(UnknownName),
        }
    }
}

/// Reading a name gives the value that is printed by it.
pub fn names_are_read()
    ensures { NamesAreRead }
{}
