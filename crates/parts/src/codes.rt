//! The numbers that stand for kinds and namespaces in a record.
ghost use Rattle.parts.specs.Codes.{Decodes, kind_of, namespace_of};

use crate::{Kind, Namespace};

/// A number that stands for nothing.
#[derive(Clone, Copy, Debug, PartialEq, Eq)]
pub struct Unknown<N>(pub N);

impl TryFrom<u16> for Kind {
    type Error = Unknown<u16>;

    ghost try_from_gives = { λ n r. Decodes kind_of (λ e. e.0) n r };

    fn try_from(number: u16) -> Result<Kind, Unknown<u16>> {
        match number {
            1 => Ok(Kind::Document),
            2 => Ok(Kind::Element),
            3 => Ok(Kind::Text),
            4 => Ok(Kind::Comment),
            5 => Ok(Kind::Doctype),
            6 => Ok(Kind::ProcessingInstruction),
            7 => Ok(Kind::Attribute),
            _ => Err(Unknown(number)),
        }
    }
}

impl TryFrom<u8> for Namespace {
    type Error = Unknown<u8>;

    ghost try_from_gives = { λ n r. Decodes namespace_of (λ e. e.0) n r };

    fn try_from(number: u8) -> Result<Namespace, Unknown<u8>> {
        match number {
            0 => Ok(Namespace::Other),
            1 => Ok(Namespace::Html),
            2 => Ok(Namespace::Svg),
            _ => Err(Unknown(number)),
        }
    }
}
