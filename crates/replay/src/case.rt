//! What a case is.
ghost use Rattle.std.specs.Prelude.{◌≡◌};
ghost use Rattle.replay.specs.Built.{refused};

use parts::Refusal;
use std::fmt;

/// A part of a page.
#[derive(Clone, Copy)]
pub enum Piece {
    /// A record's kind, depth and payload. The kind is a number, since pages are tried whose kinds are unknown.
    Record(u16, u16, &'static [u8]),
    /// Bytes as they are.
    Raw(&'static [u8]),
    /// A text of so many letters at depth 1.
    Text(usize),
    /// So many empty comments at depth 1.
    Comments(usize),
    /// Elements from depth 1 to that depth, each in the one before.
    Nest(u16),
}

/// A refusal by its number and its place.
#[derive(Clone, Copy, PartialEq, Eq)]
pub struct Refused(pub u32, pub usize);

impl From<Refusal> for Refused {
    ghost from_gives = { λ r s. s ≡ refused r };

    fn from(refusal: Refusal) -> Refused {
        Refused(refusal.number(), refusal.place())
    }
}

/// What the check says of a page: how many records it has, or the refusal.
pub type Answer = Result<usize, Refused>;

/// An answer as it is printed.
#[derive(Clone, Copy)]
pub struct Told(pub Answer);

impl fmt::Display for Told {
    fn fmt<W: fmt::Write>(&self, f: &mut fmt::Formatter<W>) -> fmt::Result {
        match self.0 {
            Ok(records) => write!(f, "{records} records"),
            Err(Refused(number, place)) => write!(f, "refusal {number} at {place}"),
        }
    }
}

/// A name, the page's pieces, and the answer that is expected.
#[derive(Clone, Copy)]
pub struct Case(pub &'static str, pub &'static [Piece], pub Answer);
