//! Why a line of a style file, or a part of it, is refused.
ghost use Rattle.std.specs.Prelude.{◌≡◌};
ghost use Rattle.style_file.specs.Refusals.{fault_at};
ghost use Rattle.style_file.specs.declared.refusal.Refusal.TheVariants.{Memory};

use crate::file::Fault;
use std::alloc::{AllocError, AllocFailed};

#[derive(Clone, Copy, Debug, PartialEq, Eq)]
pub(crate) enum Refusal {
    /// It is not understood, or may not stand where it stands.
    Misplaced,
    /// There is no memory left.
    Memory,
}

impl Refusal {
    /// What reading answers where it is the line with that number that is refused.
    pub(crate) fn at(self, number: usize) -> Fault
        ensures { result ≡ fault_at self number }
    {
        match self {
            Refusal::Misplaced => Fault::Line(number),
            Refusal::Memory => Fault::Memory,
        }
    }
}

impl From<AllocError> for Refusal {
    ghost from_gives = { λ _ r. r ≡ Memory };

    fn from(_error: AllocError) -> Refusal {
        Refusal::Memory
    }
}

impl<T: Drop> From<AllocFailed<T>> for Refusal {
    ghost from_gives = { λ _ r. r ≡ Memory };

    fn from(_error: AllocFailed<T>) -> Refusal {
        Refusal::Memory
    }
}
