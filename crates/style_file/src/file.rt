//! What a style file holds.
ghost use Rattle.std.specs.Prelude.{◌≡◌, Some};
ghost use Rattle.style_file.specs.declared.file.Fault.TheVariants.{Memory};
ghost use Rattle.style_file.specs.Faults.{fault_text};

use std::alloc::AllocError;
use std::error::Error;
use std::fmt;
use style::house::HouseRule;
use style::mark::Mark;
use style::rule::Rule;

/// The rules, the marks and the declarations of the house, in the order of the file, and the bytes in which the rules'
/// words and the texts before and after elements stand.
#[derive(Drop)]
pub struct StyleFile {
    pub rules: Vec<Rule>,
    pub marks: Vec<Mark>,
    pub house: Vec<HouseRule>,
    pub bytes: Vec<u8>,
}

/// Why a style file is not read.
#[derive(Clone, Copy, Debug, PartialEq, Eq)]
pub enum Fault {
    /// The line with that number, from 1, is not understood.
    Line(usize),
    /// There is no memory left.
    Memory,
}

impl fmt::Display for Fault {
    ghost output = { λ fault. Some (fault_text fault) };

    fn fmt<W: fmt::Write>(&self, f: &mut fmt::Formatter<W>) -> fmt::Result {
        match self {
            Fault::Line(number) => write!(f, "line {number} is not understood"),
            Fault::Memory => write!(f, "out of memory"),
        }
    }
}

impl Error for Fault {}

impl From<AllocError> for Fault {
    ghost from_gives = { λ _ r. r ≡ Memory };

    fn from(_error: AllocError) -> Fault {
        Fault::Memory
    }
}
