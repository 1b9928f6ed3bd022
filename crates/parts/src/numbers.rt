//! A refusal's number and place.
ghost use Rattle.std.specs.Prelude.{◌≡◌};
ghost use Rattle.parts.specs.Numbers.{number, place};

use crate::Refusal;

impl Refusal {
    /// The number by which formats and programs tell it.
    pub fn number(self) -> u32
        ensures { result ≡ number self }
    {
        match self {
            Refusal::Long => 1,
            Refusal::Cut(_) => 2,
            Refusal::Kind(_) => 3,
            Refusal::Depth(_) => 4,
            Refusal::Name(_) => 5,
            Refusal::Text(_) => 6,
            Refusal::Many(_) => 7,
        }
    }

    /// The first byte of the record that is refused.
    pub fn place(self) -> usize
        ensures { result ≡ place self }
    {
        match self {
            Refusal::Long => 0,
            Refusal::Cut(at)
            | Refusal::Kind(at)
            | Refusal::Depth(at)
            | Refusal::Name(at)
            | Refusal::Text(at)
            | Refusal::Many(at) => at,
        }
    }
}
