//! One record, read where it stands.
ghost use Rattle.std.specs.Prelude.{◌≡◌, drop};
ghost use Rattle.dom.specs.Reading.{entry_at, next_place};
ghost use Rattle.dom.specs.Asking.{ReadsNode};
ghost use Rattle.dom.specs.Fronts.{fronts_at};
ghost use Rattle.dom.specs.Shown.{seen, seen_at};
ghost use Rattle.page.specs.Said.{fronts_said};

use crate::front::{Front, Fronts};
use crate::node::Node;
use parts::{Found, Refusal};

impl<'a> Node<'a> {
    pub(crate) fn front(&self) -> Front<'a>
        ensures spot { result.spot ≡ self.now.spot }
        ensures bytes { result.bytes.now ≡ drop self.now.spot.place self.now.page.now }
    {
        Front {
            spot: self.spot,
            bytes: self.page.get(self.spot.place..).unwrap_or(&[]),
        }
    }

    /// The record; what stands before it is not looked at.
    #[tactic(auto, using(dom::proofs::Answering::record_answers))]
    pub fn record(&self) -> Result<Found<'a>, Refusal>
        ensures answer { let at = self.now.spot.place in seen result ≡ seen_at at (next_place self.now.page.now at) (entry_at self.now.page.now at) }
        ensures node { ReadsNode self.now.page.now self.now.spot.place (seen result) }
    {
        self.front().read()
    }

    /// The records from this one on.
    pub fn records(&self) -> Fronts<'a>
        ensures { fronts_said result ≡ fronts_at self.now.page.now self.now.spot }
    {
        Fronts { next: self.front() }
    }
}
