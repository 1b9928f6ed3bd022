//! Going from record to record.
ghost use Rattle.std.specs.Prelude.{◌≡◌, ◌+◌, ◌-◌, ◌<◌, ◌∷◌, length, take, drop, Some};
ghost use Rattle.std.specs.Iterator.{YieldsFirstBy, item_count};
ghost use Rattle.dom.specs.Reading.{le4_at, frame_of, entry_front};
ghost use Rattle.dom.specs.Asking.{spot};
ghost use Rattle.dom.specs.Fronts.{RecordsAreRead, fronts_at};
ghost use Rattle.dom.specs.Shown.{seen, seen_at};
ghost use Rattle.page.specs.Said.{front_said, fronts_on, fronts_said};

use crate::front::{Front, Fronts, Payload};
use dom::frame::Frame;
use parts::{Found, Kind, Refusal, Spot};

impl<'a> Front<'a> {
    /// Where the record stands.
    pub fn spot(&self) -> Spot
        ensures { result ≡ self.now.spot }
    {
        self.spot
    }

    /// The frame, which is the length, the kind and the depth, if the record is whole.
    pub(crate) fn frame(&self) -> Option<Frame>
        ensures { result ≡ frame_of self.now.bytes.now }
    {
        let (length, rest) = self.bytes.split_first_chunk::<4>()?;
        let [k0, k1, d0, d1, ..] = rest else {
            return None;
        };
        let follows = u32::from_le_bytes(*length) as usize;
        if follows < 4 || follows > rest.len() {
            return None;
        }
        Some(Frame {
            kind: Kind::try_from(u16::from_le_bytes([*k0, *k1])).ok(),
            depth: u16::from_le_bytes([*d0, *d1]),
            size: follows + 4,
        })
    }

    /// The payload of the record with that frame.
    pub(crate) fn payload(&self, frame: Frame) -> Payload<'a>
        requires { Some frame ≡ frame_of self.now.bytes.now }
        ensures at { result.at ≡ self.now.spot.place }
        ensures bytes { result.bytes.now ≡ take (frame.size - 8) (drop 8 self.now.bytes.now) }
    {
        Payload {
            at: self.spot.place,
            bytes: &self.bytes[8..frame.size],
        }
    }

    /// The record; what stands before it is not looked at.
    pub fn read(&self) -> Result<Found<'a>, Refusal>
        ensures { let at = self.now.spot.place in seen result ≡ seen_at at (at + (le4_at self.now.bytes.now 0 + 4)) (entry_front at self.now.bytes.now) }
    {
        let at = self.spot.place;
        let frame = self.frame().ok_or(Refusal::Cut(at))?;
        let kind = frame.kind.ok_or(Refusal::Kind(at))?;
        let record = self.payload(frame).body(kind)?;
        Ok(Found {
            record,
            depth: usize::from(frame.depth),
            next: at + frame.size,
        })
    }

    /// What stands behind the record: the next one, or the page's end where this one is not whole.
    fn past(&self) -> Front<'a>
        requires { 0 < length self.now.bytes.now }
        ensures { fronts_on self.now ≡ front_said self.now ∷ fronts_on result }
    {
        let size = match self.frame() {
            Some(frame) => frame.size,
            None => self.bytes.len(),
        };
        Front {
            spot: Spot {
                number: self.spot.number.saturating_add(1),
                place: self.spot.place + size,
            },
            bytes: &self.bytes[size..],
        }
    }
}

impl<'a> Iterator for Fronts<'a> {
    type Item = Front<'a>;

    ghost next_gives = { YieldsFirstBy front_said fronts_said };

    ghost remaining = { item_count fronts_said };

    fn next(&mut self) -> Option<Front<'a>> {
        let front = self.next;
        if front.bytes.is_empty() {
            return None;
        }
        self.next = front.past();
        Some(front)
    }
}

/// The records of a page.
#[tactic(auto, using(dom::proofs::Fronts::records_are_read))]
pub fn records(page: &[u8]) -> Fronts<'_>
    ensures fronts { fronts_said result ≡ fronts_at page.now (spot 0 0) }
    ensures read { RecordsAreRead page.now (fronts_said result) }
{
    Fronts {
        next: Front {
            spot: Spot {
                number: 0,
                place: 0,
            },
            bytes: page,
        },
    }
}
