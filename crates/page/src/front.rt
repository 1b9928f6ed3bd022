//! Where the records of a page begin.
ghost use Rattle.std.specs.Prelude.{◌+◌, ◌^◌, ◌<◌, length};

use parts::Spot;

/// A record's number and place, and the bytes of the page from its first one on.
#[derive(Clone, Copy)]
pub struct Front<'a> {
    pub(crate) spot: Spot,
    pub(crate) bytes: &'a [u8],
    ghost fits: { 0 < length bytes.now → spot.place + length bytes.now + 9 < 2 ^ 64 },
}

/// The records from one on, up to the page's end or to a record that is not whole, which is the last.
#[derive(Drop)]
pub struct Fronts<'a> {
    pub(crate) next: Front<'a>,
}

/// A record's payload, and the place of the record.
#[derive(Clone, Copy)]
pub(crate) struct Payload<'a> {
    pub(crate) at: usize,
    pub(crate) bytes: &'a [u8],
    ghost fits: { at + 9 + length bytes.now < 2 ^ 64 },
}
