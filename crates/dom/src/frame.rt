//! A record's first bytes.
use parts::Kind;

/// A record's first bytes: the kind, if it is known, the depth and the length, with no word on whether they may stand there.
#[derive(Clone, Copy)]
pub struct Frame {
    pub kind: Option<Kind>,
    pub depth: u16,
    /// The bytes of the whole record, its length field included.
    pub size: usize,
}
