//! Short names.
ghost use Rattle.std.specs.Prelude.{◌≡◌, ◌≤◌, length, if◌then◌else◌, Some, None, nat_le};
ghost use Rattle.std.specs.Option.{option_map};

/// A name of at most 16 bytes. It has them in itself, in fixed memory, and is copied with the declaration that it is of.
#[derive(Clone, Copy)]
pub struct Name {
    bytes: [u8; 16],
    len: usize,
    ghost short: { len ≤ 16 },
}

impl Name {
    ghost use Rattle.style.specs.Names.{name_bytes};

    /// The name of those bytes, if they are at most 16.
    pub fn new(text: &[u8]) -> Option<Name>
        ensures { option_map name_bytes result ≡ (if nat_le (length text.now) 16 then Some text.now else None) }
    {
        let len = text.len();
        if len > 16 {
            return None;
        }
        let mut bytes = [0; 16];
        bytes[..len].copy_from_slice(text);
        Some(Name { bytes, len })
    }

    pub fn as_bytes(&self) -> &[u8]
        ensures { result.now ≡ name_bytes self.now }
    {
        &self.bytes[..self.len]
    }
}
