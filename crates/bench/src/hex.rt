//! Bytes in lower-case hexadecimal.
ghost use Rattle.std.specs.Prelude.{Some};
ghost use Rattle.bench.specs.Lines.{hex, hex_or_dash};

use std::fmt;

/// Two digits for each byte.
#[derive(Clone, Copy)]
pub(crate) struct Hex<'a>(pub(crate) &'a [u8]);

impl fmt::Display for Hex<'_> {
    ghost output = { λ h. Some (hex h.0.now) };

    fn fmt<W: fmt::Write>(&self, f: &mut fmt::Formatter<W>) -> fmt::Result {
        for byte in self.0 {
            let byte = *byte;
            write!(f, "{byte:02x}")?;
        }
        Ok(())
    }
}

/// The same, or a dash where there are no bytes.
#[derive(Clone, Copy)]
pub(crate) struct HexOrDash<'a>(pub(crate) &'a [u8]);

impl fmt::Display for HexOrDash<'_> {
    ghost output = { λ h. Some (hex_or_dash h.0.now) };

    fn fmt<W: fmt::Write>(&self, f: &mut fmt::Formatter<W>) -> fmt::Result {
        if self.0.is_empty() {
            return f.write_str("-");
        }
        write!(f, "{}", Hex(self.0))
    }
}
