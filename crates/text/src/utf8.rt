//! UTF-8 by RFC 3629.
ghost use Rattle.std.specs.Prelude.{◌≡◌, true, false, if◌then◌else◌, Some, None};
ghost use Rattle.std.specs.Option.{option_map};
ghost use Rattle.text.specs.Rfc3629.{octets, GrammarIsEncoding, CharactersAreCodePoints};

/// The bytes as a text, where they are UTF-8.
#[tactic(auto, using(crate::proofs::Rfc::to_table, crate::proofs::Rfc::from_table))]
pub fn from_utf8(bytes: &[u8]) -> Option<&str>
    ensures { option_map (λ x. x.now) result ≡ (if octets bytes.now then Some bytes.now else None) }
{
    std::str::from_utf8(bytes).ok()
}

/// The grammar of section 4 accepts exactly the encodings of section 3.
#[tactic(auto, using(crate::proofs::Rfc::grammar_is_encoding))]
pub fn grammar_is_encoding()
    ensures { GrammarIsEncoding }
{}

/// The characters of a text are the code points that it encodes.
#[tactic(auto, using(crate::proofs::Rfc::characters_are_code_points))]
pub fn characters_are_code_points()
    ensures { CharactersAreCodePoints }
{}
