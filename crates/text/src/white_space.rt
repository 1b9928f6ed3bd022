//! White space by Unicode's property White_Space.
ghost use Rattle.std.specs.Prelude.{◌≡◌, not};
ghost use Rattle.text.specs.PropList.{white_space, blank};

/// Whether the character has the property White_Space.
pub fn is_white_space(c: char) -> bool
    ensures { result ≡ white_space c }
{
    matches!(
        c,
        '\u{9}'..='\u{D}'
            | '\u{20}'
            | '\u{85}'
            | '\u{A0}'
            | '\u{1680}'
            | '\u{2000}'..='\u{200A}'
            | '\u{2028}'
            | '\u{2029}'
            | '\u{202F}'
            | '\u{205F}'
            | '\u{3000}'
    )
}

/// Whether every character of the text is white space.
#[tactic(auto, using(std::proofs::lemmas::Str::chars_from_encodes))]
pub fn is_blank(text: &str) -> bool
    ensures { result ≡ blank text.now }
{
    text.chars().all(is_white_space)
}

/// Whether the text has a character that is no white space.
pub fn has_visible(text: &str) -> bool
    ensures { result ≡ not (blank text.now) }
{
    !is_blank(text)
}
