//! What the program's words ask for.
ghost use Rattle.std.specs.Prelude.{◌≡◌, map, string_bytes};
ghost use Rattle.std.specs.Option.{option_map};
ghost use Rattle.bench.specs.Words.{named, chosen};

fn name_in(words: &[String]) -> Option<&str>
    ensures { option_map (λ x. x.now) result ≡ named (map string_bytes words.now) }
{
    match words {
        [] => Some("page.bin"),
        [word] if !word.as_str().starts_with('-') => Some(word.as_str()),
        _ => None,
    }
}

/// The page's file, or nothing where the words are not understood.
pub(crate) fn file_in(words: &[String]) -> Option<&str>
    ensures { option_map (λ x. x.now) result ≡ chosen (map string_bytes words.now) }
{
    match words {
        [first, rest @ ..] if first.as_str() == "--records" => name_in(rest),
        _ => name_in(words),
    }
}
