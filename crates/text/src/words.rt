//! ASCII white space, and the words of a text that is split at it, by the Infra standard and HTML.
ghost use Rattle.std.specs.Prelude.{◌≡◌, ℕ, Bool};
ghost use Rattle.std.specs.Iterator.{YieldsFirstRef, item_count};
ghost use Rattle.std.specs.Option.{option_map};
ghost use Rattle.text.specs.Cuts.{AnswersAs, IsCutBefore};
ghost use Rattle.text.specs.Infra.{ascii_white_space, words, skipped, collected, left, first_word, one_of, words_left, WordsAreRuns, FirstWordLeads};

/// Whether the byte is ASCII white space: TAB, LF, FF, CR or SPACE.
pub fn is_ascii_white_space(b: u8) -> bool
    ensures { result ≡ ascii_white_space b }
{
    b.is_ascii_whitespace()
}

/// The text without the ASCII white space that it begins with.
#[tactic(auto, using(crate::proofs::Splitting::trimmed))]
pub fn skip_white_space(text: &[u8]) -> &[u8]
    ensures { result.now ≡ skipped text.now }
{
    text.trim_ascii_start()
}

/// The bytes before the first one that ends the run, and the rest.
pub(crate) fn cut_run<F: Fn(u8) -> bool>(text: &[u8], ends: F) -> (&[u8], &[u8])
    requires { F.IsAlwaysCallable ends }
    ensures { (p : ℕ → Bool) → AnswersAs (F.post ends) p → IsCutBefore p text.now result.0.now result.1.now }
{
    let end = text.iter().position(|b| ends(*b)).unwrap_or(text.len());
    text.split_at(end)
}

/// The bytes before the first ASCII white space, and the rest.
fn cut_word(text: &[u8]) -> (&[u8], &[u8])
    ensures word { result.0.now ≡ collected text.now }
    ensures rest { result.1.now ≡ left text.now }
{
    cut_run(text, is_ascii_white_space)
}

/// The first word and what follows it, where the text has a word.
#[tactic(auto, using(crate::proofs::Splitting::first_word_is))]
pub fn next_word(text: &[u8]) -> Option<(&[u8], &[u8])>
    ensures { option_map (λ p. (p.0.now, p.1.now)) result ≡ first_word text.now }
{
    let rest = skip_white_space(text);
    if rest.is_empty() {
        return None;
    }
    Some(cut_word(rest))
}

/// The words of a text that are left, in order.
#[derive(Drop)]
pub struct WordIter<'a> {
    rest: &'a [u8],
}

/// The words of the text, in order.
pub fn words(text: &[u8]) -> WordIter<'_>
    ensures { words_left result ≡ words text.now }
{
    WordIter { rest: text }
}

impl<'a> Iterator for WordIter<'a> {
    type Item = &'a [u8];

    ghost next_gives = { YieldsFirstRef words_left };

    ghost remaining = { item_count words_left };

    #[tactic(auto, using(crate::proofs::Splitting::words_from_some, crate::proofs::Splitting::words_from_none))]
    fn next(&mut self) -> Option<&'a [u8]> {
        let (word, after) = next_word(self.rest)?;
        self.rest = after;
        Some(word)
    }
}

impl<'a> WordIter<'a> {
    /// Whether the word is one of those that are left.
    fn has(mut self, word: &[u8]) -> bool
        ensures { result ≡ one_of word.now (words_left self.entry) }
    {
        self.any(|next| next == word)
    }
}

/// Whether the word is one of the text's words.
pub fn has_word(text: &[u8], word: &[u8]) -> bool
    ensures { result ≡ one_of word.now (words text.now) }
{
    words(text).has(word)
}

/// A text splits into its words, and into no others.
pub fn words_are_runs()
    ensures { WordsAreRuns }
{}

/// The words of a text are its first word, as `next_word` has it, and the words of what follows.
#[tactic(auto, using(crate::proofs::Splitting::first_word_leads))]
pub fn first_word_leads()
    ensures { FirstWordLeads }
{}
