//! The source that lies at the bottom of a style file.
use style::mark::Marks;
use style::rule::Rules;

/// Marks or rules.
#[derive(Clone, Copy)]
pub enum Base<'a> {
    Marks(Marks<'a>),
    Rules(Rules<'a>),
}
