//! Styles by record number.
ghost use Rattle.std.specs.Prelude.{◌≡◌};
ghost use Rattle.style.specs.Marking.{style_of, marks_mean};

use crate::source::StyleSource;
use crate::style::ComputedStyle;
use page::node::Node;

/// The style of the element with that record number.
#[derive(Clone, Copy)]
pub struct Mark {
    pub record: usize,
    pub style: ComputedStyle,
}

/// A lent list of such entries, of which the first counts.
#[derive(Clone, Copy)]
pub struct Marks<'a> {
    pub marks: &'a [Mark],
}

impl<'a> Marks<'a> {
    /// The style of the first entry with that number.
    fn style_of(&self, number: usize) -> Option<ComputedStyle>
        ensures { result ≡ style_of number self.now.marks.now }
    {
        self.marks
            .iter()
            .find(|mark| mark.record == number)
            .map(|mark| mark.style)
    }
}

impl<'a> StyleSource for Marks<'a> {
    ghost meaning = { λ s. marks_mean s.marks.now };

    fn style(&self, parent: ComputedStyle, element: Node<'_>) -> ComputedStyle {
        self.style_of(element.spot.number).unwrap_or(parent)
    }
}
