//! What answers for the style of an element.
ghost use Rattle.style.specs.Source.{Meaning, Told};

use crate::style::ComputedStyle;
use page::node::Node;

/// A style source. It is asked about an element of a page; asking alters nothing.
pub trait StyleSource {
    ghost meaning: { Self → Meaning };

    /// The style of that element of an accepted page, under that style of its parent.
    fn style(&self, parent: ComputedStyle, element: Node<'_>) -> ComputedStyle
        ensures { Told element.entry.page.now element.entry.spot (meaning self.now parent) result };
}
