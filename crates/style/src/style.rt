//! An element's style: a cell for each property.
ghost use Rattle.std.specs.Prelude.{◌≡◌};
ghost use Rattle.style.specs.Styles.{default_style, with_property, with_declared};

use crate::cell::{Declaration, WithSpec};
use crate::values::{Colour, Display, Place, Weight, WhiteSpace};

/// What a source says of an element. The two texts are places in the style sheet.
#[derive(Clone, Copy)]
pub struct ComputedStyle {
    pub colour: WithSpec<Colour>,
    pub bg_colour: WithSpec<Colour>,
    pub display: WithSpec<Display>,
    pub white_space: WithSpec<WhiteSpace>,
    pub content_before: WithSpec<Place>,
    pub content_after: WithSpec<Place>,
}

/// One property with its value.
#[derive(Clone, Copy)]
pub enum Property {
    Colour(Colour),
    BgColour(Colour),
    Display(Display),
    WhiteSpace(WhiteSpace),
    Before(Place),
    After(Place),
}

impl ComputedStyle {
    /// The style of which nothing is declared.
    pub fn new() -> ComputedStyle
        ensures { result ≡ default_style }
    {
        ComputedStyle {
            colour: WithSpec::new(),
            bg_colour: WithSpec::new(),
            display: WithSpec::new(),
            white_space: WithSpec::new(),
            content_before: WithSpec::new(),
            content_after: WithSpec::new(),
        }
    }

    /// Enters a declaration into the cell of its property.
    pub fn enter(&mut self, weight: Weight, property: Property)
        ensures { self.new ≡ with_property self.old weight property }
    {
        match property {
            Property::Colour(value) => self.colour.enter(Declaration { weight, value }),
            Property::BgColour(value) => self.bg_colour.enter(Declaration { weight, value }),
            Property::Display(value) => self.display.enter(Declaration { weight, value }),
            Property::WhiteSpace(value) => self.white_space.enter(Declaration { weight, value }),
            Property::Before(value) => self.content_before.enter(Declaration { weight, value }),
            Property::After(value) => self.content_after.enter(Declaration { weight, value }),
        }
    }

    /// The style after that declaration.
    pub(crate) fn with(mut self, declaration: Declaration<Property>) -> ComputedStyle
        ensures { result ≡ with_declared self declaration }
    {
        self.enter(declaration.weight, declaration.value);
        self
    }
}
