//! Values of styles, and how declarations are ordered.
ghost use Rattle.std.specs.Prelude.{◌≡◌};
ghost use Rattle.std.specs.Option.{option_map};
ghost use Rattle.style.specs.Cascade.{less_specific, rank, below};
ghost use Rattle.style.specs.Matching.{part_of};

/// An RGB colour.
#[derive(Clone, Copy, PartialEq, Eq)]
pub struct Colour {
    pub r: u8,
    pub g: u8,
    pub b: u8,
}

/// The CSS property white-space.
#[derive(Clone, Copy, PartialEq, Eq)]
pub enum WhiteSpace {
    Normal,
    Pre,
    PreWrap,
}

/// The CSS property display: `none`, or any other value.
#[derive(Clone, Copy, PartialEq, Eq)]
pub enum Display {
    None,
    Shown,
}

/// A part of some lent bytes: its first byte and its length. So a table can hold it without borrowing the bytes.
#[derive(Clone, Copy, PartialEq, Eq)]
pub struct Place {
    pub start: usize,
    pub len: usize,
}

impl Place {
    /// The part of the bytes at this place, if it lies within them.
    pub fn part(self, bytes: &[u8]) -> Option<&[u8]>
        ensures { option_map (λ x. x.now) result ≡ part_of bytes.now self }
    {
        bytes.get(self.start..self.start.checked_add(self.len)?)
    }
}

/// Where a declaration comes from, in the order of precedence.
#[derive(Clone, Copy, Default, PartialEq, Eq)]
pub enum StyleOrigin {
    #[default]
    None,
    Agent,
    User,
    Author,
}

/// How specific a declaration's selector is.
#[derive(Clone, Copy, Default, PartialEq, Eq, PartialOrd, Ord)]
pub struct Specificity {
    pub inline: bool,
    pub id: u16,
    pub class: u16,
    pub typ: u16,
}

impl Specificity {
    /// Whether the other is more specific.
    pub fn is_less(self, other: Specificity) -> bool
        ensures { result ≡ less_specific self other }
    {
        self < other
    }
}

/// What the cascade weighs in a declaration.
#[derive(Clone, Copy, Default, PartialEq, Eq)]
pub struct Weight {
    pub important: bool,
    pub origin: StyleOrigin,
    pub specificity: Specificity,
}

impl Weight {
    /// The origin's place in the order of precedence, which is reversed among important declarations.
    fn rank(self) -> u8
        ensures { result ≡ rank self.important self.origin }
    {
        let place = self.origin as u8;
        if self.important { 3 - place } else { place }
    }

    /// Whether the other outranks this one: by importance, then by origin, then by specificity.
    pub fn is_below(self, other: Weight) -> bool
        ensures { result ≡ below self other }
    {
        if self.important != other.important {
            return other.important;
        }
        let (mine, theirs) = (self.rank(), other.rank());
        if mine != theirs {
            return mine < theirs;
        }
        self.specificity.is_less(other.specificity)
    }
}
