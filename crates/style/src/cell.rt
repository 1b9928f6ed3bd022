//! Declarations, and the cell in which they meet.
ghost use Rattle.std.specs.Prelude.{◌≡◌};
ghost use Rattle.std.specs.Option.{option_map};
ghost use Rattle.style.specs.Cascade.{empty, entered, weight_of, value_of};

use crate::values::{Specificity, StyleOrigin, Weight};

/// A value, and what the cascade weighs in its declaration.
#[derive(Clone, Copy)]
pub struct Declaration<T> {
    pub weight: Weight,
    pub value: T,
}

/// The declaration that has won so far, if any.
#[derive(Clone, Copy)]
pub struct WithSpec<T> {
    won: Option<Declaration<T>>,
}

impl<T: Copy> WithSpec<T> {
    /// A cell without a value.
    pub fn new() -> WithSpec<T>
        ensures { result ≡ empty }
    {
        WithSpec { won: None }
    }

    /// Enters a declaration by its parts, which are html2text's: it replaces one that does not outrank it.
    pub fn maybe_update(
        &mut self,
        important: bool,
        origin: StyleOrigin,
        specificity: Specificity,
        val: T,
    )
        ensures { self.new ≡ entered self.old (record { weight = record { important = important; origin = origin; specificity = specificity }; value = val }) }
    {
        let weight = Weight {
            important,
            origin,
            specificity,
        };
        if self.won.is_none_or(|won| !weight.is_below(won.weight)) {
            self.won = Some(Declaration { weight, value: val });
        }
    }

    /// Enters a declaration.
    pub(crate) fn enter(&mut self, declaration: Declaration<T>)
        ensures { self.new ≡ entered self.old declaration }
    {
        let Weight {
            important,
            origin,
            specificity,
        } = declaration.weight;
        self.maybe_update(important, origin, specificity, declaration.value);
    }

    /// What the cascade weighs in the declaration that has won so far: the least weight if there is none.
    pub fn weight(&self) -> Weight
        ensures { result ≡ weight_of self.now }
    {
        self.won.map(|won| won.weight).unwrap_or_default()
    }

    /// The value, if there is one.
    pub fn val(&self) -> Option<&T>
        ensures { option_map (λ x. x.now) result ≡ value_of self.now }
    {
        self.won.as_ref().map(|won| &won.value)
    }
}
