//! Declarations of the house, over any source.
ghost use Rattle.style.specs.Housing.{house_declared, house_entered, house_mean};
ghost use Rattle.style.specs.Source.{Told};

use crate::cell::Declaration;
use crate::name::Name;
use crate::rule::{Tag, has_name};
use crate::source::StyleSource;
use crate::style::{ComputedStyle, Property};
use crate::values::{StyleOrigin, Weight};
use page::node::Node;

/// The elements of that name have that property.
#[derive(Clone, Copy)]
pub struct HouseRule {
    pub name: Name,
    pub property: Property,
}

/// A source with up to eight declarations of user origin, which enter its answer as unimportant name rules.
/// It has them in itself, in fixed memory.
pub struct House<S> {
    pub below: S,
    pub rules: [Option<HouseRule>; 8],
}

impl HouseRule {
    /// What is declared, if it is for the element's name.
    fn declared(&self, element: Node<'_>) -> Option<Declaration<Property>>
        ensures { Told element.entry.page.now element.entry.spot (λ _ e. house_declared e self.now) result }
    {
        let weight = Weight {
            important: false,
            origin: StyleOrigin::User,
            specificity: Tag::Name.specificity(),
        };
        let value = self.property;
        has_name(element, self.name.as_bytes()).then_some(Declaration { weight, value })
    }
}

impl<S> House<S> {
    /// The style after all declarations for the element's name.
    fn with_rules(&self, below: ComputedStyle, element: Node<'_>) -> ComputedStyle
        ensures { Told element.entry.page.now element.entry.spot (λ _ e. house_entered self.now.rules e below) result }
    {
        self.rules
            .iter()
            .filter_map(|rule| rule.as_ref()?.declared(element))
            .fold(below, |style, declaration| style.with(declaration))
    }
}

impl<S: StyleSource> StyleSource for House<S> {
    ghost meaning = { λ h. house_mean h.rules (S.meaning h.below) };

    fn style(&self, parent: ComputedStyle, element: Node<'_>) -> ComputedStyle {
        let answer = self.below.style(parent, element);
        self.with_rules(answer, element)
    }
}
