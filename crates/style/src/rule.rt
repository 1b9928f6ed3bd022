//! Rules of a style sheet.
ghost use Rattle.std.specs.Prelude.{◌≡◌};
ghost use Rattle.std.specs.Option.{option_map};
ghost use Rattle.std.specs.Str.{bytes_eq};
ghost use Rattle.style.specs.Matching.{first_value, rule_matches, rule_declared, one_in, rules_mean};
ghost use Rattle.style.specs.Source.{Told};

use crate::cell::Declaration;
use crate::source::StyleSource;
use crate::style::{ComputedStyle, Property};
use crate::values::{Place, Specificity, StyleOrigin, Weight};
use page::node::Node;
use parts::Record;
use text::words::has_word;

/// What of an element a rule looks at.
#[derive(Clone, Copy)]
pub enum Tag {
    Name,
    Class,
    Id,
}

/// A rule: the elements with that name, class word or id have that property.
/// The word is a part of bytes that are lent with the rules.
#[derive(Clone, Copy)]
pub struct Rule {
    pub tag: Tag,
    pub place: Place,
    pub origin: StyleOrigin,
    pub important: bool,
    pub property: Property,
}

/// A lent list of rules, and the lent bytes in which their words stand.
#[derive(Clone, Copy)]
pub struct Rules<'a> {
    pub rules: &'a [Rule],
    pub bytes: &'a [u8],
}

/// Whether the element has that name, in any namespace.
pub(crate) fn has_name(element: Node<'_>, word: &[u8]) -> bool
    ensures { Told element.entry.page.now element.entry.spot (λ _ e. bytes_eq e.name.bytes word.now) result }
{
    let Ok(found) = element.record() else {
        return false;
    };
    match found.record {
        Record::Element { name, .. } => name.text.as_bytes() == word,
        _ => false,
    }
}

/// The value of the first attribute of that name.
fn first_value<'a>(element: Node<'a>, name: &str) -> Option<&'a [u8]>
    ensures { Told element.entry.page.now element.entry.spot (λ _ e. first_value name.now e) (option_map (λ x. x.now) result) }
{
    element
        .attribute(name)
        .map(|found| found.value.text.as_bytes())
}

impl Tag {
    /// One in the field of what a rule looks at.
    pub(crate) fn specificity(self) -> Specificity
        ensures { result ≡ one_in self }
    {
        let zero = Specificity::default();
        match self {
            Tag::Name => Specificity { typ: 1, ..zero },
            Tag::Class => Specificity { class: 1, ..zero },
            Tag::Id => Specificity { id: 1, ..zero },
        }
    }
}

impl<'a> Rules<'a> {
    /// Whether the rule matches the element.
    fn matches(&self, rule: &Rule, element: Node<'_>) -> bool
        ensures { Told element.entry.page.now element.entry.spot (λ _ e. rule_matches self.now.bytes.now rule.now e) result }
    {
        let Some(word) = rule.place.part(self.bytes) else {
            return false;
        };
        match rule.tag {
            Tag::Name => has_name(element, word),
            Tag::Class => first_value(element, "class").is_some_and(|value| has_word(value, word)),
            Tag::Id => first_value(element, "id").is_some_and(|value| value == word),
        }
    }

    /// What the rule declares, if it matches the element.
    fn declared(&self, rule: &Rule, element: Node<'_>) -> Option<Declaration<Property>>
        ensures { Told element.entry.page.now element.entry.spot (λ _ e. rule_declared self.now.bytes.now e rule.now) result }
    {
        let weight = Weight {
            important: rule.important,
            origin: rule.origin,
            specificity: rule.tag.specificity(),
        };
        let value = rule.property;
        self.matches(rule, element)
            .then_some(Declaration { weight, value })
    }
}

impl<'a> StyleSource for Rules<'a> {
    ghost meaning = { λ s. rules_mean s.bytes.now s.rules.now };

    fn style(&self, parent: ComputedStyle, element: Node<'_>) -> ComputedStyle {
        self.rules
            .iter()
            .filter_map(|rule| self.declared(rule, element))
            .fold(parent, |style, declaration| style.with(declaration))
    }
}
