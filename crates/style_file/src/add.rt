//! How an item enters a style file, or is refused because it may not stand there.
ghost use Rattle.std.specs.Prelude.{Some};
ghost use Rattle.style_file.specs.Refusals.{Gives};
ghost use Rattle.style_file.specs.Said.{said, said_setting, file_said};
ghost use Rattle.style_file.specs.Files.{appended, text_added, property_added, added};
ghost use Rattle.style_file.specs.Items.{Item as Items};

use crate::file::StyleFile;
use crate::hex::append_text;
use crate::item::{Item, RuleLine, Setting};
use crate::refusal::Refusal;
use style::house::HouseRule;
use style::mark::Mark;
use style::name::Name;
use style::rule::Rule;
use style::style::{ComputedStyle, Property};
use style::values::{Place, Weight};

/// The most declarations of the house: those of one House over another.
const MAX_HOUSE: usize = 16;

/// Appends the text, and answers where it stands.
fn append(bytes: &mut Vec<u8>, text: &[u8]) -> Result<Place, Refusal>
    ensures { Gives (λ p. (p, bytes.new.items)) result (Some (appended bytes.old.items text.now)) }
{
    let place = Place {
        start: bytes.len(),
        len: text.len(),
    };
    bytes.extend_from_slice(text)?;
    Ok(place)
}

/// Appends the text that the word writes, and answers where it stands.
#[tactic(auto, using(crate::proofs::Digits::stands_behind))]
fn add_text(bytes: &mut Vec<u8>, word: &[u8]) -> Result<Place, Refusal>
    ensures { Gives (λ p. (p, bytes.new.items)) result (text_added bytes.old.items word.now) }
{
    let start = bytes.len();
    append_text(bytes, word)?;
    Ok(Place {
        start,
        len: bytes.len() - start,
    })
}

fn add_property(bytes: &mut Vec<u8>, setting: Setting<'_>) -> Result<Property, Refusal>
    ensures { Gives (λ p. (p, bytes.new.items)) result (property_added bytes.old.items (said_setting setting.entry)) }
{
    match setting {
        Setting::Plain(property) => Ok(property),
        Setting::Before(word) => add_text(bytes, word).map(Property::Before),
        Setting::After(word) => add_text(bytes, word).map(Property::After),
    }
}

impl StyleFile {
    fn add_rule(&mut self, rule: RuleLine<'_>) -> Result<(), Refusal>
        ensures { let r = rule.entry in Gives (λ _. file_said self.new) result (added (file_said self.old) (Items.rule r.tag r.word.now r.origin r.important (said_setting r.setting))) }
    {
        let property = add_property(&mut self.bytes, rule.setting)?;
        let place = append(&mut self.bytes, rule.word)?;
        self.rules.push(Rule {
            tag: rule.tag,
            place,
            origin: rule.origin,
            important: rule.important,
            property,
        })?;
        Ok(())
    }

    fn add_mark(&mut self, record: usize) -> Result<(), Refusal>
        ensures { Gives (λ _. file_said self.new) result (added (file_said self.old) (Items.mark «record»)) }
    {
        self.marks.push(Mark {
            record,
            style: ComputedStyle::new(),
        })?;
        Ok(())
    }

    fn add_house(&mut self, name: &[u8], setting: Setting<'_>) -> Result<(), Refusal>
        ensures { Gives (λ _. file_said self.new) result (added (file_said self.old) (Items.house name.now (said_setting setting.entry))) }
    {
        let property = add_property(&mut self.bytes, setting)?;
        let name = Name::new(name).ok_or(Refusal::Misplaced)?;
        if self.house.len() >= MAX_HOUSE {
            return Err(Refusal::Misplaced);
        }
        self.house.push(HouseRule { name, property })?;
        Ok(())
    }

    fn add_cell(&mut self, weight: Weight, setting: Setting<'_>) -> Result<(), Refusal>
        ensures { Gives (λ _. file_said self.new) result (added (file_said self.old) (Items.cell weight (said_setting setting.entry))) }
    {
        let property = add_property(&mut self.bytes, setting)?;
        let Some(mark) = self.marks.last_mut() else {
            return Err(Refusal::Misplaced);
        };
        mark.style.enter(weight, property);
        Ok(())
    }

    /// The file with that item behind the others.
    pub(crate) fn add(&mut self, item: Item<'_>) -> Result<(), Refusal>
        ensures { Gives (λ _. file_said self.new) result (added (file_said self.old) (said item.entry)) }
    {
        match item {
            Item::Nothing => Ok(()),
            Item::Rule(rule) => self.add_rule(rule),
            Item::Mark(record) => self.add_mark(record),
            Item::Cell { weight, setting } => self.add_cell(weight, setting),
            Item::House { name, setting } => self.add_house(name, setting),
        }
    }
}
