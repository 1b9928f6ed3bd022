//! What a record's payload says, by its kind.
ghost use Rattle.std.specs.Prelude.{◌≡◌};
ghost use Rattle.dom.specs.Reading.{element_of, text_of, attribute_of, body_of};
ghost use Rattle.dom.specs.Shown.{told, shown_at};

use crate::front::Payload;
use parts::{Kind, Namespace, Part, Record, Refusal};
use text::utf8::from_utf8;

impl<'a> Payload<'a> {
    /// A namespace byte and a name of one byte or more.
    fn element(&self) -> Result<Record<'a>, Refusal>
        ensures { told result ≡ shown_at self.now.at (element_of self.now.at self.now.bytes.now) }
    {
        let at = self.at;
        let [namespace, name @ ..] = self.bytes else {
            return Err(Refusal::Name(at));
        };
        if name.is_empty() {
            return Err(Refusal::Name(at));
        }
        let namespace = Namespace::try_from(*namespace).map_err(|_| Refusal::Name(at))?;
        let text = from_utf8(name).ok_or(Refusal::Name(at))?;
        Ok(Record::Element {
            namespace,
            name: Part {
                start: at + 9,
                text,
            },
        })
    }

    fn text(&self) -> Result<Record<'a>, Refusal>
        ensures { told result ≡ shown_at self.now.at (text_of self.now.at self.now.bytes.now) }
    {
        let text = from_utf8(self.bytes).ok_or(Refusal::Text(self.at))?;
        Ok(Record::Text(Part {
            start: self.at + 8,
            text,
        }))
    }

    /// The length of the name, from 1, the name and the value.
    fn attribute(&self) -> Result<Record<'a>, Refusal>
        ensures { told result ≡ shown_at self.now.at (attribute_of self.now.at self.now.bytes.now) }
    {
        let at = self.at;
        let [len, rest @ ..] = self.bytes else {
            return Err(Refusal::Name(at));
        };
        let len = usize::from(*len);
        if len < 1 || len > rest.len() {
            return Err(Refusal::Name(at));
        }
        let (name, value) = rest.split_at(len);
        let name = Part {
            start: at + 9,
            text: from_utf8(name).ok_or(Refusal::Name(at))?,
        };
        let value = Part {
            start: at + 9 + len,
            text: from_utf8(value).ok_or(Refusal::Text(at))?,
        };
        Ok(Record::Attribute { name, value })
    }

    /// The record of that kind.
    pub(crate) fn body(&self, kind: Kind) -> Result<Record<'a>, Refusal>
        ensures { told result ≡ shown_at self.now.at (body_of self.now.at kind self.now.bytes.now) }
    {
        match kind {
            Kind::Document => Ok(Record::Document),
            Kind::Element => self.element(),
            Kind::Text => self.text(),
            Kind::Comment => Ok(Record::Comment),
            Kind::Doctype => Ok(Record::Doctype),
            Kind::ProcessingInstruction => Ok(Record::ProcessingInstruction),
            Kind::Attribute => self.attribute(),
        }
    }
}
