//! The line of a record.
ghost use Rattle.std.specs.Prelude.{Some};
ghost use Rattle.dom.specs.Shown.{shown};
ghost use Rattle.bench.specs.Lines.{described, line};

use crate::hex::{Hex, HexOrDash};
use parts::{Found, Record};
use std::fmt;

/// A record's kind and its fields.
#[derive(Clone, Copy)]
pub(crate) struct Described<'a>(pub(crate) Record<'a>);

impl fmt::Display for Described<'_> {
    ghost output = { λ d. Some (described (shown d.0)) };

    fn fmt<W: fmt::Write>(&self, f: &mut fmt::Formatter<W>) -> fmt::Result {
        match self.0 {
            Record::Document => f.write_str("document"),
            Record::Element { namespace, name } => {
                write!(f, "element {namespace} {}", Hex(name.text.as_bytes()))
            }
            Record::Text(text) => write!(f, "text {}", HexOrDash(text.text.as_bytes())),
            Record::Comment => f.write_str("comment"),
            Record::Doctype => f.write_str("doctype"),
            Record::ProcessingInstruction => f.write_str("processing_instruction"),
            Record::Attribute { name, value } => {
                let name = Hex(name.text.as_bytes());
                let value = HexOrDash(value.text.as_bytes());
                write!(f, "attribute {name} {value}")
            }
        }
    }
}

/// The line of the record with that number.
#[derive(Clone, Copy)]
pub(crate) struct Line<'a> {
    pub(crate) number: usize,
    pub(crate) found: Found<'a>,
}

impl fmt::Display for Line<'_> {
    ghost output = { λ l. Some (line l.number l.found.depth (shown l.found.«record»)) };

    fn fmt<W: fmt::Write>(&self, f: &mut fmt::Formatter<W>) -> fmt::Result {
        let Line { number, found } = *self;
        let depth = found.depth;
        let what = Described(found.record);
        writeln!(f, "{number} {depth} {what}")
    }
}
