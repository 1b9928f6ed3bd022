//! The cells of a style, as a text.
ghost use Rattle.std.specs.Prelude.{◌≡◌, ℕ, false, List, map, Some};
ghost use Rattle.std.specs.Option.{option_map};
ghost use Rattle.style.specs.Cascade.{weight_of, value_of};
ghost use Rattle.bench.specs.Cells.{weight_text, text_at, cells_text, cells_of};
ghost use Rattle.bench.specs.Cells.Cell.{cell};
ghost use Rattle.bench.specs.declared.cells.Value.{Value};
ghost use Rattle.bench.specs.Values.{value_text, as_cell};

use crate::hex::{Hex, HexOrDash};
use std::fmt;
use style::cell::{Declaration, WithSpec};
use style::style::ComputedStyle;
use style::values::{Colour, Display, Place, Specificity, Weight, WhiteSpace};

/// Origin, importance and specificity.
#[derive(Clone, Copy)]
struct Weighed(Weight);

impl fmt::Display for Weighed {
    ghost output = { λ w. Some (weight_text w.0) };

    fn fmt<W: fmt::Write>(&self, f: &mut fmt::Formatter<W>) -> fmt::Result {
        let Weight {
            important,
            origin,
            specificity,
        } = self.0;
        let Specificity {
            inline,
            id,
            class,
            typ,
        } = specificity;
        let important = u8::from(important);
        let inline = u8::from(inline);
        write!(f, ":{origin}:{important}:{inline}.{id}.{class}.{typ}")
    }
}

/// The value of a cell. White space prints as a number.
#[derive(Clone, Copy)]
enum Value<'a> {
    Colour(Colour),
    Display(Display),
    WhiteSpace(WhiteSpace),
    Text(&'a [u8]),
}

impl fmt::Display for Value<'_> {
    ghost output = { λ v. Some (value_text v) };

    fn fmt<W: fmt::Write>(&self, f: &mut fmt::Formatter<W>) -> fmt::Result {
        match *self {
            Value::Colour(Colour { r, g, b }) => write!(f, "{}", Hex(&[r, g, b])),
            Value::Display(display) => write!(f, "{display}"),
            Value::WhiteSpace(WhiteSpace::Normal) => f.write_str("0"),
            Value::WhiteSpace(WhiteSpace::Pre) => f.write_str("1"),
            Value::WhiteSpace(WhiteSpace::PreWrap) => f.write_str("2"),
            Value::Text(text) => write!(f, "{}", HexOrDash(text)),
        }
    }
}

fn text_at(sheet: &[u8], place: Place) -> &[u8]
    ensures { result.now ≡ text_at sheet.now place }
{
    place.part(sheet).unwrap_or_default()
}

/// A cell by its name.
#[derive(Clone, Copy)]
struct Cell<'a> {
    name: &'a str,
    won: Option<Declaration<Value<'a>>>,
}

impl<'a> Cell<'a> {
    /// What is printed of a cell of the cascade.
    fn new<T: Copy, F: FnOnce(T) -> Value<'a>>(
        name: &'a str,
        from: &WithSpec<T>,
        value: F,
    ) -> Cell<'a>
        requires { F.IsAlwaysCallable value }
        ensures { (text : T → List ℕ) → ((v : T) (w : Value) → F.post value v w → value_text w ≡ text v) → as_cell result ≡ cell name.now (option_map text (value_of from.now)) (weight_of from.now) }
    {
        let weight = from.weight();
        let won = match from.val() {
            Some(won) => {
                let value = value(*won);
                Some(Declaration { weight, value })
            }
            None => None,
        };
        Cell { name, won }
    }
}

/// The cells of a style, whose texts stand in the sheet.
#[derive(Clone, Copy)]
pub(crate) struct Cells<'a> {
    pub(crate) style: &'a ComputedStyle,
    pub(crate) sheet: &'a [u8],
}

impl<'a> Cells<'a> {
    fn all(&self) -> [Cell<'a>; 6]
        ensures { map as_cell result ≡ cells_of self.now.sheet.now self.now.style.now }
    {
        let Cells { style, sheet } = *self;
        let text = |place| Value::Text(text_at(sheet, place));
        [
            Cell::new("colour", &style.colour, Value::Colour),
            Cell::new("bg", &style.bg_colour, Value::Colour),
            Cell::new("display", &style.display, Value::Display),
            Cell::new("ws", &style.white_space, Value::WhiteSpace),
            Cell::new("before", &style.content_before, text),
            Cell::new("after", &style.content_after, text),
        ]
    }
}

/// Those that have a value, with commas between them, or a dash if none has one.
impl fmt::Display for Cells<'_> {
    ghost output = { λ c. Some (cells_text false (cells_of c.sheet.now c.style.now)) };

    fn fmt<W: fmt::Write>(&self, f: &mut fmt::Formatter<W>) -> fmt::Result {
        let mut any = false;
        for cell in &self.all() {
            let Some(Declaration { weight, value }) = cell.won else {
                continue;
            };
            let comma = if any { "," } else { "" };
            write!(f, "{comma}{}={value}{}", cell.name, Weighed(weight))?;
            any = true;
        }
        if any { Ok(()) } else { f.write_str("-") }
    }
}
