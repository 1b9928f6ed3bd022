//! The listing of a page with styles.
ghost use Rattle.std.specs.Prelude.{◌≡◌, ℕ, List, ◌++◌, Some, string_bytes, OnOk};
ghost use Rattle.dom.specs.Shown.{shown};
ghost use Rattle.bench.specs.Styled.{styled_line, Printed};

use crate::cells::Cells;
use crate::line::{Described, Line};
use page::node::Node;
use parts::{Found, Record};
use std::alloc::AllocError;
use std::fmt;
use style::source::StyleSource;
use style::style::ComputedStyle;

/// The line of an element with its style.
#[derive(Clone, Copy)]
struct StyledLine<'a> {
    number: usize,
    found: Found<'a>,
    cells: Cells<'a>,
}

impl fmt::Display for StyledLine<'_> {
    ghost output = { λ l. Some (styled_line l.cells.sheet.now l.number l.found.depth (shown l.found.«record») l.cells.style.now) };

    fn fmt<W: fmt::Write>(&self, f: &mut fmt::Formatter<W>) -> fmt::Result {
        let StyledLine {
            number,
            found,
            cells,
        } = *self;
        let depth = found.depth;
        let what = Described(found.record);
        writeln!(f, "{number} {depth} {what} style={cells}")
    }
}

/// Adds the line of the record, an element's with the source's answer.
fn write_record<'a, S: StyleSource>(
    out: &mut String,
    source: &S,
    sheet: &'a [u8],
    node: Node<'a>,
    found: Found<'a>,
) -> Result<(), AllocError>
    ensures { OnOk result ((here : List ℕ) × (string_bytes out.new ≡ string_bytes out.old ++ here) × Printed node.entry.page.now (S.StyleSource.meaning source.now) sheet.now node.entry.spot found.entry.depth (shown found.entry.«record») here) }
{
    let number = node.spot.number;
    match found.record {
        Record::Element { .. } => {
            let style = source.style(ComputedStyle::new(), node);
            let cells = Cells {
                style: &style,
                sheet,
            };
            let line = StyledLine {
                number,
                found,
                cells,
            };
            write!(out, "{line}")
        }
        _ => write!(out, "{}", Line { number, found }),
    }
}
