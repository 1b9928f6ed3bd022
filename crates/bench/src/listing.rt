//! The listing of a page.
ghost use Rattle.std.specs.Prelude.{◌≡◌, List, ◌++◌, IfOk, Ok, string_bytes, OnOk, IsOk};
ghost use Rattle.dom.specs.Format.{Entry};
ghost use Rattle.dom.specs.Reading.{entries};
ghost use Rattle.bench.specs.Lines.{lines, listed};

use crate::line::Line;
use page::check::check;
use page::fronts::records;
use std::alloc::{AllocError, Global};

/// Adds the lines of the records of an accepted page.
#[tactic(auto, using(crate::proofs::Records::begun))]
fn write_records(out: &mut String, page: &[u8]) -> Result<(), AllocError>
    requires { IsOk (entries page.now) }
    ensures { OnOk result ((es : List Entry) → entries page.now ≡ Ok es → string_bytes out.new ≡ string_bytes out.old ++ lines 0 es) }
{
    for front in records(page) {
        let number = front.spot().number;
        let Ok(found) = front.read() else {
            unreachable!()
        };
        write!(out, "{}", Line { number, found })?;
    }
    Ok(())
}

/// A line for each record and a last line, or the refusal alone.
pub(crate) fn listing(heap: Global, page: &[u8]) -> Result<String, AllocError>
    ensures { IfOk result (λ s. string_bytes s ≡ listed (entries page.now)) }
{
    let mut out = String::new(heap);
    match check(page) {
        Ok(_) => {
            write_records(&mut out, page)?;
            writeln!(out, "end 0")?;
        }
        Err(refusal) => {
            let number = refusal.number();
            let place = refusal.place();
            writeln!(out, "end {number} {place} lowering")?;
        }
    }
    Ok(out)
}
