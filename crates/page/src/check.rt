//! The check of a page.
ghost use Rattle.std.specs.Prelude.{◌≡◌};
ghost use Rattle.dom.specs.Reading.{entries, counted, first_entry, onward};
ghost use Rattle.dom.specs.Laws.{Accepts};

use crate::front::Front;
use crate::fronts::records;
use dom::order::Order;
use parts::Refusal;

const MAX_BYTES: usize = 65536;

const MAX_RECORDS: usize = 4096;

impl<'a> Front<'a> {
    /// The order behind the record, if it may stand behind those before it.
    fn check(&self, order: Order) -> Result<Order, Refusal>
        ensures { result ≡ onward order (first_entry order self.now.spot.number self.now.spot.place self.now.bytes.now) }
    {
        let at = self.spot.place;
        if self.spot.number >= MAX_RECORDS {
            return Err(Refusal::Many(at));
        }
        let frame = self.frame().ok_or(Refusal::Cut(at))?;
        let kind = frame.kind.ok_or(Refusal::Kind(at))?;
        if !order.kind_fits(kind) {
            return Err(Refusal::Kind(at));
        }
        if !order.depth_fits(kind, frame.depth) {
            return Err(Refusal::Depth(at));
        }
        self.payload(frame).body(kind)?;
        Ok(order.after(kind, frame.depth))
    }
}

/// The number of the page's records, or why it is refused.
pub fn check(page: &[u8]) -> Result<usize, Refusal>
    ensures answer { result ≡ counted 0 (entries page.now) }
    ensures accepts { Accepts page.now result }
{
    if page.len() > MAX_BYTES {
        return Err(Refusal::Long);
    }
    if page.is_empty() {
        return Err(Refusal::Cut(0));
    }
    let mut order = Order::Start;
    let mut count = 0;
    for front in records(page) {
        order = front.check(order)?;
        count += 1;
    }
    Ok(count)
}
