//! What the records before allow the next one to be.
ghost use Rattle.std.specs.Prelude.{◌≡◌};
ghost use Rattle.dom.specs.Format.{kind_fits, depth_fits};
ghost use Rattle.dom.specs.Reading.{after};

use parts::Kind;

const MAX_DEPTH: usize = 255;

/// What the records before say of where the next may stand.
#[derive(Clone, Copy)]
pub enum Order {
    /// No record stands before.
    Start,
    /// Some do.
    After {
        /// The greatest depth of a node.
        deepest: usize,
        /// The depth of an attribute, if one may stand here.
        attributes: Option<usize>,
    },
}

impl Order {
    /// The first record is the only Document.
    pub fn kind_fits(self, kind: Kind) -> bool
        ensures { result ≡ kind_fits self kind }
    {
        matches!(kind, Kind::Document) == matches!(self, Order::Start)
    }

    /// A record of that kind may lie at that depth.
    pub fn depth_fits(self, kind: Kind, depth: u16) -> bool
        ensures { result ≡ depth_fits self kind depth }
    {
        let depth = usize::from(depth);
        match (kind, self) {
            (Kind::Document, _) => depth == 0,
            (_, Order::Start) => false,
            (Kind::Attribute, Order::After { attributes, .. }) => {
                attributes == Some(depth) && depth <= MAX_DEPTH
            }
            (_, Order::After { deepest, .. }) => (1..=deepest).contains(&depth)
                && depth <= MAX_DEPTH,
        }
    }

    /// The order after one more record.
    pub fn after(self, kind: Kind, depth: u16) -> Order
        ensures { result ≡ after self kind depth }
    {
        let depth = usize::from(depth);
        let (deepest, attributes) = match (kind, self) {
            (Kind::Document, _) => (depth + 1, None),
            (Kind::Element, _) => (depth + 1, Some(depth + 1)),
            (Kind::Attribute, Order::Start) => (0, Some(depth)),
            (Kind::Attribute, Order::After { deepest, .. }) => (deepest, Some(depth)),
            _ => (depth, None),
        };
        Order::After {
            deepest,
            attributes,
        }
    }
}
