//! The style source that a style file is.
ghost use Rattle.std.specs.Prelude.{◌≡◌, ◌+◌, ◌<◌, ◌≤◌, slice_get};
ghost use Rattle.style_file.specs.Said.{file_said};
ghost use Rattle.style_file.specs.Sources.{base_mean, file_mean, slots_from};

use crate::base::Base;
use crate::file::StyleFile;
use page::node::Node;
use std::array::from_fn;
use style::house::{House, HouseRule};
use style::mark::Marks;
use style::rule::Rules;
use style::source::StyleSource;
use style::style::ComputedStyle;

impl<'a> StyleSource for Base<'a> {
    ghost meaning = { base_mean };

    fn style(&self, parent: ComputedStyle, element: Node<'_>) -> ComputedStyle {
        match self {
            Base::Marks(marks) => marks.style(parent, element),
            Base::Rules(rules) => rules.style(parent, element),
        }
    }
}

/// Eight declarations from that one on, each in a slot of a House.
fn slots(rules: &[HouseRule], from: usize) -> [Option<HouseRule>; 8]
    requires { from ≤ 8 }
    ensures { result ≡ slots_from rules.now from }
{
    from_fn(
        |k|
            requires { from + k < 16 }
            ensures { result ≡ slice_get rules.entry.now (from + k) }
        { rules.get(from + k).copied() },
    )
}

impl StyleFile {
    fn base(&self) -> Base<'_>
        ensures { base_mean result ≡ file_mean (file_said self.now) }
    {
        if self.marks.is_empty() {
            Base::Rules(Rules {
                rules: self.rules.as_slice(),
                bytes: self.bytes.as_slice(),
            })
        } else {
            Base::Marks(Marks {
                marks: self.marks.as_slice(),
            })
        }
    }

    /// Marks, if the file has any, or else its rules, under a House of its first eight declarations of the house and
    /// another of the next eight.
    pub fn source(&self) -> House<House<Base<'_>>>
        ensures base { base_mean result.below.below ≡ file_mean (file_said self.now) }
        ensures first { result.below.rules ≡ slots_from self.now.house.items 0 }
        ensures next { result.rules ≡ slots_from self.now.house.items 8 }
    {
        let house = self.house.as_slice();
        let below = House {
            below: self.base(),
            rules: slots(house, 0),
        };
        House {
            below,
            rules: slots(house, 8),
        }
    }
}
