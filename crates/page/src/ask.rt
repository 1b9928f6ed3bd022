//! What is asked of an accepted page: children, siblings and attributes of a node.
//! Each answer looks only at the records from the node to the one that is answered.
ghost use Rattle.std.specs.Prelude.{◌≡◌, ◌≤◌, ◌||◌, nat_lt, IfSome};
ghost use Rattle.std.specs.Option.{option_map};
ghost use Rattle.dom.specs.Asking.{node_at, past_of, after_by, related, valued, attribute_of, Answers, AnswersAttribute, AnswersRoot, children, following};
ghost use Rattle.page.specs.Said.{fronts_said, is_attribute, past_said};
ghost use Rattle.dom.specs.Fronts.{named_in};

use crate::front::Fronts;
use crate::node::{Node, Past};
use dom::frame::Frame;
use parts::{Found, Kind, Named, Record, Spot};

/// The record is an attribute, or lies deeper.
fn is_passed(frame: Frame, depth: usize) -> bool
    ensures { result ≡ (is_attribute frame.kind || nat_lt depth frame.depth) }
{
    matches!(frame.kind, Some(Kind::Attribute)) || depth < usize::from(frame.depth)
}

/// The first attribute of that name, of those with which the records go on.
fn first_named<'a>(records: Fronts<'a>, name: &str) -> Option<Named<'a>>
    ensures { option_map valued result ≡ named_in name.now (fronts_said records.entry) }
{
    for front in records {
        let Ok(
            Found {
                record: Record::Attribute { name: own, value },
                ..
            },
        ) = front.read()
        else {
            return None;
        };
        if own.text == name {
            return Some(Named {
                spot: front.spot,
                value,
            });
        }
    }
    None
}

impl<'a> Node<'a> {
    /// The first node from this record on that lies at that depth, unless a node less deep comes before it.
    /// Attributes and deeper nodes are passed over.
    #[tactic(auto, using(dom::proofs::Fronts::found_from))]
    pub fn node_from(&self, depth: usize) -> Option<Spot>
        ensures { result ≡ node_at self.now.page.now self.now.spot depth }
    {
        for front in self.records() {
            let frame = front.frame()?;
            if !is_passed(frame, depth) {
                return (usize::from(frame.depth) == depth).then_some(front.spot);
            }
        }
        None
    }

    /// The record behind this one, and the depth of this one, if this one is whole.
    #[tactic(auto, using(dom::proofs::Asked::past_framed, dom::proofs::Asked::past_none))]
    fn past(&self) -> Option<Past<'a>>
        ensures past { option_map past_said result ≡ past_of self.now.page.now self.now.spot }
        ensures page { IfSome result (λ p. p.next.page.now ≡ self.now.page.now) }
    {
        let frame = self.front().frame()?;
        let next = Node {
            page: self.page,
            spot: Spot {
                number: self.spot.number.saturating_add(1),
                place: self.spot.place + frame.size,
            },
        };
        Some(Past {
            next,
            depth: frame.depth,
        })
    }

    /// The first node that lies so much deeper than this one, from the next record on.
    fn after_by(&self, more: usize) -> Option<Spot>
        requires { more ≤ 1 }
        ensures answer { result ≡ after_by more self.now.page.now self.now.spot }
        ensures node { Answers (related more) self.now.page.now self.now.spot result }
        ensures document { AnswersRoot more self.now.page.now self.now.spot result }
    {
        let past = self.past()?;
        past.next.node_from(usize::from(past.depth) + more)
    }

    /// The first child.
    pub fn first_child(&self) -> Option<Spot>
        ensures answer { result ≡ after_by 1 self.now.page.now self.now.spot }
        ensures child { Answers children self.now.page.now self.now.spot result }
        ensures document { AnswersRoot 1 self.now.page.now self.now.spot result }
    {
        self.after_by(1)
    }

    /// The next sibling.
    pub fn next_sibling(&self) -> Option<Spot>
        ensures answer { result ≡ after_by 0 self.now.page.now self.now.spot }
        ensures sibling { Answers following self.now.page.now self.now.spot result }
    {
        self.after_by(0)
    }

    /// The first attribute of that name.
    #[tactic(auto, using(dom::proofs::Fronts::named_past, dom::proofs::Answering::attribute_answers))]
    pub fn attribute(&self, name: &str) -> Option<Named<'a>>
        ensures answer { option_map valued result ≡ attribute_of self.now.page.now self.now.spot name.now }
        ensures named { AnswersAttribute self.now.page.now self.now.spot name.now (option_map valued result) }
    {
        let past = self.past()?;
        first_named(past.next.records(), name)
    }
}
