//! What the records and the tree of a page have to do with each other. Nothing here computes: each contract is a theorem.
ghost use Rattle.dom.specs.Dom.{TreeIsWhole, PartsStand};
ghost use Rattle.dom.specs.Laws.{HeldOnce, NoBytesAreCut};

/// No page holds two lists of records.
#[tactic(auto, using(crate::proofs::Records::held_once))]
pub fn held_once()
    ensures { HeldOnce }
{}

/// The tree of a page holds all its records in order, with their depths, numbers and places.
#[tactic(auto, using(crate::proofs::Whole::tree_is_whole))]
pub fn tree_is_whole()
    ensures { TreeIsWhole }
{}

/// Every name, value, text and payload of the tree stands in the page at its place.
pub fn parts_stand()
    ensures { PartsStand }
{}

/// A page of no bytes is refused as cut, at place 0.
pub fn no_bytes_are_cut()
    ensures { NoBytesAreCut }
{}
