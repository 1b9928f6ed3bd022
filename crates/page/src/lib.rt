//! Pages: the check of a page, and what is asked of an accepted one.
#![tactic(auto)]

pub mod ask;
mod body;
pub mod check;
pub mod front;
pub mod fronts;
pub mod node;
pub mod read;
