//! Characters and texts, by their public documents.
#![tactic(auto)]

pub mod count;
pub mod integer;
pub mod superscript;
pub mod utf8;
pub mod white_space;
pub mod words;
