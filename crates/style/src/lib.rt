//! Styles: cascade cells, and the sources that say which style an element has.
#![tactic(auto)]

pub mod cell;
pub mod cells;
pub mod house;
pub mod mark;
pub mod name;
pub mod printing;
pub mod rule;
pub mod source;
pub mod style;
pub mod values;
