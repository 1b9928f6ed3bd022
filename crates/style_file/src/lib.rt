//! Style files: styles written down a line at a time, for a person at a desk.
#![tactic(auto)]

mod add;
pub mod base;
pub mod file;
mod hex;
mod item;
mod line;
pub mod read;
mod refusal;
pub mod source;
mod word;
