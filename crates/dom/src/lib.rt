//! What the bytes of a page mean: its records, its tree, the answers to what is asked of it, and what is true of them.
//! Nothing here reads a page: the definitions stand in specs/, and the code is the crate `page`'s, but for the order
//! that records keep.
#![tactic(auto)]

pub mod frame;
pub mod laws;
pub mod order;
