//! A record of a page, to be asked about.
use parts::Spot;

/// A page, and where one of its records stands.
#[derive(Clone, Copy)]
pub struct Node<'a> {
    pub page: &'a [u8],
    pub spot: Spot,
}

/// The record behind another one, and the depth of that other one.
#[derive(Clone, Copy)]
pub(crate) struct Past<'a> {
    pub(crate) next: Node<'a>,
    pub(crate) depth: u16,
}
