//! The parts of a page: records, their places, and refusals.
#![tactic(auto)]

pub mod codes;
mod names;
mod numbers;

/// The namespace of an element.
#[derive(Clone, Copy, Debug, PartialEq, Eq)]
pub enum Namespace {
    Other,
    Html,
    Svg,
}

/// The kind of a record.
#[derive(Clone, Copy, Debug, PartialEq, Eq)]
pub enum Kind {
    Document,
    Element,
    Text,
    Comment,
    Doctype,
    ProcessingInstruction,
    Attribute,
}

/// A name, value or text of the page, with the place of its first byte.
#[derive(Clone, Copy)]
pub struct Part<'a> {
    pub start: usize,
    pub text: &'a str,
}

/// A record as it is read. Its parts are borrowed from the page.
#[derive(Clone, Copy)]
pub enum Record<'a> {
    Document,
    Element {
        namespace: Namespace,
        name: Part<'a>,
    },
    Text(Part<'a>),
    Comment,
    Doctype,
    ProcessingInstruction,
    Attribute {
        name: Part<'a>,
        value: Part<'a>,
    },
}

/// A record that was found at a place: what it is, its depth, and the place after it.
#[derive(Clone, Copy)]
pub struct Found<'a> {
    pub record: Record<'a>,
    pub depth: usize,
    pub next: usize,
}

/// Where a record stands: its number, from 0, and the place of its first byte.
#[derive(Clone, Copy)]
pub struct Spot {
    pub number: usize,
    pub place: usize,
}

/// An attribute that was asked for by its name: where it stands, and its value.
#[derive(Clone, Copy)]
pub struct Named<'a> {
    pub spot: Spot,
    pub value: Part<'a>,
}

/// Why a page is refused. Each case but the first has the place of the first byte of the record.
#[derive(Clone, Copy, PartialEq, Eq, Debug)]
pub enum Refusal {
    /// The page has more than 65,536 bytes.
    Long,
    /// The record passes the page's end or is too short for kind and depth, or there is no record.
    Cut(usize),
    /// The kind is unknown, or a Document where none may stand, or none where it must.
    Kind(usize),
    /// The record lies too deep, or not deep enough, or is an attribute of nothing.
    Depth(usize),
    /// A namespace or a name is wrong.
    Name(usize),
    /// A text or a value is no UTF-8.
    Text(usize),
    /// The page has more than 4,096 records.
    Many(usize),
}
