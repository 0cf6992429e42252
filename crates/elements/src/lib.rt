// The restricted XML: elements by recursion, their attributes and end tags, and what stands around the root (document 01, "The restricted XML"). One pass over
// the message; what it holds on to is a few places.
#![tactic(auto)]

pub mod attributes;
pub mod content;
pub mod document;
pub mod noted;
mod tags;

// The longest message, the levels of elements, the bytes of a part of a name.
pub(crate) const MOST_BYTES: usize = 65520;

pub const LEVELS: u32 = 32;

pub const MOST_PART: usize = 64;

// What is held on to of the elements inside another, each by the place where its name begins: how many they are, the first, the first AdvisoryType among
// them, and the first inside the first of them. 0 for none, as `inside_of` of specs/Seen has it.
#[derive(Clone, Copy, Default)]
pub struct Inside {
    pub children: usize,
    pub first: usize,
    pub typed: usize,
    pub nested: usize,
}

// An element that has been read: where its name begins, where its content stands, the place behind it, and its name's place again if
// it is an AdvisoryType, or else 0, as `mark_of` of specs/Seen has it.
#[derive(Clone, Copy)]
pub struct Seen {
    pub begin: usize,
    pub from: usize,
    pub to: usize,
    pub end: usize,
    pub mark: usize,
    pub inside: Inside,
}
