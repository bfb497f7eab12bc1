//! The order of entries.

/// An entry, by the number of its history and its place there, both from 0.
#[derive(Clone, Copy, PartialEq, Eq, Debug)]
pub struct Turn {
    pub history: usize,
    pub entry: usize,
}
