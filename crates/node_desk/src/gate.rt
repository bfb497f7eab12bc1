//! What is told of a call while it has the lock.

use ocpi_text::Party;

/// Is told of each call while it has its node's lock.
pub trait Gate {
    /// The node of that party is about to make the entry of that place.
    fn inside(&self, node: &Party, place: usize);
}

/// A gate that does nothing.
#[derive(Clone, Copy)]
pub struct Open;

impl Gate for Open {
    fn inside(&self, _node: &Party, _place: usize) {}
}

impl<G: Gate> Gate for &G {
    fn inside(&self, node: &Party, place: usize) {
        (**self).inside(node, place)
    }
}
