//! Flags of the places of a list, of which one that is set is found without a walk.

ghost use Rattle.std.specs.Prelude.{
  ◌≡◌,
  ◌+◌,
  ◌*◌,
  ◌<◌,
  ◌≤◌,
  ◌||◌,
  true,
  false,
  length,
  slice_index_or,
  drop,
  slice_get,
  slice_set,
  Some,
  IfOk,
  IfSome,
  IfNone,
};
ghost use Rattle.site_book.specs.Flags.{IsPowerOfTwo, IsTree, AreNone, AreFirst, NoneBefore};

use std::alloc::{AllocError, Global};
use std::marker::Model;

/// A number of leaves, a power of two: at least so many, and at most twice as many as a list may have places.
fn width_of(count: usize) -> usize
    requires { count ≤ 1000 }
    ensures enough { count ≤ result }
    ensures some { 0 < result }
    ensures bounded { result ≤ 2000 }
    ensures level { IsPowerOfTwo result }
{
    let mut width = 1;
    while width < count {
        width *= 2;
    }
    width
}

/// Whether one of the two nodes below a node is set.
fn is_joined(nodes: &[bool], k: usize) -> bool
    requires { 2 * k + 1 < length nodes.now }
    ensures { result ≡ (slice_index_or nodes.now (2 * k) false || slice_index_or nodes.now (2 * k + 1) false) }
{
    nodes[2 * k] || nodes[2 * k + 1]
}

/// Sets the flag of a place, and then the nodes above it.
fn set_node(nodes: &mut [bool], width: usize, place: usize, value: bool)
    requires tree { IsTree width nodes.old }
    requires within { place < width }
    ensures tree { IsTree width nodes.new }
    ensures flags { drop width nodes.new ≡ slice_set (drop width nodes.old) place value }
{
    let mut k = width + place;
    nodes[k] = value;
    while k > 1 {
        k /= 2;
        nodes[k] = is_joined(nodes, k);
    }
}

/// The first place whose flag is set, going down from the top.
fn find_leaf(nodes: &[bool], width: usize) -> Option<usize>
    requires { IsTree width nodes.now }
    ensures some { IfSome result (λ i. slice_get (drop width nodes.now) i ≡ Some true) }
    ensures first { IfSome result (λ i. NoneBefore (drop width nodes.now) i) }
    ensures none { IfNone result (AreNone (drop width nodes.now)) }
{
    if !nodes[1] {
        return None;
    }
    let mut k = 1;
    while k < width {
        k = if nodes[2 * k] { 2 * k } else { 2 * k + 1 };
    }
    Some(k - width)
}

/// A flag for each place of a list. A flag is changed, and one that is set is found, in the logarithm of the number of
/// places, without memory.
#[derive(Drop)]
pub(crate) struct Flags {
    /// The flag of place i stands at `width + i`. Of the nodes before these, from 1 on, node k is set where node 2k or
    /// node 2k + 1 is.
    nodes: Vec<bool>,
    width: usize,
}

impl Model for Flags {
    ghost use Rattle.std.specs.Prelude.{List, Bool, drop};
    ghost use Rattle.site_book.specs.Flags.{IsTree};

    ghost Value = { List Bool };

    ghost view = { λ f. drop f.width f.nodes.items };

    ghost invariant = { λ f. IsTree f.width f.nodes.items };
}

impl Flags {
    /// Flags of at least so many places, none of which is set.
    fn unset(alloc: Global, count: usize) -> Result<Flags, AllocError>
        requires { count ≤ 1000 }
        ensures none { IfOk result (λ f. AreNone f) }
        ensures enough { IfOk result (λ f. count ≤ length f) }
    {
        let width = width_of(count);
        let nodes = vec![in alloc; false; 2 * width]?;
        Ok(Flags { nodes, width })
    }

    /// Flags of which those of the first places are set, so many. An error is want of memory.
    pub(crate) fn first(alloc: Global, count: usize) -> Result<Flags, AllocError>
        requires { count ≤ 1000 }
        ensures { IfOk result (λ f. AreFirst count f) }
    {
        let mut flags = Flags::unset(alloc, count)?;
        for place in 0..count {
            flags.set(place, true);
        }
        Ok(flags)
    }

    /// Sets the flag of a place, or clears it. It takes no memory.
    pub(crate) fn set(&mut self, place: usize, value: bool)
        requires { place < length self.old }
        ensures { self.new ≡ slice_set self.old place value }
    {
        set_node(self.nodes.as_mut_slice(), self.width, place, value);
    }

    /// The flag of a place.
    pub(crate) fn get(&self, place: usize) -> bool
        requires { place < length self.now }
        ensures { slice_get self.now place ≡ Some result }
    {
        self.nodes[self.width + place]
    }

    /// The first place whose flag is set.
    pub(crate) fn find(&self) -> Option<usize>
        ensures some { IfSome result (λ i. slice_get self.now i ≡ Some true) }
        ensures first { IfSome result (λ i. NoneBefore self.now i) }
        ensures none { IfNone result (AreNone self.now) }
    {
        find_leaf(self.nodes.as_slice(), self.width)
    }
}
