//! The history of a node, as it is woven.

ghost use Rattle.std.specs.Prelude.{◌≡◌};

use crate::entry::Entry;
use ocpi_text::{Party, Whole};

/// The history of the node of a party: all that happened at it since some moment, oldest first.
#[derive(Clone, Copy)]
pub struct NodeHistory<'a> {
    pub party: Party,
    /// The serial of the last packet that it had sent before, 0 where it had sent none.
    pub before: Whole,
    pub entries: &'a [Entry],
}

impl<'a> NodeHistory<'a> {
    /// All that happened at the node since it was opened: it had sent nothing before.
    pub fn new(party: Party, entries: &'a [Entry]) -> NodeHistory<'a>
        ensures party { result.party ≡ party }
        ensures before { result.before ≡ 0 }
        ensures entries { result.entries.now ≡ entries.now }
    {
        let Some(before) = Whole::new(0) else {
            unreachable!()
        };
        NodeHistory {
            party,
            before,
            entries,
        }
    }
}
