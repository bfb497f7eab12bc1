//! What a run is to do.

use ocpi_text::{Moment, Party};
use ocpi_types::NodeEventKind;

/// What a run is to do.
#[derive(Drop)]
pub struct Script {
    /// The moment of round 0. Each round is one second later.
    pub start: Moment,
    /// The most rounds. Above 1,000 it is as 1,000.
    pub rounds: u32,
    /// The events of each node, in the order of the setup: one in each round. A list that is missing is empty, and
    /// further ones are not read.
    pub events: Vec<Vec<NodeEventKind>>,
}

/// What a link does with a packet.
#[derive(Clone, Copy, PartialEq, Eq)]
pub enum Act {
    /// It is delivered.
    Pass,
    /// It is lost.
    Drop,
    /// It is delivered, and then once more.
    Twice,
    /// It is delivered behind the packets of the next round.
    Hold,
}

/// What the link from one party to another does: the n-th act is for its n-th packet, and further packets pass.
#[derive(Drop)]
pub struct Loss {
    pub from: Party,
    pub to: Party,
    pub acts: Vec<Act>,
}
