//! What an event comes to at a node, before anything changes.

ghost use Rattle.std.specs.Prelude.{◌≡◌, [], None};

use node_core::NodeWork;
use node_steps::NodeFault;
use ocpi_types::Change;
use std::alloc::Global;

/// What is told of an event. The packets and the rows of a step are the world's (`packets`, `changes`).
#[derive(Clone, Copy)]
pub enum Outcome {
    /// A node did what the event asks for; or its storing was refused, and nothing changed and nothing was sent.
    Stepped,
    /// The event is of no node: there is none of that party, or nothing reaches it.
    Skipped,
    /// The node refused the event, and nothing changed and nothing was sent.
    Refused(NodeFault),
}

/// What an event comes to at a node: nothing, of which this is told, or work.
#[derive(Drop)]
pub(crate) enum EventPlan {
    Idle(Outcome),
    Acts(NodeWork),
}

/// Which packets a step sent: those of a place from there on.
#[derive(Clone, Copy)]
pub(crate) struct Sending {
    pub(crate) place: usize,
    pub(crate) from: usize,
}

/// What a step left to be told.
#[derive(Drop)]
pub(crate) struct Told {
    pub(crate) outcome: Outcome,
    pub(crate) sending: Option<Sending>,
    pub(crate) changes: Vec<Change>,
}

impl Told {
    /// Nothing was sent and nothing changed.
    pub(crate) fn idle(alloc: Global, outcome: Outcome) -> Told
        ensures outcome { result.outcome ≡ outcome }
        ensures sending { result.sending ≡ None }
        ensures changes { result.changes.items ≡ [] }
    {
        Told {
            outcome,
            sending: None,
            changes: Vec::new(alloc),
        }
    }
}
