//! What comes of an event at a node.

use node_steps::NodeFault;
use thiserror::Error;

/// What became of an event.
#[derive(Clone, Copy)]
pub enum Replayed {
    /// It is none of the node's role. Nothing is entered, and nothing changed.
    Skipped,
    /// It is entered, with what the node sent: that is the last entry.
    Stepped {
        /// Whether rows changed.
        changed: bool,
    },
}

/// Why an event is not entered, and changed nothing.
#[derive(Clone, Copy, Debug, Error)]
pub enum ReplayFault {
    /// The node refuses it.
    #[error(transparent)]
    Core(#[from] NodeFault),
    /// Memory ran out, also in the node.
    #[error("memory ran out")]
    Memory,
}
