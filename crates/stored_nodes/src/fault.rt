//! Why a node over its keeper did not do what it was asked.

use node_steps::NodeFault;
use node_store::StoreFault;
use stored_rows::BadRow;
use thiserror::Error;

/// Why an event changed nothing.
#[derive(Clone, Copy, Debug, Error)]
pub enum ApplyFault {
    /// The keeper did not take the event's changes, also for want of memory.
    #[error("store: {0}")]
    Store(#[from] StoreFault),
    /// The node refuses the event.
    #[error(transparent)]
    Core(#[from] NodeFault),
    /// Memory ran out in the node, before the keeper was asked.
    #[error("memory ran out")]
    Memory,
}

/// Why an event of a transaction changed nothing.
#[derive(Clone, Copy, Debug, Error)]
pub enum StepFault {
    /// The node refuses the event.
    #[error(transparent)]
    Core(#[from] NodeFault),
    /// Memory ran out in the node, or for the event's changes.
    #[error("memory ran out")]
    Memory,
}

/// Why a node was not made of what is kept.
#[derive(Clone, Copy, Debug, Error)]
pub enum ReopenFault {
    /// The keeper did not tell its rows.
    #[error("store: {0}")]
    Store(#[from] StoreFault),
    /// No such node has just these rows. This row shows it.
    #[error("no node has just the rows that are stored")]
    BadRows(BadRow),
    /// Memory ran out, also for the keeper.
    #[error("memory ran out")]
    Memory,
}
