//! Why an event was not entered.

ghost use Rattle.std.specs.Prelude.{◌≡◌};
ghost use Rattle.node_cells.specs.Cells.{cell_fault, keeper_fault};

use node_steps::NodeFault;
use node_store::StoreFault;
use stored_nodes::ApplyFault;
use thiserror::Error;

/// Why an event was not entered, and changed nothing.
#[derive(Clone, Copy, Debug, Error)]
pub enum CellFault {
    /// The history has as many entries as it may have.
    #[error("the history is full")]
    TraceFull,
    /// The keeper refused the event's changes.
    #[error("store: {0}")]
    Store(StoreFault),
    /// The node refuses the event.
    #[error(transparent)]
    Core(#[from] NodeFault),
    /// Memory ran out, also for the keeper or in the node.
    #[error("memory ran out")]
    Memory,
}

/// Why an event is not entered whose changes the keeper did not take.
fn keeper_fault(fault: StoreFault) -> CellFault
    ensures { result ≡ keeper_fault fault }
{
    match fault {
        StoreFault::Refused(cause) => CellFault::Store(StoreFault::Refused(cause)),
        StoreFault::BadRow => CellFault::Store(StoreFault::BadRow),
        StoreFault::OldLayout => CellFault::Store(StoreFault::OldLayout),
        StoreFault::Memory => CellFault::Memory,
    }
}

/// Why an event that a node did not do is not entered. Want of memory is told alike, whether it was the node's own or
/// its keeper's.
pub(crate) fn cell_fault(fault: ApplyFault) -> CellFault
    ensures { result ≡ cell_fault fault }
{
    match fault {
        ApplyFault::Store(refusal) => keeper_fault(refusal),
        ApplyFault::Core(refusal) => CellFault::Core(refusal),
        ApplyFault::Memory => CellFault::Memory,
    }
}
