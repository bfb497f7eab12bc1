//! Why a desk refuses.

ghost use Rattle.std.specs.Prelude.{◌≡◌};
ghost use Rattle.node_desk.specs.Faults.{of_cell};

use node_cells::CellFault;
use node_steps::NodeFault;
use node_store::StoreFault;
use ocpi_types::NodeEventKind;
use thiserror::Error;

/// Why a desk did not enter an event.
#[derive(Clone, Copy, Debug, Error)]
pub enum DeskFault {
    /// The history has as many entries as it may have.
    #[error("the history is full")]
    TraceFull,
    /// There are that many entries, fewer than the pass has seen.
    #[error("the history has {0} entries, fewer than were seen")]
    Rewound(usize),
    /// The keeper refused the event's changes.
    #[error("store: {0}")]
    Store(StoreFault),
    /// The node refuses the event.
    #[error(transparent)]
    Core(#[from] NodeFault),
    /// Memory ran out, also for the keeper or in the node.
    #[error("memory ran out")]
    Memory,
}

/// An event that was not entered, and why.
pub struct Refusal {
    pub event: NodeEventKind,
    pub fault: DeskFault,
}

impl Drop for Refusal {
    fn drop(self) {
        let Refusal { event, fault: _ } = self;
        drop(event);
    }
}

/// What a cell's fault is to the caller of its desk.
pub(crate) fn of_cell(fault: CellFault) -> DeskFault
    ensures { result ≡ of_cell fault }
{
    match fault {
        CellFault::TraceFull => DeskFault::TraceFull,
        CellFault::Store(fault) => DeskFault::Store(fault),
        CellFault::Core(fault) => DeskFault::Core(fault),
        CellFault::Memory => DeskFault::Memory,
    }
}
