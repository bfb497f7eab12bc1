//! Why a run ends without an answer.

ghost use Rattle.std.specs.Prelude.{◌≡◌};

use node_desk::DeskFault;
use std::alloc::{AllocError, AllocFailed};
use thiserror::Error;

/// Why a run ends without an answer.
#[derive(Clone, Copy, Debug, PartialEq, Eq, Error)]
pub enum RunFault {
    /// A desk refused an event, for another reason than that its node does or that memory ran out; or what came of a
    /// node is not what was asked of it.
    #[error("the run stopped")]
    Stopped,
    /// Memory ran out, also for a thread.
    #[error("memory ran out")]
    Memory,
}

impl From<AllocError> for RunFault {
    ghost use Rattle.node_harness.specs.declared.fault.RunFault.TheVariants.{Memory};

    ghost from_gives = { λ _ e. e ≡ Memory };

    fn from(_e: AllocError) -> RunFault {
        RunFault::Memory
    }
}

impl<T: Drop> From<AllocFailed<T>> for RunFault {
    ghost use Rattle.node_harness.specs.declared.fault.RunFault.TheVariants.{Memory};

    ghost from_gives = { λ _ e. e ≡ Memory };

    fn from(_e: AllocFailed<T>) -> RunFault {
        RunFault::Memory
    }
}

/// What a desk's refusal is to the run: one by the node itself is passed over.
pub(crate) fn passed_over(fault: DeskFault) -> Result<(), RunFault> {
    match fault {
        DeskFault::Core(_) => Ok(()),
        DeskFault::Memory => Err(RunFault::Memory),
        DeskFault::TraceFull | DeskFault::Rewound(_) | DeskFault::Store(_) => {
            Err(RunFault::Stopped)
        }
    }
}
