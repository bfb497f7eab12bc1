//! Why a file was not printed by a node.

ghost use Rattle.std.specs.Prelude.{◌≡◌};

use std::alloc::{AllocError, AllocFailed};
use thiserror::Error;

/// Why a file is refused. Lines are counted from 1, empty ones too; 0 stands for the file.
#[derive(Clone, Copy, PartialEq, Eq, Debug, Error)]
pub enum ReplayFault {
    /// Behind the first opening: the node would have printed something else for this line, or have been opened
    /// otherwise.
    #[error("the node would have printed something else for line {0}")]
    NotARun(usize),
    /// In front of it: no run begins with this line or prints it then. At it: the node is none that it may be, or the
    /// rows are of another moment.
    #[error("line {0} is none that a run begins with, or it is of another node or store")]
    Wrong(usize),
    /// The first opening, of the setup in this line, is over rows, and none were given.
    #[error("the rows that line {0} was opened with are not known")]
    BegunLater(usize),
    /// The opening of the setup in this line tells a number that no line before it has.
    #[error("lines that were printed before line {0} are missing")]
    LinesMissing(usize),
    /// Memory ran out.
    #[error("memory ran out")]
    Memory,
}

impl From<AllocError> for ReplayFault {
    ghost use Rattle.replays.specs.declared.fault.ReplayFault.TheVariants.{Memory};

    ghost from_gives = { λ _ fault. fault ≡ Memory };

    fn from(_error: AllocError) -> ReplayFault {
        ReplayFault::Memory
    }
}

impl<T: Drop> From<AllocFailed<T>> for ReplayFault {
    ghost use Rattle.replays.specs.declared.fault.ReplayFault.TheVariants.{Memory};

    ghost from_gives = { λ _ fault. fault ≡ Memory };

    fn from(_error: AllocFailed<T>) -> ReplayFault {
        ReplayFault::Memory
    }
}
