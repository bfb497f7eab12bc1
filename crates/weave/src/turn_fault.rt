//! Why the entries of histories have no order.

ghost use Rattle.std.specs.Prelude.{◌≡◌};
ghost use Rattle.weave.specs.declared.turn_fault.TurnFault.TheVariants.{Memory};

use crate::turn::Turn;
use std::alloc::{AllocError, AllocFailed};
use thiserror::Error;

/// Why there is no order of all entries, or none was found.
#[derive(Debug, Drop, Error)]
pub enum TurnFault {
    /// This entry delivers a packet, and its sender, among these, sent none of that serial.
    #[error("entry {} of history {} has a packet that was never sent", .0.entry, .0.history)]
    NeverSent(Turn),
    /// The first entry delivers a packet, and by the second its sender sent another of that serial.
    #[error("entry {} of history {} has a packet that was sent otherwise", .0.entry, .0.history)]
    Differs(Turn, Turn),
    /// To these places, one for each history, each is advanced as far as it can go: each next entry delivers a packet
    /// that is sent behind them.
    #[error("the entries have no order")]
    NoOrder(Vec<usize>),
    /// Memory ran out.
    #[error("memory ran out")]
    Memory,
}

impl From<AllocError> for TurnFault {
    ghost from_gives = { λ _ e. e ≡ Memory };

    fn from(_e: AllocError) -> TurnFault {
        TurnFault::Memory
    }
}

impl<T: Drop> From<AllocFailed<T>> for TurnFault {
    ghost from_gives = { λ _ e. e ≡ Memory };

    fn from(_e: AllocFailed<T>) -> TurnFault {
        TurnFault::Memory
    }
}
