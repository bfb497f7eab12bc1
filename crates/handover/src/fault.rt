//! Why a call was refused.

ghost use Rattle.std.specs.Prelude.{◌≡◌, Some};

use std::alloc::AllocError;
use std::error::Error;
use std::fmt;

/// Why what is handed over was refused: the first of these that applies, in this order. Its numbers and those of an
/// outbox (`OutboxFault` of `outbox`) are of one list.
#[derive(Clone, Copy, Debug, PartialEq, Eq)]
pub enum HandoverFault {
    /// It is not about a token of this node's party, or it is another operator's than the one that sent it.
    WrongParty,
    /// Memory ran out.
    Memory,
}

impl fmt::Display for HandoverFault {
    ghost use Rattle.handover.specs.FaultText.{fault_text};

    ghost output = { λ f. Some (fault_text f) };

    fn fmt<W: fmt::Write>(&self, f: &mut fmt::Formatter<W>) -> fmt::Result {
        match self {
            HandoverFault::WrongParty => f.write_str("1 WrongParty"),
            HandoverFault::Memory => f.write_str("3 Memory"),
        }
    }
}

impl Error for HandoverFault {}

impl From<AllocError> for HandoverFault {
    ghost use Rattle.handover.specs.declared.fault.HandoverFault.TheVariants.{Memory};

    ghost from_gives = { λ _ e. e ≡ Memory };

    fn from(_e: AllocError) -> HandoverFault {
        HandoverFault::Memory
    }
}
