//! Why a call was refused.

ghost use Rattle.std.specs.Prelude.{◌≡◌, Some};

use std::alloc::AllocError;
use std::error::Error;
use std::fmt;

/// Why no request was made: the first of these that applies, in this order. Its numbers and those of what is refused
/// when it is handed over (`HandoverFault` of `handover`) are of one list.
#[derive(Clone, Copy, Debug, PartialEq, Eq)]
pub enum OutboxFault {
    /// The counter of requests has given its last number.
    NumbersUsedUp,
    /// Memory ran out.
    Memory,
}

impl fmt::Display for OutboxFault {
    ghost use Rattle.outbox.specs.FaultText.{fault_text};

    ghost output = { λ f. Some (fault_text f) };

    fn fmt<W: fmt::Write>(&self, f: &mut fmt::Formatter<W>) -> fmt::Result {
        match self {
            OutboxFault::NumbersUsedUp => f.write_str("2 NumbersUsedUp"),
            OutboxFault::Memory => f.write_str("3 Memory"),
        }
    }
}

impl Error for OutboxFault {}

impl From<AllocError> for OutboxFault {
    ghost use Rattle.outbox.specs.declared.fault.OutboxFault.TheVariants.{Memory};

    ghost from_gives = { λ _ e. e ≡ Memory };

    fn from(_e: AllocError) -> OutboxFault {
        OutboxFault::Memory
    }
}
