//! Why a call on a session was refused.

ghost use Rattle.std.specs.Prelude.{◌≡◌, Some};
ghost use Rattle.session_state.specs.declared.fault.SessionFault.TheVariants.{StampEnd};

use std::error::Error;
use std::fmt;

/// Why a call on a session, or on the draft of a charge detail record, was refused.
#[derive(Clone, Copy, Debug, PartialEq, Eq)]
pub enum SessionFault {
    /// The newest version was updated at the last moment, so none can be later.
    StampEnd,
    /// Memory ran out.
    Memory,
}

impl fmt::Display for SessionFault {
    ghost use Rattle.session_state.specs.FaultText.{fault_text};

    ghost output = { λ f. Some (fault_text f) };

    fn fmt<W: fmt::Write>(&self, f: &mut fmt::Formatter<W>) -> fmt::Result {
        match self {
            SessionFault::StampEnd => f.write_str("1 StampEnd"),
            SessionFault::Memory => f.write_str("2 Memory"),
        }
    }
}

impl Error for SessionFault {}

/// A refusal, with the value that the call took: it is as it was.
#[derive(Drop)]
pub struct Refused<T> {
    pub fault: SessionFault,
    pub value: T,
}

/// The refusal of a move after the last moment.
pub(crate) fn stamp_end<T>(value: T) -> Refused<T>
    ensures { result ≡ record { fault = StampEnd; value = value } }
{
    Refused {
        fault: SessionFault::StampEnd,
        value,
    }
}
