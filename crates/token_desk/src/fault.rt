//! Why a token desk refused a call.

ghost use Rattle.std.specs.Prelude.{◌≡◌, Some};

use std::alloc::{AllocError, AllocFailed};
use std::error::Error;
use std::fmt;

/// Why a token desk refused a call.
#[derive(Clone, Copy, Debug, PartialEq, Eq)]
pub enum TokenFault {
    /// No token of that party, type and uid is held.
    UnknownToken,
    /// The token is another party's than the sender.
    WrongParty,
    /// The counter of references has given its last number.
    NumbersUsedUp,
    /// Memory ran out.
    Memory,
}

impl fmt::Display for TokenFault {
    ghost use Rattle.token_desk.specs.FaultText.{fault_text};

    ghost output = { λ f. Some (fault_text f) };

    fn fmt<W: fmt::Write>(&self, f: &mut fmt::Formatter<W>) -> fmt::Result {
        match self {
            TokenFault::UnknownToken => f.write_str("1 UnknownToken"),
            TokenFault::WrongParty => f.write_str("2 WrongParty"),
            TokenFault::NumbersUsedUp => f.write_str("3 NumbersUsedUp"),
            TokenFault::Memory => f.write_str("4 Memory"),
        }
    }
}

impl Error for TokenFault {}

impl From<AllocError> for TokenFault {
    ghost use Rattle.token_desk.specs.declared.fault.TokenFault.TheVariants.{Memory};

    ghost from_gives = { λ _ e. e ≡ Memory };

    fn from(_e: AllocError) -> TokenFault {
        TokenFault::Memory
    }
}

impl<T: Drop> From<AllocFailed<T>> for TokenFault {
    ghost use Rattle.token_desk.specs.declared.fault.TokenFault.TheVariants.{Memory};

    ghost from_gives = { λ _ e. e ≡ Memory };

    fn from(_e: AllocFailed<T>) -> TokenFault {
        TokenFault::Memory
    }
}
