//! Why a command book refused a call.

ghost use Rattle.std.specs.Prelude.{◌≡◌, Some};

use std::alloc::AllocError;
use std::error::Error;
use std::fmt;

/// Why a command book refused a call.
#[derive(Clone, Copy, Debug, PartialEq, Eq)]
pub enum CommandFault {
    /// The command is open, or has its result.
    AlreadyOpen,
    /// The command has its result.
    Settled,
    /// Memory ran out, for a call that has neither of these faults.
    Memory,
}

impl fmt::Display for CommandFault {
    ghost use Rattle.command_book.specs.FaultText.{fault_text};

    ghost output = { λ f. Some (fault_text f) };

    fn fmt<W: fmt::Write>(&self, f: &mut fmt::Formatter<W>) -> fmt::Result {
        match self {
            CommandFault::AlreadyOpen => f.write_str("1 AlreadyOpen"),
            CommandFault::Settled => f.write_str("2 Settled"),
            CommandFault::Memory => f.write_str("3 Memory"),
        }
    }
}

impl Error for CommandFault {}

impl From<AllocError> for CommandFault {
    ghost use Rattle.command_book.specs.declared.fault.CommandFault.TheVariants.{Memory};

    ghost from_gives = { λ _ e. e ≡ Memory };

    fn from(_e: AllocError) -> CommandFault {
        CommandFault::Memory
    }
}
