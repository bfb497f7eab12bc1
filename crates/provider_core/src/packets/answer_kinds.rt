//! How a request is answered.

use ocpi_text::Whole;
use ocpi_types::{CommandResultType, Token};
use token_desk::Reference;

/// How a request of an operator is answered, and what is done beside that.
#[derive(Clone, Copy)]
pub enum Answer {
    /// It is acknowledged with status 2001: it is for no command, not the operator's to send, or in conflict with what
    /// is held.
    Refused,
    /// It is acknowledged with status 1000, and what is stored stays as it is.
    Kept,
    /// It is acknowledged with status 1000, and the session or the charge detail record in it is held from now on.
    Taken,
    /// It is acknowledged with status 1000, and the command of that number ended so.
    Resulted {
        number: Whole,
        outcome: CommandResultType,
    },
    /// No such token is known.
    Unknown,
    /// The token may not be used.
    Blocked {
        token: Token,
    },
    /// The token may be used, with that reference.
    Allowed {
        token: Token,
        reference: Reference,
    },
}
