//! What a command is answered, at once and by its result, and acknowledgements.

ghost use Rattle.std.specs.Prelude.{◌≡◌, IfOk};

use crate::limits::{RefusalCode, StatusCode};
use crate::words::{CommandResponseType, CommandResultType};
use ocpi_text::{FreeText, Moment, Whole};
use std::alloc::AllocError;

/// What a command is answered: whether it is taken up, and within how many seconds its result follows
/// (OCPI 2.2.1, Commands: CommandResponse object).
#[derive(Clone, Copy, PartialEq)]
pub struct ResponseData {
    pub result: CommandResponseType,
    /// Seconds.
    pub timeout: Whole,
}

/// The reply to a command (OCPI 2.2.1, Transport and format: Response format).
#[derive(Clone, Copy, PartialEq)]
pub enum CommandResponse {
    /// Status 1000.
    Done {
        timestamp: Moment,
        response: ResponseData,
    },
    /// Another status, without data.
    Refused {
        timestamp: Moment,
        status_code: RefusalCode,
    },
}

/// What became of a command. It is posted to the command's address (OCPI 2.2.1, Commands: CommandResult object).
#[derive(PartialEq, Drop)]
pub struct CommandResult {
    pub response_url: FreeText<255>,
    pub result: CommandResultType,
}

impl CommandResult {
    /// An equal result.
    pub fn copy(&self) -> Result<CommandResult, AllocError>
        ensures { IfOk result (λ t. t ≡ self.now) }
    {
        Ok(CommandResult {
            response_url: self.response_url.copy()?,
            result: self.result,
        })
    }
}

/// The reply to what is pushed: a command's result, a session, a charge detail record, a token. It has no data
/// (OCPI 2.2.1, Transport and format: Response format).
#[derive(Clone, Copy, PartialEq)]
pub struct Ack {
    /// 1000, where what was pushed is taken.
    pub status_code: StatusCode,
    pub timestamp: Moment,
}
