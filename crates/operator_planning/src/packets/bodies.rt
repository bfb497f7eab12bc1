//! What a packet and a command carry, as far as an operator asks.

ghost use Rattle.std.specs.Prelude.{◌≡◌, ◌↔◌, IfOk, IsTrue};
ghost use Rattle.ocpi_types.specs.Commands.{url_of};
ghost use Rattle.operator_steps.specs.Acts.{told};
ghost use Rattle.operator_steps.specs.Steps.{IsTaken};

use ocpi_types::{Body, Command, CommandResult, CommandResultType};
use std::alloc::AllocError;

/// Whether an operator takes packets with this body.
pub fn is_taken(body: &Body) -> bool
    ensures { IsTrue result ↔ IsTaken body.now }
{
    matches!(
        body,
        Body::Command(_) | Body::PutToken(_) | Body::Authorization(_) | Body::Ack(_)
    )
}

/// How a command ended, as its provider is told. An error is want of memory.
pub fn told(command: &Command, outcome: CommandResultType) -> Result<CommandResult, AllocError>
    ensures { IfOk result (λ r. r ≡ told (url_of command.now) outcome) }
{
    let response_url = command.response_url().copy()?;
    Ok(CommandResult {
        response_url,
        result: outcome,
    })
}
