//! The responses to commands (OCPI 2.2.1, Commands: CommandResponse).

ghost use Rattle.std.specs.Prelude.{◌≡◌};
ghost use Rattle.operator_steps.specs.Acts.{reply_of, responded};

use ocpi_text::{Moment, Whole};
use ocpi_types::{CommandResponse, CommandResponseType, Reply, ResponseData};
use operator_tables::{Decision, TIMEOUT};

/// The response of status 1000 with a result.
fn done(at: Moment, result_word: CommandResponseType) -> Reply
    ensures { result ≡ responded at result_word }
{
    Reply::CommandResponse(CommandResponse::Done {
        timestamp: at,
        response: ResponseData {
            result: result_word,
            timeout: Whole::new(TIMEOUT).unwrap(),
        },
    })
}

/// The reply that a decision gives at a moment.
pub fn respond(decision: &Decision, at: Moment) -> Reply
    ensures { result ≡ reply_of at decision.now }
{
    match decision {
        Decision::Refused(status) => Reply::CommandResponse(CommandResponse::Refused {
            timestamp: at,
            status_code: *status,
        }),
        Decision::Answered(word) => done(at, *word),
        Decision::Opened
        | Decision::Started { .. }
        | Decision::Resulted(_)
        | Decision::Noted { .. }
        | Decision::Reserved { .. }
        | Decision::Cancelled { .. } => done(at, CommandResponseType::Accepted),
    }
}
