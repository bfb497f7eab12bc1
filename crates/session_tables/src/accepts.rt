//! A start that the charge point accepts begins a session (OCPI 2.2.1, Commands: StartSession, CommandResult).

ghost use Rattle.session_tables.specs.Answers.{Decided};
ghost use Rattle.session_tables.specs.Accepts.{Accepts};

use crate::beginning::{Beginning, begins_at};
use crate::places::connector_at;
use ocpi_types::{AuthMethod, Command, OpenCommand};
use operator_rows::Books;

/// What begins where an open command is carried out, if it is a start: a session for its token, with its reference, at
/// the EVSE and connector that it took.
pub fn accepted(books: &Books, opened: &OpenCommand) -> Option<Beginning>
    ensures { Decided (Accepts books.now.state.site opened.now) result }
{
    match &opened.command {
        Command::StartSession(start) => {
            let at = connector_at(books, opened.evse_uid?.key(), &opened.connector_id?)?;
            let (method, reference) = (AuthMethod::Command, start.authorization_reference);
            Some(begins_at(&start.token, method, reference, &at, None))
        }
        Command::StopSession(_)
        | Command::ReserveNow(_)
        | Command::CancelReservation(_)
        | Command::UnlockConnector(_) => None,
    }
}
