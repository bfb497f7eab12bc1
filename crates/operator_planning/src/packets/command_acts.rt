//! What an operator does in answer to a command, act by act.

ghost use Rattle.std.specs.Prelude.{◌≡◌, ◌∷◌, [], OnOk};
ghost use Rattle.command_book.specs.Stored as book;
ghost use Rattle.node_steps.specs.Drafts.{HasNumbersOf, with_acts};
ghost use Rattle.operator_steps.specs.Acts.{freed, marked, reserved, spent, used};
ghost use Rattle.operator_planning.specs.Requests.{decided_by, opened_by, own_by, settled_by};

use crate::packets::bodies::told;
use crate::packets::command_responses::respond;
use node_steps::Draft;
use ocpi_text::{CiKey, CiText, Moment, PartyKey};
use ocpi_types::{
    Boxed, Change, Command, CommandResultType, OpenCommand, Place, Push, Reservation, Row, RowKey,
};
use operator_tables::{Decision, Request, TIMEOUT};
use std::alloc::{AllocError, Global};

/// A command that is open until a deadline, a start with the place that it took.
fn open_command(command: Command, place: Option<Place>, deadline: Moment) -> OpenCommand
    ensures { result ≡ book.open_command command place deadline }
{
    OpenCommand {
        command,
        evse_uid: place.as_ref().map(|place| place.evse_uid),
        connector_id: place.as_ref().map(|place| place.connector_id),
        deadline,
    }
}

/// Adds that a command is open until its result, a start at the place that it took.
fn add_opened(
    alloc: Global,
    draft: &mut Draft,
    request: &Request,
    command: &Command,
    place: Option<Place>,
) -> Result<(), AllocError>
    ensures { OnOk result (draft.new ≡ with_acts (opened_by request.now command.now place ∷ []) draft.old) }
{
    let deadline = request.at.after(1000 * TIMEOUT);
    let open = open_command(command.copy()?, place, deadline);
    let open = Boxed::new(alloc, open)?;
    draft.change(Change::Put(Row::Pending {
        provider: request.provider,
        number: request.number,
        open,
    }))
}

/// Adds that a reservation of a provider ends.
fn add_freed(
    draft: &mut Draft,
    provider: PartyKey,
    reservation_id: CiKey<36>,
) -> Result<(), AllocError>
    ensures { OnOk result (draft.new ≡ with_acts (freed provider reservation_id ∷ []) draft.old) }
{
    draft.change(Change::Drop(RowKey::Reservation {
        provider,
        reservation_id,
    }))
}

/// Adds that the reservation of a provider ends which a start or a session uses, where it uses one.
pub(crate) fn add_used(
    draft: &mut Draft,
    provider: PartyKey,
    reservation_id: Option<CiKey<36>>,
) -> Result<(), AllocError>
    ensures { OnOk result (draft.new ≡ with_acts (used provider reservation_id) draft.old) }
{
    match reservation_id {
        None => Ok(()),
        Some(reservation_id) => add_freed(draft, provider, reservation_id),
    }
}

/// Adds that a reference of a provider is spent, where there is one.
pub(crate) fn add_spent(
    draft: &mut Draft,
    provider: PartyKey,
    reference: Option<CiText<36>>,
) -> Result<(), AllocError>
    ensures { OnOk result (draft.new ≡ with_acts (spent provider reference) draft.old) }
{
    match reference {
        None => Ok(()),
        Some(reference) => draft.change(Change::Put(Row::Spent {
            provider,
            reference: reference.key(),
        })),
    }
}

/// Adds the mark of a reservation.
fn add_marked(
    draft: &mut Draft,
    request: &Request,
    reservation_id: CiKey<36>,
) -> Result<(), AllocError>
    ensures { OnOk result (draft.new ≡ with_acts (marked request.now.provider reservation_id request.now.number ∷ []) draft.old) }
{
    draft.change(Change::Put(Row::Mark {
        provider: request.provider,
        reservation_id,
        number: request.number,
    }))
}

/// Adds that a reservation stands.
fn add_reserved(
    alloc: Global,
    draft: &mut Draft,
    request: &Request,
    reservation_id: CiKey<36>,
    reservation: &Reservation,
) -> Result<(), AllocError>
    ensures { OnOk result (draft.new ≡ with_acts (reserved request.now.provider reservation_id reservation.now ∷ []) draft.old) }
{
    let reservation = Boxed::new(alloc, *reservation)?;
    draft.change(Change::Put(Row::Reservation {
        provider: request.provider,
        reservation_id,
        reservation,
    }))
}

/// Adds what a start does: the reservation that it uses ends, the start is open, and its reference is spent.
fn add_started(
    alloc: Global,
    draft: &mut Draft,
    request: &Request,
    command: &Command,
    place: Place,
    reservation_id: Option<CiKey<36>>,
) -> Result<(), AllocError>
    ensures { OnOk result (draft.new ≡ with_acts (own_by request.now command.now (Decision.Started place reservation_id)) draft.old) }
{
    add_used(draft, request.provider, reservation_id)?;
    add_opened(alloc, draft, request, command, Some(place))?;
    add_spent(draft, request.provider, command.authorization_reference())
}

/// Adds what a decision on a command does, beside its reply and its result.
fn add_own(
    alloc: Global,
    draft: &mut Draft,
    request: &Request,
    command: &Command,
    decision: &Decision,
) -> Result<(), AllocError>
    ensures { OnOk result (draft.new ≡ with_acts (own_by request.now command.now decision.now) draft.old) }
{
    match decision {
        Decision::Refused(_) | Decision::Answered(_) | Decision::Resulted(_) => Ok(()),
        Decision::Opened => add_opened(alloc, draft, request, command, None),
        Decision::Started {
            place,
            reservation_id,
        } => add_started(alloc, draft, request, command, *place, *reservation_id),
        Decision::Noted { reservation_id, .. } => add_marked(draft, request, *reservation_id),
        Decision::Reserved {
            reservation_id,
            reservation,
        } => {
            add_marked(draft, request, *reservation_id)?;
            add_reserved(alloc, draft, request, *reservation_id, reservation)
        }
        Decision::Cancelled { reservation_id } => {
            add_marked(draft, request, *reservation_id)?;
            add_freed(draft, request.provider, *reservation_id)
        }
    }
}

/// Adds the result of a command, where it has one at once: it is pushed, and kept.
fn add_settled(
    draft: &mut Draft,
    request: &Request,
    command: &Command,
    outcome: Option<CommandResultType>,
) -> Result<(), AllocError>
    requires { HasNumbersOf (settled_by request.now draft.old.counters.request command.now outcome) draft.old }
    ensures { OnOk result (draft.new ≡ with_acts (settled_by request.now draft.old.counters.request command.now outcome) draft.old) }
{
    let Some(outcome) = outcome else {
        return Ok(());
    };
    let told = told(command, outcome)?;
    draft.push(request.at, request.from, Push::CommandResult(told))?;
    draft.change(Change::Put(Row::Result {
        provider: request.provider,
        number: request.number,
        result: outcome,
    }))
}

/// Adds a decision on a command: it is answered, what was decided is done, and its result follows, where there is one.
pub fn add_decided(
    alloc: Global,
    draft: &mut Draft,
    request: &Request,
    command: &Command,
    decision: &Decision,
) -> Result<(), AllocError>
    requires { HasNumbersOf (decided_by request.now draft.old.counters.request command.now decision.now) draft.old }
    ensures { OnOk result (draft.new ≡ with_acts (decided_by request.now draft.old.counters.request command.now decision.now) draft.old) }
{
    let reply = respond(decision, request.at);
    draft.answer(request.provider, request.from, request.number, reply)?;
    add_own(alloc, draft, request, command, decision)?;
    add_settled(draft, request, command, decision.result())
}
