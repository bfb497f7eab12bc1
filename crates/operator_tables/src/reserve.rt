//! How a RESERVE_NOW is decided (OCPI 2.2.1, Commands: ReserveNow).

ghost use Rattle.std.specs.Prelude.{◌≡◌, ◌↔◌, IsTrue, false, IfSome, IfNone};
ghost use Rattle.ocpi_text.specs.Text.{key};
ghost use Rattle.ocpi_types.specs.declared.site.Evse.{Evse as EvseOf};
ghost use Rattle.site_book.specs.Sites.{IsEvseFor, IsFoundIn, IsNamed, location_of};
ghost use Rattle.operator_tables.specs.Places.{HasService};
ghost use Rattle.operator_tables.specs.Reserve.{DecidesThere, IsOwnEvse, IsReservable, IsTakenUid, IsVoid, ReserveLine};

use crate::decision::Decision;
use crate::found::{free_evse, serves};
use crate::request::Request;
use crate::start::{invalid_parameters, unknown_location};
use ocpi_text::{CiText, Moment, Party};
use ocpi_types::{CommandResponseType, CommandResultType, Reservation, ReserveNow};
use operator_rows::Books;
use site_book::FoundLocation;

/// Whether a uid is the one that is named, or none is named.
fn is_named(name: &Option<CiText<36>>, uid: &CiText<36>) -> bool
    ensures { IsTrue result ↔ IsNamed name.now uid.now }
{
    match name {
        None => true,
        Some(name) => uid.is_same(name),
    }
}

/// The uid of the EVSE that the command's very reservation holds, where it is in service and the command may be about
/// it.
fn own_evse(
    books: &Books,
    at: &FoundLocation<'_>,
    request: &Request,
    command: &ReserveNow,
) -> Option<CiText<36>>
    requires { IsFoundIn books.now.state.site at.now }
    ensures found { IfSome result (λ uid. (e : EvseOf) × IsOwnEvse books.now.state.rows request.now.provider command.now (location_of at.now) e × (uid ≡ e.uid)) }
    ensures none { IfNone result ((e : EvseOf) → IsOwnEvse books.now.state.rows request.now.provider command.now (location_of at.now) e → ⊥) }
{
    let site = books.site_book();
    let id = command.reservation_id.key();
    let standing = books.booked().standing(request.provider, id)?;
    if !is_named(&command.evse_uid, &standing.evse_uid) {
        return None;
    }
    let evse = site.find_evse(at, &Some(standing.evse_uid))?;
    if !site.works(evse.uid.key()) {
        return None;
    }
    Some(evse.uid)
}

/// The uid of the EVSE that the command takes: the one that its very reservation holds, else the first that is free, of
/// those in service that it may be about. The uid of one that was found for the command is given.
fn reservable_evse(
    books: &Books,
    at: &FoundLocation<'_>,
    evse_uid: &CiText<36>,
    request: &Request,
    command: &ReserveNow,
) -> Option<CiText<36>>
    requires found { IsFoundIn books.now.state.site at.now }
    requires evse { (e : EvseOf) × IsEvseFor (location_of at.now) command.now.evse_uid e × (evse_uid.now ≡ e.uid) }
    requires service { HasService books.now.state.rows (location_of at.now) command.now.evse_uid }
    ensures found { IfSome result (IsTakenUid books.now.state.rows request.now.provider command.now (location_of at.now)) }
    ensures none { IfNone result ((e : EvseOf) → IsReservable books.now.state.rows request.now.provider command.now (location_of at.now) e → ⊥) }
{
    let site = books.site_book();
    if let Some(own) = own_evse(books, at, request, command) {
        return Some(own);
    }
    free_evse(site, at, &command.evse_uid, evse_uid)
}

/// Whether the token of a command is not valid, or its reservation would have ended by a moment.
fn is_void(command: &ReserveNow, at: Moment) -> bool
    ensures yes { IsTrue result → IsVoid at command.now }
    ensures no { result ≡ false → ¬ IsVoid at command.now }
{
    !command.token.valid || command.expiry_date <= at
}

/// The decision on a RESERVE_NOW that got as far as the EVSEs of its location. The uid of an EVSE that was found for
/// it is given.
fn decide_at(
    books: &Books,
    at: &FoundLocation<'_>,
    evse_uid: &CiText<36>,
    request: &Request,
    command: &ReserveNow,
) -> Decision
    requires found { IsFoundIn books.now.state.site at.now }
    requires evse { (e : EvseOf) × IsEvseFor (location_of at.now) command.now.evse_uid e × (evse_uid.now ≡ e.uid) }
    ensures { DecidesThere books.now.state.site books.now.state.rows request.now.at request.now.provider request.now.number command.now (location_of at.now) result }
{
    let reservation_id = command.reservation_id.key();
    if !serves(books.site_book(), at, &command.evse_uid, evse_uid) {
        return Decision::Noted {
            reservation_id,
            result: CommandResultType::EvseInoperative,
        };
    }
    let Some(evse_uid) = reservable_evse(books, at, evse_uid, request, command) else {
        return Decision::Noted {
            reservation_id,
            result: CommandResultType::EvseOccupied,
        };
    };
    Decision::Reserved {
        reservation_id,
        reservation: Reservation {
            evse_uid,
            expiry_date: command.expiry_date,
            location_id: at.location().id,
            token: command.token,
        },
    }
}

/// The decision on a RESERVE_NOW, by the first line of its table that applies. The provider is the sender's key.
pub fn decide_reserve(
    books: &Books,
    request: &Request,
    sender: &Party,
    command: &ReserveNow,
) -> Decision
    requires { request.now.provider ≡ key sender.now }
    ensures { ReserveLine books.now.state.site books.now.state.rows request.now.at sender.now request.now.number command.now result }
{
    if !command.token.party.is_same(sender) {
        return Decision::Refused(invalid_parameters());
    }
    let site = books.site_book();
    let Some(at) = site.find_location(&command.location_id) else {
        return Decision::Refused(unknown_location());
    };
    let Some(evse) = site.find_evse(&at, &command.evse_uid) else {
        return Decision::Answered(CommandResponseType::Rejected);
    };
    if is_void(command, request.at) {
        return Decision::Answered(CommandResponseType::Rejected);
    }
    let reservation_id = command.reservation_id.key();
    match books.booked().check_reservation(
        request.provider,
        reservation_id,
        request.number,
        &command.location_id,
    ) {
        Err(_fault) => Decision::Answered(CommandResponseType::Rejected),
        Ok(()) => decide_at(books, &at, &evse.uid, request, command),
    }
}
