//! How a START_SESSION is decided (OCPI 2.2.1, Commands: StartSession).

ghost use Rattle.std.specs.Prelude.{◌≡◌, IsTrue, IsSome, IsNone, IfSome, IfNone, false, Some, None};
ghost use Rattle.ocpi_text.specs.Text.{key};
ghost use Rattle.ocpi_types.specs.declared.site.Evse.{Evse};
ghost use Rattle.ocpi_types.specs.declared.site.Connector.{Connector};
ghost use Rattle.site_book.specs.Sites.{IsEvseFor, IsFoundIn, IsFreeEvse, IsFreePlace, IsPlaceOf, IsWorkingEvse, location_of};
ghost use Rattle.operator_tables.specs.Start.{IsBarred, IsMismatched, IsPlace, StartLine};
ghost use Rattle.operator_tables.specs.Held.{HasNoHeld, IsHeld, IsPlaceOn, token_of};

use crate::decision::Decision;
use crate::found::serves;
use ocpi_text::{CiKey, CiText, Party, PartyKey};
use ocpi_types::{CommandResponseType, CommandResultType, Place, RefusalCode, StartSession};
use operator_rows::Books;
use reservation_book::{Standing, TokenAt};
use site_book::{FoundLocation, SiteBook};

/// Invalid or missing parameters (OCPI 2.2.1, Status codes).
pub fn invalid_parameters() -> RefusalCode
    ensures { result ≡ 2001 }
{
    RefusalCode::new(2001).unwrap()
}

/// An unknown location (OCPI 2.2.1, Status codes).
pub fn unknown_location() -> RefusalCode
    ensures { result ≡ 2003 }
{
    RefusalCode::new(2003).unwrap()
}

/// Whether the token is another party's than the sender, or a connector is named without its EVSE.
fn is_mismatched(sender: &Party, command: &StartSession) -> bool
    ensures yes { IsTrue result → IsMismatched sender.now command.now }
    ensures no { result ≡ false → ¬ IsMismatched sender.now command.now }
{
    !command.token.party.is_same(sender)
        || (command.connector_id.is_some() && command.evse_uid.is_none())
}

/// Whether the token is not valid, or its reference was used before. The provider is the sender's key.
fn is_barred(books: &Books, provider: PartyKey, command: &StartSession) -> bool
    ensures yes { IsTrue result → IsBarred books.now.state.rows.spent provider command.now }
    ensures no { result ≡ false → ¬ IsBarred books.now.state.rows.spent provider command.now }
{
    !command.token.valid || books.is_spent(provider, &command.authorization_reference)
}

/// The place on the EVSE that a reservation is on: the connector that the command names, or the EVSE's first. None,
/// where the EVSE is out of service, or the location has no such EVSE and connector.
fn place_held(
    books: &Books,
    at: &FoundLocation<'_>,
    command: &StartSession,
    standing: &Standing,
) -> Option<Place>
    requires { IsFoundIn books.now.state.site at.now }
    ensures found { IfSome result (λ p. (e : Evse) × (k : Connector) × IsPlaceOn books.now.state.rows command.now (location_of at.now) standing.now e k × IsPlaceOf e k p) }
    ensures none { IfNone result ((e : Evse) (k : Connector) → IsPlaceOn books.now.state.rows command.now (location_of at.now) standing.now e k → ⊥) }
{
    let site = books.site_book();
    let evse_uid = standing.reservation.evse_uid;
    if !site.works(evse_uid.key()) {
        return None;
    }
    site.find_place(at, &Some(evse_uid), &command.connector_id)
}

/// As `find_held`, for a command that names the EVSE.
fn find_held_on(
    books: &Books,
    at: &FoundLocation<'_>,
    command: &StartSession,
    token: &TokenAt,
    evse_uid: &CiText<36>,
) -> Option<(Place, CiKey<36>)>
    requires found { IsFoundIn books.now.state.site at.now }
    requires named { command.now.evse_uid ≡ Some evse_uid.now }
    ensures found { IfSome result (λ p. IsHeld books.now.state.rows token.now command.now (location_of at.now) p) }
    ensures none { IfNone result (HasNoHeld books.now.state.rows token.now command.now (location_of at.now)) }
{
    let standing = books.booked().first_for(token, Some(evse_uid.key()))?;
    let place = place_held(books, at, command, &standing)?;
    Some((place, standing.id))
}

/// As `find_held`, for a command that names no EVSE. The reservations for the token are gone through in the order of
/// their EVSEs' keys, until one holds a place.
fn find_any_held(
    books: &Books,
    at: &FoundLocation<'_>,
    command: &StartSession,
    token: &TokenAt,
) -> Option<(Place, CiKey<36>)>
    requires found { IsFoundIn books.now.state.site at.now }
    requires named { command.now.evse_uid ≡ None }
    ensures found { IfSome result (λ p. IsHeld books.now.state.rows token.now command.now (location_of at.now) p) }
    ensures none { IfNone result (HasNoHeld books.now.state.rows token.now command.now (location_of at.now)) }
{
    let mut next = books.booked().first_for(token, None);
    while let Some(standing) = next {
        if let Some(place) = place_held(books, at, command, &standing) {
            return Some((place, standing.id));
        }
        let evse_uid = standing.reservation.evse_uid.key();
        next = books.booked().next_for(token, evse_uid, standing.id);
    }
    None
}

/// The place that a reservation of the provider holds for the token of the command, at the location that was found,
/// and the reservation's id. The EVSE is in service, and the command may be about it: of several the one with the least
/// key. None, where there is no such reservation. Each reservation for the token that is passed over costs the logarithm of those that stand.
fn find_held(
    books: &Books,
    at: &FoundLocation<'_>,
    provider: PartyKey,
    command: &StartSession,
) -> Option<(Place, CiKey<36>)>
    requires { IsFoundIn books.now.state.site at.now }
    ensures found { IfSome result (λ p. IsHeld books.now.state.rows (token_of provider command.now) command.now (location_of at.now) p) }
    ensures none { IfNone result (HasNoHeld books.now.state.rows (token_of provider command.now) command.now (location_of at.now)) }
{
    let token = TokenAt {
        provider,
        location_id: command.location_id.key(),
        uid: command.token.uid.key(),
        token_type: command.token.token_type,
    };
    match &command.evse_uid {
        Some(evse_uid) => find_held_on(books, at, command, &token, evse_uid),
        None => find_any_held(books, at, command, &token),
    }
}

/// As `SiteBook::free_place`, where a place that was found is given, and an EVSE is in service: where the command
/// names its EVSE, both are that one.
fn free_place(
    site: &SiteBook,
    at: &FoundLocation<'_>,
    command: &StartSession,
    place: &Place,
) -> Option<Place>
    requires found { IsFoundIn site.now.site at.now }
    requires named { IsSome command.now.connector_id × IsNone command.now.evse_uid → ⊥ }
    requires place { (e : Evse) × (k : Connector) × IsPlace (location_of at.now) command.now e k × IsPlaceOf e k place.now }
    requires service { (e : Evse) × IsEvseFor (location_of at.now) command.now.evse_uid e × IsWorkingEvse site.now e }
    ensures found { IfSome result (λ p. IsFreePlace site.now (location_of at.now) command.now.evse_uid command.now.connector_id p) }
    ensures none { IfNone result ((e : Evse) (k : Connector) → IsPlace (location_of at.now) command.now e k → IsFreeEvse site.now e → ⊥) }
{
    match &command.evse_uid {
        None => site.free_place(at, &command.evse_uid, &command.connector_id),
        Some(_name) => {
            if !site.is_free(place.evse_uid.key()) {
                return None;
            }
            site.evses_differ();
            Some(*place)
        }
    }
}

/// The decision on a START_SESSION, by the first line of its table that applies. The provider is the sender's key.
pub fn decide_start(
    books: &Books,
    sender: &Party,
    provider: PartyKey,
    command: &StartSession,
) -> Decision
    requires { provider ≡ key sender.now }
    ensures { StartLine books.now.state.site books.now.state.rows sender.now command.now result }
{
    if is_mismatched(sender, command) {
        return Decision::Refused(invalid_parameters());
    }
    let site = books.site_book();
    let Some(at) = site.find_location(&command.location_id) else {
        return Decision::Refused(unknown_location());
    };
    let (evse_uid, connector_id) = (&command.evse_uid, &command.connector_id);
    let Some(place) = site.find_place(&at, evse_uid, connector_id) else {
        return Decision::Answered(CommandResponseType::Rejected);
    };
    if is_barred(books, provider, command) {
        return Decision::Answered(CommandResponseType::Rejected);
    }
    if !serves(site, &at, evse_uid, &place.evse_uid) {
        return Decision::Resulted(CommandResultType::EvseInoperative);
    }
    if let Some((held, id)) = find_held(books, &at, provider, command) {
        return Decision::Started {
            place: held,
            reservation_id: Some(id),
        };
    }
    match free_place(site, &at, command, &place) {
        None => Decision::Resulted(CommandResultType::EvseOccupied),
        Some(place) => Decision::Started {
            place,
            reservation_id: None,
        },
    }
}
