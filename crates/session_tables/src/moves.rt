//! What a charge point's report makes of the session at an EVSE (OCPI 2.2.1, Sessions: Session object, SessionStatus).

ghost use Rattle.std.specs.Prelude.{◌≡◌, IfNone, IfSome};
ghost use Rattle.ocpi_types.specs.declared.events.ChargerEvent.TheVariants as event;
ghost use Rattle.ocpi_types.specs.declared.sessions.Session.{Session as SessionOf};
ghost use Rattle.session_state.specs.Versions.{CanRead, activated, metered, completed, voided};
ghost use Rattle.session_tables.specs.Moved.{Comes, IsMoved};
ghost use Rattle.session_tables.specs.Moves.{IsSessionAt};
ghost use Rattle.session_tables.specs.Going.{IsGoingAt};

use crate::outcome::Moved;
use ocpi_text::{CiKey, CiText, Moment, Quantity};
use ocpi_types::{ChargerEvent, PricePerKwh, Session as Version};
use operator_rows::Books;
use session_state::{Active, Pending, Resumed, Session, resume};
use site_book::Claim;

/// The session at the EVSE of a key that has not ended, in its newest version. At an EVSE there is at most one. It
/// costs the logarithm of what is stored.
pub fn session_at(books: &Books, evse: CiKey<36>) -> Option<&Version>
    ensures found { IfSome result (λ v. IsSessionAt books.now.state.rows evse v.now) }
    ensures sole { IfSome result (λ v. (w : SessionOf) → IsSessionAt books.now.state.rows evse w → w ≡ v.now) }
    ensures none { IfNone result ((w : SessionOf) → IsSessionAt books.now.state.rows evse w → ⊥) }
{
    books.consistency();
    match books.site_book().claim_of(evse)? {
        Claim::Live { session, .. } => books.charged().session(session),
        Claim::OpenStart { .. } | Claim::Reserved { .. } => None,
    }
}

/// The session at the EVSE of a key, which goes on at the price of the moment at which it began.
fn going_at(books: &Books, evse: CiKey<36>) -> Option<Resumed>
    ensures found { IfSome result (λ x. IsGoingAt books.now.state.rows books.now.state.site evse x) }
    ensures none { IfNone result ((v : SessionOf) → IsSessionAt books.now.state.rows evse v → ⊥) }
{
    books.consistency();
    let version = session_at(books, evse)?;
    let price = books.site_book().site().price_at(version.start_date_time);
    match resume(*version, price) {
        Ok(session) => Some(session),
        Err(_version) => unreachable!(),
    }
}

/// The charging begins, at the price of that moment.
fn begun(session: Session<Pending>, at: Moment, price: PricePerKwh) -> Moved
    ensures { Comes session.version (activated at session.version) result }
{
    let _stamp = session.version().last_updated.millis();
    match session.activate(at, price) {
        Ok(moved) => Moved::To {
            version: *moved.version(),
        },
        Err(_refused) => Moved::Refused,
    }
}

/// The meter reads that many kilowatt-hours.
fn read(session: Session<Active>, at: Moment, kwh: Quantity) -> Moved
    requires { CanRead session.version kwh }
    ensures { Comes session.version (metered at kwh session.price session.version) result }
{
    let _stamp = session.version().last_updated.millis();
    match session.meter(at, kwh) {
        Ok(moved) => Moved::To {
            version: *moved.version(),
        },
        Err(_refused) => Moved::Refused,
    }
}

/// A session that was charged ends.
fn ended(session: Session<Active>, at: Moment) -> Moved
    ensures { Comes session.version (completed at session.version) result }
{
    let _stamp = session.version().last_updated.millis();
    match session.complete(at) {
        Ok((moved, draft)) => Moved::Completed {
            version: *moved.version(),
            draft,
        },
        Err(_refused) => Moved::Refused,
    }
}

/// A session ends that was not charged.
fn dismissed(session: Session<Pending>, at: Moment) -> Moved
    ensures { Comes session.version (voided at session.version) result }
{
    let _stamp = session.version().last_updated.millis();
    match session.void(at) {
        Ok(moved) => Moved::To {
            version: *moved.version(),
        },
        Err(_refused) => Moved::Refused,
    }
}

/// What it makes of the session at an EVSE that energy begins to flow.
fn starts(books: &Books, at: Moment, evse_uid: &CiText<36>) -> Moved
    ensures { IsMoved books.now.state.site books.now.state.rows at (event.Starts evse_uid.now) result }
{
    match going_at(books, evse_uid.key()) {
        Some(Resumed::Pending(session)) => {
            begun(session, at, books.site_book().site().price_at(at))
        }
        Some(Resumed::Active(_) | Resumed::Completed(_) | Resumed::Invalid(_)) | None => {
            Moved::Nothing
        }
    }
}

/// What a reading of the meter makes of the session at an EVSE.
fn reads(books: &Books, at: Moment, evse_uid: &CiText<36>, kwh: Quantity) -> Moved
    ensures { IsMoved books.now.state.site books.now.state.rows at (event.Meter evse_uid.now kwh) result }
{
    match going_at(books, evse_uid.key()) {
        Some(Resumed::Active(session)) => {
            if session.can_meter(kwh) {
                read(session, at, kwh)
            } else {
                Moved::Nothing
            }
        }
        Some(Resumed::Pending(_) | Resumed::Completed(_) | Resumed::Invalid(_)) | None => {
            Moved::Nothing
        }
    }
}

/// What the end of the charging, or a failure, makes of the session at an EVSE.
fn ends(books: &Books, at: Moment, evse_uid: &CiText<36>) -> Moved
    ensures stops { IsMoved books.now.state.site books.now.state.rows at (event.Stops evse_uid.now) result }
    ensures fault { IsMoved books.now.state.site books.now.state.rows at (event.Fault evse_uid.now) result }
{
    match going_at(books, evse_uid.key()) {
        Some(Resumed::Active(session)) => ended(session, at),
        Some(Resumed::Pending(session)) => dismissed(session, at),
        Some(Resumed::Completed(_) | Resumed::Invalid(_)) | None => Moved::Nothing,
    }
}

/// What a report makes of the session at the EVSE that it is about: its next version, at the price of the moment at
/// which it began. A reading that is below the last, or out of its range, makes nothing. It costs the logarithm of what
/// is stored, and takes no memory.
pub fn moved(books: &Books, at: Moment, report: &ChargerEvent) -> Moved
    ensures { IsMoved books.now.state.site books.now.state.rows at report.now result }
{
    match report {
        ChargerEvent::Starts { evse_uid } => starts(books, at, evse_uid),
        ChargerEvent::Meter { evse_uid, kwh } => reads(books, at, evse_uid, *kwh),
        ChargerEvent::Stops { evse_uid } => ends(books, at, evse_uid),
        ChargerEvent::Fault { evse_uid } => ends(books, at, evse_uid),
        ChargerEvent::Accepts { .. }
        | ChargerEvent::Refuses { .. }
        | ChargerEvent::Unlocked { .. }
        | ChargerEvent::Swipe { .. } => Moved::Nothing,
    }
}
