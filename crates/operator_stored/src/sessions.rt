//! Rows of sessions and of charge detail records.

ghost use Rattle.std.specs.Prelude.{◌≡◌, ◌≢◌, ◌≤◌, ℕ, IfErr, IfNone, IfSome, MatchBool, OnOk};
ghost use Rattle.ocpi_text.specs.OwnIds.{own_id_text};
ghost use Rattle.ocpi_text.specs.Text.{key};
ghost use Rattle.ocpi_text.specs.Whole.{max_whole};
ghost use Rattle.ocpi_text.specs.declared.own_ids.OwnIdKind.TheVariants as own;
ghost use Rattle.ocpi_types.specs.declared.rows.Row.TheVariants as row;
ghost use Rattle.ocpi_types.specs.declared.words.SessionStatus.TheVariants.{Reservation};
ghost use Rattle.operator_rows.specs.State.{IsLive};
ghost use Rattle.session_state.specs.Resuming.{CannotResume};
ghost use Rattle.session_state.specs.Versions.{HasCost};
ghost use Rattle.stored_rows.specs.Given.{IsOwnId};
ghost use Rattle.stored_rows.specs.Records.{IsRecordId};
ghost use Rattle.operator_stored.specs.Causes.{IsStuck};
ghost use Rattle.operator_stored.specs.Placing.{Answers, ComesNext, IsOwn, MayCharge, Tells};

use crate::places::{check_connector, is_unclaimed};
use crate::pushes::is_provider;
use ocpi_text::{OwnIdKind, Whole};
use ocpi_types::{Cdr, PricePerKwh, Session, SessionStatus, Site};
use operator_rows::Books;
use session_state::{is_uncharged, resume};
use stored_rows::{BadReason, own_number, record_number};

/// Whether a session with that status has not ended.
fn is_live(status: SessionStatus) -> bool
    ensures { MatchBool result (IsLive status) (¬ IsLive status) }
{
    match status {
        SessionStatus::Pending | SessionStatus::Active => true,
        SessionStatus::Completed | SessionStatus::Invalid | SessionStatus::Reservation => false,
    }
}

/// Whether a session can go on from that version.
fn can_go_on(session: &Session, price: PricePerKwh) -> bool
    ensures { MatchBool result (HasCost price session.now × ¬ CannotResume price session.now) (CannotResume price session.now) }
{
    match resume(*session, price) {
        Ok(_) => true,
        Err(_) => false,
    }
}

/// Whether a session with that status is a reservation's.
fn is_reservation(status: SessionStatus) -> bool
    ensures { MatchBool result (status ≡ Reservation) (status ≡ Reservation → ⊥) }
{
    match status {
        SessionStatus::Reservation => true,
        _ => false,
    }
}

/// Whether a session can go on from that version. Refused where its status is RESERVATION, where it has no cost, where it
/// is PENDING and has energy, and where its cost is not that of its energy at the price.
fn check_version(session: &Session, price: PricePerKwh) -> Result<(), BadReason>
    ensures on { OnOk result (HasCost price session.now × ¬ CannotResume price session.now) }
    ensures stuck { IfErr result (IsStuck price session.now) }
{
    if is_reservation(session.status) {
        return Err(BadReason::ReservationStatus);
    }
    let Some(cost) = session.total_cost else {
        return Err(BadReason::WithoutCost);
    };
    if !is_uncharged(session) {
        return Err(BadReason::EnergyWhilePending);
    }
    if !can_go_on(session, price) {
        return Err(BadReason::OtherPrice {
            start_date_time: session.start_date_time,
            kwh: session.kwh.value(),
            cost: cost.excl_vat,
            price: price.value(),
        });
    }
    Ok(())
}

/// The number of which the operator made an id, if it did.
fn number_of(books: &Books, kind: OwnIdKind, id: &str) -> Option<Whole>
    ensures made { IfSome result (λ n. IsOwnId kind books.now.state.party id.now n) }
    ensures sole { IfSome result (λ n. (m : ℕ) → m ≤ max_whole → key (own_id_text kind books.now.state.party m) ≡ key id.now → m ≡ n) }
    ensures none { IfNone result ((n : ℕ) → IsOwnId kind books.now.state.party id.now n → ⊥) }
{
    books.consistency();
    let party = books.party();
    own_number(kind, &party, id)
}

/// The number of which the operator made the id of a charge detail record, if it did.
fn number_of_record(books: &Books, cdr: &Cdr) -> Option<Whole>
    ensures made { IfSome result (λ n. IsRecordId books.now.state.party cdr.now n) }
    ensures sole { IfSome result (λ n. (m : ℕ) → m ≤ max_whole → key (own_id_text own.Cdr books.now.state.party m) ≡ key cdr.now.id → m ≡ n) }
    ensures none { IfNone result ((n : ℕ) → IsRecordId books.now.state.party cdr.now n → ⊥) }
{
    books.consistency();
    let party = books.party();
    record_number(&party, cdr)
}

/// Whether a session is the operator's own, by its party and its id, whose number was given.
fn may_own_session(books: &Books, session: &Session) -> Result<(), BadReason>
    ensures { Answers result (IsOwn books.now.state own.Session books.now.state.rows.charged.last_session session.now.party session.now.id) books.now.state (row.Session session.now) }
{
    if !session.party.is_same(&books.party()) {
        return Err(BadReason::OfOtherParty);
    }
    match number_of(books, OwnIdKind::Session, session.id.as_str()) {
        Some(number) => {
            if number > books.charged().last_session() {
                return Err(BadReason::NotGiven);
            }
            Ok(())
        }
        None => Err(BadReason::NotOwnId),
    }
}

/// Whether a session is in the currency of the site.
fn is_of_currency(session: &Session, site: &Site) -> bool
    ensures { MatchBool result (session.now.currency ≡ site.now.currency) (session.now.currency ≢ site.now.currency) }
{
    session.currency.as_str() == site.currency.as_str()
}

/// Whether a session that has not ended is in the site's currency, and has its place to itself.
fn may_charge(books: &Books, session: &Session) -> Result<(), BadReason>
    requires next { ComesNext books.now.state (row.Session session.now) }
    requires live { IsLive session.now.status }
    requires own { key session.now.party ≡ key books.now.state.party }
    ensures { Answers result (MayCharge books.now.state session.now) books.now.state (row.Session session.now) }
{
    let evse = session.evse_uid.key();
    if !is_provider(books, session.cdr_token.party.key()) {
        return Err(BadReason::UnknownParty);
    }
    check_connector(books, evse, &session.connector_id)?;
    if !is_of_currency(session, books.site_book().site()) {
        return Err(BadReason::OtherCurrency);
    }
    if !is_unclaimed(books, evse) {
        return Err(BadReason::ClaimedTwice);
    }
    Ok(())
}

/// Whether the newest version of a session that was stored may stand beside the rows that were put so far.
pub fn may_stand(books: &Books, session: &Session) -> Result<(), BadReason>
    requires { ComesNext books.now.state (row.Session session.now) }
    ensures { Tells result books.now.state (row.Session session.now) }
{
    may_own_session(books, session)?;
    let site = books.site_book().site();
    check_version(session, site.price_at(session.start_date_time))?;
    if !is_live(session.status) {
        return Ok(());
    }
    may_charge(books, session)
}

/// Whether a charge detail record is the operator's own, by its party and its id, whose number was given.
pub fn may_own_cdr(books: &Books, cdr: &Cdr) -> Result<(), BadReason>
    ensures { Tells result books.now.state (row.Cdr cdr.now) }
{
    if !cdr.party.is_same(&books.party()) {
        return Err(BadReason::OfOtherParty);
    }
    match number_of_record(books, cdr) {
        Some(number) => {
            if number > books.charged().last_cdr() {
                return Err(BadReason::NotGiven);
            }
            Ok(())
        }
        None => Err(BadReason::NotOwnId),
    }
}
