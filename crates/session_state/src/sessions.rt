//! Sessions and their moves.

ghost use Rattle.std.specs.Prelude.{◌≡◌, ◌↔◌, ◌<◌, max, pos, None, Some, IfSome, IsNone, IfOk, IfErr, IsErr, IsTrue};
ghost use Rattle.ocpi_text.specs.Moment.{last_moment};
ghost use Rattle.ocpi_types.specs.Stamps.{next_stamp};
ghost use Rattle.session_state.specs.Versions.{
  Priced,
  HasCost,
  IsUncharged,
  IsIn,
  CanRead,
  first_version,
  activated,
  metered,
  ended,
  completed,
  voided,
};
ghost use Rattle.session_state.specs.Pasts.{MayFollow};
ghost use Rattle.session_state.specs.declared.fault.SessionFault.TheVariants.{StampEnd};

use crate::costs::{MOST_KWH, cost_of_reading};
use crate::drafts::{CdrDraft, draft_of};
use crate::fault::{Refused, stamp_end};
use crate::states::{Active, Completed, Invalid, Pending, State};
use ocpi_text::{E4, Moment, Quantity};
use ocpi_types::{Opening, Price, PricePerKwh, Session as Version, SessionStatus, next_stamp};
use std::marker::Model;

/// A session in the state `S`: its newest version, and what a kilowatt-hour costs at the moment at which it began. The
/// version has the status of the state, and its `total_cost` is that of its energy at the price, rounded down. A
/// PENDING one has no energy.
#[derive(Drop)]
pub struct Session<S: State> {
    version: Version,
    price: PricePerKwh,
    state: S,
}

impl<S: State> Model for Session<S> {
    ghost use Rattle.session_state.specs.Versions.{Priced, IsIn};

    ghost Value = { Priced };

    ghost view = { λ s. record { version = s.version; price = s.price } };

    ghost invariant = { λ s. IsIn S.status s.price s.version };
}

/// The later of two moments.
fn later_of(a: Moment, b: Moment) -> Moment
    ensures { result ≡ max a b }
{
    if a.millis() < b.millis() { b } else { a }
}

/// A session begins: its first version is PENDING, has used no energy, and starts and was updated at that moment, whose
/// price is given.
pub fn start(opening: Opening, at: Moment, price: PricePerKwh) -> Session<Pending>
    ensures { result ≡ record { version = first_version opening at; price = price } }
{
    let nothing = no_energy();
    let excl_vat = nothing.value();
    let version = Version {
        party: opening.party,
        id: opening.id,
        start_date_time: at,
        end_date_time: None,
        kwh: nothing,
        cdr_token: opening.cdr_token,
        auth_method: opening.auth_method,
        authorization_reference: opening.authorization_reference,
        location_id: opening.location_id,
        evse_uid: opening.evse_uid,
        connector_id: opening.connector_id,
        currency: opening.currency,
        total_cost: Some(Price { excl_vat }),
        status: SessionStatus::Pending,
        last_updated: at,
    };
    session_in(Pending, version, price)
}

/// The session of a version that is in that state.
pub(crate) fn session_in<S: State>(state: S, version: Version, price: PricePerKwh) -> Session<S>
    requires { IsIn S.status price version }
    ensures { result ≡ record { version = version; price = price } }
{
    Session {
        version,
        price,
        state,
    }
}

fn no_energy() -> Quantity
    ensures { result ≡ pos 0 }
{
    Quantity::new(E4::new(0).unwrap()).unwrap()
}

impl<S: State> Session<S> {
    /// The newest version.
    pub fn version(&self) -> &Version
        ensures value { result.now ≡ self.now.version }
        ensures state { result.now.status ≡ S.status }
        ensures priced { HasCost self.now.price result.now }
        ensures uncharged { IsUncharged result.now }
    {
        &self.version
    }

    /// An equal session.
    pub fn copy(&self) -> Session<S>
        ensures { result ≡ self.now }
    {
        session_in(self.state, self.version, self.price)
    }

    /// The newest version's total cost.
    fn total_cost(&self) -> Price
        ensures { self.now.version.total_cost ≡ Some result }
    {
        let Some(total_cost) = self.version.total_cost else {
            unreachable!()
        };
        total_cost
    }

    /// When the next version is updated. None, where the newest was updated at the last moment.
    fn next_stamp(&self, at: Moment) -> Option<Moment>
        ensures none { IsNone result ↔ (self.now.version.last_updated ≡ last_moment) }
        ensures some { IfSome result (λ m. m ≡ next_stamp at self.now.version.last_updated) }
        ensures later { IfSome result (λ m. self.now.version.last_updated < m) }
    {
        let before = self.version.last_updated;
        next_stamp(at, before)
    }
}

impl Session<Pending> {
    /// The charging begins: the session is ACTIVE, and starts at that moment, whose price is given and counts from then
    /// on. Refused (`StampEnd`) exactly where the newest version was updated at the last moment; the session is then
    /// handed back.
    pub fn activate(
        self,
        at: Moment,
        price: PricePerKwh,
    ) -> Result<Session<Active>, Refused<Session<Pending>>>
        ensures moved { IfOk result (λ s. s ≡ record { version = activated at self.version; price = price }) }
        ensures follows { IfOk result (λ s. MayFollow (λ _. price) self.version s.version) }
        ensures refused { IfErr result (λ r. r ≡ record { fault = StampEnd; value = self }) }
        ensures exact { IsErr result ↔ (self.version.last_updated ≡ last_moment) }
    {
        let Some(last_updated) = self.next_stamp(at) else {
            return Err(stamp_end(self));
        };
        let version = Version {
            start_date_time: at,
            status: SessionStatus::Active,
            last_updated,
            ..self.version
        };
        Ok(session_in(Active, version, price))
    }

    /// The session ends before it is charged: it is INVALID, and ends at that moment, though not before its start.
    /// Refused (`StampEnd`) exactly where the newest version was updated at the last moment; the session is then handed
    /// back.
    pub fn void(self, at: Moment) -> Result<Session<Invalid>, Refused<Session<Pending>>>
        ensures moved { IfOk result (λ s. s ≡ record { version = voided at self.version; price = self.price }) }
        ensures follows { IfOk result (λ s. MayFollow (λ _. self.price) self.version s.version) }
        ensures refused { IfErr result (λ r. r ≡ record { fault = StampEnd; value = self }) }
        ensures exact { IsErr result ↔ (self.version.last_updated ≡ last_moment) }
    {
        let Some(last_updated) = self.next_stamp(at) else {
            return Err(stamp_end(self));
        };
        let before = self.version;
        let end = later_of(at, before.start_date_time);
        let version = Version {
            end_date_time: Some(end),
            status: SessionStatus::Invalid,
            last_updated,
            ..before
        };
        Ok(session_in(Invalid, version, self.price))
    }
}

impl Session<Active> {
    /// Whether that reading may come next: it is not below the last, and at most 1,000,000 kilowatt-hours.
    pub fn can_meter(&self, kwh: Quantity) -> bool
        ensures { IsTrue result ↔ CanRead self.now.version kwh }
    {
        let energy = kwh.value().units();
        self.version.kwh.value().units() <= energy && energy <= MOST_KWH
    }

    /// The meter reads that many kilowatt-hours, of which the total cost follows. Refused (`StampEnd`) exactly where
    /// the newest version was updated at the last moment; the session is then handed back.
    pub fn meter(
        self,
        at: Moment,
        kwh: Quantity,
    ) -> Result<Session<Active>, Refused<Session<Active>>>
        requires { CanRead self.version kwh }
        ensures moved { IfOk result (λ s. s ≡ record { version = metered at kwh self.price self.version; price = self.price }) }
        ensures follows { IfOk result (λ s. MayFollow (λ _. self.price) self.version s.version) }
        ensures refused { IfErr result (λ r. r ≡ record { fault = StampEnd; value = self }) }
        ensures exact { IsErr result ↔ (self.version.last_updated ≡ last_moment) }
    {
        let Some(last_updated) = self.next_stamp(at) else {
            return Err(stamp_end(self));
        };
        let version = Version {
            kwh,
            total_cost: Some(cost_of_reading(kwh, self.price)),
            last_updated,
            ..self.version
        };
        Ok(session_in(Active, version, self.price))
    }

    /// The charging ends: the session is COMPLETED, and ends at that moment, though not before its start. With it comes
    /// the draft of its charge detail record. Refused (`StampEnd`) exactly where the newest version was updated at the
    /// last moment; the session is then handed back.
    pub fn complete(
        self,
        at: Moment,
    ) -> Result<(Session<Completed>, CdrDraft), Refused<Session<Active>>>
        ensures moved { IfOk result (λ (s, d). s ≡ record { version = completed at self.version; price = self.price }) }
        ensures drafted { IfOk result (λ (s, d). d ≡ s.version) }
        ensures follows { IfOk result (λ (s, d). MayFollow (λ _. self.price) self.version s.version) }
        ensures refused { IfErr result (λ r. r ≡ record { fault = StampEnd; value = self }) }
        ensures exact { IsErr result ↔ (self.version.last_updated ≡ last_moment) }
    {
        let Some(last_updated) = self.next_stamp(at) else {
            return Err(stamp_end(self));
        };
        let before = self.version;
        let total_cost = self.total_cost();
        let end = later_of(at, before.start_date_time);
        let version = Version {
            end_date_time: Some(end),
            status: SessionStatus::Completed,
            last_updated,
            ..before
        };
        let draft = draft_of(&version, end, total_cost);
        Ok((session_in(Completed, version, self.price), draft))
    }
}
