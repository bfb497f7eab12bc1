//! What an order makes a provider do (OCPI 2.2.1, Commands). Nothing is changed here.

ghost use Rattle.std.specs.Prelude.{◌≡◌, ◌≤◌, ◌+◌, IfOk, IfErr, OnOk};
ghost use Rattle.ocpi_text.specs.Whole.{max_whole};
ghost use Rattle.node_steps.specs.Drafts.{HasNumbers, IsInRange, StopsBy, counted, step_of, with_acts};
ghost use Rattle.provider_rows.specs.Steps.{MayFollow};
ghost use Rattle.provider_steps.specs.Acts.{own_url};
ghost use Rattle.provider_steps.specs.Faults.{IsOrderFault};
ghost use Rattle.provider_steps.specs.Moves.{PlannedBy, counters_of, step_of_acts};
ghost use Rattle.provider_steps.specs.Orders.{OrderLine};
ghost use Rattle.provider_core.specs.Making.{before_of, command_of, order_acts};

mod lookups;
mod prepared_orders;
mod response_urls;

use crate::authorization_references::add_reference;
use crate::orders::prepared_orders::{Prepared, PreparedReserve, PreparedStart};
use crate::orders::response_urls::own_url;
use crate::provider::Provider;
use node_steps::{Draft, Needs, NodeFault, Plan, find_peer};
use ocpi_text::{FreeText, Moment, Party};
use ocpi_types::{
    Boxed, CancelReservation, Command, Order, ReserveNow, StartSession, StopSession,
    UnlockConnector,
};
use provider_steps::facts;
use std::alloc::{AllocError, Global};

/// The most rows that an order changes, beside the counters of packets and requests: the counter of references, and the
/// command.
const CHANGES_OF_AN_ORDER: usize = 2;

/// The start, whose result is posted to a url. An error is want of memory.
fn start_session(
    alloc: Global,
    response_url: FreeText<255>,
    start: &PreparedStart,
) -> Result<Command, AllocError>
    ensures { IfOk result (λ c. c ≡ command_of response_url (Prepared.Start start.now)) }
{
    let command = StartSession {
        response_url,
        token: start.token,
        location_id: start.location_id,
        evse_uid: start.evse_uid,
        connector_id: start.connector_id,
        authorization_reference: Some(start.reference.text),
    };
    Boxed::new(alloc, command).map(Command::StartSession)
}

/// The reservation, whose result is posted to a url. An error is want of memory.
fn reserve_now(
    alloc: Global,
    response_url: FreeText<255>,
    reserve: &PreparedReserve,
) -> Result<Command, AllocError>
    ensures { IfOk result (λ c. c ≡ command_of response_url (Prepared.Reserve reserve.now)) }
{
    let command = ReserveNow {
        response_url,
        token: reserve.token,
        expiry_date: reserve.expiry_date,
        reservation_id: reserve.reservation_id,
        location_id: reserve.location_id,
        evse_uid: reserve.evse_uid,
    };
    Boxed::new(alloc, command).map(Command::ReserveNow)
}

/// The command of a prepared order, whose result is posted to a url. An error is want of memory.
fn command(
    alloc: Global,
    response_url: FreeText<255>,
    prepared: &Prepared,
) -> Result<Command, AllocError>
    ensures { IfOk result (λ c. c ≡ command_of response_url prepared.now) }
{
    match prepared {
        Prepared::Start(start) => start_session(alloc, response_url, start),
        Prepared::Reserve(reserve) => reserve_now(alloc, response_url, reserve),
        Prepared::Stop { session_id } => Ok(Command::StopSession(StopSession {
            response_url,
            session_id: *session_id,
        })),
        Prepared::Cancel { reservation_id } => Ok(Command::CancelReservation(CancelReservation {
            response_url,
            reservation_id: *reservation_id,
        })),
        Prepared::Unlock {
            location_id,
            evse_uid,
            connector_id,
        } => Ok(Command::UnlockConnector(UnlockConnector {
            response_url,
            location_id: *location_id,
            evse_uid: *evse_uid,
            connector_id: *connector_id,
        })),
    }
}

/// Adds what is done before the command of a prepared order is sent: a start's reference is given.
fn add_before(draft: &mut Draft, prepared: &Prepared) -> Result<(), AllocError>
    ensures { OnOk result (draft.new ≡ with_acts (before_of prepared.now) draft.old) }
{
    match prepared {
        Prepared::Start(start) => add_reference(draft, &start.reference),
        Prepared::Reserve(_)
        | Prepared::Stop { .. }
        | Prepared::Cancel { .. }
        | Prepared::Unlock { .. } => Ok(()),
    }
}

impl Provider {
    /// The command that a prepared order makes as the next request. An error is want of memory.
    fn next_command(&self, prepared: &Prepared) -> Result<Command, AllocError>
        requires { self.now.state.rows.outbox.last + 1 ≤ max_whole }
        ensures { IfOk result (λ c. c ≡ command_of (own_url self.now.state.party (self.now.state.rows.outbox.last + 1)) prepared.now) }
    {
        let Some(number) = self.books.last_request().next() else {
            unreachable!()
        };
        let response_url = own_url(self.alloc, &self.books.party(), number)?;
        command(self.alloc, response_url, prepared)
    }

    /// Adds a prepared order: its command is sent as the next request.
    fn add_order(
        &self,
        draft: &mut Draft,
        at: Moment,
        to: Party,
        prepared: &Prepared,
    ) -> Result<(), AllocError>
        requires numbered { draft.old.counters.request ≡ self.now.state.rows.outbox.last }
        requires numbers { HasNumbers 1 1 draft.old }
        ensures { OnOk result (draft.new ≡ with_acts (order_acts self.now.state.party at to prepared.now draft.old.counters.request) draft.old) }
    {
        draft.counters_in_range();
        add_before(draft, prepared)?;
        let command = self.next_command(prepared)?;
        draft.command(self.alloc, at, to, command)
    }

    /// The step of a prepared order.
    fn plan_prepared(&self, at: Moment, to: Party, prepared: &Prepared) -> Result<Plan, NodeFault>
        ensures ok { IfOk result (λ x. step_of x ≡ step_of_acts self.now.state (order_acts self.now.state.party at to prepared.now self.now.state.rows.outbox.last)) }
        ensures in_range { OnOk result (IsInRange (counted (counters_of self.now.state) (order_acts self.now.state.party at to prepared.now self.now.state.rows.outbox.last))) }
        ensures err { IfErr result (StopsBy (counted (counters_of self.now.state) (order_acts self.now.state.party at to prepared.now self.now.state.rows.outbox.last))) }
    {
        let mut draft = self.draft(Needs {
            packets: 1,
            requests: 1,
            changes: CHANGES_OF_AN_ORDER,
        })?;
        self.add_order(&mut draft, at, to, prepared)?;
        Ok(draft.into_plan())
    }

    /// What becomes of an order to an operator at a moment. Nothing changes. Refused as `submit` says.
    pub fn plan_order(&self, at: Moment, operator: &Party, order: &Order) -> Result<Plan, NodeFault>
        ensures step { IfOk result (λ x. PlannedBy (OrderLine self.now.state at operator.now order.now) self.now.state (step_of x)) }
        ensures follows { IfOk result (λ x. MayFollow self.now.state (step_of x)) }
        ensures fault { IfErr result (IsOrderFault self.now.state at operator.now order.now) }
    {
        self.books.consistency();
        facts::orders_may_follow();
        let Some(to) = find_peer(self.books.operators(), operator) else {
            return Err(NodeFault::UnknownOperator);
        };
        let prepared = self.prepare(order)?;
        // What a record is made of is known once a member of it is read.
        match &prepared {
            Prepared::Start(start) => {
                let _read = start.location_id;
            }
            Prepared::Reserve(reserve) => {
                let _read = reserve.location_id;
            }
            Prepared::Stop { .. } | Prepared::Cancel { .. } | Prepared::Unlock { .. } => {}
        }
        self.plan_prepared(at, *to, &prepared)
    }
}
