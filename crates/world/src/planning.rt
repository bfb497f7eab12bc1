//! What an event comes to at a node. Nothing is changed here.

ghost use Rattle.std.specs.Prelude.{◌≡◌, ◌≢◌, IfNone, IfOk, IfSome};
ghost use Rattle.node_core.specs.States.{state_of};
ghost use Rattle.ocpi_types.specs.declared.events.EventKind.TheVariants as kinds;
ghost use Rattle.world.specs.Seen.{places_seen};
ghost use Rattle.world.specs.State.{names_of};
ghost use Rattle.world.specs.Works.{Brings, BringsNothing, IsPlanned};

use crate::finding::delivered;
use crate::place::Place;
use crate::planned::{EventPlan, Outcome};
use node_core::{NodeInput, NodePlan};
use ocpi_text::{Party, PartyKey};
use ocpi_types::EventKind;
use std::alloc::AllocError;

/// What an event that is not refused by the storing brings to the node of that party. None, where the packet that it
/// would deliver was not sent, or not to that party.
#[tactic(auto, using(crate::proofs::Bringing::order_brought, crate::proofs::Bringing::token_brought, crate::proofs::Bringing::brings_service, crate::proofs::Bringing::brings_report, crate::proofs::Bringing::brings_credit, crate::proofs::Bringing::brings_packet, crate::proofs::Bringing::brings_tick, crate::proofs::Bringing::brings_restart))]
fn input_of<'w>(
    names: &[PartyKey],
    places: &'w [Place],
    party: &Party,
    kind: &'w EventKind,
) -> Option<NodeInput<'w>>
    requires { names.now ≡ names_of (places_seen places.now) }
    ensures some { IfSome result (λ i. Brings (places_seen places.now) party.now kind.now i) }
    ensures none { IfNone result (BringsNothing (places_seen places.now) party.now kind.now) }
{
    match kind {
        EventKind::Submit {
            at,
            operator,
            order,
        } => Some(NodeInput::Submit {
            at: *at,
            operator,
            order,
        }),
        EventKind::Token { at, token } => Some(NodeInput::Token { at: *at, token }),
        EventKind::Service {
            evse_uid,
            in_service,
        } => Some(NodeInput::Service {
            evse_uid: evse_uid.key(),
            in_service: *in_service,
        }),
        EventKind::Charger { at, event } => Some(NodeInput::Charger { at: *at, event }),
        EventKind::Credit { at, session_id } => Some(NodeInput::Credit {
            at: *at,
            session_id: session_id.key(),
        }),
        EventKind::Deliver { at, from, serial } => {
            let packet = delivered(names, places, party, from, *serial)?;
            Some(NodeInput::Arrives { at: *at, packet })
        }
        EventKind::Tick { at } => Some(NodeInput::Tick { at: *at }),
        EventKind::Restart => Some(NodeInput::Restart),
        EventKind::Refused => None,
    }
}

/// What an event comes to at a place, whose storing was not refused. An error is want of memory.
fn plan_taken(
    names: &[PartyKey],
    places: &[Place],
    place: &Place,
    kind: &EventKind,
) -> Result<EventPlan, AllocError>
    requires named { names.now ≡ names_of (places_seen places.now) }
    requires taken { kind.now ≢ kinds.Refused }
    ensures { IfOk result (λ x. IsPlanned (places_seen places.now) place.now.party (state_of place.now.node) kind.now x) }
{
    let Some(input) = input_of(names, places, &place.party, kind) else {
        return Ok(EventPlan::Idle(Outcome::Skipped));
    };
    let planned = place.node.plan(&input)?;
    match planned {
        NodePlan::Skipped => Ok(EventPlan::Idle(Outcome::Skipped)),
        NodePlan::Refused(fault) => Ok(EventPlan::Idle(Outcome::Refused(fault))),
        NodePlan::Acts(work) => Ok(EventPlan::Acts(work)),
    }
}

/// What an event comes to at a place. An error is want of memory.
pub(crate) fn plan(
    names: &[PartyKey],
    places: &[Place],
    place: &Place,
    kind: &EventKind,
) -> Result<EventPlan, AllocError>
    requires { names.now ≡ names_of (places_seen places.now) }
    ensures { IfOk result (λ x. IsPlanned (places_seen places.now) place.now.party (state_of place.now.node) kind.now x) }
{
    match kind {
        EventKind::Refused => Ok(EventPlan::Idle(Outcome::Stepped)),
        _ => plan_taken(names, places, place, kind),
    }
}
