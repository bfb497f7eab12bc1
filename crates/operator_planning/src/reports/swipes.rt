//! The tokens that drivers show (OCPI 2.2.1, Tokens: Real-time authorization).

ghost use Rattle.std.specs.Prelude.{◌≡◌, ◌⊎◌, ◌+◌, ◌∷◌, [], IfOk, IfErr};
ghost use Rattle.ocpi_text.specs.Text.{key};
ghost use Rattle.ocpi_types.specs.declared.packet.Body.TheVariants as body;
ghost use Rattle.authorization_book.specs.declared.waiting.Waiting.TheVariants.{Begins};
ghost use Rattle.node_steps.specs.Acts.{asked};
ghost use Rattle.node_steps.specs.Drafts.{HasNumbers, with_acts};
ghost use Rattle.node_steps.specs.Peers.{HasPeer};
ghost use Rattle.operator_rows.specs.FullSteps.{full_step_of};
ghost use Rattle.operator_steps.specs.Asking.{IsAsked, question};
ghost use Rattle.operator_steps.specs.Charger.{Shows, ShowsNone};
ghost use Rattle.operator_steps.specs.Moves.{PlannedBy};
ghost use Rattle.operator_planning.specs.Planned.{StopsWork};
ghost use Rattle.session_tables.specs.declared.shown.Shown.TheVariants.{Nothing};

use crate::planner::Planner;
use authorization_book::{Awaited, Waiting};
use node_steps::{Draft, Needs, NodeFault, find_peer};
use ocpi_text::{CiText, Moment, Party, Whole};
use ocpi_types::{Authorize, Body, ChargerEvent, EvseUids, LocationReferences, Place, Token};
use operator_rows::FullPlan;
use session_tables::{Shown, swiped};
use std::alloc::{AllocError, Global};

/// An authorization is awaited for ten seconds.
const WAIT_MILLIS: u64 = 10_000;

/// What the provider of a token is asked: whether it may be used at that EVSE. An error is want of memory.
fn question(
    alloc: Global,
    token: &Token,
    location_id: CiText<36>,
    place: &Place,
) -> Result<Authorize, AllocError>
    ensures { IfOk result (λ q. q ≡ question token.now location_id place.now) }
{
    let evse_uids = EvseUids::new(vec![in alloc; place.evse_uid]?);
    Ok(Authorize {
        token_uid: token.uid,
        token_type: Some(token.token_type),
        location: Some(LocationReferences {
            location_id,
            evse_uids: Some(evse_uids),
        }),
    })
}

/// That an authorization is awaited under a number. An error is want of memory.
fn begins(alloc: Global, number: Whole, awaited: Awaited) -> Result<Vec<Waiting>, AllocError>
    ensures { IfOk result (λ waits. waits.items ≡ Begins number awaited ∷ []) }
{
    Ok(vec![in alloc; Waiting::Begins { number, awaited }]?)
}

impl Planner<'_> {
    /// Adds that a party is asked, once, whether a token may be used at an EVSE. It answers the number of the request.
    fn add_asked(
        &self,
        draft: &mut Draft,
        to: Party,
        token: &Token,
        location_id: CiText<36>,
        place: &Place,
    ) -> Result<Whole, AllocError>
        requires { HasNumbers 1 1 draft.old }
        ensures { IfOk result (λ n. (n ≡ draft.old.counters.request + 1) × (draft.new ≡ with_acts (asked n to (body.Authorize (question token.now location_id place.now)) ∷ []) draft.old)) }
    {
        let question = question(self.alloc, token, location_id, place)?;
        draft.ask(to, Body::Authorize(question))
    }

    /// The step in which the provider of a token is asked, once, and its answer is awaited. Refused (`NumbersUsedUp`)
    /// where a counter would pass its last number, and else for want of memory (`Memory`).
    pub(crate) fn plan_asked(
        &self,
        at: Moment,
        token: &Token,
        location_id: CiText<36>,
        place: &Place,
    ) -> Result<FullPlan, NodeFault>
        requires { HasPeer self.now.state.providers (key token.now.party) }
        ensures ok { IfOk result (λ x. PlannedBy (IsAsked self.now.state at token.now location_id place.now) self.now.state (full_step_of x)) }
        ensures err { IfErr result (StopsWork (IsAsked self.now.state at token.now location_id place.now) self.now.state) }
    {
        let Some(to) = find_peer(self.books.providers(), &token.party) else {
            unreachable!()
        };
        let mut draft = self.draft(Needs {
            packets: 1,
            requests: 1,
            changes: 0,
        })?;
        let number = self.add_asked(&mut draft, *to, token, location_id, place)?;
        let awaited = Awaited {
            token: *token,
            place: *place,
            deadline: at.after(WAIT_MILLIS),
        };
        let waits = begins(self.alloc, number, awaited)?;
        Ok(FullPlan {
            plan: draft.into_plan(),
            waits,
        })
    }

    /// What a token comes to that a driver shows, where the report is that one was shown.
    pub(crate) fn shown_by(&self, report: &ChargerEvent) -> Shown
        ensures shows { (result ≡ Nothing) ⊎ Shows self.now.state report.now result }
        ensures none { result ≡ Nothing → ShowsNone self.now.state report.now }
    {
        self.consistency();
        match report {
            ChargerEvent::Swipe {
                evse_uid,
                connector_id,
                token_uid,
                token_type,
            } => swiped(self.books, evse_uid, connector_id, token_uid, *token_type),
            _ => Shown::Nothing,
        }
    }
}
