//! What providers answer about their tokens (OCPI 2.2.1, Tokens: Real-time authorization).

ghost use Rattle.std.specs.Prelude.{◌≡◌, IfOk, IfErr, IfSome, IfNone};
ghost use Rattle.ocpi_text.specs.Text.{key};
ghost use Rattle.ocpi_types.specs.declared.packet.Body.TheVariants as body;
ghost use Rattle.authorization_book.specs.declared.awaited.Awaited.{Awaited as AwaitedOf};
ghost use Rattle.node_steps.specs.Drafts.{step_of};
ghost use Rattle.node_steps.specs.Peers.{HasPeer};
ghost use Rattle.operator_rows.specs.FullSteps.{full_step_of};
ghost use Rattle.operator_steps.specs.Asking.{IsAwaited};
ghost use Rattle.operator_steps.specs.Faults.{IsDue};
ghost use Rattle.operator_steps.specs.Moves.{PlannedBy};
ghost use Rattle.operator_steps.specs.Steps.{Comes};
ghost use Rattle.operator_planning.specs.Answering.{ByAnswer};
ghost use Rattle.operator_planning.specs.Planned.{PlansActs, StopsLine};
ghost use Rattle.operator_planning.specs.Requests.{IsRequest};

use crate::planner::Planner;
use crate::plans::quiet;
use authorization_book::{Awaited, Waiting};
use node_steps::{NodeFault, Plan};
use ocpi_types::{Authorization, Packet};
use operator_rows::FullPlan;
use operator_tables::Request;
use session_tables::begins_by_answer;

impl Planner<'_> {
    /// What an answer is for: the authorization that is awaited of its sender under its number.
    fn awaited(&self, packet: &Packet) -> Option<&Awaited>
        ensures some { IfSome result (λ w. IsAwaited self.now.state packet.now w.now) }
        ensures none { IfNone result ((w : AwaitedOf) → IsAwaited self.now.state packet.now w → ⊥) }
    {
        let awaited = self.books.waits().get(packet.request)?;
        if !awaited.token.party.is_same(&packet.from) {
            return None;
        }
        Some(awaited)
    }

    /// The step of an answer to what is awaited, without the end of the waiting: a session begins by it where it
    /// allows one.
    fn plan_by_answer(
        &self,
        request: &Request,
        awaited: &Awaited,
        answer: &Authorization,
    ) -> Result<Plan, NodeFault>
        requires { HasPeer self.now.state.providers (key awaited.now.token.party) }
        ensures ok { IfOk result (λ x. PlansActs (ByAnswer self.now.state request.now.at awaited.now answer.now) self.now.state (step_of x)) }
        ensures err { IfErr result (StopsLine (ByAnswer self.now.state request.now.at awaited.now answer.now) self.now.state) }
    {
        self.counters_in_range();
        match begins_by_answer(self.books, awaited, answer) {
            None => Ok(Plan::nothing(self.alloc)),
            Some(beginning) => {
                let reference = beginning.authorization_reference;
                self.plan_begun(request.at, &[], reference, &beginning)
            }
        }
    }

    /// What becomes of an answer: it ends the waiting that it is for, and a session begins by it where it allows one;
    /// or it is idle.
    pub(crate) fn plan_answer(
        &self,
        request: &Request,
        packet: &Packet,
        answer: &Authorization,
    ) -> Result<FullPlan, NodeFault>
        requires request { IsRequest self.now.state request.now.at packet.now request.now }
        requires answer { packet.now.body ≡ body.Authorization answer.now }
        ensures step { IfOk result (λ x. PlannedBy (Comes self.now.state request.now.at packet.now) self.now.state (full_step_of x)) }
        ensures fault { IfErr result (IsDue self.now.state request.now.at packet.now) }
    {
        self.consistency();
        self.counters_in_range();
        let Some(awaited) = self.awaited(packet) else {
            return Ok(quiet(self.alloc, Plan::nothing(self.alloc)));
        };
        let plan = self.plan_by_answer(request, awaited, answer)?;
        let number = request.number;
        let waits = vec![in self.alloc; Waiting::Ends { number }]?;
        Ok(FullPlan { plan, waits })
    }
}
