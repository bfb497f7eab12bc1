//! What a packet makes an operator do. Nothing is changed here.

ghost use Rattle.std.specs.Prelude.{◌≡◌, ◌↔◌, None, IsTrue, IfOk, IfErr, OnOk, IfSome, IfNone, List, ℕ};
ghost use Rattle.std.specs.FinMap as map;
ghost use Rattle.ocpi_text.specs.Text.{key};
ghost use Rattle.ocpi_types.specs.declared.packet.Body.TheVariants as body;
ghost use Rattle.node_steps.specs.Drafts.{step_of};
ghost use Rattle.node_steps.specs.Peers.{IsPeer};
ghost use Rattle.operator_rows.specs.FullSteps.{full_step_of};
ghost use Rattle.operator_rows.specs.Steps.{MayFollowFull};
ghost use Rattle.operator_steps.specs.Faults.{IsDue, MayStep};
ghost use Rattle.operator_steps.specs.Moves.{AreInRange, PlannedBy, step_of_acts};
ghost use Rattle.operator_steps.specs.Steps.{Acknowledges, Comes, IsForMe, IsRequestBody, IsTaken};
ghost use Rattle.operator_planning.specs.Planned.{StopsActs, quiet_step};
ghost use Rattle.operator_planning.specs.Requests.{IsRequest, decided_by, repeated_by, result_count};

mod authorizations;
pub(crate) mod bodies;
pub(crate) mod command_acts;
mod command_responses;
mod tokens;

use crate::changes::CHANGES_OF_A_DECISION;
use crate::packets::bodies::is_taken;
use crate::packets::command_acts::add_decided;
use crate::planner::Planner;
use crate::plans::quiet;
use node_steps::{Needs, NodeFault, Plan, find_peer};
use ocpi_text::{Moment, Party};
use ocpi_types::{Ack, Body, Change, Command, CommandResultType, Packet, Reply, RowKey};
use operator_rows::FullPlan;
use operator_tables::{Decision, Request, decide};
use std::alloc::AllocError;

/// How many results there are: one, or none.
fn count(outcome: Option<CommandResultType>) -> usize
    ensures { result ≡ result_count outcome }
{
    match outcome {
        None => 0,
        Some(_result) => 1,
    }
}

impl Planner<'_> {
    /// The provider that sent a packet to this operator, as the site spells it.
    fn peer(&self, packet: &Packet) -> Option<&Party>
        ensures to { IfSome result (λ p. key packet.now.to ≡ key self.now.state.party) }
        ensures found { IfSome result (λ p. IsPeer self.now.state.providers packet.now.from p.now) }
        ensures none { IfNone result (key packet.now.to ≡ key self.now.state.party → (p : List ℕ) → IsPeer self.now.state.providers packet.now.from p → ⊥) }
    {
        if !packet.to.is_same(&self.books.party()) {
            return None;
        }
        find_peer(self.books.providers(), &packet.from)
    }

    /// The request that a packet to this operator makes.
    fn request(&self, at: Moment, packet: &Packet) -> Option<Request>
        ensures request { IfSome result (λ r. IsRequest self.now.state at packet.now r) }
        ensures taken { IfSome result (λ r. IsTaken packet.now.body) }
        ensures none { IfNone result (IsForMe self.now.state packet.now → ⊥) }
    {
        if !is_taken(&packet.body) {
            return None;
        }
        let peer = self.peer(packet)?;
        Some(Request {
            at,
            from: *peer,
            provider: packet.from.key(),
            number: packet.request,
        })
    }

    /// The step that sends a kept reply again.
    fn plan_again(&self, request: &Request, reply: &Reply) -> Result<Plan, NodeFault>
        ensures ok { IfOk result (λ x. step_of x ≡ step_of_acts self.now.state (repeated_by request.now reply.now)) }
        ensures in_range { OnOk result (AreInRange self.now.state (repeated_by request.now reply.now)) }
        ensures err { IfErr result (StopsActs self.now.state (repeated_by request.now reply.now)) }
    {
        let mut draft = self.draft(Needs {
            packets: 1,
            requests: 0,
            changes: 0,
        })?;
        draft.repeat(request.from, request.number, reply)?;
        Ok(draft.into_plan())
    }

    /// The step of a decision on a command.
    fn plan_decided(
        &self,
        request: &Request,
        command: &Command,
        decision: &Decision,
    ) -> Result<Plan, NodeFault>
        ensures ok { IfOk result (λ x. step_of x ≡ step_of_acts self.now.state (decided_by request.now self.now.state.rows.request command.now decision.now)) }
        ensures in_range { OnOk result (AreInRange self.now.state (decided_by request.now self.now.state.rows.request command.now decision.now)) }
        ensures err { IfErr result (StopsActs self.now.state (decided_by request.now self.now.state.rows.request command.now decision.now)) }
    {
        let results = count(decision.result());
        let mut draft = self.draft(Needs {
            packets: 1 + results,
            requests: results,
            changes: CHANGES_OF_A_DECISION,
        })?;
        add_decided(self.alloc, &mut draft, request, command, decision)?;
        Ok(draft.into_plan())
    }

    /// What becomes of a command that was not answered before.
    fn plan_command(
        &self,
        request: &Request,
        packet: &Packet,
        command: &Command,
    ) -> Result<Plan, NodeFault>
        requires request { IsRequest self.now.state request.now.at packet.now request.now }
        requires command { packet.now.body ≡ body.Command command.now }
        requires new { map.get self.now.state.rows.commands.replies (request.now.provider, request.now.number) ≡ None }
        ensures step { IfOk result (λ x. PlannedBy (Comes self.now.state request.now.at packet.now) self.now.state (quiet_step (step_of x))) }
        ensures fault { IfErr result (IsDue self.now.state request.now.at packet.now) }
    {
        let decision = decide(self.books, request, &packet.from, command);
        self.plan_decided(request, command, &decision)
    }

    /// What becomes of a command or a token. A request that was answered before gets the same reply again.
    fn plan_request(&self, request: &Request, packet: &Packet) -> Result<Plan, NodeFault>
        requires request { IsRequest self.now.state request.now.at packet.now request.now }
        requires body { IsRequestBody packet.now.body }
        ensures step { IfOk result (λ x. PlannedBy (Comes self.now.state request.now.at packet.now) self.now.state (quiet_step (step_of x))) }
        ensures fault { IfErr result (IsDue self.now.state request.now.at packet.now) }
    {
        if let Some(reply) = self.books.reply(request.provider, request.number) {
            return self.plan_again(request, reply);
        }
        match &packet.body {
            Body::Command(command) => self.plan_command(request, packet, command),
            Body::PutToken(token) => self.plan_put(request, token),
            _ => unreachable!(),
        }
    }

    /// Whether an acknowledgement is for a push of this operator: it has status 1000, and comes from the addressee
    /// under the push's number.
    fn acknowledges(&self, packet: &Packet, ack: &Ack) -> bool
        ensures { IsTrue result ↔ Acknowledges self.now.state packet.now ack.now }
    {
        if ack.status_code.value().value() != 1000 {
            return false;
        }
        self.books.outbox().is_to(&packet.from, packet.request)
    }

    /// What becomes of an acknowledgement: it ends the push that it is for, or is idle. An error is want of memory.
    fn plan_ack(&self, request: &Request, packet: &Packet, ack: &Ack) -> Result<Plan, AllocError>
        requires request { IsRequest self.now.state request.now.at packet.now request.now }
        requires ack { packet.now.body ≡ body.Ack ack.now }
        ensures step { IfOk result (λ x. PlannedBy (Comes self.now.state request.now.at packet.now) self.now.state (quiet_step (step_of x))) }
        ensures memory { MayStep (Comes self.now.state request.now.at packet.now) self.now.state }
    {
        self.counters_in_range();
        if !self.acknowledges(packet, ack) {
            return Ok(Plan::nothing(self.alloc));
        }
        Plan::one(
            self.alloc,
            Change::Drop(RowKey::Push {
                number: request.number,
            }),
        )
    }

    /// What becomes of a packet at a moment. Nothing changes. Refused as `on_packet` of `operator_core` says.
    pub fn plan_packet(&self, at: Moment, packet: &Packet) -> Result<FullPlan, NodeFault>
        ensures step { IfOk result (λ x. PlannedBy (Comes self.now.state at packet.now) self.now.state (full_step_of x)) }
        ensures follows { IfOk result (λ x. MayFollowFull self.now.state (full_step_of x)) }
        ensures fault { IfErr result (IsDue self.now.state at packet.now) }
    {
        self.consistency();
        let Some(request) = self.request(at, packet) else {
            return Err(NodeFault::NotForMe);
        };
        match &packet.body {
            Body::Ack(ack) => Ok(quiet(self.alloc, self.plan_ack(&request, packet, ack)?)),
            Body::Authorization(answer) => self.plan_answer(&request, packet, answer),
            _ => Ok(quiet(self.alloc, self.plan_request(&request, packet)?)),
        }
    }
}
