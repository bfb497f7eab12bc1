//! What a packet makes a provider do. Nothing is changed here.

ghost use Rattle.std.specs.Prelude.{◌≡◌, ◌↔◌, ◌∷◌, [], ℕ, List, IsTrue, IfOk, IfErr, OnOk, IfSome, IfNone};
ghost use Rattle.std.specs.FinMap as map;
ghost use Rattle.ocpi_text.specs.Text.{key};
ghost use Rattle.ocpi_types.specs.declared.packet.Body.TheVariants as body;
ghost use Rattle.ocpi_types.specs.declared.stored.SentCommand.{SentCommand as SentCommandOf};
ghost use Rattle.node_steps.specs.Acts.{repeated};
ghost use Rattle.node_steps.specs.Drafts.{HasNumbers, IsInRange, StopsBy, counted, later, opened, step_of, with_acts};
ghost use Rattle.node_steps.specs.Peers.{IsPeer};
ghost use Rattle.provider_rows.specs.Steps.{MayFollow};
ghost use Rattle.provider_steps.specs.Faults.{IsPacketFault, MayStep};
ghost use Rattle.provider_steps.specs.Moves.{PlannedBy, counters_of, step_of_acts};
ghost use Rattle.provider_steps.specs.Packets.{Acknowledges, Comes, IsAwaited, IsForMe, IsRequest, IsTaken, PacketLine};
ghost use Rattle.provider_core.specs.Answering.{answer_acts, own_acts, result_acts};
ghost use Rattle.provider_core.specs.Planned.{IsLineFault};

mod answer_kinds;
mod bodies;
mod decisions;
mod replies;
mod sent_commands;

use crate::authorization_references::add_reference;
use crate::packets::answer_kinds::Answer;
use crate::packets::bodies::{add_taken, is_taken};
use crate::packets::replies::reply;
use crate::packets::sent_commands::{with_answer, with_result};
use crate::provider::Provider;
use node_steps::{Draft, Needs, NodeFault, Plan, find_peer};
use ocpi_text::{Moment, Party, Whole};
use ocpi_types::{
    Ack, Body, Boxed, Change, CommandResponse, CommandResultType, Packet, Reply, Row, RowKey,
    SentCommand,
};
use provider_steps::facts;
use std::alloc::AllocError;

/// The most rows that an answer changes, beside the counters of packets and requests: the reply, and what is taken.
const CHANGES_OF_AN_ANSWER: usize = 2;

impl Provider {
    /// The operator that sent a packet to this provider, as it spells it.
    fn peer(&self, packet: &Packet) -> Option<&Party>
        ensures to { IfSome result (λ p. key packet.now.to ≡ key self.now.state.party) }
        ensures found { IfSome result (λ p. IsPeer self.now.state.operators packet.now.from p.now) }
        ensures none { IfNone result (key packet.now.to ≡ key self.now.state.party → (p : List ℕ) → IsPeer self.now.state.operators packet.now.from p → ⊥) }
    {
        if !packet.to.is_same(&self.books.party()) {
            return None;
        }
        find_peer(self.books.operators(), &packet.from)
    }

    /// The operator that sent a packet which this provider takes, as it spells it.
    fn sender(&self, packet: &Packet) -> Option<&Party>
        ensures to { IfSome result (λ p. key packet.now.to ≡ key self.now.state.party) }
        ensures found { IfSome result (λ p. IsPeer self.now.state.operators packet.now.from p.now) }
        ensures taken { IfSome result (λ p. IsTaken packet.now.body) }
        ensures none { IfNone result (¬ IsForMe self.now.state packet.now) }
    {
        if !is_taken(&packet.body) {
            return None;
        }
        self.peer(packet)
    }

    /// No counter passed its last number, which the types of the counters keep.
    pub(crate) fn counters_in_range(&self)
        ensures { IsInRange (counters_of self.now.state) }
    {
        self.books.counters_in_range();
    }

    /// A draft of a step that takes so many numbers.
    pub(crate) fn draft(&self, needs: Needs) -> Result<Draft, NodeFault>
        ensures ok { IfOk result (λ d. d ≡ opened self.now.state.party (counters_of self.now.state) needs.packets needs.requests) }
        ensures in_range { OnOk result (IsInRange (later (counters_of self.now.state) needs.packets needs.requests)) }
        ensures err { IfErr result (StopsBy (later (counters_of self.now.state) needs.packets needs.requests)) }
    {
        let (serial, request) = (self.books.serial(), self.books.last_request());
        Draft::open(self.alloc, self.books.party(), serial, request, needs)
    }

    /// The step that sends a kept reply to a request again.
    fn plan_again(&self, packet: &Packet, to: Party, reply: &Reply) -> Result<Plan, NodeFault>
        ensures ok { IfOk result (λ x. step_of x ≡ step_of_acts self.now.state (repeated to packet.now.request reply.now ∷ [])) }
        ensures in_range { OnOk result (IsInRange (counted (counters_of self.now.state) (repeated to packet.now.request reply.now ∷ []))) }
        ensures err { IfErr result (StopsBy (counted (counters_of self.now.state) (repeated to packet.now.request reply.now ∷ []))) }
    {
        let mut draft = self.draft(Needs {
            packets: 1,
            requests: 0,
            changes: 0,
        })?;
        draft.repeat(to, packet.request, reply)?;
        Ok(draft.into_plan())
    }

    /// Adds that the command of a number ended so, where it stands.
    fn add_result(
        &self,
        draft: &mut Draft,
        number: Whole,
        outcome: CommandResultType,
    ) -> Result<(), AllocError>
        ensures { OnOk result (draft.new ≡ with_acts (result_acts number outcome (map.get self.now.state.rows.outbox.commands number)) draft.old) }
    {
        let Some(command) = self.books.outbox().command(number) else {
            return Ok(());
        };
        let command = with_result(self.alloc, command, outcome)?;
        draft.change(Change::Put(Row::Command { number, command }))
    }

    /// Adds what an answer does beside its reply.
    fn add_own(&self, draft: &mut Draft, body: &Body, answer: &Answer) -> Result<(), AllocError>
        ensures { OnOk result (draft.new ≡ with_acts (own_acts self.now.state.rows.outbox.commands body.now answer.now) draft.old) }
    {
        match answer {
            Answer::Refused | Answer::Kept | Answer::Unknown | Answer::Blocked { .. } => Ok(()),
            Answer::Taken => add_taken(draft, body),
            Answer::Resulted { number, outcome } => self.add_result(draft, *number, *outcome),
            Answer::Allowed { reference, .. } => add_reference(draft, reference),
        }
    }

    /// Adds an answer to a request: its reply is kept and sent, and what it does beside that is done.
    fn add_answer(
        &self,
        draft: &mut Draft,
        at: Moment,
        packet: &Packet,
        to: Party,
        answer: &Answer,
    ) -> Result<(), AllocError>
        requires { HasNumbers 1 0 draft.old }
        ensures { OnOk result (draft.new ≡ with_acts (answer_acts self.now.state.rows.outbox.commands at packet.now to answer.now) draft.old) }
    {
        let reply = reply(self.alloc, at, answer)?;
        draft.answer(packet.from.key(), to, packet.request, reply)?;
        self.add_own(draft, &packet.body, answer)
    }

    /// The step of an answer to a request.
    fn plan_answered(
        &self,
        at: Moment,
        packet: &Packet,
        to: Party,
        answer: &Answer,
    ) -> Result<Plan, NodeFault>
        ensures ok { IfOk result (λ x. step_of x ≡ step_of_acts self.now.state (answer_acts self.now.state.rows.outbox.commands at packet.now to answer.now)) }
        ensures in_range { OnOk result (IsInRange (counted (counters_of self.now.state) (answer_acts self.now.state.rows.outbox.commands at packet.now to answer.now))) }
        ensures err { IfErr result (StopsBy (counted (counters_of self.now.state) (answer_acts self.now.state.rows.outbox.commands at packet.now to answer.now))) }
    {
        let mut draft = self.draft(Needs {
            packets: 1,
            requests: 0,
            changes: CHANGES_OF_AN_ANSWER,
        })?;
        self.add_answer(&mut draft, at, packet, to, answer)?;
        Ok(draft.into_plan())
    }

    /// What becomes of a request of the operator that the provider spells `to`. One that was answered before gets the
    /// same reply again.
    fn plan_request(&self, at: Moment, packet: &Packet, to: Party) -> Result<Plan, NodeFault>
        requires { IsRequest packet.now.body }
        ensures step { IfOk result (λ x. PlannedBy (PacketLine self.now.state at packet.now to) self.now.state (step_of x)) }
        ensures fault { IfErr result (IsLineFault (PacketLine self.now.state at packet.now to) self.now.state) }
    {
        if let Some(reply) = self.books.reply(packet.from.key(), packet.request) {
            return self.plan_again(packet, to, reply);
        }
        let Some(answer) = self.answer(packet) else {
            return Err(NodeFault::NumbersUsedUp);
        };
        self.plan_answered(at, packet, to, &answer)
    }

    /// The command that a response is for: that of its number, where it was sent to the party that responds and has no
    /// answer yet.
    fn awaited(&self, packet: &Packet) -> Option<&Boxed<SentCommand>>
        ensures some { IfSome result (λ c. IsAwaited self.now.state packet.now c.now) }
        ensures none { IfNone result ((c : SentCommandOf) → ¬ IsAwaited self.now.state packet.now c) }
    {
        let command = self.books.outbox().command(packet.request)?;
        if !command.to.is_same(&packet.from) || command.answer.is_some() {
            return None;
        }
        Some(command)
    }

    /// What becomes of a response to a command: it is kept with the command that it is for, or is idle. An error is
    /// want of memory.
    fn plan_response(
        &self,
        at: Moment,
        packet: &Packet,
        to: Party,
        response: &CommandResponse,
    ) -> Result<Plan, AllocError>
        requires { packet.now.body ≡ body.CommandResponse response.now }
        ensures step { IfOk result (λ x. PlannedBy (PacketLine self.now.state at packet.now to) self.now.state (step_of x)) }
        ensures memory { MayStep (PacketLine self.now.state at packet.now to) self.now.state }
    {
        self.counters_in_range();
        let Some(command) = self.awaited(packet) else {
            return Ok(Plan::nothing(self.alloc));
        };
        let command = with_answer(self.alloc, command, response)?;
        Plan::one(
            self.alloc,
            Change::Put(Row::Command {
                number: packet.request,
                command,
            }),
        )
    }

    /// Whether an acknowledgement is for a push of this provider: it has status 1000, and comes from the addressee
    /// under the push's number.
    fn acknowledges(&self, packet: &Packet, ack: &Ack) -> bool
        ensures { IsTrue result ↔ Acknowledges self.now.state packet.now ack.now }
    {
        if ack.status_code.value().value() != 1000 {
            return false;
        }
        self.books.outbox().is_to(&packet.from, packet.request)
    }

    /// What becomes of an acknowledgement: it ends the push that it is for, or is idle. An error is want of memory.
    fn plan_ack(
        &self,
        at: Moment,
        packet: &Packet,
        to: Party,
        ack: &Ack,
    ) -> Result<Plan, AllocError>
        requires { packet.now.body ≡ body.Ack ack.now }
        ensures step { IfOk result (λ x. PlannedBy (PacketLine self.now.state at packet.now to) self.now.state (step_of x)) }
        ensures memory { MayStep (PacketLine self.now.state at packet.now to) self.now.state }
    {
        self.counters_in_range();
        if !self.acknowledges(packet, ack) {
            return Ok(Plan::nothing(self.alloc));
        }
        Plan::one(
            self.alloc,
            Change::Drop(RowKey::Push {
                number: packet.request,
            }),
        )
    }

    /// What becomes of a packet of the operator that the provider spells `to`.
    fn plan_line(&self, at: Moment, packet: &Packet, to: Party) -> Result<Plan, NodeFault>
        requires { IsTaken packet.now.body }
        ensures step { IfOk result (λ x. PlannedBy (PacketLine self.now.state at packet.now to) self.now.state (step_of x)) }
        ensures fault { IfErr result (IsLineFault (PacketLine self.now.state at packet.now to) self.now.state) }
    {
        match &packet.body {
            Body::CommandResponse(response) => Ok(self.plan_response(at, packet, to, response)?),
            Body::Ack(ack) => Ok(self.plan_ack(at, packet, to, ack)?),
            _ => self.plan_request(at, packet, to),
        }
    }

    /// What becomes of a packet at a moment. Nothing changes. Refused as `on_packet` says.
    pub fn plan_packet(&self, at: Moment, packet: &Packet) -> Result<Plan, NodeFault>
        ensures step { IfOk result (λ x. PlannedBy (Comes self.now.state at packet.now) self.now.state (step_of x)) }
        ensures follows { IfOk result (λ x. MayFollow self.now.state (step_of x)) }
        ensures fault { IfErr result (IsPacketFault self.now.state at packet.now) }
    {
        self.books.consistency();
        facts::packets_may_follow();
        let Some(to) = self.sender(packet) else {
            return Err(NodeFault::NotForMe);
        };
        self.plan_line(at, packet, *to)
    }
}
