//! What a step is gathered in, act by act.

ghost use Rattle.std.specs.Prelude.{◌≡◌, ◌≤◌, ◌<◌, ◌++◌, ◌∷◌, ◌+◌, [], OnOk, IfOk, IfErr, SomeIff};
ghost use Rattle.ocpi_text.specs.Whole.{max_whole};
ghost use Rattle.node_steps.specs.Acts.{
  acknowledged,
  answered,
  asked,
  changed,
  command_resent,
  commanded,
  noted,
  pushed,
  repeated,
  resent,
  said,
  taken,
};
ghost use Rattle.node_steps.specs.Drafts.{
  HasNumbers,
  IsInRange,
  StopsBy,
  count_change,
  later,
  opened,
  step_of,
  with_acts,
};
ghost use Rattle.node_steps.specs.Peers.{spelled};

use crate::fault::NodeFault;
use crate::peers::spelling;
use crate::plan::{Plan, Volatile};
use ocpi_text::{Moment, Party, PartyKey, Whole};
use ocpi_types::{
    Body, Boxed, Change, Command, Counter, Packet, Push, Reply, Row, RowKey, SentCommand,
};
use outbox::Outgoing;
use std::alloc::{AllocError, Global};
use std::marker::Model;

/// The most rows of counters that a step changes: the serial and the number of requests.
const COUNTERS: usize = 2;

/// How many numbers a step takes, and how many changes of rows it will have at most.
#[derive(Clone, Copy)]
pub struct Needs {
    /// How many packets it sends.
    pub packets: usize,
    /// How many requests of its own it makes.
    pub requests: usize,
    /// How many rows its acts change at most, those of the counters left out. Room is taken for so many; where there
    /// are more, further room is taken as they come.
    pub changes: usize,
}

/// What a step is gathered in: its plan so far, the numbers that were given last with it, and the last of those that
/// were counted for it. The counted numbers are in range, so no act wants a number that is not there.
///
/// An act fails for want of memory alone. What is gathered then is not said, and nothing has changed: the draft is
/// given up.
#[derive(Drop)]
pub struct Draft {
    party: Party,
    plan: Plan,
    serial: Whole,
    request: Whole,
    most_serial: Whole,
    most_request: Whole,
}

impl Model for Draft {
    ghost use Rattle.std.specs.Prelude.{◌≤◌};
    ghost use Rattle.std.specs.FinMap as map;
    ghost use Rattle.std.specs.Coded.{codes};
    ghost use Rattle.node_steps.specs.Drafts.{Gathered, step_of};

    ghost Value = { Gathered };

    ghost coded = { Prim.hlevel (codes, map.code) };

    ghost view = { λ d. record {
      party = d.party;
      step = step_of d.plan;
      counters = record { serial = d.serial; request = d.request };
      most = record { serial = d.most_serial; request = d.most_request };
    } };

    ghost invariant = { λ d. (d.serial ≤ d.most_serial) × (d.request ≤ d.most_request) };
}

/// The number that so many more come to, where it is none beyond the last.
fn later(last: Whole, more: usize) -> Option<Whole>
    ensures { SomeIff result (last + more ≤ max_whole) (last + more) }
{
    let value = last.value();
    if more as u64 > Whole::MAX - value {
        return None;
    }
    Whole::new(value + more as u64)
}

/// The number after the last one, where numbers up to `most` were counted.
fn following(last: Whole, most: Whole) -> Whole
    requires { last < most }
    ensures { result ≡ last + 1 }
{
    let _most = most.value();
    last.next().unwrap_or(most)
}

/// Adds the row of a counter, where it gives a number.
fn push_count(
    changes: &mut Vec<Change>,
    counter: Counter,
    last: Whole,
    now: Whole,
) -> Result<(), AllocError>
    ensures { OnOk result (changes.new.items ≡ changes.old.items ++ count_change counter last now) }
{
    if last == now {
        return Ok(());
    }
    changes.push(Change::Put(Row::Count { counter, last: now }))?;
    Ok(())
}

impl Draft {
    /// Nothing is gathered yet but the rows of the counters, for so many packets and requests of a party; the last
    /// numbers that it gave are `serial`, of its packets, and `request`, of its own requests. The lists get their room
    /// at once. Refused where a counter would pass its last number (`NumbersUsedUp`), and else for want of memory
    /// (`Memory`) alone.
    pub fn open(
        alloc: Global,
        party: Party,
        serial: Whole,
        request: Whole,
        needs: Needs,
    ) -> Result<Draft, NodeFault>
        ensures ok { IfOk result (λ d. d ≡ opened party (record { serial = serial; request = request }) needs.packets needs.requests) }
        ensures in_range { OnOk result (IsInRange (later (record { serial = serial; request = request }) needs.packets needs.requests)) }
        ensures err { IfErr result (StopsBy (later (record { serial = serial; request = request }) needs.packets needs.requests)) }
    {
        let Some(most_serial) = later(serial, needs.packets) else {
            return Err(NodeFault::NumbersUsedUp);
        };
        let Some(most_request) = later(request, needs.requests) else {
            return Err(NodeFault::NumbersUsedUp);
        };
        let room = needs.changes.saturating_add(COUNTERS);
        let mut changes = Vec::with_capacity(alloc, room)?;
        push_count(&mut changes, Counter::Serial, serial, most_serial)?;
        push_count(&mut changes, Counter::Request, request, most_request)?;
        let packets = Vec::with_capacity(alloc, needs.packets)?;
        let volatile = Vec::with_capacity(alloc, needs.packets)?;
        Ok(Draft {
            party,
            plan: Plan {
                changes,
                packets,
                volatile,
            },
            serial,
            request,
            most_serial,
            most_request,
        })
    }

    /// What the type keeps: the last numbers are within those that were counted, and these within the last that there
    /// are.
    pub fn counters_in_range(&self)
        ensures counted { HasNumbers 0 0 self.now }
        ensures counters { IsInRange self.now.counters }
        ensures most { IsInRange self.now.most }
    {
        let _serial = self.most_serial.value();
        let _request = self.most_request.value();
    }

    /// The party whose step it is.
    pub fn party(&self) -> Party
        ensures { result ≡ self.now.party }
    {
        self.party
    }

    /// What was gathered.
    pub fn into_plan(self) -> Plan
        ensures { step_of result ≡ self.step }
    {
        self.plan
    }

    /// Adds a change of a row, of which nobody is told.
    pub fn change(&mut self, change: Change) -> Result<(), AllocError>
        ensures { OnOk result (self.new ≡ with_acts (changed change ∷ []) self.old) }
    {
        self.plan.changes.push(change)?;
        Ok(())
    }

    /// Adds a packet under the next serial.
    fn send(&mut self, to: Party, request: Whole, body: Body) -> Result<(), AllocError>
        requires { HasNumbers 1 0 self.old }
        ensures { OnOk result (self.new ≡ with_acts (said (record { to = to; request = request; body = body }) ∷ []) self.old) }
    {
        let serial = following(self.serial, self.most_serial);
        let from = self.party;
        self.plan.packets.push(Packet {
            from,
            to,
            serial,
            request,
            body,
        })?;
        self.serial = serial;
        Ok(())
    }

    /// Takes the number of the next request.
    fn take_request(&mut self) -> Whole
        requires { HasNumbers 0 1 self.old }
        ensures number { result ≡ self.old.counters.request + 1 }
        ensures counted { self.new ≡ with_acts (taken ∷ []) self.old }
    {
        let number = following(self.request, self.most_request);
        self.request = number;
        number
    }

    /// Notes that the request of a number is sent at a moment.
    fn note(&mut self, at: Moment, number: Whole) -> Result<(), AllocError>
        ensures { OnOk result (self.new ≡ with_acts (noted at number ∷ []) self.old) }
    {
        self.plan.volatile.push(Volatile::Sent { number, at })?;
        Ok(())
    }

    /// Adds the answer to the request of a number of `to`, the party of the key `sender`: it is kept, and sent.
    pub fn answer(
        &mut self,
        sender: PartyKey,
        to: Party,
        number: Whole,
        reply: Reply,
    ) -> Result<(), AllocError>
        requires { HasNumbers 1 0 self.old }
        ensures { OnOk result (self.new ≡ with_acts (answered sender to number reply ∷ []) self.old) }
    {
        let body = reply.copy()?.into_body();
        self.send(to, number, body)?;
        let row = Row::Reply {
            sender,
            number,
            reply,
        };
        self.change(Change::Put(row))
    }

    /// Adds that the reply which is kept for the request of a number is sent again.
    pub fn repeat(&mut self, to: Party, number: Whole, reply: &Reply) -> Result<(), AllocError>
        requires { HasNumbers 1 0 self.old }
        ensures { OnOk result (self.new ≡ with_acts (repeated to number reply.now ∷ []) self.old) }
    {
        let body = reply.copy()?.into_body();
        self.send(to, number, body)
    }

    /// Adds a push, under the number of the next request: it is kept until it is acknowledged, and sent at a moment.
    pub fn push(&mut self, at: Moment, to: Party, push: Push) -> Result<(), AllocError>
        requires { HasNumbers 1 1 self.old }
        ensures { OnOk result (self.new ≡ with_acts (pushed at (self.old.counters.request + 1) to push ∷ []) self.old) }
    {
        let body = push.copy()?.into_body();
        let number = self.take_request();
        self.send(to, number, body)?;
        self.change(Change::Put(Row::Push { number, to, push }))?;
        self.note(at, number)
    }

    /// Adds that the push of a number is sent again at a moment, to its party as these peers spell it.
    pub fn resend(
        &mut self,
        peers: &[Party],
        at: Moment,
        number: Whole,
        outgoing: &Outgoing,
    ) -> Result<(), AllocError>
        requires { HasNumbers 1 0 self.old }
        ensures { OnOk result (self.new ≡ with_acts (resent at number (spelled peers.now outgoing.now.to) outgoing.now.push ∷ []) self.old) }
    {
        let body = outgoing.push.copy()?.into_body();
        self.send(spelling(peers, outgoing.to), number, body)?;
        self.note(at, number)
    }

    /// Adds a command, under the number of the next request: it is kept, and sent at a moment.
    pub fn command(
        &mut self,
        alloc: Global,
        at: Moment,
        to: Party,
        command: Command,
    ) -> Result<(), AllocError>
        requires { HasNumbers 1 1 self.old }
        ensures { OnOk result (self.new ≡ with_acts (commanded at (self.old.counters.request + 1) to command ∷ []) self.old) }
    {
        let body = Body::Command(command.copy()?);
        let sent = SentCommand {
            to,
            command,
            answer: None,
            result: None,
        };
        let command = Boxed::new(alloc, sent)?;
        let number = self.take_request();
        self.send(to, number, body)?;
        self.change(Change::Put(Row::Command { number, command }))?;
        self.note(at, number)
    }

    /// Adds that the command of a number is sent again at a moment, to its party as these peers spell it.
    pub fn resend_command(
        &mut self,
        peers: &[Party],
        at: Moment,
        number: Whole,
        command: &SentCommand,
    ) -> Result<(), AllocError>
        requires { HasNumbers 1 0 self.old }
        ensures { OnOk result (self.new ≡ with_acts (command_resent at number (spelled peers.now command.now.to) command.now.command ∷ []) self.old) }
    {
        let body = Body::Command(command.command.copy()?);
        self.send(spelling(peers, command.to), number, body)?;
        self.note(at, number)
    }

    /// Adds a request of the node's own, under the next number, which is sent once and kept in no row. It answers the
    /// number.
    pub fn ask(&mut self, to: Party, body: Body) -> Result<Whole, AllocError>
        requires { HasNumbers 1 1 self.old }
        ensures { IfOk result (λ n. (n ≡ self.old.counters.request + 1) × (self.new ≡ with_acts (asked n to body ∷ []) self.old)) }
    {
        let number = self.take_request();
        self.send(to, number, body)?;
        Ok(number)
    }

    /// Adds that the push of a number is acknowledged, and sent no more.
    pub fn acknowledge(&mut self, number: Whole) -> Result<(), AllocError>
        ensures { OnOk result (self.new ≡ with_acts (acknowledged number ∷ []) self.old) }
    {
        self.change(Change::Drop(RowKey::Push { number }))
    }
}
