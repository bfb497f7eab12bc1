//! Packets and what they carry.

ghost use Rattle.std.specs.Prelude.{◌≡◌, IfOk, OnErr};
ghost use Rattle.ocpi_types.specs.Kinds.{kind_of};
ghost use Rattle.ocpi_types.specs.Memory.{BodyOwnsMemory};

use crate::authorizations::{Authorization, Authorize};
use crate::boxed::Boxed;
use crate::cdrs::Cdr;
use crate::commands::Command;
use crate::replies::{Ack, CommandResponse, CommandResult};
use crate::sessions::Session;
use crate::token::Token;
use crate::words::PacketKind;
use ocpi_text::{Party, Whole};
use std::alloc::AllocError;

/// What a packet carries. What is large is on the heap, so that packets are small.
#[derive(PartialEq)]
pub enum Body {
    /// Of a provider. Each command has a kind of packet of its own.
    Command(Command),
    CommandResponse(CommandResponse),
    CommandResult(CommandResult),
    PutToken(Boxed<Token>),
    Authorize(Authorize),
    Authorization(Boxed<Authorization>),
    PutSession(Boxed<Session>),
    PostCdr(Boxed<Cdr>),
    Ack(Ack),
}

impl Drop for Body {
    fn drop(self) {
        match self {
            Body::Command(body) => drop(body),
            Body::CommandResponse(_) => {}
            Body::CommandResult(body) => drop(body),
            Body::PutToken(body) => drop(body),
            Body::Authorize(body) => drop(body),
            Body::Authorization(body) => drop(body),
            Body::PutSession(body) => drop(body),
            Body::PostCdr(body) => drop(body),
            Body::Ack(_) => {}
        }
    }
}

impl Body {
    /// Which of the thirteen kinds of packet carries it.
    pub fn kind(&self) -> PacketKind
        ensures { result ≡ kind_of self.now }
    {
        match self {
            Body::Command(command) => command.kind(),
            Body::CommandResponse(_) => PacketKind::CommandResponse,
            Body::CommandResult(_) => PacketKind::CommandResult,
            Body::PutToken(_) => PacketKind::PutToken,
            Body::Authorize(_) => PacketKind::Authorize,
            Body::Authorization(_) => PacketKind::Authorization,
            Body::PutSession(_) => PacketKind::PutSession,
            Body::PostCdr(_) => PacketKind::PostCdr,
            Body::Ack(_) => PacketKind::Ack,
        }
    }

    /// An equal body. Memory is wanted only where the body owns some.
    pub fn copy(&self) -> Result<Body, AllocError>
        ensures equal { IfOk result (λ t. t ≡ self.now) }
        ensures err { OnErr result (BodyOwnsMemory self.now) }
    {
        match self {
            Body::Command(body) => Ok(Body::Command(body.copy()?)),
            Body::CommandResponse(body) => Ok(Body::CommandResponse(*body)),
            Body::CommandResult(body) => Ok(Body::CommandResult(body.copy()?)),
            Body::PutToken(body) => Ok(Body::PutToken(body.copy()?)),
            Body::Authorize(body) => Ok(Body::Authorize(body.copy()?)),
            Body::Authorization(body) => Ok(Body::Authorization(body.copy()?)),
            Body::PutSession(body) => Ok(Body::PutSession(body.copy()?)),
            Body::PostCdr(body) => Ok(Body::PostCdr(body.copy()?)),
            Body::Ack(body) => Ok(Body::Ack(*body)),
        }
    }
}

/// A message of one node to another.
#[derive(PartialEq)]
pub struct Packet {
    pub from: Party,
    pub to: Party,
    /// The sender's number of this packet: each packet takes the next.
    pub serial: Whole,
    /// The number of the request, which a reply repeats.
    pub request: Whole,
    pub body: Body,
}

impl Drop for Packet {
    fn drop(self) {
        let Packet {
            from: _,
            to: _,
            serial: _,
            request: _,
            body,
        } = self;
        drop(body);
    }
}

impl Packet {
    /// An equal packet. Memory is wanted only where its body owns some.
    pub fn copy(&self) -> Result<Packet, AllocError>
        ensures equal { IfOk result (λ t. t ≡ self.now) }
        ensures err { OnErr result (BodyOwnsMemory self.now.body) }
    {
        Ok(Packet {
            from: self.from,
            to: self.to,
            serial: self.serial,
            request: self.request,
            body: self.body.copy()?,
        })
    }
}
