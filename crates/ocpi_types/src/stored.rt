//! What the rows of a node hold beside OCPI's records.

ghost use Rattle.std.specs.Prelude.{◌≡◌, IfOk, OnErr};
ghost use Rattle.ocpi_types.specs.Kinds.{kind_of};
ghost use Rattle.ocpi_types.specs.Memory.{ReplyOwnsMemory};
ghost use Rattle.ocpi_types.specs.Stored.{body_of_reply, body_of_push};

use crate::authorizations::Authorization;
use crate::boxed::Boxed;
use crate::cdrs::Cdr;
use crate::commands::Command;
use crate::packet::Body;
use crate::replies::{Ack, CommandResponse, CommandResult};
use crate::sessions::Session;
use crate::token::Token;
use crate::words::{CommandResultType, PacketKind};
use ocpi_text::{CiText, Moment, Party};
use std::alloc::AllocError;

/// What answers a request, and is kept so that the request has the same answer when it comes again. What is large is
/// on the heap, so that the replies to commands, which are the most, take little room.
#[derive(Drop)]
pub enum Reply {
    /// To a command (OCPI 2.2.1, Commands: CommandResponse).
    CommandResponse(CommandResponse),
    /// To the question whether a token may be used (OCPI 2.2.1, Tokens: AuthorizationInfo).
    Authorization(Boxed<Authorization>),
    /// To what is handed over: a result, a token, a session or a CDR.
    Ack(Ack),
}

impl Reply {
    /// The kind of the packet that carries it.
    pub fn kind(&self) -> PacketKind
        ensures { result ≡ kind_of (body_of_reply self.now) }
    {
        match self {
            Reply::CommandResponse(_) => PacketKind::CommandResponse,
            Reply::Authorization(_) => PacketKind::Authorization,
            Reply::Ack(_) => PacketKind::Ack,
        }
    }

    /// The body of the packet that carries it.
    pub fn into_body(self) -> Body
        ensures { result ≡ body_of_reply self }
    {
        match self {
            Reply::CommandResponse(reply) => Body::CommandResponse(reply),
            Reply::Authorization(reply) => Body::Authorization(reply),
            Reply::Ack(reply) => Body::Ack(reply),
        }
    }

    /// An equal reply. Memory is wanted only where the reply owns some.
    pub fn copy(&self) -> Result<Reply, AllocError>
        ensures equal { IfOk result (λ t. t ≡ self.now) }
        ensures err { OnErr result (ReplyOwnsMemory self.now) }
    {
        match self {
            Reply::CommandResponse(reply) => Ok(Reply::CommandResponse(*reply)),
            Reply::Authorization(reply) => reply.copy().map(Reply::Authorization),
            Reply::Ack(reply) => Ok(Reply::Ack(*reply)),
        }
    }
}

/// What a node sends again until it is acknowledged. What is large is on the heap, so that the results of commands,
/// which are the most, take little room.
#[derive(Drop)]
pub enum Push {
    /// Of an operator (OCPI 2.2.1, Commands: CommandResult).
    CommandResult(CommandResult),
    /// Of a provider (OCPI 2.2.1, Tokens: Token object).
    PutToken(Boxed<Token>),
    /// Of an operator (OCPI 2.2.1, Sessions: Session object).
    PutSession(Boxed<Session>),
    /// Of an operator (OCPI 2.2.1, CDRs: CDR object).
    PostCdr(Boxed<Cdr>),
}

impl Push {
    /// The kind of the packet that carries it.
    pub fn kind(&self) -> PacketKind
        ensures { result ≡ kind_of (body_of_push self.now) }
    {
        match self {
            Push::CommandResult(_) => PacketKind::CommandResult,
            Push::PutToken(_) => PacketKind::PutToken,
            Push::PutSession(_) => PacketKind::PutSession,
            Push::PostCdr(_) => PacketKind::PostCdr,
        }
    }

    /// The body of the packet that carries it.
    pub fn into_body(self) -> Body
        ensures { result ≡ body_of_push self }
    {
        match self {
            Push::CommandResult(push) => Body::CommandResult(push),
            Push::PutToken(push) => Body::PutToken(push),
            Push::PutSession(push) => Body::PutSession(push),
            Push::PostCdr(push) => Body::PostCdr(push),
        }
    }

    /// An equal push.
    pub fn copy(&self) -> Result<Push, AllocError>
        ensures { IfOk result (λ t. t ≡ self.now) }
    {
        match self {
            Push::CommandResult(push) => Ok(Push::CommandResult(push.copy()?)),
            Push::PutToken(push) => Ok(Push::PutToken(push.copy()?)),
            Push::PutSession(push) => Ok(Push::PutSession(push.copy()?)),
            Push::PostCdr(push) => Ok(Push::PostCdr(push.copy()?)),
        }
    }
}

/// A command that was accepted and has no result yet.
#[derive(Drop)]
pub struct OpenCommand {
    /// As it came.
    pub command: Command,
    /// The EVSE that a start took, as the site spells it.
    pub evse_uid: Option<CiText<36>>,
    /// The connector that a start took, as the site spells it.
    pub connector_id: Option<CiText<36>>,
    /// The first tick at this moment or later ends the command by a timeout.
    pub deadline: Moment,
}

impl OpenCommand {
    /// An equal open command.
    pub fn copy(&self) -> Result<OpenCommand, AllocError>
        ensures { IfOk result (λ t. t ≡ self.now) }
    {
        Ok(OpenCommand {
            command: self.command.copy()?,
            evse_uid: self.evse_uid,
            connector_id: self.connector_id,
            deadline: self.deadline,
        })
    }
}

/// A reservation of an EVSE for a token (OCPI 2.2.1, Commands: ReserveNow).
#[derive(Clone, Copy)]
pub struct Reservation {
    /// As the site spells it.
    pub evse_uid: CiText<36>,
    /// The first tick at this moment or later ends the reservation.
    pub expiry_date: Moment,
    /// As the site spells it.
    pub location_id: CiText<36>,
    pub token: Token,
}

/// A command that a provider has sent, with what came back. As long as neither came it is sent again.
#[derive(Drop)]
pub struct SentCommand {
    /// The operator.
    pub to: Party,
    pub command: Command,
    /// What the operator answered at once.
    pub answer: Option<CommandResponse>,
    pub result: Option<CommandResultType>,
}

impl SentCommand {
    /// An equal sent command.
    pub fn copy(&self) -> Result<SentCommand, AllocError>
        ensures { IfOk result (λ t. t ≡ self.now) }
    {
        Ok(SentCommand {
            to: self.to,
            command: self.command.copy()?,
            answer: self.answer,
            result: self.result,
        })
    }
}
