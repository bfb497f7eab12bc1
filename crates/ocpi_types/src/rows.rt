//! The rows that a node stores, and their changes.
//!
//! A row is stored under its kind and its key, with its values as a JSON text. Numbers stand in a key in decimal digits
//! without leading zeros, and texts (parties, references) in key form, `a` to `z` made `A` to `Z`, since OCPI compares
//! them without case; the parts of a key are joined by a stroke. A change is written with what it belongs to, or not at
//! all.

ghost use Rattle.std.specs.Prelude.{◌≡◌, IfOk, OnErr};
ghost use Rattle.ocpi_types.specs.Memory.{ReplyOwnsMemory, RowOwnsMemory, ChangeOwnsMemory};
ghost use Rattle.ocpi_types.specs.Rows.{counter_name, key_of};
ghost use Rattle.ocpi_types.specs.declared.rows.Row.TheVariants as row;

use crate::boxed::Boxed;
use crate::cdrs::Cdr;
use crate::sessions::Session;
use crate::stored::{OpenCommand, Push, Reply, Reservation, SentCommand};
use crate::token::Token;
use crate::words::{CommandResultType, TokenType};
use ocpi_text::{CiKey, CiText, Party, PartyKey, Whole};
use std::alloc::AllocError;

/// What a node numbers, each kind by a counter of its own.
#[derive(Clone, Copy)]
pub enum Counter {
    /// The packets that it sends.
    Serial,
    /// The requests that it makes.
    Request,
    /// The sessions that it opens.
    Session,
    /// The charge detail records that it writes.
    Cdr,
    /// The authorization references that it hands out.
    Reference,
}

impl Counter {
    /// The counter's name, the key of its row.
    pub fn name(self) -> &'static str
        ensures { result.now ≡ counter_name self }
    {
        match self {
            Counter::Serial => "serial",
            Counter::Request => "request",
            Counter::Session => "session",
            Counter::Cdr => "cdr",
            Counter::Reference => "reference",
        }
    }
}

/// The EVSE and the connector that a start took.
#[derive(Clone, Copy)]
pub struct Place {
    pub evse_uid: CiText<36>,
    pub connector_id: CiText<36>,
}

/// A row. What is large is on the heap, so that the changes of a step take little room.
#[derive(Drop)]
pub enum Row {
    /// Kind `count`, under the counter's name: the last number that was given. A counter that has given none has no
    /// row.
    Count {
        counter: Counter,
        last: Whole,
    },
    /// Kind `reply`, under `PARTY/NUMBER`: what was answered to the request of that number of that party, kept so that
    /// the request has the same answer when it comes again.
    Reply {
        sender: PartyKey,
        number: Whole,
        reply: Reply,
    },
    /// Kind `token`, under `PARTY/TYPE/UID`, which are the token's: a token that is known (OCPI 2.2.1, Tokens: Token
    /// object).
    Token {
        token: Boxed<Token>,
    },
    /// Kind `push`, under its number: a request that is sent again until its addressee acknowledges it.
    Push {
        number: Whole,
        to: Party,
        push: Push,
    },
    /// Kind `service`, under the EVSE's uid: the EVSE is out of service.
    Service {
        evse_uid: CiKey<36>,
    },
    /// Kind `spent`, under `PARTY/REFERENCE`: an authorization reference of that provider that a start has used, and
    /// that no other start may.
    Spent {
        provider: PartyKey,
        reference: CiKey<36>,
    },
    /// Kind `mark`, under `PARTY/RESERVATION`: requests of that provider about that reservation are stale where their
    /// number is below this one.
    Mark {
        provider: PartyKey,
        reservation_id: CiKey<36>,
        number: Whole,
    },
    /// Kind `reservation`, under `PARTY/RESERVATION`: an EVSE is held for a token of that provider (OCPI 2.2.1,
    /// Commands: ReserveNow).
    Reservation {
        provider: PartyKey,
        reservation_id: CiKey<36>,
        reservation: Boxed<Reservation>,
    },
    /// Kind `pending`, under `PARTY/NUMBER`: a command of that number of that provider that was accepted and has no
    /// result yet (OCPI 2.2.1, Commands).
    Pending {
        provider: PartyKey,
        number: Whole,
        open: Boxed<OpenCommand>,
    },
    /// Kind `result`, under `PARTY/NUMBER`: how the command of that number of that provider ended (OCPI 2.2.1,
    /// Commands: CommandResult).
    Result {
        provider: PartyKey,
        number: Whole,
        result: CommandResultType,
    },
    /// Kind `session`, under `PARTY/ID`, which are the session's: its newest version (OCPI 2.2.1, Sessions: Session
    /// object).
    Session {
        session: Boxed<Session>,
    },
    /// Kind `cdr`, under `PARTY/ID`, which are the charge detail record's (OCPI 2.2.1, CDRs: CDR object).
    Cdr {
        cdr: Boxed<Cdr>,
    },
    /// Kind `command`, under its number: a command that the provider has sent (OCPI 2.2.1, Commands).
    Command {
        number: Whole,
        command: Boxed<SentCommand>,
    },
}

impl Row {
    /// The kind and the key under which the row is stored.
    pub fn key(&self) -> RowKey
        ensures { result ≡ key_of self.now }
    {
        match self {
            Row::Count { counter, .. } => RowKey::Count { counter: *counter },
            Row::Reply { sender, number, .. } => RowKey::Reply {
                sender: *sender,
                number: *number,
            },
            Row::Token { token } => RowKey::Token {
                party: token.party.key(),
                token_type: token.token_type,
                uid: token.uid.key(),
            },
            Row::Push { number, .. } => RowKey::Push { number: *number },
            Row::Service { evse_uid } => RowKey::Service {
                evse_uid: *evse_uid,
            },
            Row::Spent {
                provider,
                reference,
            } => RowKey::Spent {
                provider: *provider,
                reference: *reference,
            },
            Row::Mark {
                provider,
                reservation_id,
                ..
            } => RowKey::Mark {
                provider: *provider,
                reservation_id: *reservation_id,
            },
            Row::Reservation {
                provider,
                reservation_id,
                ..
            } => RowKey::Reservation {
                provider: *provider,
                reservation_id: *reservation_id,
            },
            Row::Pending {
                provider,
                number,
                ..
            } => RowKey::Pending {
                provider: *provider,
                number: *number,
            },
            Row::Result {
                provider,
                number,
                ..
            } => RowKey::Result {
                provider: *provider,
                number: *number,
            },
            Row::Session { session } => RowKey::Session {
                operator: session.party.key(),
                id: session.id.key(),
            },
            Row::Cdr { cdr } => RowKey::Cdr {
                operator: cdr.party.key(),
                id: cdr.id.key(),
            },
            Row::Command { number, .. } => RowKey::Command { number: *number },
        }
    }

    /// An equal row. Memory is wanted only where the row owns some.
    pub fn copy(&self) -> Result<Row, AllocError>
        ensures equal { IfOk result (λ t. t ≡ self.now) }
        ensures err { OnErr result (RowOwnsMemory self.now) }
    {
        match self {
            Row::Count { counter, last } => Ok(Row::Count {
                counter: *counter,
                last: *last,
            }),
            Row::Reply {
                sender,
                number,
                reply,
            } => copy_reply(*sender, *number, reply),
            Row::Token { token } => copy_token(token),
            Row::Push { number, to, push } => copy_push(*number, *to, push),
            Row::Service { evse_uid } => Ok(Row::Service {
                evse_uid: *evse_uid,
            }),
            Row::Spent {
                provider,
                reference,
            } => Ok(Row::Spent {
                provider: *provider,
                reference: *reference,
            }),
            Row::Mark {
                provider,
                reservation_id,
                number,
            } => Ok(Row::Mark {
                provider: *provider,
                reservation_id: *reservation_id,
                number: *number,
            }),
            Row::Reservation {
                provider,
                reservation_id,
                reservation,
            } => copy_reservation(*provider, *reservation_id, reservation),
            Row::Pending {
                provider,
                number,
                open,
            } => copy_pending(*provider, *number, open),
            Row::Result {
                provider,
                number,
                result,
            } => Ok(Row::Result {
                provider: *provider,
                number: *number,
                result: *result,
            }),
            Row::Session { session } => copy_session(session),
            Row::Cdr { cdr } => copy_cdr(cdr),
            Row::Command { number, command } => copy_command(*number, command),
        }
    }
}

fn copy_reply(sender: PartyKey, number: Whole, reply: &Reply) -> Result<Row, AllocError>
    ensures equal { IfOk result (λ t. t ≡ row.Reply sender number reply.now) }
    ensures err { OnErr result (ReplyOwnsMemory reply.now) }
{
    let reply = reply.copy()?;
    Ok(Row::Reply {
        sender,
        number,
        reply,
    })
}

fn copy_push(number: Whole, to: Party, push: &Push) -> Result<Row, AllocError>
    ensures { IfOk result (λ t. t ≡ row.Push number to push.now) }
{
    let push = push.copy()?;
    Ok(Row::Push { number, to, push })
}

fn copy_pending(
    provider: PartyKey,
    number: Whole,
    command: &Boxed<OpenCommand>,
) -> Result<Row, AllocError>
    ensures { IfOk result (λ t. t ≡ row.Pending provider number command.now) }
{
    let open = command.copy()?;
    Ok(Row::Pending {
        provider,
        number,
        open,
    })
}

fn copy_token(token: &Boxed<Token>) -> Result<Row, AllocError>
    ensures { IfOk result (λ t. t ≡ row.Token token.now) }
{
    let token = token.copy()?;
    Ok(Row::Token { token })
}

fn copy_reservation(
    provider: PartyKey,
    reservation_id: CiKey<36>,
    reservation: &Boxed<Reservation>,
) -> Result<Row, AllocError>
    ensures { IfOk result (λ t. t ≡ row.Reservation provider reservation_id reservation.now) }
{
    let reservation = reservation.copy()?;
    Ok(Row::Reservation {
        provider,
        reservation_id,
        reservation,
    })
}

fn copy_session(session: &Boxed<Session>) -> Result<Row, AllocError>
    ensures { IfOk result (λ t. t ≡ row.Session session.now) }
{
    let session = session.copy()?;
    Ok(Row::Session { session })
}

fn copy_cdr(cdr: &Boxed<Cdr>) -> Result<Row, AllocError>
    ensures { IfOk result (λ t. t ≡ row.Cdr cdr.now) }
{
    let cdr = cdr.copy()?;
    Ok(Row::Cdr { cdr })
}

fn copy_command(number: Whole, command: &Boxed<SentCommand>) -> Result<Row, AllocError>
    ensures { IfOk result (λ t. t ≡ row.Command number command.now) }
{
    let command = command.copy()?;
    Ok(Row::Command { number, command })
}

/// The kind and the key of a row.
#[derive(Clone, Copy)]
pub enum RowKey {
    Count {
        counter: Counter,
    },
    Reply {
        sender: PartyKey,
        number: Whole,
    },
    Token {
        party: PartyKey,
        token_type: TokenType,
        uid: CiKey<36>,
    },
    Push {
        number: Whole,
    },
    Service {
        evse_uid: CiKey<36>,
    },
    Spent {
        provider: PartyKey,
        reference: CiKey<36>,
    },
    Mark {
        provider: PartyKey,
        reservation_id: CiKey<36>,
    },
    Reservation {
        provider: PartyKey,
        reservation_id: CiKey<36>,
    },
    Pending {
        provider: PartyKey,
        number: Whole,
    },
    Result {
        provider: PartyKey,
        number: Whole,
    },
    Session {
        operator: PartyKey,
        id: CiKey<36>,
    },
    Cdr {
        operator: PartyKey,
        id: CiKey<39>,
    },
    Command {
        number: Whole,
    },
}

/// A change of what is stored.
#[derive(Drop)]
pub enum Change {
    /// The row stands from then on, in place of the one with its kind and key if there is one.
    Put(Row),
    /// No row of that kind and key stands from then on.
    Drop(RowKey),
}

impl Change {
    /// An equal change. Memory is wanted only where its row owns some.
    pub fn copy(&self) -> Result<Change, AllocError>
        ensures equal { IfOk result (λ t. t ≡ self.now) }
        ensures err { OnErr result (ChangeOwnsMemory self.now) }
    {
        match self {
            Change::Put(row) => Ok(Change::Put(row.copy()?)),
            Change::Drop(key) => Ok(Change::Drop(*key)),
        }
    }
}
