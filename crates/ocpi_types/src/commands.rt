//! What a provider asks of an operator (OCPI 2.2.1, Commands). The result of a command is posted to its `response_url`.

ghost use Rattle.std.specs.Prelude.{◌≡◌, IfOk};
ghost use Rattle.ocpi_types.specs.Commands.{reference_of, url_of};
ghost use Rattle.ocpi_types.specs.Kinds.{kind_of_command};

use crate::boxed::Boxed;
use crate::token::Token;
use crate::words::PacketKind;
use ocpi_text::{CiText, FreeText, Moment};
use std::alloc::AllocError;

/// A START_SESSION: a provider asks an operator to start a session for a token (OCPI 2.2.1, Commands: StartSession
/// object).
#[derive(PartialEq, Drop)]
pub struct StartSession {
    pub response_url: FreeText<255>,
    pub token: Token,
    pub location_id: CiText<36>,
    /// Where it is absent, the operator picks an EVSE of the location.
    pub evse_uid: Option<CiText<36>>,
    pub connector_id: Option<CiText<36>>,
    pub authorization_reference: Option<CiText<36>>,
}

impl StartSession {
    /// An equal command.
    pub fn copy(&self) -> Result<StartSession, AllocError>
        ensures { IfOk result (λ t. t ≡ self.now) }
    {
        Ok(StartSession {
            response_url: self.response_url.copy()?,
            token: self.token,
            location_id: self.location_id,
            evse_uid: self.evse_uid,
            connector_id: self.connector_id,
            authorization_reference: self.authorization_reference,
        })
    }
}

/// A STOP_SESSION: a provider asks an operator to end a session (OCPI 2.2.1, Commands: StopSession object).
#[derive(PartialEq, Drop)]
pub struct StopSession {
    pub response_url: FreeText<255>,
    pub session_id: CiText<36>,
}

impl StopSession {
    /// An equal command.
    pub fn copy(&self) -> Result<StopSession, AllocError>
        ensures { IfOk result (λ t. t ≡ self.now) }
    {
        Ok(StopSession {
            response_url: self.response_url.copy()?,
            session_id: self.session_id,
        })
    }
}

/// A RESERVE_NOW: a provider asks an operator to keep an EVSE for a token, or moves the reservation of that id
/// (OCPI 2.2.1, Commands: ReserveNow object).
#[derive(PartialEq, Drop)]
pub struct ReserveNow {
    pub response_url: FreeText<255>,
    pub token: Token,
    /// When the reservation ends.
    pub expiry_date: Moment,
    pub reservation_id: CiText<36>,
    pub location_id: CiText<36>,
    /// Where it is absent, the operator picks an EVSE of the location.
    pub evse_uid: Option<CiText<36>>,
}

impl ReserveNow {
    /// An equal command.
    pub fn copy(&self) -> Result<ReserveNow, AllocError>
        ensures { IfOk result (λ t. t ≡ self.now) }
    {
        Ok(ReserveNow {
            response_url: self.response_url.copy()?,
            token: self.token,
            expiry_date: self.expiry_date,
            reservation_id: self.reservation_id,
            location_id: self.location_id,
            evse_uid: self.evse_uid,
        })
    }
}

/// A CANCEL_RESERVATION: a provider asks an operator to end a reservation (OCPI 2.2.1, Commands: CancelReservation
/// object).
#[derive(PartialEq, Drop)]
pub struct CancelReservation {
    pub response_url: FreeText<255>,
    pub reservation_id: CiText<36>,
}

impl CancelReservation {
    /// An equal command.
    pub fn copy(&self) -> Result<CancelReservation, AllocError>
        ensures { IfOk result (λ t. t ≡ self.now) }
    {
        Ok(CancelReservation {
            response_url: self.response_url.copy()?,
            reservation_id: self.reservation_id,
        })
    }
}

/// An UNLOCK_CONNECTOR: a provider asks an operator to unlock a connector (OCPI 2.2.1, Commands: UnlockConnector
/// object).
#[derive(PartialEq, Drop)]
pub struct UnlockConnector {
    pub response_url: FreeText<255>,
    pub location_id: CiText<36>,
    pub evse_uid: CiText<36>,
    pub connector_id: CiText<36>,
}

impl UnlockConnector {
    /// An equal command.
    pub fn copy(&self) -> Result<UnlockConnector, AllocError>
        ensures { IfOk result (λ t. t ≡ self.now) }
    {
        Ok(UnlockConnector {
            response_url: self.response_url.copy()?,
            location_id: self.location_id,
            evse_uid: self.evse_uid,
            connector_id: self.connector_id,
        })
    }
}

/// A command of a provider (OCPI 2.2.1, Commands). What is large is on the heap.
#[derive(PartialEq)]
pub enum Command {
    StartSession(Boxed<StartSession>),
    StopSession(StopSession),
    ReserveNow(Boxed<ReserveNow>),
    CancelReservation(CancelReservation),
    UnlockConnector(UnlockConnector),
}

impl Drop for Command {
    fn drop(self) {
        match self {
            Command::StartSession(command) => drop(command),
            Command::StopSession(command) => drop(command),
            Command::ReserveNow(command) => drop(command),
            Command::CancelReservation(command) => drop(command),
            Command::UnlockConnector(command) => drop(command),
        }
    }
}

impl Command {
    /// The kind of the packet that carries it.
    pub fn kind(&self) -> PacketKind
        ensures { result ≡ kind_of_command self.now }
    {
        match self {
            Command::StartSession(_) => PacketKind::StartSession,
            Command::StopSession(_) => PacketKind::StopSession,
            Command::ReserveNow(_) => PacketKind::ReserveNow,
            Command::CancelReservation(_) => PacketKind::CancelReservation,
            Command::UnlockConnector(_) => PacketKind::UnlockConnector,
        }
    }

    /// To where its result is posted (OCPI 2.2.1, Commands: response_url).
    pub fn response_url(&self) -> &FreeText<255>
        ensures { result.now ≡ url_of self.now }
    {
        match self {
            Command::StartSession(command) => &command.response_url,
            Command::StopSession(command) => &command.response_url,
            Command::ReserveNow(command) => &command.response_url,
            Command::CancelReservation(command) => &command.response_url,
            Command::UnlockConnector(command) => &command.response_url,
        }
    }

    /// The authorization reference of a start. None, where it has none, or the command is another (OCPI 2.2.1,
    /// Commands: StartSession object, authorization_reference).
    pub fn authorization_reference(&self) -> Option<CiText<36>>
        ensures { result ≡ reference_of self.now }
    {
        match self {
            Command::StartSession(command) => command.authorization_reference,
            Command::StopSession(_)
            | Command::ReserveNow(_)
            | Command::CancelReservation(_)
            | Command::UnlockConnector(_) => None,
        }
    }

    /// An equal command.
    pub fn copy(&self) -> Result<Command, AllocError>
        ensures { IfOk result (λ t. t ≡ self.now) }
    {
        match self {
            Command::StartSession(command) => Ok(Command::StartSession(command.copy()?)),
            Command::StopSession(command) => Ok(Command::StopSession(command.copy()?)),
            Command::ReserveNow(command) => Ok(Command::ReserveNow(command.copy()?)),
            Command::CancelReservation(command) => Ok(Command::CancelReservation(command.copy()?)),
            Command::UnlockConnector(command) => Ok(Command::UnlockConnector(command.copy()?)),
        }
    }
}
