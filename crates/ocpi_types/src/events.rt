//! What happens at a node, as a run of several nodes is told of it: line by line, in the order in which it happens.

use crate::token::Token;
use crate::words::TokenType;
use ocpi_text::{CiText, Moment, Party, Quantity, Whole};

/// What a charge point reports to its operator, or a driver does there.
#[derive(Clone, Copy, PartialEq)]
pub enum ChargerEvent {
    /// A driver shows a token.
    Swipe {
        evse_uid: CiText<36>,
        connector_id: CiText<36>,
        token_uid: CiText<36>,
        token_type: TokenType,
    },
    /// The open command of that number of that provider is carried out.
    Accepts {
        provider: Party,
        number: Whole,
    },
    /// The open command of that number of that provider cannot be carried out.
    Refuses {
        provider: Party,
        number: Whole,
    },
    /// The open unlock of that number of that provider is carried out.
    Unlocked {
        provider: Party,
        number: Whole,
    },
    /// Energy begins to flow.
    Starts {
        evse_uid: CiText<36>,
    },
    /// A meter reading of the session, in kilowatt-hours.
    Meter {
        evse_uid: CiText<36>,
        kwh: Quantity,
    },
    /// The session ends.
    Stops {
        evse_uid: CiText<36>,
    },
    /// The EVSE fails.
    Fault {
        evse_uid: CiText<36>,
    },
}

/// What a provider orders of an operator: a command without what the provider adds itself, such as the stored token
/// (OCPI 2.2.1, Commands).
#[derive(Clone, Copy, PartialEq)]
pub enum Order {
    StartSession {
        token_uid: CiText<36>,
        token_type: TokenType,
        location_id: CiText<36>,
        evse_uid: Option<CiText<36>>,
        connector_id: Option<CiText<36>>,
    },
    StopSession {
        session_id: CiText<36>,
    },
    ReserveNow {
        token_uid: CiText<36>,
        token_type: TokenType,
        /// When the reservation ends.
        expiry_date: Moment,
        reservation_id: CiText<36>,
        location_id: CiText<36>,
        evse_uid: Option<CiText<36>>,
    },
    CancelReservation {
        reservation_id: CiText<36>,
    },
    UnlockConnector {
        location_id: CiText<36>,
        evse_uid: CiText<36>,
        connector_id: CiText<36>,
    },
}

/// What happens at a node.
#[derive(Clone, Copy)]
pub enum EventKind {
    /// A provider orders a command of an operator.
    Submit {
        at: Moment,
        operator: Party,
        order: Order,
    },
    /// A provider stores a token, new or changed.
    Token {
        at: Moment,
        token: Token,
    },
    /// An operator puts an EVSE in or out of service.
    Service {
        evse_uid: CiText<36>,
        in_service: bool,
    },
    /// An operator hears of a charge point.
    Charger {
        at: Moment,
        event: ChargerEvent,
    },
    /// An operator takes the bill of a session back.
    Credit {
        at: Moment,
        session_id: CiText<36>,
    },
    /// The packet of that serial that the party sent arrives.
    Deliver {
        at: Moment,
        from: Party,
        serial: Whole,
    },
    /// Time passes.
    Tick {
        at: Moment,
    },
    /// The node is made again from what it stored.
    Restart,
    /// An event whose storing was refused: it changes nothing and sends nothing.
    Refused,
}

/// What happens, and at which node, by its party. A node serves the events of its own role.
#[derive(Clone, Copy)]
pub struct Event {
    pub node: Party,
    pub kind: EventKind,
}
