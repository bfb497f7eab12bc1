//! What an order needs, looked up.

use ocpi_text::{CiText, Moment};
use ocpi_types::Token;
use token_desk::Reference;

/// The order of a start, with its token and its authorization reference.
#[derive(Clone, Copy)]
pub struct PreparedStart {
    pub token: Token,
    pub reference: Reference,
    pub location_id: CiText<36>,
    pub evse_uid: Option<CiText<36>>,
    pub connector_id: Option<CiText<36>>,
}

/// The order of a reservation, with its token.
#[derive(Clone, Copy)]
pub struct PreparedReserve {
    pub token: Token,
    pub expiry_date: Moment,
    pub reservation_id: CiText<36>,
    pub location_id: CiText<36>,
    pub evse_uid: Option<CiText<36>>,
}

/// An order with what the provider adds to it, but for where its result is posted.
#[derive(Clone, Copy)]
pub enum Prepared {
    Start(PreparedStart),
    Reserve(PreparedReserve),
    Stop {
        session_id: CiText<36>,
    },
    Cancel {
        reservation_id: CiText<36>,
    },
    Unlock {
        location_id: CiText<36>,
        evse_uid: CiText<36>,
        connector_id: CiText<36>,
    },
}
