//! Reservations that stand, and what they are asked for with.

use ocpi_text::{CiKey, PartyKey};
use ocpi_types::{Reservation, TokenType};

/// A reservation that stands.
#[derive(Clone, Copy)]
pub struct Standing {
    /// The provider that made it.
    pub provider: PartyKey,
    pub id: CiKey<36>,
    pub reservation: Reservation,
}

/// A provider's token at a location. A reservation is for the token of its uid and type (OCPI 2.2.1, Commands:
/// StartSession and ReserveNow).
#[derive(Clone, Copy)]
pub struct TokenAt {
    pub provider: PartyKey,
    pub location_id: CiKey<36>,
    pub uid: CiKey<36>,
    pub token_type: TokenType,
}

/// What a request to cancel a reservation did (OCPI 2.2.1, Commands: CancelReservation).
#[derive(Clone, Copy)]
pub enum CancelOutcome {
    /// This reservation stood, and ended.
    Ended(Reservation),
    /// No reservation of that id stood.
    Unknown,
}
