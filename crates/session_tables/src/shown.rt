//! What follows from a token that a driver shows.

use crate::beginning::Beginning;
use ocpi_text::CiText;
use ocpi_types::{Place, Token};

/// What follows where a driver shows a token at a connector (OCPI 2.2.1, Tokens: WhitelistType).
#[derive(Clone, Copy)]
pub enum Shown {
    Nothing,
    Begins(Beginning),
    /// The token's provider is asked whether it may be used at this location, EVSE and connector, as the site spells
    /// them.
    Asks {
        token: Token,
        location_id: CiText<36>,
        place: Place,
    },
}
