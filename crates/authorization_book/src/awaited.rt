//! An authorization that is awaited.

use ocpi_text::Moment;
use ocpi_types::{Place, Token};

/// An authorization that is awaited (OCPI 2.2.1, Tokens: Real-time authorization).
#[derive(Clone, Copy)]
pub struct Awaited {
    /// The token that was shown, as it was stored then.
    pub token: Token,
    /// The EVSE and the connector at which it was shown, as the site spells them.
    pub place: Place,
    /// The first tick at this moment or later ends the waiting.
    pub deadline: Moment,
}
