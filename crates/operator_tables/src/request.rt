//! Requests that came to this operator.

use ocpi_text::{Moment, Party, PartyKey, Whole};

/// The seconds within which a result follows.
pub const TIMEOUT: u64 = 30;

/// A request of a provider.
#[derive(Clone, Copy)]
pub struct Request {
    pub at: Moment,
    /// The provider, as the site spells it.
    pub from: Party,
    pub provider: PartyKey,
    /// The provider's number of the request.
    pub number: Whole,
}
