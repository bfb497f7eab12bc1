//! To whom a token is pushed.

use ocpi_text::{Party, Whole};

/// A push of a token to an operator (OCPI 2.2.1, Tokens: Receiver interface, PUT).
#[derive(Clone, Copy)]
pub struct Pushing {
    /// The operator, as the provider spells it.
    pub to: Party,
    /// The number of the push of the token's older version to that operator, where one stands.
    pub replaced: Option<Whole>,
}
