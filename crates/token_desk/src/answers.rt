//! What a token desk answers.

use ocpi_text::{CiText, Whole};
use ocpi_types::Token;

/// What became of a token that was sent.
#[derive(Clone, Copy)]
pub enum TokenPut {
    /// It stands from then on.
    Stored,
    /// The token that is held is as new, and stands.
    Kept,
}

/// What follows from a token that a driver shows at an EVSE.
#[derive(Clone, Copy)]
pub enum Swipe {
    /// A session may begin for this token.
    Begin(Token),
    /// The token's provider is to be asked.
    Ask(Token),
    Nothing,
}

/// An authorization reference that a provider gives, with its number.
#[derive(Clone, Copy)]
pub struct Reference {
    /// By the provider's counter of references, from 1.
    pub number: Whole,
    /// The member `authorization_reference`.
    pub text: CiText<36>,
}

/// What a provider answers about a token that it holds (OCPI 2.2.1, Tokens: AllowedType).
#[derive(Clone, Copy)]
pub enum Authorized {
    /// The token is valid, and a new reference is given with it.
    Allowed { token: Token, reference: Reference },
    /// The token is not valid.
    Blocked { token: Token },
}
