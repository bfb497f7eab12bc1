//! Tokens (OCPI 2.2.1, Tokens: Token object).

use crate::words::{TokenType, WhitelistType};
use ocpi_text::{CiText, Moment, Party, ShortText};
use std::alloc::AllocError;

/// What a driver shows, by the contract with a provider.
#[derive(Clone, Copy, PartialEq)]
pub struct Token {
    /// The provider of the contract: `country_code` and `party_id`.
    pub party: Party,
    pub uid: CiText<36>,
    /// The member `type`.
    pub token_type: TokenType,
    pub contract_id: CiText<36>,
    pub issuer: ShortText<64, 256>,
    pub valid: bool,
    pub whitelist: WhitelistType,
    pub last_updated: Moment,
}

/// A token as sessions and charge detail records name it (OCPI 2.2.1, CDRs: CdrToken class).
#[derive(Clone, Copy, PartialEq)]
pub struct CdrToken {
    /// The provider of the contract: `country_code` and `party_id`.
    pub party: Party,
    pub uid: CiText<36>,
    /// The member `type`.
    pub token_type: TokenType,
    pub contract_id: CiText<36>,
}
