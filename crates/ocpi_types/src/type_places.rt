//! The order of token types.

ghost use Rattle.std.specs.Prelude.{◌≡◌};
ghost use Rattle.ocpi_types.specs.TypePlaces.{type_place};

use crate::words::TokenType;

/// The place of a token type's word among the words of all types, in the order of their bytes.
pub fn type_place(token_type: TokenType) -> u64
    ensures { result ≡ type_place token_type }
{
    match token_type {
        TokenType::AdHocUser => 0,
        TokenType::AppUser => 1,
        TokenType::Other => 2,
        TokenType::Rfid => 3,
    }
}
