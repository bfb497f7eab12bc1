//! Whether a token may be used, as an operator asks its provider (OCPI 2.2.1, Tokens: Real-time authorization).

ghost use Rattle.std.specs.Prelude.{◌≡◌, OnErr, IfOk, IfErr};
ghost use Rattle.token_desk.specs.Authorizing.{asked_type, AuthorizedLine, after_authorized, IsAuthorizeFault};

use crate::answers::Authorized;
use crate::desk::TokenDesk;
use crate::fault::TokenFault;
use ocpi_text::{CiKey, Party};
use ocpi_types::TokenType;

/// The type that is asked for.
fn asked_type(token_type: Option<TokenType>) -> TokenType
    ensures { result ≡ asked_type token_type }
{
    match token_type {
        Some(token_type) => token_type,
        None => TokenType::Rfid,
    }
}

impl TokenDesk {
    /// What a provider answers where an operator asks for a token of it of a uid and a type, RFID where none is given.
    /// It is refused (`UnknownToken`) where no such token is held. A valid one is allowed, with the next reference;
    /// this is refused (`NumbersUsedUp`) where no number is left. One that is not valid is blocked. It changes
    /// nothing, and takes no memory.
    pub fn judge_authorize(
        &self,
        party: &Party,
        uid: CiKey<36>,
        token_type: Option<TokenType>,
    ) -> Result<Authorized, TokenFault>
        ensures line { IfOk result (λ a. AuthorizedLine self.now.rows party.now token_type uid a) }
        ensures fault { IfErr result (λ e. IsAuthorizeFault self.now.rows party.now token_type uid e) }
    {
        let Some(token) = self.find(party.key(), uid, asked_type(token_type)) else {
            return Err(TokenFault::UnknownToken);
        };
        if !token.valid {
            return Ok(Authorized::Blocked { token });
        }
        match self.next_reference(party) {
            Some(reference) => Ok(Authorized::Allowed { token, reference }),
            None => Err(TokenFault::NumbersUsedUp),
        }
    }

    /// A provider answers where an operator asks for a token of it of a uid and a type, RFID where none is given. It
    /// is refused (`UnknownToken`) where no such token is held. A valid one is allowed, with a new reference; this is
    /// refused (`NumbersUsedUp`) where no number is left. One that is not valid is blocked. A refusal changes nothing.
    /// It takes no memory.
    pub fn authorize(
        &mut self,
        party: &Party,
        uid: CiKey<36>,
        token_type: Option<TokenType>,
    ) -> Result<Authorized, TokenFault>
        ensures line { IfOk result (λ a. AuthorizedLine self.old.rows party.now token_type uid a) }
        ensures rows { IfOk result (λ a. self.new ≡ record self.old { rows = after_authorized a self.old.rows }) }
        ensures fault { IfErr result (λ e. IsAuthorizeFault self.old.rows party.now token_type uid e) }
        ensures err { OnErr result (self.new ≡ self.old) }
    {
        match self.judge_authorize(party, uid, token_type)? {
            Authorized::Allowed { token, reference } => {
                self.set_references(reference.number);
                Ok(Authorized::Allowed { token, reference })
            }
            Authorized::Blocked { token } => Ok(Authorized::Blocked { token }),
        }
    }
}
