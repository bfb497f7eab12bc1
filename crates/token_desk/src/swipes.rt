//! Tokens that drivers show (OCPI 2.2.1, Tokens: WhitelistType).

ghost use Rattle.std.specs.Prelude.{◌≡◌, IfSome, IfNone};
ghost use Rattle.token_desk.specs.Swipes.{IsShown, NoneShown, TokenLine, SwipeLine};

use crate::answers::Swipe;
use crate::desk::TokenDesk;
use ocpi_text::{CiKey, PartyKey};
use ocpi_types::{Token, TokenType, WhitelistType};

/// What follows from a token that is held.
fn line_of(token: &Token) -> Swipe
    ensures { TokenLine token.now result }
{
    match token.whitelist {
        WhitelistType::Always | WhitelistType::Allowed => {
            if token.valid {
                Swipe::Begin(*token)
            } else {
                Swipe::Nothing
            }
        }
        WhitelistType::AllowedOffline | WhitelistType::Never => Swipe::Ask(*token),
    }
}

impl TokenDesk {
    /// The token that is shown.
    fn shown(
        &self,
        provider: Option<PartyKey>,
        uid: CiKey<36>,
        token_type: TokenType,
    ) -> Option<Token>
        ensures found { IfSome result (λ t. IsShown self.now.rows.tokens provider token_type uid t) }
        ensures none { IfNone result (NoneShown self.now.rows.tokens provider token_type uid) }
    {
        match provider {
            Some(provider) => self.find(provider, uid, token_type),
            None => self.first(uid, token_type),
        }
    }

    /// What follows where a driver shows a token of a uid and a type. It is the token of the provider, where one is
    /// given, as by a reservation; else, of the tokens of that uid and type, that of the provider whose key is least.
    /// A session may begin where its whitelist is ALWAYS or ALLOWED and it is valid. Where its whitelist is
    /// ALLOWED_OFFLINE or NEVER its provider is to be asked, whether it is valid or not. Else, and where there is no
    /// such token, nothing follows. It changes nothing, and takes no memory.
    pub fn decide(&self, provider: Option<PartyKey>, uid: CiKey<36>, token_type: TokenType) -> Swipe
        ensures { SwipeLine self.now.rows.tokens provider token_type uid result }
    {
        match self.shown(provider, uid, token_type) {
            Some(token) => line_of(&token),
            None => Swipe::Nothing,
        }
    }
}
