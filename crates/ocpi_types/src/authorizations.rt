//! Whether a token may be used, as an operator asks its provider (OCPI 2.2.1, Tokens: Real-time authorization).

ghost use Rattle.std.specs.Prelude.{◌≡◌, IfOk, OnErr};
ghost use Rattle.ocpi_types.specs.Memory.{AuthorizeOwnsMemory, ListOwnsMemory};

use crate::limits::RefusalCode;
use crate::lists::EvseUids;
use crate::token::Token;
use crate::words::{AllowedType, TokenType};
use ocpi_text::{CiText, Moment};
use std::alloc::AllocError;

/// Where a token is to be used (OCPI 2.2.1, Tokens: LocationReferences object).
#[derive(PartialEq, Drop)]
pub struct LocationReferences {
    pub location_id: CiText<36>,
    pub evse_uids: Option<EvseUids>,
}

impl LocationReferences {
    /// An equal place. Memory is wanted only where it lists EVSEs.
    pub fn copy(&self) -> Result<LocationReferences, AllocError>
        ensures equal { IfOk result (λ t. t ≡ self.now) }
        ensures err { OnErr result (ListOwnsMemory self.now.evse_uids) }
    {
        let evse_uids = match &self.evse_uids {
            Some(uids) => Some(uids.copy()?),
            None => None,
        };
        Ok(LocationReferences {
            location_id: self.location_id,
            evse_uids,
        })
    }
}

/// An operator's question whether a token may be used now.
#[derive(PartialEq, Drop)]
pub struct Authorize {
    pub token_uid: CiText<36>,
    /// The member `type`. Where it is absent, `RFID` is meant.
    pub token_type: Option<TokenType>,
    pub location: Option<LocationReferences>,
}

impl Authorize {
    /// An equal question. Memory is wanted only where it lists EVSEs.
    pub fn copy(&self) -> Result<Authorize, AllocError>
        ensures equal { IfOk result (λ t. t ≡ self.now) }
        ensures err { OnErr result (AuthorizeOwnsMemory self.now) }
    {
        let location = match &self.location {
            Some(location) => Some(location.copy()?),
            None => None,
        };
        Ok(Authorize {
            token_uid: self.token_uid,
            token_type: self.token_type,
            location,
        })
    }
}

/// What a provider says of a token (OCPI 2.2.1, Tokens: AuthorizationInfo object).
#[derive(Clone, Copy, PartialEq)]
pub struct AuthorizationInfo {
    pub allowed: AllowedType,
    pub token: Token,
    /// Names the authorization in the session that it leads to.
    pub authorization_reference: Option<CiText<36>>,
}

/// The reply to `Authorize` (OCPI 2.2.1, Transport and format: Response format).
#[derive(Clone, Copy, PartialEq)]
pub enum Authorization {
    /// Status 1000.
    Done {
        timestamp: Moment,
        info: AuthorizationInfo,
    },
    /// Another status, without data.
    Refused {
        timestamp: Moment,
        status_code: RefusalCode,
    },
}
