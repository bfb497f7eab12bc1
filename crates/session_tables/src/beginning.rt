//! Sessions that begin.

ghost use Rattle.std.specs.Prelude.{◌≡◌};
ghost use Rattle.session_tables.specs.Beginnings.{begins, cdr_token_of, opening_of};
ghost use Rattle.session_tables.specs.Found.{location_of, evse_of, connector_of};

use crate::places::FoundConnector;
use ocpi_text::{CiKey, CiText, FreeText, Party, ShortText, Whole};
use ocpi_types::{AuthMethod, CdrToken, Opening, Place, Site, Token};
use session_book::session_id;

/// A session that begins (OCPI 2.2.1, Sessions: Session object).
#[derive(Clone, Copy)]
pub struct Beginning {
    pub token: CdrToken,
    pub auth_method: AuthMethod,
    pub authorization_reference: Option<CiText<36>>,
    /// The location, the EVSE and the connector, as the site spells them.
    pub location_id: CiText<36>,
    pub place: Place,
    /// The reservation of the token's provider that is used, and ends.
    pub reservation_id: Option<CiKey<36>>,
}

/// The token as sessions and charge detail records name it.
fn cdr_token(token: &Token) -> CdrToken
    ensures { result ≡ cdr_token_of token.now }
{
    CdrToken {
        party: token.party,
        uid: token.uid,
        token_type: token.token_type,
        contract_id: token.contract_id,
    }
}

/// What begins for a token at a connector of the site.
pub(crate) fn begins_at(
    token: &Token,
    auth_method: AuthMethod,
    authorization_reference: Option<CiText<36>>,
    at: &FoundConnector<'_>,
    reservation_id: Option<CiKey<36>>,
) -> Beginning
    ensures { result ≡ begins token.now auth_method authorization_reference (location_of at.now) (evse_of at.now) (connector_of at.now) reservation_id }
{
    Beginning {
        token: cdr_token(token),
        auth_method,
        authorization_reference,
        location_id: at.location.id,
        place: Place {
            evse_uid: at.evse.uid,
            connector_id: at.connector.id,
        },
        reservation_id,
    }
}

/// A currency without memory of its own: three characters take at most twelve bytes.
fn short_currency(currency: &FreeText<3>) -> ShortText<3, 12>
    ensures { result ≡ currency.now }
{
    let Ok(text) = ShortText::new(currency.as_str()) else {
        unreachable!()
    };
    text
}

/// What stays the same of the session of that number of an operator, from its first version to its last: its id is
/// made of the number, and its currency is the site's.
pub fn opening(party: Party, site: &Site, number: Whole, beginning: &Beginning) -> Opening
    ensures { result ≡ opening_of party site.now number beginning.now }
{
    Opening {
        party,
        id: session_id(&party, number),
        cdr_token: beginning.token,
        auth_method: beginning.auth_method,
        authorization_reference: beginning.authorization_reference,
        location_id: beginning.location_id,
        evse_uid: beginning.place.evse_uid,
        connector_id: beginning.place.connector_id,
        currency: short_currency(&site.currency),
    }
}
