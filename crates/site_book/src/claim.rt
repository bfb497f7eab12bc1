//! What an EVSE is claimed by, and why a call about a site is refused.

ghost use Rattle.std.specs.Prelude.{Some};

use ocpi_text::{CiKey, PartyKey, Whole};
use std::error::Error;
use std::fmt;

/// What an EVSE is claimed by. While it is claimed it serves nobody else.
#[derive(Clone, Copy)]
pub enum Claim {
    /// A start that was accepted and has no result yet (OCPI 2.2.1, Commands: StartSession).
    OpenStart {
        provider: PartyKey,
        /// The provider's number of the request.
        number: Whole,
    },
    /// A session that is pending or active (OCPI 2.2.1, Sessions: SessionStatus).
    Live {
        provider: PartyKey,
        session: CiKey<36>,
    },
    /// A reservation that stands (OCPI 2.2.1, Commands: ReserveNow).
    Reserved {
        provider: PartyKey,
        reservation: CiKey<36>,
    },
}

/// Why a call about a site was refused: the first of these that applies, in this order.
#[derive(Clone, Copy, Debug, PartialEq, Eq)]
pub enum SiteFault {
    /// The site has no location of that id.
    UnknownLocation,
    /// The site has no EVSE of that uid.
    UnknownEvse,
    /// The EVSE is claimed.
    Claimed,
    /// The EVSE is out of service.
    OutOfService,
}

impl fmt::Display for SiteFault {
    ghost use Rattle.site_book.specs.FaultText.{fault_text};

    ghost output = { λ f. Some (fault_text f) };

    fn fmt<W: fmt::Write>(&self, f: &mut fmt::Formatter<W>) -> fmt::Result {
        match self {
            SiteFault::UnknownLocation => f.write_str("1 UnknownLocation"),
            SiteFault::UnknownEvse => f.write_str("2 UnknownEvse"),
            SiteFault::Claimed => f.write_str("3 Claimed"),
            SiteFault::OutOfService => f.write_str("4 OutOfService"),
        }
    }
}

impl Error for SiteFault {}
