//! What may reach a node.

use ocpi_text::{CiKey, Moment, Party};
use ocpi_types::{ChargerEvent, Order, Packet, Token};

/// What may reach a node. An order and a token are for a provider, an EVSE's service, a charge point's report and a
/// credit for an operator, and the others for both.
#[derive(Clone, Copy)]
pub enum NodeInput<'a> {
    /// A provider orders a command of an operator.
    Submit {
        at: Moment,
        operator: &'a Party,
        order: &'a Order,
    },
    /// A provider stores a token, new or changed.
    Token {
        at: Moment,
        token: &'a Token,
    },
    /// An operator puts an EVSE in or out of service.
    Service {
        evse_uid: CiKey<36>,
        in_service: bool,
    },
    /// An operator hears of a charge point.
    Charger {
        at: Moment,
        event: &'a ChargerEvent,
    },
    /// An operator takes the bill of a session back.
    Credit {
        at: Moment,
        session_id: CiKey<36>,
    },
    /// A packet arrives.
    Arrives {
        at: Moment,
        packet: &'a Packet,
    },
    /// Time passes.
    Tick {
        at: Moment,
    },
    /// The node starts again from what it stored.
    Restart,
}
