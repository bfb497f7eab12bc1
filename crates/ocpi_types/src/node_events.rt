//! What happens at one node, as whoever runs it alone is told of it.

ghost use Rattle.std.specs.Prelude.{◌≡◌, IfOk};

use crate::events::{ChargerEvent, Order};
use crate::packet::Packet;
use crate::token::Token;
use ocpi_text::{CiText, Moment, Party};
use std::alloc::AllocError;

/// What happens at a node: as [`EventKind`](crate::EventKind), but a delivery holds the packet that arrives.
#[derive(PartialEq)]
pub enum NodeEventKind {
    /// A provider orders a command of an operator.
    Submit {
        at: Moment,
        operator: Party,
        order: Order,
    },
    /// A provider stores a token, new or changed.
    Token {
        at: Moment,
        token: Token,
    },
    /// An operator puts an EVSE in or out of service.
    Service {
        evse_uid: CiText<36>,
        in_service: bool,
    },
    /// An operator hears of a charge point.
    Charger {
        at: Moment,
        event: ChargerEvent,
    },
    /// An operator takes the bill of a session back.
    Credit {
        at: Moment,
        session_id: CiText<36>,
    },
    /// A packet arrives.
    Deliver {
        at: Moment,
        packet: Packet,
    },
    /// Time passes.
    Tick {
        at: Moment,
    },
    /// The node starts again from what it stored.
    Restart,
    /// An event whose storing was refused: it changes nothing and sends nothing.
    Refused,
}

impl Drop for NodeEventKind {
    fn drop(self) {
        match self {
            NodeEventKind::Deliver { at: _, packet } => drop(packet),
            NodeEventKind::Submit {
                at: _,
                operator: _,
                order: _,
            } => {}
            NodeEventKind::Token { at: _, token: _ } => {}
            NodeEventKind::Service {
                evse_uid: _,
                in_service: _,
            } => {}
            NodeEventKind::Charger { at: _, event: _ } => {}
            NodeEventKind::Credit {
                at: _,
                session_id: _,
            } => {}
            NodeEventKind::Tick { at: _ } => {}
            NodeEventKind::Restart => {}
            NodeEventKind::Refused => {}
        }
    }
}

impl NodeEventKind {
    /// An equal one. Memory is wanted only where a packet's body owns some.
    pub fn copy(&self) -> Result<NodeEventKind, AllocError>
        ensures equal { IfOk result (λ t. t ≡ self.now) }
    {
        match self {
            NodeEventKind::Submit {
                at,
                operator,
                order,
            } => Ok(NodeEventKind::Submit {
                at: *at,
                operator: *operator,
                order: *order,
            }),
            NodeEventKind::Token { at, token } => Ok(NodeEventKind::Token {
                at: *at,
                token: *token,
            }),
            NodeEventKind::Service {
                evse_uid,
                in_service,
            } => Ok(NodeEventKind::Service {
                evse_uid: *evse_uid,
                in_service: *in_service,
            }),
            NodeEventKind::Charger { at, event } => Ok(NodeEventKind::Charger {
                at: *at,
                event: *event,
            }),
            NodeEventKind::Credit { at, session_id } => Ok(NodeEventKind::Credit {
                at: *at,
                session_id: *session_id,
            }),
            NodeEventKind::Deliver { at, packet } => Ok(NodeEventKind::Deliver {
                at: *at,
                packet: packet.copy()?,
            }),
            NodeEventKind::Tick { at } => Ok(NodeEventKind::Tick { at: *at }),
            NodeEventKind::Restart => Ok(NodeEventKind::Restart),
            NodeEventKind::Refused => Ok(NodeEventKind::Refused),
        }
    }
}

/// What happens, and at which node, by its party. A node serves the events of its own role.
#[derive(PartialEq, Drop)]
pub struct NodeEvent {
    pub node: Party,
    pub kind: NodeEventKind,
}

impl NodeEvent {
    /// An equal one. Memory is wanted only where a packet's body owns some.
    pub fn copy(&self) -> Result<NodeEvent, AllocError>
        ensures equal { IfOk result (λ t. t ≡ self.now) }
    {
        Ok(NodeEvent {
            node: self.node,
            kind: self.kind.copy()?,
        })
    }
}
