//! A node, and all that it ever sent.

use node_core::Node;
use ocpi_text::Party;
use ocpi_types::{Boxed, Packet, Session};

/// The node of a party, all packets that it ever sent, and all versions of its sessions that it ever stored, oldest
/// first.
#[derive(Drop)]
pub(crate) struct Place {
    pub(crate) party: Party,
    pub(crate) node: Node,
    pub(crate) sent: Vec<Packet>,
    pub(crate) versions: Vec<Boxed<Session>>,
}
