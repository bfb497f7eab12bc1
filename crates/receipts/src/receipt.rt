//! What was entered for a caller.

ghost use Rattle.std.specs.Prelude.{◌≡◌, ◌↔◌, IsTrue};
ghost use Rattle.receipts.specs.Audits.{entry_of};

use histories::{Entry, Packets};
use ocpi_types::NodeEventKind;
use packet_equality::{is_equal_node_event_kind, is_equal_packets};

/// An event that was entered: its place in the history, and the packets that the node sent.
pub struct Receipt {
    /// From 0.
    pub place: usize,
    pub event: NodeEventKind,
    pub packets: Packets,
}

impl Drop for Receipt {
    fn drop(self) {
        let Receipt {
            place: _,
            event,
            packets,
        } = self;
        drop(event);
        drop(packets);
    }
}

impl Receipt {
    /// Whether an entry has its event and its packets, each equal in every field, as spelled.
    pub fn is_of(&self, entry: &Entry) -> bool
        ensures { IsTrue result ↔ (entry.now ≡ entry_of self.now) }
    {
        is_equal_node_event_kind(&self.event, &entry.event)
            && is_equal_packets(self.packets.as_slice(), entry.packets.as_slice())
    }
}
