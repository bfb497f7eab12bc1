//! Whether events of a node are equal.

ghost use Rattle.std.specs.Prelude.{◌≡◌, ◌↔◌, IsTrue};

use ocpi_types::{NodeEvent, NodeEventKind};

/// Whether two events are of one kind, and equal in every field, as spelled. Of deliveries, so are the packets.
#[tactic(auto, using(crate::proofs::SameEvents::same_node_event_kinds))]
pub fn is_equal_node_event_kind(kind: &NodeEventKind, other: &NodeEventKind) -> bool
    ensures { IsTrue result ↔ (kind.now ≡ other.now) }
{
    kind == other
}

/// Whether two events are of one node, as spelled, and equal.
#[tactic(auto, using(crate::proofs::SameEvents::same_node_events))]
pub fn is_equal_node_event(event: &NodeEvent, other: &NodeEvent) -> bool
    ensures { IsTrue result ↔ (event.now ≡ other.now) }
{
    event == other
}
