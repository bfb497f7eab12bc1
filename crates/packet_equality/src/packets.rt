//! Whether packets are equal.

ghost use Rattle.std.specs.Prelude.{◌≡◌, ◌↔◌, IsTrue};

use ocpi_types::{Body, Packet};

/// Whether two bodies are of one kind, and equal in every field, as spelled.
#[tactic(auto, using(crate::proofs::SamePackets::same_bodies))]
pub fn is_equal_body(body: &Body, other: &Body) -> bool
    ensures { IsTrue result ↔ (body.now ≡ other.now) }
{
    body == other
}

/// Whether two packets are equal in every field, as spelled.
#[tactic(auto, using(crate::proofs::SamePackets::same_packets))]
pub fn is_equal_packet(packet: &Packet, other: &Packet) -> bool
    ensures { IsTrue result ↔ (packet.now ≡ other.now) }
{
    packet == other
}

/// Whether two lists have equal packets, as many and in the same order.
#[tactic(auto, using(crate::proofs::SamePackets::same_packet_lists))]
pub fn is_equal_packets(packets: &[Packet], others: &[Packet]) -> bool
    ensures { IsTrue result ↔ (packets.now ≡ others.now) }
{
    packets == others
}
