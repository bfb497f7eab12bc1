//! The law of the lengths of packets' lines, and what it gives for those that are written.

ghost use Rattle.std.specs.Prelude.{◌≡◌, ◌≤◌, IfOk, Ok, string_bytes};
ghost use Rattle.ocpi_json.specs.Packets.{packet_in};
ghost use Rattle.packet_lengths.specs.Lengths.{PacketsHaveShortLines, listed};

use ocpi_json::write_packet;
use ocpi_types::Packet;
use std::alloc::{AllocError, Global};

/// The line of a packet has at most 40,000 bytes, and 2,000 more for each that it lists.
pub fn packets_have_short_lines()
    ensures { PacketsHaveShortLines }
{}

/// The line of a packet that lists at most 500 is read as that packet. It is what `write_packet` writes.
pub fn written_packets_are_read_again(alloc: Global, packet: &Packet) -> Result<String, AllocError>
    ensures { IfOk result (λ s. listed packet.now.body ≤ 500 → packet_in (string_bytes s) ≡ Ok packet.now) }
{
    packets_have_short_lines();
    write_packet(alloc, packet)
}
