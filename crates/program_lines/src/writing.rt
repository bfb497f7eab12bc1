//! What the programs write: a line for each packet, and the line of a refusal.

ghost use Rattle.std.specs.Prelude.{◌≡◌, ◌++◌, IfSome, OnOk, string_bytes};
ghost use Rattle.program_lines.specs.Writing.{packet_lines, refusal_line};

use ocpi_json::write_packet;
use ocpi_types::Packet;
use std::alloc::{AllocError, Global};
use std::fmt::Display;

/// Adds a line for each packet.
pub fn write_packets(
    alloc: Global,
    packets: &[Packet],
    output: &mut String,
) -> Result<(), AllocError>
    ensures { OnOk result (string_bytes output.new ≡ string_bytes output.old ++ packet_lines packets.now) }
{
    for packet in packets {
        let text = write_packet(alloc, packet)?;
        output.push_str(text.as_str())?;
        output.push('\n')?;
    }
    Ok(())
}

/// Adds the line of a refusal.
pub fn refuse<F: Display + Drop>(output: &mut String, fault: F) -> Result<(), AllocError>
    ensures { OnOk result (IfSome (F.output fault) (λ text.
        string_bytes output.new ≡ string_bytes output.old ++ refusal_line text)) }
{
    writeln!(output, "refused {fault}")
}
