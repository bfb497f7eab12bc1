//! What `play` writes of an event, or of a line that is none: with `--done` a line that says what became of it, by the
//! number of the line.

ghost use Rattle.std.specs.Prelude.{◌≡◌, ◌++◌, IfOk, None, OnOk, Some, string_bytes};
ghost use Rattle.node_programs.specs.Done.{fault_line, idle_line, malformed_line, refused_line, skipped_line, step_line, stepped_line};
ghost use Rattle.node_programs.specs.Play.{end_lines, event_lines, event_refusal, line_refusal, next_line, passed_lines, turn_of};
ghost use Rattle.world.specs.Seen.{told};
ghost use Rattle.program_lines.specs.Writing.{packet_lines};

use line_runs::Turn;
use node_steps::NodeFault;
use ocpi_json::JsonFault;
use ocpi_types::{Change, Field, Packet};
use program_lines::{refuse, write_packets};
use std::alloc::{AllocError, Global};
use world::Outcome;

/// The number of the next line, where lines are counted. No run reads so many that the last number is used twice.
pub(crate) fn next_line(line: Option<u64>) -> Option<u64>
    ensures { result ≡ next_line line }
{
    match line {
        None => None,
        Some(number) => Some(number.saturating_add(1)),
    }
}

/// Rows were changed, or packets sent: so many.
fn write_stepped(line: u64, packets: usize, output: &mut String) -> Result<(), AllocError>
    ensures { OnOk result (string_bytes output.new ≡ string_bytes output.old ++ stepped_line line packets) }
{
    writeln!(
        output,
        "{{\"done\":\"stepped\",\"line\":{line},\"packets\":{packets}}}"
    )
}

/// The node did the event, which changed no row and sent nothing.
fn write_idle(line: u64, output: &mut String) -> Result<(), AllocError>
    ensures { OnOk result (string_bytes output.new ≡ string_bytes output.old ++ idle_line line) }
{
    writeln!(output, "{{\"done\":\"idle\",\"line\":{line}}}")
}

/// The event is of no node.
fn write_skipped(line: u64, output: &mut String) -> Result<(), AllocError>
    ensures { OnOk result (string_bytes output.new ≡ string_bytes output.old ++ skipped_line line) }
{
    writeln!(output, "{{\"done\":\"skipped\",\"line\":{line}}}")
}

/// The line was refused as a text, because of a member.
fn write_malformed_member(
    line: u64,
    fault: JsonFault,
    field: Field,
    output: &mut String,
) -> Result<(), AllocError>
    ensures { OnOk result (string_bytes output.new ≡ string_bytes output.old ++ fault_line line fault (Some field)) }
{
    let member = field.name();
    let name = fault.name();
    let number = fault.number();
    writeln!(
        output,
        "{{\"done\":\"malformed\",\"field\":\"{}\",\"line\":{line},\"name\":\"{}\",\"number\":{}}}",
        member, name, number
    )
}

/// The line was refused as a text, because of no member.
fn write_malformed_line(line: u64, fault: JsonFault, output: &mut String) -> Result<(), AllocError>
    ensures { OnOk result (string_bytes output.new ≡ string_bytes output.old ++ fault_line line fault None) }
{
    let name = fault.name();
    let number = fault.number();
    writeln!(
        output,
        "{{\"done\":\"malformed\",\"line\":{line},\"name\":\"{}\",\"number\":{}}}",
        name, number
    )
}

/// The line was refused as a text.
fn write_malformed(line: u64, fault: JsonFault, output: &mut String) -> Result<(), AllocError>
    ensures { OnOk result (string_bytes output.new ≡ string_bytes output.old ++ malformed_line line fault) }
{
    match fault.field() {
        Some(field) => write_malformed_member(line, fault, field, output),
        None => write_malformed_line(line, fault, output),
    }
}

/// The node refused the event.
fn write_refused(line: u64, fault: NodeFault, output: &mut String) -> Result<(), AllocError>
    ensures { OnOk result (string_bytes output.new ≡ string_bytes output.old ++ refused_line line fault) }
{
    let name = fault.name();
    let number = fault.number();
    writeln!(
        output,
        "{{\"done\":\"refused\",\"line\":{line},\"name\":\"{}\",\"number\":{}}}",
        name, number
    )
}

/// Writes why a line is no event.
pub(crate) fn refuse_line(
    line: Option<u64>,
    fault: JsonFault,
    output: &mut String,
) -> Result<(), AllocError>
    ensures { OnOk result (string_bytes output.new ≡ string_bytes output.old ++ line_refusal line fault) }
{
    match line {
        None => refuse(output, fault),
        Some(number) => write_malformed(number, fault, output),
    }
}

/// Writes why an event was refused.
pub(crate) fn refuse_event(
    line: Option<u64>,
    fault: NodeFault,
    output: &mut String,
) -> Result<(), AllocError>
    ensures { OnOk result (string_bytes output.new ≡ string_bytes output.old ++ event_refusal line fault) }
{
    match line {
        None => refuse(output, fault),
        Some(number) => write_refused(number, fault, output),
    }
}

/// Writes that an event is of no node.
fn write_passed(line: Option<u64>, output: &mut String) -> Result<(), AllocError>
    ensures { OnOk result (string_bytes output.new ≡ string_bytes output.old ++ passed_lines line) }
{
    match line {
        None => output.push_str("skipped\n"),
        Some(number) => write_skipped(number, output),
    }
}

/// Says behind the packets of an event that its node did it.
fn end_step(
    line: Option<u64>,
    packets: &[Packet],
    changes: &[Change],
    output: &mut String,
) -> Result<(), AllocError>
    ensures { OnOk result (string_bytes output.new ≡ string_bytes output.old ++ end_lines line packets.now changes.now) }
{
    let Some(number) = line else {
        return Ok(());
    };
    if packets.is_empty() && changes.is_empty() {
        return write_idle(number, output);
    }
    write_stepped(number, packets.len(), output)
}

/// Writes the packets that the node sent for an event, and what is said behind them.
fn write_step(
    alloc: Global,
    line: Option<u64>,
    packets: &[Packet],
    changes: &[Change],
    output: &mut String,
) -> Result<(), AllocError>
    ensures { OnOk result (string_bytes output.new ≡ string_bytes output.old ++ (packet_lines packets.now ++ end_lines line packets.now changes.now)) }
{
    write_packets(alloc, packets, output)?;
    end_step(line, packets, changes, output)
}

/// Writes what came of an event: the packets that the node sent, that the event was of no node, or why it was refused.
pub(crate) fn write_outcome(
    alloc: Global,
    line: Option<u64>,
    outcome: Outcome,
    packets: &[Packet],
    changes: &[Change],
    output: &mut String,
) -> Result<Turn, AllocError>
    ensures { IfOk result (λ turn. (turn ≡ turn_of (told outcome packets.now changes.now))
        × (string_bytes output.new ≡ string_bytes output.old ++ event_lines line (told outcome packets.now changes.now))) }
{
    match outcome {
        Outcome::Stepped => {
            write_step(alloc, line, packets, changes, output)?;
            Ok(Turn::Taken)
        }
        Outcome::Skipped => {
            write_passed(line, output)?;
            Ok(Turn::Taken)
        }
        Outcome::Refused(fault) => {
            refuse_event(line, fault, output)?;
            Ok(Turn::Refused)
        }
    }
}
