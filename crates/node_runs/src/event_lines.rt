//! What comes of a line behind the setup that is one event.

ghost use Rattle.std.specs.Prelude.{◌≡◌, ◌++◌, IfOk, List, Ok, OnOk, string_bytes, ℕ};
ghost use Rattle.stored_nodes.specs.Keepers.{keeper_of};
ghost use Rattle.node_lines.specs.NodeLines.{node_line_in};
ghost use Rattle.node_lines.specs.declared.node_line.NodeLine.TheVariants.{One};
ghost use Rattle.program_lines.specs.Writing.{packet_lines};
ghost use Rattle.ocpi_text.specs.Text.{key};
ghost use Rattle.line_runs.specs.declared.run.Turn.TheVariants.{Taken};
ghost use Rattle.node_runs.specs.Afters.{IsAnswered, IsFaultTold, IsToldAs, told};
ghost use Rattle.node_runs.specs.DoneLines.{skipped_line};
ghost use Rattle.node_runs.specs.LineAnswers.{applied_lines, step_line};

use crate::beginning::Running;
use crate::done_lines::{write_idle, write_refused, write_skipped, write_stepped};
use line_runs::Turn;
use node_store::{Keep, LineNumber, StoreFault};
use ocpi_types::{NodeEvent, Packet};
use program_lines::write_packets;
use std::alloc::{AllocError, Global};
use stored_nodes::{Applied, ApplyFault};

/// What became of the event of a line.
#[derive(Clone, Copy)]
pub enum Answered {
    /// It is told.
    Told(Turn),
    /// Memory ran out for telling it. It was carried out nevertheless, as far as it is the node's.
    Untold,
    /// Memory ran out for it, before the keeper was asked.
    Starved,
    /// The keeper did not take its changes.
    Declined(StoreFault),
}

/// Lets an event that was read happen at the node, where it is that node's, which commits its changes first, with the
/// number of the line, and then writes what comes of it. Where they are not committed nothing is written.
pub fn answer_event<K: Keep>(
    alloc: Global,
    running: &mut Running<K>,
    event: &NodeEvent,
    number: LineNumber,
    text: &mut String,
) -> Answered
    ensures { (line : List ℕ) → node_line_in line ≡ Ok (One event.now)
        → IsAnswered (keeper_of K.content K.is_honest K.refusals K.may_leave) running.old number line (string_bytes text.old) (string_bytes text.new) result running.new }
{
    if !event.node.is_same(&running.party) {
        return tell_elsewhere(number, text);
    }
    answer_own(alloc, running, event, number, text)
}

/// What is answered of an event for which that was written, or for which memory ran out.
fn told(written: Result<(), AllocError>, turn: Turn) -> Answered
    ensures { result ≡ told written turn }
{
    match written {
        Ok(()) => Answered::Told(turn),
        Err(_) => Answered::Untold,
    }
}

/// Writes that an event is another node's.
fn tell_elsewhere(number: LineNumber, text: &mut String) -> Answered
    ensures { IsToldAs Taken (skipped_line number None) (string_bytes text.old) (string_bytes text.new) result }
{
    told(
        write_skipped(number.value().value(), None, text),
        Turn::Taken,
    )
}

/// Lets an event of the node happen, as far as it does, and writes what comes of it.
fn answer_own<K: Keep>(
    alloc: Global,
    running: &mut Running<K>,
    event: &NodeEvent,
    number: LineNumber,
    text: &mut String,
) -> Answered
    requires { key event.now.node ≡ key running.old.party }
    ensures { (line : List ℕ) → node_line_in line ≡ Ok (One event.now)
        → IsAnswered (keeper_of K.content K.is_honest K.refusals K.may_leave) running.old number line (string_bytes text.old) (string_bytes text.new) result running.new }
{
    let applied = match running.node.apply(&event.kind, Some(number)) {
        Ok(applied) => applied,
        Err(fault) => return tell_fault(fault, number, text),
    };
    tell_applied(alloc, applied, number, text)
}

/// Writes why an event was not done, where the node refuses it.
fn tell_fault(fault: ApplyFault, number: LineNumber, text: &mut String) -> Answered
    ensures { IsFaultTold number fault (string_bytes text.old) (string_bytes text.new) result }
{
    match fault {
        ApplyFault::Store(fault) => Answered::Declined(fault),
        ApplyFault::Core(fault) => told(
            write_refused(number.value().value(), None, fault, text),
            Turn::Refused,
        ),
        ApplyFault::Memory => Answered::Starved,
    }
}

/// Writes what came of an event that was not refused.
fn tell_applied(alloc: Global, applied: Applied, number: LineNumber, text: &mut String) -> Answered
    ensures { IsToldAs Taken (applied_lines number None applied) (string_bytes text.old) (string_bytes text.new) result }
{
    told(
        write_applied(alloc, applied, number.value().value(), None, text),
        Turn::Taken,
    )
}

/// Writes the packets that a node sent for an event, and then that it did it, by whether rows were changed.
pub fn write_step(
    alloc: Global,
    packets: &[Packet],
    changed: bool,
    number: u64,
    place: Option<usize>,
    output: &mut String,
) -> Result<(), AllocError>
    ensures { OnOk result (string_bytes output.new ≡ string_bytes output.old ++ (packet_lines packets.now ++ step_line number place packets.now changed)) }
{
    write_packets(alloc, packets, output)?;
    if changed || !packets.is_empty() {
        write_stepped(number, place, packets.len(), output)
    } else {
        write_idle(number, place, output)
    }
}

/// Writes the packets of an event that was not refused, and what became of it.
pub fn write_applied(
    alloc: Global,
    applied: Applied,
    number: u64,
    place: Option<usize>,
    output: &mut String,
) -> Result<(), AllocError>
    ensures { OnOk result (string_bytes output.new ≡ string_bytes output.old ++ applied_lines number place applied) }
{
    match applied {
        Applied::Skipped => write_skipped(number, place, output),
        Applied::Stepped { packets, changed } => {
            write_step(alloc, packets.as_slice(), changed, number, place, output)
        }
    }
}
