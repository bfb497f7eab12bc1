//! Event lines of a run of all nodes, written.

ghost use Rattle.std.specs.Prelude.{◌≡◌, ◌≤◌, length, IfOk, Ok, OnOk, string_bytes};
ghost use Rattle.json_text.specs.Line.{max_line};
ghost use Rattle.json_text.specs.Members.{said};
ghost use Rattle.ocpi_json.specs.EventForms.{event_in};
ghost use Rattle.ocpi_types.specs.declared.events.EventKind.TheVariants.{Deliver, Restart};
ghost use Rattle.transcript_lines.specs.EventLines.{DeliveryFits, PartyFits, delivery_members, delivery_text, restart_members, restart_text};

use json_text::RecordWriter;
use ocpi_text::{Moment, Party, Whole};
use ocpi_types::Field;
use std::alloc::{AllocError, Global};

/// Writes the members of a delivery. It fails for want of memory alone.
#[tactic(auto, unfolding(crate::specs::EventLines::delivery_members))]
fn write_delivery(
    at: Moment,
    from: &Party,
    node: &Party,
    serial: Whole,
    out: &mut RecordWriter,
) -> Result<(), AllocError>
    ensures tokens { OnOk result (out.new ≡ said out.old (delivery_members at from.now node.now serial)) }
    ensures fits { OnOk result (DeliveryFits at from.now node.now serial) }
{
    out.begin()?;
    out.moment(Field::At, at)?;
    out.text(Field::Event, "deliver")?;
    out.party(Field::From, from)?;
    out.party(Field::Node, node)?;
    out.whole(Field::Serial, serial)?;
    out.end()
}

/// Writes the members of a restart. It fails for want of memory alone.
#[tactic(auto, unfolding(crate::specs::EventLines::restart_members))]
fn write_restart(node: &Party, out: &mut RecordWriter) -> Result<(), AllocError>
    ensures tokens { OnOk result (out.new ≡ said out.old (restart_members node.now)) }
    ensures fits { OnOk result (PartyFits node.now) }
{
    out.begin()?;
    out.text(Field::Event, "restart")?;
    out.party(Field::Node, node)?;
    out.end()
}

/// The line of the event that a packet comes to a node, which is named by its sender and its serial, as one of a run of
/// all nodes has it: `{"at":"2025-01-01T10:00:00Z","event":"deliver","from":"BE/BEC","node":"NL/TNM","serial":7}`.
/// Where it is no longer than a line may be, it is read as that event. It fails for want of memory alone.
#[tactic(auto, using(crate::proofs::EventLines::delivery_is, crate::proofs::EventLines::delivery_again))]
pub fn delivery_line(
    alloc: Global,
    at: Moment,
    from: &Party,
    node: &Party,
    serial: Whole,
) -> Result<String, AllocError>
    ensures text { IfOk result (λ s. string_bytes s ≡ delivery_text at from.now node.now serial) }
    ensures again { IfOk result (λ s. length (string_bytes s) ≤ max_line → event_in (string_bytes s) ≡ Ok (record { node = node.now; kind = Deliver at from.now serial })) }
{
    let mut out = RecordWriter::new(alloc)?;
    write_delivery(at, from, node, serial, &mut out)?;
    Ok(out.into_text())
}

/// The line of the event that a node starts again: `{"event":"restart","node":"BE/BEC"}`. Where it is no longer than a
/// line may be, it is read as that event. It fails for want of memory alone.
#[tactic(auto, using(crate::proofs::EventLines::restart_is, crate::proofs::EventLines::restart_again))]
pub fn restart_line(alloc: Global, node: &Party) -> Result<String, AllocError>
    ensures text { IfOk result (λ s. string_bytes s ≡ restart_text node.now) }
    ensures again { IfOk result (λ s. length (string_bytes s) ≤ max_line → event_in (string_bytes s) ≡ Ok (record { node = node.now; kind = Restart })) }
{
    let mut out = RecordWriter::new(alloc)?;
    write_restart(node, &mut out)?;
    Ok(out.into_text())
}
