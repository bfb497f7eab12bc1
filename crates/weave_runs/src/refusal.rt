//! Why transcripts are not woven, as a line.

ghost use Rattle.std.specs.Prelude.{◌≡◌, ◌++◌, IfNone, IfOk, IfSome, List, OnOk, length, string_bytes, ℕ};
ghost use Rattle.ocpi_types.specs.declared.packet.Packet.{Packet as PacketOf};
ghost use Rattle.weave.specs.declared.turn_fault.TurnFault.TheVariants.{Differs as OfDiffers, NeverSent as OfNeverSent};
ghost use Rattle.weave_runs.specs.Refusals.{
  CanTell,
  DeliversAt,
  IsLineOf,
  TellsFault,
  differs_line,
  front_line,
  mark_of,
  memory_line,
  never_sent_line,
  next_number,
  nodes_at,
  place_line,
  place_text,
  spelled,
  transcript_line,
};

use crate::told::TranscriptFile;
use crate::written::delivered_by;
use json_text::is_same_party;
use ocpi_text::Party;
use ocpi_types::{Node, Packet};
use replays::{ReplayFault, Transcript};
use std::alloc::{AllocError, Global};
use weave::{Turn, TurnFault};

/// What is told where memory ran out.
pub(crate) const MEMORY_LINE: &str = "refused 4 Memory\n";

/// A party as a setup spells it, where that has it.
pub(crate) fn spelling<'a>(nodes: &'a [Node], party: &'a Party) -> &'a Party
    ensures { result.now ≡ spelled nodes.now party.now }
{
    for node in nodes {
        if is_same_party(node.party(), party) {
            return node.party();
        }
    }
    party
}

/// A line of a file.
#[derive(Clone, Copy)]
pub(crate) struct Place<'a> {
    /// The name of the file.
    pub name: &'a str,
    pub line: usize,
}

/// The line of a refusal that names a line of a file. An error is want of memory.
fn place_refusal(alloc: Global, what: &str, name: &str, line: usize) -> Result<String, AllocError>
    ensures { IfOk result (λ s. string_bytes s ≡ place_line what.now name.now line) }
{
    let mut output = String::new(alloc);
    writeln!(output, "refused {what}({name}:{line})")?;
    Ok(output)
}

/// The line of a refusal for want of memory. An error is want of memory.
fn memory_refusal(alloc: Global) -> Result<String, AllocError>
    ensures { IfOk result (λ s. string_bytes s ≡ memory_line) }
{
    String::from_str(alloc, MEMORY_LINE)
}

/// The line that refuses a file. An error is want of memory.
pub(crate) fn file_refusal(
    alloc: Global,
    name: &str,
    fault: ReplayFault,
) -> Result<String, AllocError>
    ensures { IfOk result (λ s. string_bytes s ≡ transcript_line name.now fault) }
{
    match fault {
        ReplayFault::NotARun(line) => place_refusal(alloc, "5 NotARun", name, line),
        ReplayFault::Wrong(line) => place_refusal(alloc, "6 WrongTranscript", name, line),
        ReplayFault::BegunLater(line) => place_refusal(alloc, "8 BegunLater", name, line),
        ReplayFault::LinesMissing(line) => place_refusal(alloc, "9 LinesMissing", name, line),
        ReplayFault::Memory => memory_refusal(alloc),
    }
}

/// The number of the line of the entry at a place, where there is one that came as a line.
fn next_line(transcript: &Transcript<'_>, place: usize) -> Option<usize>
    ensures { result ≡ next_number transcript.now place }
{
    match transcript.sources().get(place) {
        Some(source) => match source.line() {
            Some(line) => Some(line.number),
            None => None,
        },
        None => None,
    }
}

/// Adds the line of a file, behind a bracket where it is the first, and else behind a space.
fn push_place(
    is_first: bool,
    name: &str,
    line: usize,
    output: &mut String,
) -> Result<(), AllocError>
    ensures { OnOk result (string_bytes output.new ≡ string_bytes output.old ++ (mark_of is_first ++ place_text name.now line)) }
{
    if is_first {
        write!(output, "({name}:{line}")
    } else {
        write!(output, " {name}:{line}")
    }
}

/// The line of a refusal that names the next line of each file that has one. An error is want of memory.
fn front_refusal(
    alloc: Global,
    files: &[TranscriptFile<'_>],
    transcripts: &[Transcript<'_>],
    front: &[usize],
) -> Result<String, AllocError>
    requires told { length transcripts.now ≡ length files.now }
    requires front { length front.now ≡ length files.now }
    ensures { IfOk result (λ s. string_bytes s ≡ front_line files.now transcripts.now front.now) }
{
    let mut output = String::from_str(alloc, "refused 3 NoOrder")?;
    let mut is_first = true;
    for (i, file) in files.iter().enumerate() {
        match next_line(&transcripts[i], front[i]) {
            Some(line) => {
                push_place(is_first, file.name, line, &mut output)?;
                is_first = false;
            }
            None => {}
        }
    }
    output.push_str(")\n")?;
    Ok(output)
}

/// The packet that the entry of a turn delivers.
pub(crate) fn packet_at<'a>(transcripts: &'a [Transcript<'_>], turn: Turn) -> Option<&'a Packet>
    ensures some { IfSome result (λ q. DeliversAt transcripts.now turn q.now) }
    ensures none { IfNone result ((q : PacketOf) → DeliversAt transcripts.now turn q → ⊥) }
{
    let Some(transcript) = transcripts.get(turn.history) else {
        return None;
    };
    match transcript.entries().get(turn.entry) {
        Some(entry) => delivered_by(entry),
        None => None,
    }
}

/// Where the line of the entry of a turn stands, where it came as a line.
pub(crate) fn place_of<'a>(
    files: &[TranscriptFile<'a>],
    transcripts: &[Transcript<'_>],
    turn: Turn,
) -> Option<Place<'a>>
    ensures some { IfSome result (λ p. IsLineOf files.now transcripts.now turn p.name.now p.line) }
    ensures none { IfNone result ((name : List ℕ) (line : ℕ) → IsLineOf files.now transcripts.now turn name line → ⊥) }
{
    let Some(file) = files.get(turn.history) else {
        return None;
    };
    let Some(transcript) = transcripts.get(turn.history) else {
        return None;
    };
    match next_line(transcript, turn.entry) {
        Some(line) => Some(Place {
            name: file.name,
            line,
        }),
        None => None,
    }
}

/// The nodes of the setup of the run in which the entry of a turn came.
pub(crate) fn nodes_at<'a>(transcripts: &'a [Transcript<'_>], turn: Turn) -> &'a [Node]
    ensures { result.now ≡ nodes_at transcripts.now turn }
{
    let Some(transcript) = transcripts.get(turn.history) else {
        return &[];
    };
    let Some(source) = transcript.sources().get(turn.entry) else {
        return &[];
    };
    match transcript.openings().get(source.opening()) {
        Some(opening) => opening.nodes(),
        None => &[],
    }
}

/// The line that tells that a packet came which was never sent. An error is want of memory.
fn never_sent_line(
    alloc: Global,
    nodes: &[Node],
    packet: &Packet,
    came: Place<'_>,
) -> Result<String, AllocError>
    ensures { IfOk result (λ s. string_bytes s ≡ never_sent_line (spelled nodes.now packet.now.from) packet.now.serial came.entry.name.now came.entry.line) }
{
    let mut output = String::new(alloc);
    let party = spelling(nodes, &packet.from);
    writeln!(
        output,
        "refused 1 NeverSent({} {} {}:{})",
        party.as_str(),
        packet.serial.value(),
        came.name,
        came.line
    )?;
    Ok(output)
}

/// The line that tells that a packet came otherwise than it was sent. An error is want of memory.
fn differs_line(
    alloc: Global,
    nodes: &[Node],
    packet: &Packet,
    sent: Place<'_>,
    came: Place<'_>,
) -> Result<String, AllocError>
    ensures { IfOk result (λ s. string_bytes s
        ≡ differs_line (spelled nodes.now packet.now.from) packet.now.serial sent.entry.name.now sent.entry.line came.entry.name.now came.entry.line) }
{
    let mut output = String::new(alloc);
    let party = spelling(nodes, &packet.from);
    writeln!(
        output,
        "refused 2 Differs({} {} {}:{} {}:{})",
        party.as_str(),
        packet.serial.value(),
        sent.name,
        sent.line,
        came.name,
        came.line
    )?;
    Ok(output)
}

/// The line of a refusal by an entry that delivers a packet which was never sent. An error is want of memory.
fn never_sent_refusal(
    alloc: Global,
    files: &[TranscriptFile<'_>],
    transcripts: &[Transcript<'_>],
    came: Turn,
) -> Result<String, AllocError>
    requires { CanTell files.now transcripts.now (OfNeverSent came) }
    ensures { IfOk result (λ s. TellsFault files.now transcripts.now (OfNeverSent came) (string_bytes s)) }
{
    let Some(packet) = packet_at(transcripts, came) else {
        return memory_refusal(alloc);
    };
    let nodes = nodes_at(transcripts, came);
    match place_of(files, transcripts, came) {
        Some(place) => never_sent_line(alloc, nodes, packet, place),
        None => memory_refusal(alloc),
    }
}

/// The line of a refusal by an entry that delivers a packet, and the one that gave another. An error is want of memory.
fn differs_refusal(
    alloc: Global,
    files: &[TranscriptFile<'_>],
    transcripts: &[Transcript<'_>],
    came: Turn,
    sent: Turn,
) -> Result<String, AllocError>
    requires { CanTell files.now transcripts.now (OfDiffers came sent) }
    ensures { IfOk result (λ s. TellsFault files.now transcripts.now (OfDiffers came sent) (string_bytes s)) }
{
    let Some(packet) = packet_at(transcripts, came) else {
        return memory_refusal(alloc);
    };
    let Some(left) = place_of(files, transcripts, sent) else {
        return memory_refusal(alloc);
    };
    let nodes = nodes_at(transcripts, came);
    match place_of(files, transcripts, came) {
        Some(right) => differs_line(alloc, nodes, packet, left, right),
        None => memory_refusal(alloc),
    }
}

/// The line that refuses histories which have no interleaving. An error is want of memory.
pub(crate) fn weave_refusal(
    alloc: Global,
    files: &[TranscriptFile<'_>],
    transcripts: &[Transcript<'_>],
    fault: &TurnFault,
) -> Result<String, AllocError>
    requires told { length transcripts.now ≡ length files.now }
    requires can { CanTell files.now transcripts.now fault.now }
    ensures { IfOk result (λ s. TellsFault files.now transcripts.now fault.now (string_bytes s)) }
{
    match fault {
        TurnFault::NeverSent(came) => never_sent_refusal(alloc, files, transcripts, *came),
        TurnFault::Differs(came, sent) => {
            differs_refusal(alloc, files, transcripts, *came, *sent)
        }
        TurnFault::NoOrder(places) => front_refusal(alloc, files, transcripts, places.as_slice()),
        TurnFault::Memory => memory_refusal(alloc),
    }
}
