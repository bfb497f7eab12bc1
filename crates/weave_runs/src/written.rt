//! A woven run: a line for each entry, behind the setup line as input of `play`.

ghost use Rattle.std.specs.Prelude.{◌≡◌, ◌<◌, ◌++◌, IfNone, IfOk, IfSome, List, OnOk, length, ℕ};
ghost use Rattle.histories.specs.Entries.{Delivers};
ghost use Rattle.ocpi_types.specs.declared.node_events.NodeEventKind.TheVariants.{Deliver};
ghost use Rattle.ocpi_types.specs.declared.packet.Packet.{Packet as PacketOf};
ghost use Rattle.ocpi_types.specs.declared.setup.Node.{Node as NodeOf};
ghost use Rattle.weave_runs.specs.Histories.{AreTold};
ghost use Rattle.weave_runs.specs.Outputs.{AreOpeningLines, IsOfOneWorld, IsOtherText, IsPlayedText};
ghost use Rattle.weave_runs.specs.Steps.{
  AddsDelivery,
  AddsFirst,
  AddsLine,
  AddsNew,
  AddsOtherSetup,
  AddsRestart,
  AddsSetups,
  AddsStep,
  AddsTurn,
  AreNamed,
  AreSourced,
  IsNamed,
  IsOfRuns,
  IsSourceIn,
  IsTakenAsItCame,
  lines_text,
};

use crate::refusal::spelling;
use histories::{Entry, NodeHistory};
use ocpi_text::{Moment, Party};
use ocpi_types::{Node, NodeEventKind, Packet};
use replays::{Opening, Source, Transcript};
use setup_equality::are_equal;
use std::alloc::{AllocError, Global};
use transcript_lines::laws::node_lines_are_lines;
use transcript_lines::{delivery_line, restart_line};
use weave::{Turn, is_from, was_before};

/// Adds a line, and its end.
fn push_line(text: &mut Vec<u8>, line: &[u8]) -> Result<(), AllocError>
    ensures { OnOk result (AddsLine line.now text.old.items text.new.items) }
{
    text.extend_from_slice(line)?;
    match text.push(b'\n') {
        Ok(()) => Ok(()),
        Err(_) => Err(AllocError),
    }
}

/// Adds the line of a delivery at the node of a party, with its sender as the setup spells it.
fn push_delivery(
    alloc: Global,
    nodes: &[Node],
    party: &Party,
    at: Moment,
    packet: &Packet,
    text: &mut Vec<u8>,
) -> Result<(), AllocError>
    ensures { OnOk result (AddsDelivery nodes.now party.now at packet.now text.old.items text.new.items) }
{
    let from = spelling(nodes, &packet.from);
    let line = delivery_line(alloc, at, from, party, packet.serial)?;
    push_line(text, line.as_bytes())
}

/// Adds the line of a start of the node of a party.
fn push_restart(alloc: Global, party: &Party, text: &mut Vec<u8>) -> Result<(), AllocError>
    ensures { OnOk result (AddsRestart party.now text.old.items text.new.items) }
{
    let line = restart_line(alloc, party)?;
    push_line(text, line.as_bytes())
}

/// When a packet comes, and which, where that is what happens.
fn delivery_of(event: &NodeEventKind) -> Option<(Moment, &Packet)>
    ensures some { IfSome result (λ d. event.now ≡ Deliver d.0 d.1.now) }
    ensures none { IfNone result ((at : ℕ) (q : PacketOf) → event.now ≡ Deliver at q → ⊥) }
{
    match event {
        NodeEventKind::Deliver { at, packet } => Some((*at, packet)),
        NodeEventKind::Submit { .. } => None,
        NodeEventKind::Token { .. } => None,
        NodeEventKind::Service { .. } => None,
        NodeEventKind::Charger { .. } => None,
        NodeEventKind::Credit { .. } => None,
        NodeEventKind::Tick { .. } => None,
        NodeEventKind::Restart => None,
        NodeEventKind::Refused => None,
    }
}

/// The packet that an entry delivers.
pub(crate) fn delivered_by(entry: &Entry) -> Option<&Packet>
    ensures some { IfSome result (λ q. Delivers entry.now q.now) }
    ensures none { IfNone result ((q : PacketOf) → Delivers entry.now q → ⊥) }
{
    match delivery_of(&entry.event) {
        Some(delivery) => Some(delivery.1),
        None => None,
    }
}

/// When a packet comes, and which, where that is what happens, and it is not taken as it came.
fn awaited<'a>(
    histories: &[NodeHistory<'_>],
    event: &'a NodeEventKind,
    given: &[Party],
) -> Option<(Moment, &'a Packet)>
    ensures some { IfSome result (λ d. event.now ≡ Deliver d.0 d.1.now) }
    ensures asked { IfSome result (λ d. IsTakenAsItCame given.now histories.now d.1.now → ⊥) }
    ensures none { IfNone result ((at : ℕ) (q : PacketOf) → event.now ≡ Deliver at q → IsTakenAsItCame given.now histories.now q) }
{
    let Some(delivery) = delivery_of(event) else {
        return None;
    };
    if is_from(given, delivery.1) {
        return None;
    }
    if was_before(histories, delivery.1) {
        return None;
    }
    Some(delivery)
}

/// Adds the line of an entry of a run. What is taken as it came has its line as it came.
fn push_entry(
    alloc: Global,
    histories: &[NodeHistory<'_>],
    opening: &Opening<'_>,
    entry: &Entry,
    source: &Source<'_>,
    given: &[Party],
    text: &mut Vec<u8>,
) -> Result<(), AllocError>
    requires member { opening.now.member < length opening.now.setup }
    requires source { IsSourceIn opening.now entry.now source.now }
    ensures { OnOk result (AddsStep given.now histories.now opening.now entry.now text.old.items text.new.items) }
{
    node_lines_are_lines();
    let party = opening.party();
    match awaited(histories, &entry.event, given) {
        Some(delivery) => {
            push_delivery(alloc, opening.nodes(), party, delivery.0, delivery.1, text)
        }
        None => match source.line() {
            Some(line) => push_line(text, line.bytes),
            None => push_restart(alloc, party, text),
        },
    }
}

/// Adds the line of the entry that a turn names.
fn push_turn(
    alloc: Global,
    transcripts: &[Transcript<'_>],
    histories: &[NodeHistory<'_>],
    given: &[Party],
    turn: Turn,
    text: &mut Vec<u8>,
) -> Result<(), AllocError>
    requires told { AreTold transcripts.now }
    requires sourced { AreSourced transcripts.now }
    requires named { IsNamed transcripts.now turn }
    ensures { OnOk result (AddsTurn given.now histories.now transcripts.now turn text.old.items text.new.items) }
{
    let transcript = &transcripts[turn.history];
    let source = &transcript.sources()[turn.entry];
    push_entry(
        alloc,
        histories,
        &transcript.openings()[source.opening()],
        &transcript.entries()[turn.entry],
        source,
        given,
        text,
    )
}

/// A woven run as input of `play`: the setup line of the first transcript, and the lines of the entries that turns
/// name, in this order. An error is want of memory.
pub(crate) fn played_text(
    alloc: Global,
    transcripts: &[Transcript<'_>],
    histories: &[NodeHistory<'_>],
    given: &[Party],
    turns: &[Turn],
) -> Result<Vec<u8>, AllocError>
    requires some { 0 < length transcripts.now }
    requires told { AreTold transcripts.now }
    requires sourced { AreSourced transcripts.now }
    requires named { AreNamed transcripts.now turns.now }
    requires one { (setup : List NodeOf) × IsOfOneWorld setup transcripts.now }
    ensures { IfOk result (λ text. IsPlayedText given.now histories.now transcripts.now turns.now text.items) }
{
    let line = transcripts[0].first().line.bytes;
    let mut text = Vec::new(alloc);
    push_line(&mut text, line)?;
    for turn in turns {
        push_turn(alloc, transcripts, histories, given, *turn, &mut text)?;
    }
    Ok(text)
}

/// Adds the setup line of the first run before the first entry.
fn push_first_setup(
    transcript: &Transcript<'_>,
    place: usize,
    text: &mut Vec<u8>,
) -> Result<(), AllocError>
    ensures { OnOk result (AddsFirst transcript.now.openings place text.old.items text.new.items) }
{
    if place == 0 {
        push_line(text, transcript.first().line.bytes)
    } else {
        Ok(())
    }
}

/// Adds the setup line of a run at a place behind another, where its setup is another than before.
fn push_other_setup(
    openings: &[Opening<'_>],
    place: usize,
    text: &mut Vec<u8>,
) -> Result<(), AllocError>
    requires place { place < length openings.now }
    requires later { 0 < place }
    ensures { OnOk result (AddsOtherSetup openings.now place text.old.items text.new.items) }
{
    let before = &openings[place - 1];
    let now = &openings[place];
    if are_equal(&before.setup, &now.setup) {
        return Ok(());
    }
    push_line(text, now.line.bytes)
}

/// Adds that of a run whose opening an entry is, where its setup is another than before.
fn push_new_setup(
    openings: &[Opening<'_>],
    source: &Source<'_>,
    text: &mut Vec<u8>,
) -> Result<(), AllocError>
    requires { IsOfRuns openings.now source.now }
    ensures { OnOk result (AddsNew openings.now source.now text.old.items text.new.items) }
{
    match source {
        Source::Restarted { opening } => push_other_setup(openings, *opening, text),
        Source::Echoed { .. } => Ok(()),
    }
}

/// Adds the setup lines that are to stand before the entry that a turn names.
fn push_setups(
    transcripts: &[Transcript<'_>],
    turn: Turn,
    text: &mut Vec<u8>,
) -> Result<(), AllocError>
    requires told { AreTold transcripts.now }
    requires sourced { AreSourced transcripts.now }
    requires named { IsNamed transcripts.now turn }
    ensures { OnOk result (AddsSetups transcripts.now turn text.old.items text.new.items) }
{
    let transcript = &transcripts[turn.history];
    push_first_setup(transcript, turn.entry, text)?;
    push_new_setup(
        transcript.openings(),
        &transcript.sources()[turn.entry],
        text,
    )
}

/// Adds the line of each transcript that says that its first run was opened.
fn push_openings(transcripts: &[Transcript<'_>], text: &mut Vec<u8>) -> Result<(), AllocError>
    ensures { OnOk result ((lines : List (List ℕ)) × AreOpeningLines transcripts.now lines × (text.new.items ≡ text.old.items ++ lines_text lines)) }
{
    for transcript in transcripts {
        push_line(text, transcript.first().told)?;
    }
    Ok(())
}

/// A woven run that is no input of `play`: how each transcript begins, and the lines of the entries that turns name, in
/// this order, with the setups of their runs. An error is want of memory.
pub(crate) fn other_text(
    alloc: Global,
    transcripts: &[Transcript<'_>],
    histories: &[NodeHistory<'_>],
    given: &[Party],
    turns: &[Turn],
) -> Result<Vec<u8>, AllocError>
    requires told { AreTold transcripts.now }
    requires sourced { AreSourced transcripts.now }
    requires named { AreNamed transcripts.now turns.now }
    ensures { IfOk result (λ text. IsOtherText given.now histories.now transcripts.now turns.now text.items) }
{
    let mut text = Vec::new(alloc);
    push_openings(transcripts, &mut text)?;
    for turn in turns {
        push_setups(transcripts, *turn, &mut text)?;
        push_turn(alloc, transcripts, histories, given, *turn, &mut text)?;
    }
    Ok(text)
}
