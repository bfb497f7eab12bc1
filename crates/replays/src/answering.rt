//! What a node prints for a line behind the setup, which is carried out.

ghost use Rattle.std.specs.Prelude.{◌≡◌, ◌≢◌, ◌<◌, ◌++◌, ◌∷◌, [], List, None, Ok, OnOk, Some, length, map, slice_get, string_bytes, ℕ};
ghost use Rattle.json_text.specs.Fault.{Read};
ghost use Rattle.node_lines.specs.NodeLines.{node_line_in};
ghost use Rattle.node_runs.specs.DoneLines.{malformed_line, refused_line};
ghost use Rattle.node_lines.specs.declared.node_line.NodeLine.TheVariants.{Several};
ghost use Rattle.ocpi_types.specs.declared.node_events.NodeEvent.{NodeEvent as NodeEventOf};
ghost use Rattle.histories.specs.declared.entry.Entry.{Entry as EntryOf};
ghost use Rattle.node_replay.specs.Replayed.{restart_entry};
ghost use Rattle.replays.specs.declared.transcript.Source.TheVariants.{Restarted};
ghost use Rattle.node_replay.specs.declared.outcome.ReplayFault.TheVariants as stepping;
ghost use Rattle.node_steps.specs.declared.fault.NodeFault.{NodeFault as NodeFaultOf};
ghost use Rattle.node_steps.specs.declared.fault.NodeFault.TheVariants.{NumbersUsedUp};
ghost use Rattle.ocpi_text.specs.Whole.{max_whole};
ghost use Rattle.replays.specs.Answering.{AreAllDone, EventDone, IsLineRead, IsReplayTold, IsStepTold, LineDone};

use crate::cutting::EchoedLine;
use crate::transcript::Source;
use histories::{Entry, Packets};
use node_lines::{Elements, NodeLine, element_texts, read_node_line};
use node_replay::{NodeReplay, ReplayFault as StepFault, Replayed};
use node_runs::{
    write_all, write_known, write_malformed, write_refused, write_skipped, write_step,
};
use node_steps::NodeFault;
use ocpi_json::{JsonFault, Scratch};
use ocpi_text::{Party, Whole};
use ocpi_types::{NodeEvent, NodeEventKind, Packet};
use std::alloc::{AllocError, Global};

/// A node that runs again.
#[derive(Drop)]
pub(crate) struct Running {
    pub alloc: Global,
    pub node: NodeReplay,
    /// Its party, as the setup spells it.
    pub party: Party,
    /// The place of its run among those that were opened.
    pub opening: usize,
    /// The number of the last line that had taken hold as it was opened.
    pub known: Whole,
    /// That of the last line that took hold.
    pub last: Whole,
    /// That of the last line.
    pub number: Whole,
}

/// What happened at a node, and where each entry comes from.
#[derive(Drop)]
pub(crate) struct Happened<'a> {
    pub entries: Vec<Entry>,
    pub sources: Vec<Source<'a>>,
}

impl<'a> Happened<'a> {
    /// Adds what happened behind. An error is want of memory.
    pub(crate) fn add(&mut self, later: Happened<'a>) -> Result<(), AllocError>
        ensures entries { OnOk result (self.new.entries.items ≡ self.old.entries.items ++ later.entry.entries.items) }
        ensures sources { OnOk result (self.new.sources.items ≡ self.old.sources.items ++ later.entry.sources.items) }
    {
        let Happened { entries, sources } = later;
        match add_entries(&mut self.entries, entries) {
            Ok(()) => self.sources.extend_from_slice(sources.as_slice()),
            Err(_) => {
                drop(sources);
                Err(AllocError)
            }
        }
    }

    /// The node started again, in the run of that place. An error is want of memory.
    pub(crate) fn restart(&mut self, alloc: Global, opening: usize) -> Result<(), AllocError>
        ensures entries { OnOk result (self.new.entries.items ≡ self.old.entries.items ++ restart_entry ∷ []) }
        ensures sources { OnOk result (self.new.sources.items ≡ self.old.sources.items ++ Restarted opening ∷ []) }
    {
        self.entries.push(Entry {
            event: NodeEventKind::Restart,
            packets: Packets::new(Vec::new(alloc)),
        })?;
        self.sources.push(Source::Restarted { opening })?;
        Ok(())
    }
}

/// Adds entries behind others. An error is want of memory.
fn add_entries(entries: &mut Vec<Entry>, later: Vec<Entry>) -> Result<(), AllocError>
    ensures { OnOk result (entries.new.items ≡ entries.old.items ++ later.items) }
{
    for entry in later {
        entries.push(entry)?;
    }
    Ok(())
}

/// The packets of the last entry.
fn last_packets(entries: &[Entry]) -> &[Packet]
    ensures { (before : List EntryOf) (entry : EntryOf) → entries.now ≡ before ++ entry ∷ [] → result.now ≡ entry.packets }
{
    match entries.last() {
        Some(entry) => entry.packets.as_slice(),
        None => &[],
    }
}

impl Running {
    /// Carries out the next line, and writes what the node prints for it. An error is want of memory.
    pub(crate) fn answer<'a>(
        &mut self,
        scratch: &mut Scratch,
        line: EchoedLine<'a>,
        happened: &mut Happened<'a>,
        text: &mut String,
    ) -> Result<(), AllocError>
        ensures { OnOk result (LineDone self.old self.new line.entry.bytes.now (string_bytes text.new) happened.old happened.new) }
    {
        text.clear();
        let (known, last) = (self.known.value(), self.number.value());
        let number = match self.number.next() {
            Some(number) => number,
            None => return tell_beyond(text),
        };
        self.number = number;
        if last < known {
            return write_known(number.value(), text);
        }
        self.answer_new(scratch, number, line, happened, text)
    }

    /// Reads the line of that number and carries it out.
    fn answer_new<'a>(
        &mut self,
        scratch: &mut Scratch,
        number: Whole,
        line: EchoedLine<'a>,
        happened: &mut Happened<'a>,
        text: &mut String,
    ) -> Result<(), AllocError>
        requires text { string_bytes text.old ≡ [] }
        ensures { OnOk result (IsLineRead self.old self.new number line.entry.bytes.now (string_bytes text.new) happened.old happened.new) }
    {
        match read_node_line(self.alloc, scratch, line.bytes) {
            Ok(held) => self.answer_held(held, number, line, happened, text),
            Err(fault) => tell_malformed(fault, number, None, text),
        }
    }

    /// Carries out what a line holds. An error is want of memory.
    fn answer_held<'a>(
        &mut self,
        held: NodeLine<'_>,
        number: Whole,
        line: EchoedLine<'a>,
        happened: &mut Happened<'a>,
        text: &mut String,
    ) -> Result<(), AllocError>
        requires text { string_bytes text.old ≡ [] }
        ensures { OnOk result (node_line_in line.entry.bytes.now ≡ Ok held.entry
            → IsLineRead self.old self.new number line.entry.bytes.now (string_bytes text.new) happened.old happened.new) }
    {
        match held {
            NodeLine::One(event) => self.answer_event(event, number, None, line, happened, text),
            NodeLine::Several(elements) => {
                let answered = self.answer_all(&elements, number, line, happened, text);
                drop(elements);
                answered
            }
        }
    }

    /// Carries out the events of a line, one after another.
    fn answer_all<'a>(
        &mut self,
        elements: &Elements<'_>,
        number: Whole,
        line: EchoedLine<'a>,
        happened: &mut Happened<'a>,
        text: &mut String,
    ) -> Result<(), AllocError>
        requires text { string_bytes text.old ≡ [] }
        ensures { OnOk result (node_line_in line.entry.bytes.now ≡ Ok (Several elements.now)
            → AreAllDone self.old self.new number line.entry.bytes.now elements.now (string_bytes text.new) happened.old happened.new) }
    {
        let texts = element_texts(self.alloc, line.bytes)?;
        for place in 0..elements.len() {
            let element = EchoedLine {
                number: line.number,
                bytes: text_at(texts.as_slice(), place),
            };
            self.answer_element(elements, place, number, element, happened, text)?;
        }
        write_all(number.value(), elements.len(), text)
    }

    /// Carries out the event at a place of a line.
    fn answer_element<'a>(
        &mut self,
        elements: &Elements<'_>,
        place: usize,
        number: Whole,
        line: EchoedLine<'a>,
        happened: &mut Happened<'a>,
        text: &mut String,
    ) -> Result<(), AllocError>
        requires { place < length elements.now }
        ensures { OnOk result ((read : Read NodeEventOf) → slice_get elements.now place ≡ Some read
            → EventDone self.old self.new number (Some place) read line.entry.bytes.now (string_bytes text.old) (string_bytes text.new) happened.old happened.new) }
    {
        match elements.read(self.alloc, place) {
            Ok(event) => self.answer_event(event, number, Some(place), line, happened, text),
            Err(fault) => tell_malformed(fault, number, Some(place), text),
        }
    }

    /// Carries out an event, where it is the node's.
    fn answer_event<'a>(
        &mut self,
        event: NodeEvent,
        number: Whole,
        place: Option<usize>,
        line: EchoedLine<'a>,
        happened: &mut Happened<'a>,
        text: &mut String,
    ) -> Result<(), AllocError>
        ensures { OnOk result ((read : Read NodeEventOf) → read ≡ Ok event
            → EventDone self.old self.new number place read line.entry.bytes.now (string_bytes text.old) (string_bytes text.new) happened.old happened.new) }
    {
        let NodeEvent { node, kind } = event;
        if !node.is_same(&self.party) {
            drop(kind);
            return write_skipped(number.value(), place, text);
        }
        match self.node.apply(kind, &mut happened.entries) {
            Ok(replayed) => self.tell_replayed(replayed, number, place, line, happened, text),
            Err(fault) => tell_declined(fault, number, place, text),
        }
    }

    /// Writes what became of an event. An error is want of memory.
    fn tell_replayed<'a>(
        &mut self,
        replayed: Replayed,
        number: Whole,
        place: Option<usize>,
        line: EchoedLine<'a>,
        happened: &mut Happened<'a>,
        text: &mut String,
    ) -> Result<(), AllocError>
        ensures { OnOk result (IsReplayTold replayed self.old self.new number place line.entry (string_bytes text.old) (string_bytes text.new) happened.old happened.new) }
    {
        match replayed {
            Replayed::Skipped => write_skipped(number.value(), place, text),
            Replayed::Stepped { changed } => {
                self.tell_step(changed, number, place, line, happened, text)
            }
        }
    }

    /// Notes where the last entry comes from, and writes what the node sent for its event.
    fn tell_step<'a>(
        &mut self,
        changed: bool,
        number: Whole,
        place: Option<usize>,
        line: EchoedLine<'a>,
        happened: &mut Happened<'a>,
        text: &mut String,
    ) -> Result<(), AllocError>
        ensures { OnOk result (IsStepTold self.old self.new changed number place line.entry (string_bytes text.old) (string_bytes text.new) happened.old happened.new) }
    {
        let source = Source::Echoed {
            opening: self.opening,
            line,
        };
        match happened.sources.push(source) {
            Ok(()) => {}
            Err(_) => return Err(AllocError),
        }
        if changed {
            self.last = number;
        }
        let packets = last_packets(happened.entries.as_slice());
        write_step(self.alloc, packets, changed, number.value(), place, text)
    }
}

/// Writes that a line was not read, since its number is beyond the last one. An error is want of memory.
fn tell_beyond(text: &mut String) -> Result<(), AllocError>
    ensures { OnOk result (string_bytes text.new ≡ string_bytes text.old ++ refused_line max_whole None NumbersUsedUp) }
{
    write_refused(Whole::MAX, None, NodeFault::NumbersUsedUp, text)
}

/// Writes why what stands there is no event. An error is want of memory, also for reading it.
fn tell_malformed(
    fault: JsonFault,
    number: Whole,
    place: Option<usize>,
    text: &mut String,
) -> Result<(), AllocError>
    ensures { OnOk result ((fault ≢ JsonFault.Memory) × (string_bytes text.new ≡ string_bytes text.old ++ malformed_line number place fault)) }
{
    match fault {
        JsonFault::Memory => Err(AllocError),
        _ => write_malformed(number.value(), place, fault, text),
    }
}

/// Writes why the node refused an event. An error is want of memory, also in the node.
fn tell_declined(
    fault: StepFault,
    number: Whole,
    place: Option<usize>,
    text: &mut String,
) -> Result<(), AllocError>
    ensures { OnOk result ((why : NodeFaultOf) × (fault ≡ stepping.Core why) × (string_bytes text.new ≡ string_bytes text.old ++ refused_line number place why)) }
{
    match fault {
        StepFault::Core(why) => write_refused(number.value(), place, why, text),
        StepFault::Memory => Err(AllocError),
    }
}

/// The text at a place.
fn text_at<'a>(texts: &[&'a [u8]], place: usize) -> &'a [u8]
    ensures { (text : List ℕ) → slice_get (map (λ t. t.now) texts.now) place ≡ Some text → result.now ≡ text }
{
    match texts.get(place) {
        Some(text) => *text,
        None => &[],
    }
}
