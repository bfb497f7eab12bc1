//! What the runs of a file so far tell, and what they left in the store. Of one line at most, the last of a run, nothing
//! tells yet whether it took hold.

ghost use Rattle.std.specs.Prelude.{◌≡◌, ◌↔◌, [], IfErr, IfNone, IfOk, IfSome, IsTrue, List, None, OnOk, Some, length, string_bytes};
ghost use Rattle.replays.specs.Answering.{IsDoubtOf, IsEntered, IsOtherwise, MayHaveTaken, shown};
ghost use Rattle.replays.specs.Happenings.{Happening, OpenedRun};
ghost use Rattle.replays.specs.LineTurns.{IsLeftBy, held_in};
ghost use Rattle.replays.specs.Reading.{Doubt as DoubtOf, IsOpenedIn, left_out, taken_in};
ghost use Rattle.replays.specs.Telling.{IsRunOf, Tells};
ghost use Rattle.replays.specs.Transcripts.{IsToldBy};

use crate::answering::{Happened, Running};
use crate::cutting::EchoedLine;
use crate::fault::ReplayFault;
use crate::held::Held;
use crate::transcript::{Opening, Source, Transcript};
use histories::{Entry, Packets};
use ocpi_json::Scratch;
use ocpi_text::Whole;
use ocpi_types::NodeEventKind;
use std::alloc::{AllocError, Global};
use std::marker::Model;

/// What a line in doubt made.
#[derive(Drop)]
pub(crate) struct Doubt<'a> {
    /// What the store has, where it took hold.
    pub held: Held,
    /// What it entered.
    pub happened: Happened<'a>,
}

impl<'a> Model for Doubt<'a> {
    ghost use Rattle.std.specs.Coded.{codes};
    ghost use Rattle.std.specs.FinMap as map;
    ghost use Rattle.replays.specs.LineTurns.{held_in};
    ghost use Rattle.replays.specs.Reading.{Doubt};

    ghost Value = { Doubt };

    ghost coded = { Prim.hlevel (codes, map.code) };

    ghost view = { λ d. record { held = held_in d.held; entries = d.happened.entries.items; sources = d.happened.sources.items } };
}

/// What the runs so far tell, and what they left but for a line in doubt.
#[derive(Drop)]
pub(crate) struct History<'a> {
    alloc: Global,
    held: Held,
    doubt: Option<Doubt<'a>>,
    openings: Vec<Opening<'a>>,
    happened: Happened<'a>,
}

impl<'a> Model for History<'a> {
    ghost use Rattle.std.specs.Coded.{codes};
    ghost use Rattle.std.specs.FinMap as map;
    ghost use Rattle.replays.specs.LineTurns.{held_in};
    ghost use Rattle.replays.specs.Reading.{Story};

    ghost Value = { Story };

    ghost coded = { Prim.hlevel (codes, map.code) };

    ghost view = { λ h. record { held = held_in h.held; doubt = h.doubt; openings = h.openings.items; entries = h.happened.entries.items; sources = h.happened.sources.items } };
}

/// What a node leaves in its store. An error is want of memory.
fn held_by(running: &Running) -> Result<Held, AllocError>
    ensures { IfOk result (λ held. IsLeftBy (shown running.now) (held_in held)) }
{
    Ok(Held {
        rows: running.node.stored()?,
        line: running.last,
    })
}

/// Nothing.
fn nothing<'a>(alloc: Global) -> Happened<'a>
    ensures entries { result.entries.items ≡ [] }
    ensures sources { result.sources.items ≡ [] }
{
    Happened {
        entries: Vec::new(alloc),
        sources: Vec::new(alloc),
    }
}

impl<'a> History<'a> {
    /// Nothing, over a store that has that.
    pub(crate) fn new(alloc: Global, held: Held) -> History<'a>
        ensures { result ≡ record { held = held_in held; doubt = None; openings = []; entries = []; sources = [] } }
    {
        History {
            alloc,
            held,
            doubt: None,
            openings: Vec::new(alloc),
            happened: nothing(alloc),
        }
    }

    /// Whether no run was opened.
    pub(crate) fn is_empty(&self) -> bool
        ensures { IsTrue result ↔ (self.now.openings ≡ []) }
    {
        self.openings.is_empty()
    }

    /// What the store has; before the line in doubt, if there is one.
    pub(crate) fn held(&self) -> &Held
        ensures { held_in result.now ≡ self.now.held }
    {
        &self.held
    }

    /// What it has, where the line in doubt took hold.
    pub(crate) fn behind(&self) -> Option<&Held>
        ensures some { IfSome result (λ held. (d : DoubtOf) × (self.now.doubt ≡ Some d) × (held_in held.now ≡ d.held)) }
        ensures none { IfNone result (self.now.doubt ≡ None) }
    {
        match &self.doubt {
            Some(doubt) => Some(&doubt.held),
            None => None,
        }
    }

    /// What is told in all. A line in doubt is left out.
    pub(crate) fn into_transcript(self) -> Result<Transcript<'a>, ReplayFault>
        requires { (told : List Happening) × Tells told self.openings self.entries self.sources }
        ensures ok { IfOk result (IsToldBy self.entry) }
        ensures none { IfErr result (λ f. (f ≡ ReplayFault.Wrong 0) × (self.entry.openings ≡ [])) }
    {
        let History {
            alloc: _,
            held,
            doubt,
            openings,
            happened,
        } = self;
        drop(held);
        drop(doubt);
        let Happened { entries, sources } = happened;
        if openings.is_empty() {
            drop(openings);
            drop(entries);
            drop(sources);
            return Err(ReplayFault::Wrong(0));
        }
        Ok(Transcript {
            openings,
            entries,
            sources,
        })
    }

    /// The line in doubt did not take hold.
    pub(crate) fn leave_out(&mut self)
        ensures { self.new ≡ left_out self.old }
    {
        self.doubt = None;
    }

    /// The line in doubt took hold, if there is one. An error is want of memory.
    pub(crate) fn take_in(&mut self) -> Result<(), AllocError>
        ensures { OnOk result ((d : DoubtOf) → self.old.doubt ≡ Some d → self.new ≡ taken_in self.old d) }
    {
        match self.doubt.take() {
            Some(doubt) => {
                let Doubt { held, happened } = doubt;
                self.held = held;
                self.happened.add(happened)
            }
            None => Ok(()),
        }
    }

    /// A run was opened, which is a restart where one was before. Its place among those that were opened. An error is
    /// want of memory.
    pub(crate) fn open(&mut self, opening: Opening<'a>) -> Result<usize, AllocError>
        ensures place { IfOk result (λ place. place ≡ length self.old.openings) }
        ensures is { OnOk result ((run : OpenedRun) → IsRunOf run opening.entry → IsOpenedIn self.old self.new run) }
        ensures doubt { OnOk result (self.new.doubt ≡ self.old.doubt) }
    {
        let place = self.openings.len();
        self.openings.push(opening)?;
        if place > 0 {
            self.happened.restart(self.alloc, place)?;
        }
        Ok(place)
    }

    /// Carries out a line, and writes what the node prints for it. An error is want of memory.
    pub(crate) fn answer(
        &mut self,
        scratch: &mut Scratch,
        running: &mut Running,
        line: EchoedLine<'a>,
        text: &mut String,
    ) -> Result<(), AllocError>
        ensures { OnOk result (IsEntered running.old running.new line.entry.bytes.now (string_bytes text.new) self.old self.new) }
    {
        running.answer(scratch, line, &mut self.happened, text)
    }

    /// A run ended, with that node. An error is want of memory.
    pub(crate) fn leave(&mut self, running: &Running) -> Result<(), AllocError>
        ensures left { OnOk result (IsLeftBy (shown running.now) self.new.held) }
        ensures same { OnOk result (IsOtherwise self.old self.new) }
        ensures doubt { OnOk result (self.new.doubt ≡ self.old.doubt) }
    {
        self.held = held_by(running)?;
        Ok(())
    }

    /// A run ended at that line, which took hold or did not. An error is want of memory.
    pub(crate) fn doubt(
        &mut self,
        scratch: &mut Scratch,
        running: &mut Running,
        line: EchoedLine<'a>,
        text: &mut String,
    ) -> Result<(), AllocError>
        ensures doubts { OnOk result (MayHaveTaken running.old self.old.held line.entry.bytes.now self.new.doubt) }
        ensures same { OnOk result (IsOtherwise self.old self.new) }
        ensures held { OnOk result (self.new.held ≡ self.old.held) }
    {
        let before = self.held.line();
        let mut happened = nothing(self.alloc);
        running.answer(scratch, line, &mut happened, text)?;
        self.doubt = doubt_of(running, before, happened)?;
        Ok(())
    }
}

/// What is in doubt behind a line of that node, which the store had with that number before. An error is want of memory.
fn doubt_of<'a>(
    running: &Running,
    line: Whole,
    happened: Happened<'a>,
) -> Result<Option<Doubt<'a>>, AllocError>
    ensures none { IfOk result (λ doubt. IfNone doubt (running.now.last ≡ line)) }
    ensures some { IfOk result (λ doubt. IfSome doubt (IsDoubtOf running.now line happened.entry)) }
{
    if running.last == line {
        drop(happened);
        return Ok(None);
    }
    match held_by(running) {
        Ok(held) => Ok(Some(Doubt { held, happened })),
        Err(_) => {
            drop(happened);
            Err(AllocError)
        }
    }
}
