//! The reading of a file, run by run.

ghost use Rattle.std.specs.Prelude.{◌≡◌, ◌≢◌, ◌≤◌, ◌+◌, ◌++◌, ◌∷◌, All, IfErr, IfNone, IfOk, IfSome, IsTrue, List, None, OnOk, Some, [], drop, false, length, suc, true, ℕ};
ghost use Rattle.json_text.specs.Fault.{Fails as FailsToRead};
ghost use Rattle.node_runs.specs.SetupLines.{numbered_setup_in};
ghost use Rattle.ocpi_text.specs.Text.{key};
ghost use Rattle.ocpi_types.specs.Setups.{party_of};
ghost use Rattle.replays.specs.Answering.{IsOtherwise, shown};
ghost use Rattle.replays.specs.CutRuns.{HasNumbers};
ghost use Rattle.replays.specs.Happenings.{Happening};
ghost use Rattle.replays.specs.Reading.{AreCut, Doubts, RunRefused, RunTaken};
ghost use Rattle.replays.specs.LineTurns.{IsLeftBy, held_in};
ghost use Rattle.replays.specs.RunParts.{AreCutBehind, AreLinesTaken, BeginsBehind, BegunBehind, DiffersAt, IsNoWay, IsNotSaid, IsRestOfRun, IsRunText, IsSaid, IsSameNode, IsSettled, NamesOpening, RefusedBehind, TakenBehind};
ghost use Rattle.replays.specs.Telling.{Tells};
ghost use Rattle.replays.specs.Transcripts.{AccusesRightly, BlamesNoLineBefore, IsToldBy, IsTranscriptOf, line_of};
ghost use Rattle.replays.specs.Ways.{IsWay};

use crate::answering::Running;
use crate::cutting::{EchoedLine, RunText, Runs, feeds_in, split_feed};
use crate::explaining::{ToldOpening, tell_difference, tell_earlier, tell_older, told_opening};
use crate::fault::ReplayFault;
use crate::held::Start;
use crate::history::History;
use crate::opening::{Behind, Opened, Piece, Ways, behind_setup};
use crate::transcript::{Opening, Transcript};
use node_runs::{read_numbered_setup, write_malformed};
use ocpi_json::{JsonFault, Scratch};
use ocpi_text::{Party, Whole};
use ocpi_types::Setup;
use std::alloc::{AllocError, Global};
use std::marker::Model;
use tables::HashSeed;

/// What the runs so far tell, and what they left.
#[derive(Drop)]
pub(crate) struct Reading<'a, 'b> {
    pub alloc: Global,
    pub seed: HashSeed,
    /// Whether the rows were given over which the first run was opened.
    pub is_given: bool,
    /// The parties of other files.
    pub earlier: &'b [Party],
    /// The parties of which the node may be, where anything tells.
    pub parties: Vec<Party>,
    pub history: History<'a>,
}

impl<'a, 'b> Model for Reading<'a, 'b> {
    ghost use Rattle.std.specs.Coded.{codes};
    ghost use Rattle.std.specs.FinMap as map;
    ghost use Rattle.replays.specs.Reading.{Reader};

    ghost Value = { Reader };

    ghost coded = { Prim.hlevel (codes, map.code) };

    ghost view = { λ r. record { earlier = r.earlier.now; parties = r.parties.items; story = r.history } };
}

/// The text behind its first bytes.
fn text_behind(text: &[u8], length: usize) -> &[u8]
    ensures { result.now ≡ drop length text.now }
{
    if length > text.len() {
        return &[];
    }
    let (_, behind) = text.split_at(length);
    behind
}

impl<'a, 'b> Reading<'a, 'b> {
    fn new(alloc: Global, seed: HashSeed, start: Start, earlier: &'b [Party]) -> Reading<'a, 'b>
        ensures earlier { result.earlier ≡ earlier.now }
        ensures parties { result.parties ≡ [] }
        ensures story { result.story ≡ record { held = held_in start.held; doubt = None; openings = []; entries = []; sources = [] } }
    {
        let Start { held, is_given } = start;
        Reading {
            alloc,
            seed,
            is_given,
            earlier,
            parties: Vec::new(alloc),
            history: History::new(alloc, held),
        }
    }

    /// What was read of the whole file.
    fn finish(self) -> Result<Transcript<'a>, ReplayFault>
        requires { (told : List Happening) × Tells told self.story.openings self.story.entries self.story.sources }
        ensures ok { IfOk result (IsToldBy self.entry.story) }
        ensures none { IfErr result (λ f. (f ≡ ReplayFault.Wrong 0) × (self.entry.story.openings ≡ [])) }
    {
        let Reading {
            alloc: _,
            seed: _,
            is_given: _,
            earlier: _,
            parties,
            history,
        } = self;
        drop(parties);
        history.into_transcript()
    }

    /// Reads what one run printed.
    fn take_run(
        &mut self,
        run: RunText<'a>,
        scratch: &mut Scratch,
        text: &mut String,
        words: &mut String,
    ) -> Result<(), ReplayFault>
        requires text { IsRunText run.bytes.now }
        requires numbers { HasNumbers run.number run.bytes.now }
        ensures ok { OnOk result (RunTaken self.old self.new run.entry.bytes.now run.entry.is_ended) }
        ensures err { IfErr result (λ f. f ≢ ReplayFault.Memory → RunRefused self.old run.entry.bytes.now run.entry.number (line_of f)) }
    {
        let Some((first, rest)) = split_feed(run.bytes) else {
            return Ok(());
        };
        let line = EchoedLine {
            number: run.number,
            bytes: first,
        };
        match read_numbered_setup(self.alloc, scratch, first) {
            Ok((setup, base)) => {
                let behind = behind_setup(line, rest, run.is_ended);
                self.take_setup(setup, base, behind, scratch, text, words)
            }
            Err(fault) => self.take_malformed(fault, line, rest, text, words),
        }
    }

    /// Reads what stands behind a first line that is no setup.
    fn take_malformed(
        &self,
        fault: JsonFault,
        line: EchoedLine<'a>,
        rest: &'a [u8],
        text: &mut String,
        words: &mut String,
    ) -> Result<(), ReplayFault>
        requires { line.number + 2 ≤ 9223372036854775808 }
        ensures ok { OnOk result (IsSaid fault rest.entry.now) }
        ensures err { IfErr result (λ f. f ≢ ReplayFault.Memory → IsNotSaid fault rest.entry.now line.entry.number f) }
    {
        if let JsonFault::Memory = fault {
            return Err(ReplayFault::Memory);
        }
        text.clear();
        if write_malformed(1, None, fault, text).is_err() {
            return Err(ReplayFault::Memory);
        }
        let told = text.as_bytes();
        if told.starts_with(rest) {
            return Ok(());
        }
        if self.history.is_empty() {
            let passed = if rest.starts_with(told) { 2 } else { 1 };
            return Err(ReplayFault::Wrong(line.number + passed));
        }
        let _ = tell_difference(told, rest, words);
        Err(ReplayFault::NotARun(line.number))
    }

    /// Reads what stands behind a setup line.
    fn take_setup(
        &mut self,
        setup: Setup,
        base: Option<Whole>,
        behind: Behind<'a>,
        scratch: &mut Scratch,
        text: &mut String,
        words: &mut String,
    ) -> Result<(), ReplayFault>
        requires piece { All (λ b. b ≢ 10) behind.piece.bytes.now }
        requires rest { IsRestOfRun behind.rest.now }
        requires numbers { HasNumbers (behind.line.number + 2) behind.rest.now }
        ensures ok { OnOk result (TakenBehind self.old self.new setup base behind.entry) }
        ensures err { IfErr result (λ f. f ≢ ReplayFault.Memory → RefusedBehind self.old setup base behind.entry f) }
    {
        match self.open(setup, base, behind, text, words) {
            Ok(Some(running)) => self.take_lines(running, behind, scratch, text, words),
            Ok(None) => Ok(()),
            Err(fault) => Err(fault),
        }
    }

    /// Begins with the node that was opened, if one was.
    fn open(
        &mut self,
        setup: Setup,
        base: Option<Whole>,
        behind: Behind<'a>,
        text: &mut String,
        words: &mut String,
    ) -> Result<Option<Running>, ReplayFault>
        requires piece { All (λ b. b ≢ 10) behind.piece.bytes.now }
        requires numbers { behind.line.number + 2 ≤ 9223372036854775808 }
        ensures some { IfOk result (λ o. IfSome o (BegunBehind self.old self.new setup base behind.entry)) }
        ensures none { IfOk result (λ o. IfNone o (TakenBehind self.old self.new setup base behind.entry)) }
        ensures err { IfErr result (λ f. f ≢ ReplayFault.Memory → RefusedBehind self.old setup base behind.entry f) }
    {
        match self.ways_over(&setup, self.history.held(), behind.piece, text) {
            Ok(Ways::Was(member, opened)) => {
                self.history.leave_out();
                let running = self.begin(setup, member, opened, base, behind)?;
                Ok(Some(running))
            }
            Ok(Ways::May(parties)) => self.open_behind(setup, parties, base, behind, text, words),
            Err(_) => Err(ReplayFault::Memory),
        }
    }

    /// Begins with the node that was opened over what the line in doubt left, if one was.
    fn open_behind(
        &mut self,
        setup: Setup,
        before: Vec<Party>,
        base: Option<Whole>,
        behind: Behind<'a>,
        text: &mut String,
        words: &mut String,
    ) -> Result<Option<Running>, ReplayFault>
        requires piece { All (λ b. b ≢ 10) behind.piece.bytes.now }
        requires before { AreCut self.old setup behind.piece.is_closed behind.piece.bytes.now self.old.story.held before.items }
        requires numbers { behind.line.number + 2 ≤ 9223372036854775808 }
        ensures some { IfOk result (λ o. IfSome o (BegunBehind self.old self.new setup base behind.entry)) }
        ensures none { IfOk result (λ o. IfNone o (TakenBehind self.old self.new setup base behind.entry)) }
        ensures err { IfErr result (λ f. f ≢ ReplayFault.Memory → RefusedBehind self.old setup base behind.entry f) }
    {
        match self.ways_behind(&setup, behind.piece, text) {
            Ok(Ways::Was(member, opened)) => {
                drop(before);
                self.history.take_in()?;
                let running = self.begin(setup, member, opened, base, behind)?;
                Ok(Some(running))
            }
            Ok(Ways::May(after)) => {
                match self.settle(&setup, before, after, behind, words) {
                    Ok(()) => Ok(None),
                    Err(fault) => Err(fault),
                }
            }
            Err(_) => {
                drop(before);
                Err(ReplayFault::Memory)
            }
        }
    }

    /// Settles of which of these parties the node may be, and whether the line in doubt took hold, where one way is left.
    fn settle(
        &mut self,
        setup: &Setup,
        before: Vec<Party>,
        after: Vec<Party>,
        behind: Behind<'a>,
        words: &mut String,
    ) -> Result<(), ReplayFault>
        requires doubt { self.old.story.doubt ≡ None → after.items ≡ [] }
        requires numbers { behind.line.number + 2 ≤ 9223372036854775808 }
        ensures ok { OnOk result (IsSettled self.old self.new before.items after.items) }
        ensures err { IfErr result (λ f. f ≢ ReplayFault.Memory → IsNoWay before.items after.items behind.entry.line.number (line_of f)) }
    {
        if after.is_empty() {
            drop(after);
            if before.is_empty() {
                drop(before);
                return Err(self.explain_opening(setup, behind, words));
            }
            self.history.leave_out();
            self.parties = before;
            return Ok(());
        }
        if before.is_empty() {
            drop(before);
            self.parties = after;
            self.history.take_in()?;
            return Ok(());
        }
        drop(after);
        self.parties = before;
        Ok(())
    }

    /// A run was opened, over what the store has.
    fn begin(
        &mut self,
        setup: Setup,
        member: usize,
        opened: Opened,
        base: Option<Whole>,
        behind: Behind<'a>,
    ) -> Result<Running, AllocError>
        requires way { IsWay self.old setup behind.piece.bytes.now self.old.story.held member opened }
        requires doubt { self.old.story.doubt ≡ None }
        ensures { IfOk result (BeginsBehind self.old self.new setup base behind.entry) }
    {
        let party = *setup.as_slice()[member].party();
        self.parties = only(self.alloc, party)?;
        let Opened { node, serial } = opened;
        let known = self.history.held().line;
        let rows = self.history.held().rows.len();
        let opening = self.history.open(Opening {
            line: behind.line,
            setup,
            member,
            told: behind.piece.bytes,
            rows,
            serial,
        })?;
        Ok(Running {
            alloc: self.alloc,
            node,
            party,
            opening,
            known,
            last: known,
            number: match base {
                Some(base) => base,
                None => known,
            },
        })
    }

    /// What is told of the opening of a node that it may be, where it is told.
    fn told_by(&self, setup: &Setup, piece: Piece<'a>) -> Result<Option<ToldOpening>, AllocError> {
        for node in setup.as_slice() {
            if self.may_be(node.party()) {
                if let Some(told) = told_opening(self.alloc, piece, node.party())? {
                    return Ok(Some(told));
                }
            }
        }
        Ok(None)
    }

    /// Why no node was opened so.
    fn explain_opening(&self, setup: &Setup, behind: Behind<'a>, words: &mut String) -> ReplayFault
        requires { behind.line.number + 2 ≤ 9223372036854775808 }
        ensures { result ≢ ReplayFault.Memory → NamesOpening behind.entry.line.number (line_of result) }
    {
        let line = behind.line.number;
        let told = match self.told_by(setup, behind.piece) {
            Ok(told) => told,
            Err(_) => return ReplayFault::Memory,
        };
        if self.history.is_empty() {
            if told.is_some() && !self.is_given {
                return ReplayFault::BegunLater(line);
            }
            return ReplayFault::Wrong(line + 1);
        }
        let before = self.history.held().line.value();
        let last = match self.history.behind() {
            Some(held) => held.line.value(),
            None => before,
        };
        if let Some(found) = told
            && let Some(number) = found.line
        {
            if number > last {
                return ReplayFault::LinesMissing(line);
            }
            if number < before && behind.piece.is_closed {
                let _ = tell_older(number, before, words);
            }
        }
        ReplayFault::NotARun(line)
    }

    /// Reads the lines behind an opening.
    fn take_lines(
        &mut self,
        running: Running,
        behind: Behind<'a>,
        scratch: &mut Scratch,
        text: &mut String,
        words: &mut String,
    ) -> Result<(), ReplayFault>
        requires place { suc running.opening ≡ length self.old.story.openings }
        requires doubt { self.old.story.doubt ≡ None }
        requires rest { IsRestOfRun behind.rest.now }
        requires numbers { HasNumbers (behind.line.number + 2) behind.rest.now }
        ensures ok { OnOk result (AreLinesTaken (shown running) behind.entry.rest.now behind.entry.is_ended self.old self.new) }
        ensures err { IfErr result (λ f. f ≢ ReplayFault.Memory → DiffersAt (shown running) behind.entry.rest.now (suc (suc behind.entry.line.number)) (line_of f)) }
    {
        let mut running = running;
        let mut rest = behind.rest;
        let mut number = behind.line.number + 2;
        loop {
            let Some((bytes, more)) = split_feed(rest) else {
                let line = EchoedLine {
                    number,
                    bytes: rest,
                };
                let is_in_doubt = behind.is_ended && !rest.is_empty();
                return self.end_run(running, line, is_in_doubt, scratch, text);
            };
            let line = EchoedLine { number, bytes };
            self.history.answer(scratch, &mut running, line, text)?;
            let told = text.as_bytes();
            if more.starts_with(told) {
                rest = text_behind(more, told.len());
                number = number + 1 + feeds_in(told);
            } else if told.starts_with(more) {
                let nothing = EchoedLine { number, bytes: &[] };
                return self.end_run(running, nothing, false, scratch, text);
            } else {
                let _ = tell_difference(told, more, words);
                let _ = tell_earlier(self.alloc, scratch, rest, words);
                return Err(ReplayFault::NotARun(number));
            }
        }
    }

    /// A run ended, or was stopped. With `is_in_doubt`, at that line: it was carried out, or was not.
    fn end_run(
        &mut self,
        running: Running,
        line: EchoedLine<'a>,
        is_in_doubt: bool,
        scratch: &mut Scratch,
        text: &mut String,
    ) -> Result<(), ReplayFault>
        ensures left { OnOk result (IsLeftBy (shown running) self.new.story.held) }
        ensures same { OnOk result (IsOtherwise self.old.story self.new.story) }
        ensures certain { is_in_doubt ≡ false → OnOk result (self.new.story.doubt ≡ self.old.story.doubt) }
        ensures doubts { is_in_doubt ≡ true → OnOk result (Doubts (shown running) line.entry.bytes.now (suc running.opening) self.new.story.doubt) }
        ensures node { OnOk result (IsSameNode self.old self.new) }
        ensures err { IfErr result (λ f. f ≡ ReplayFault.Memory) }
    {
        let mut running = running;
        self.history.leave(&running)?;
        if is_in_doubt {
            self.history.doubt(scratch, &mut running, line, text)?;
        }
        drop(running);
        Ok(())
    }
}

/// A list of that party. An error is want of memory.
fn only(alloc: Global, party: Party) -> Result<Vec<Party>, AllocError>
    ensures { IfOk result (λ parties. parties.items ≡ party ∷ []) }
{
    let mut parties = Vec::new(alloc);
    parties.push(party)?;
    Ok(parties)
}

/// Reads what a node printed with an echo, run behind run, over one store, from where that had what `start` says. The
/// node is none of the parties of `earlier`. Where the file is refused for what the node would have printed,
/// `words` gets that. `scratch` is memory for reading, whatever it holds.
pub fn read_transcript<'a>(
    alloc: Global,
    seed: HashSeed,
    scratch: &mut Scratch,
    text: &'a [u8],
    start: Start,
    earlier: &[Party],
    words: &mut String,
) -> Result<Transcript<'a>, ReplayFault>
    ensures read { IfOk result (IsTranscriptOf earlier.now start.held text.now) }
    ensures none { IfErr result (AccusesRightly earlier.now start.held text.now) }
    ensures line { IfErr result (BlamesNoLineBefore earlier.now start.held text.now) }
{
    start.is_numbered();
    let mut reading = Reading::new(alloc, seed, start, earlier);
    let mut printed = String::new(alloc);
    let mut runs = Runs::new(text);
    runs.is_numbered();
    while let Some(run) = runs.next() {
        match reading.take_run(run, scratch, &mut printed, words) {
            Ok(()) => {}
            Err(fault) => return Err(fault),
        }
    }
    reading.finish()
}
