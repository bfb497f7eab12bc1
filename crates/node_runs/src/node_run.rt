//! The program `node`: a node of a setup, which the first line names, and an event, or several, on each other line.

ghost use Rattle.std.specs.Prelude.{◌≡◌, ◌≢◌, ◌≤◌, ◌++◌, List, None, Some, Ok, Err, true, ℕ};
ghost use Rattle.std.specs.Prelude.{IfErr, IfOk, IsOk, OnErr, OnOk, string_bytes};
ghost use Rattle.line_runs.specs.Run.{ReadsFewLines};
ghost use Rattle.line_runs.specs.declared.outcome.Ran.TheVariants.{WithRefusals};
ghost use Rattle.line_runs.specs.declared.run.Turn.TheVariants.{Ended, Refused, Taken};
ghost use Rattle.json_text.specs.Fault.{Fails as FailsToRead};
ghost use Rattle.node_steps.specs.declared.fault.NodeFault.TheVariants.{NumbersUsedUp};
ghost use Rattle.node_runs.specs.declared.fault.NodeStop.TheVariants.{Memory};
ghost use Rattle.ocpi_text.specs.Whole.{max_whole};
ghost use Rattle.stored_nodes.specs.Keepers.{keeper_of};
ghost use Rattle.node_keepers.specs.Opening.{source_of};
ghost use Rattle.node_runs.specs.NodeOutputs.{IsKept, NodeBegins, NodeOutputs, NodeStops, asked_for};
ghost use Rattle.node_runs.specs.Afters.{IsAfter, IsTold};
ghost use Rattle.node_runs.specs.NodeAnswers.{BehindTurn, NodeEndGives, NodeLineGives};
ghost use Rattle.node_runs.specs.DoneLines.{known_line, refused_line};
ghost use Rattle.node_runs.specs.NodeTurns.{SetupTurn, keep_in, number_from, opening};
ghost use Rattle.node_runs.specs.declared.list_lines.After.{After as AfterOf};
ghost use Rattle.node_runs.specs.SetupLines.{IsBase, numbered_setup_in};
ghost use Rattle.node_runs.specs.Stages.{GoesOnWith, IsOpenedWith, stopped_stage};
ghost use Rattle.node_runs.specs.Stops.{IfRun, IfStop};

use crate::beginning::{Begun, Running, Unbegun, begin};
use crate::begun_run::run_begun;
use crate::behind_setup::{add_written, answer_behind_setup, is_starved, tell_written};
use crate::done_lines::{write_known, write_malformed, write_opened, write_refused};
use crate::fault::{NodeRunFault, NodeStop};
use crate::list_lines::After;
use crate::setup_line::read_numbered_setup;
use line_runs::{AnswerNumbered, LineReader, Ran, RunFault, Turn};
use node_keepers::Keeps;
use node_steps::NodeFault;
use node_store::{Keep, LineNumber};
use ocpi_json::{JsonFault, Scratch};
use ocpi_text::{Party, Whole};
use ocpi_types::Setup;
use std::alloc::{AllocError, Global};
use std::io::{BufRead, Write};
use std::marker::Model;
use tables::HashSeed;

/// What the lines so far have made: a node, from the first on, or a keeper of which none was made; and what stopped the
/// run, where that was neither reading nor writing.
#[derive(Drop)]
struct Program<K: Keep, S: Keeps<Kept = K>> {
    alloc: Global,
    seed: HashSeed,
    scratch: Scratch,
    wanted: Option<Party>,
    keeps: S,
    running: Option<Running<K>>,
    spare: Option<K>,
    stop: Option<NodeStop>,
    /// The number of the last line, from 1 on once the node runs.
    number: Whole,
    /// That of the last line that had taken hold as the node was opened.
    known: Whole,
    /// Room for what comes of a line.
    text: String,
}

impl<K: Keep, S: Keeps<Kept = K>> Model for Program<K, S> {
    ghost use Rattle.std.specs.Coded.{codes};
    ghost use Rattle.std.specs.FinMap as map;
    ghost use Rattle.node_runs.specs.NodeTurns.{Stage};
    ghost use Rattle.node_runs.specs.Stages.{IsCounted};

    ghost Value = { Stage K };

    ghost coded = { Prim.hlevel (codes, map.code, K.code) };

    ghost view = { λ p. record {
      wanted = p.wanted;
      opened = S.opened p.keeps;
      running = p.running;
      spare = p.spare;
      stop = p.stop;
      number = p.number;
      known = p.known;
    } };

    ghost invariant = { λ p. IsCounted p.running p.number };
}

/// The number from which the lines behind a setup are counted on.
fn number_from(base: Option<Whole>, last: Whole) -> Whole
    ensures { result ≡ number_from base last }
{
    match base {
        Some(base) => base,
        None => last,
    }
}

/// No line was read.
fn no_number() -> Whole
    ensures { result ≡ 0 }
{
    match Whole::new(0) {
        Some(number) => number,
        None => unreachable!(),
    }
}

impl<K: Keep, S: Keeps<Kept = K>> Program<K, S> {
    fn new(alloc: Global, seed: HashSeed, wanted: Option<Party>, keeps: S) -> Program<K, S>
        ensures { result ≡ opening wanted (S.opened keeps) }
    {
        Program {
            alloc,
            seed,
            scratch: Scratch::new(alloc),
            wanted,
            keeps,
            running: None,
            spare: None,
            stop: None,
            number: no_number(),
            known: no_number(),
            text: String::new(alloc),
        }
    }
}

impl<K: Keep + Drop, S: Keeps<Kept = K> + Drop> Program<K, S> {
    /// The keeper, where one was opened, as the lines left it, and what stopped the run.
    fn close(self) -> (Option<K>, Option<NodeStop>)
        ensures kept { result.0 ≡ keep_in self.running self.spare }
        ensures stored { IsKept (keeper_of K.content K.is_honest K.refusals K.may_leave) self.running }
        ensures stop { result.1 ≡ self.stop }
    {
        let Program {
            alloc: _,
            seed: _,
            scratch,
            wanted: _,
            keeps,
            running,
            spare,
            stop,
            number: _,
            known: _,
            text,
        } = self;
        drop(text);
        drop(scratch);
        drop(keeps);
        match running {
            Some(running) => {
                drop(spare);
                (Some(running.into_keep()), stop)
            }
            None => (spare, stop),
        }
    }
}

impl<K: Keep + Drop, S: Keeps<Kept = K>> AnswerNumbered for Program<K, S> {
    ghost use Rattle.node_runs.specs.NodeCut.{node_cut_alike};

    ghost line_gives = { NodeLineGives (keeper_of K.content K.is_honest K.refusals K.may_leave) (source_of S.may_refuse S.found) };

    ghost end_gives = { NodeEndGives };

    fn answer_line(
        &mut self,
        _place: u64,
        line: &[u8],
        output: &mut String,
    ) -> Result<Turn, AllocError> {
        match self.running.take() {
            None => Ok(self.answer_setup(line, output)),
            Some(running) => Ok(self.answer_next(running, line, output)),
        }
    }

    fn answer_end(&self, output: &mut String) -> Result<Ran, AllocError> {
        match &self.running {
            None => {
                write_malformed(0, None, JsonFault::Syntax, output)?;
                Ok(Ran::WithRefusals)
            }
            Some(_) => Ok(Ran::Whole),
        }
    }

    ghost cut_alike = { node_cut_alike (keeper_of K.content K.is_honest K.refusals K.may_leave) (source_of S.may_refuse S.found) };
}

impl<K: Keep + Drop, S: Keeps<Kept = K>> Program<K, S> {
    /// Opens the node of a setup line.
    fn answer_setup(&mut self, line: &[u8], output: &mut String) -> Turn
        requires { self.old.running ≡ None }
        ensures { (out : List ℕ) × (string_bytes output.new ≡ string_bytes output.old ++ out)
            × SetupTurn (keeper_of K.content K.is_honest K.refusals K.may_leave) (source_of S.may_refuse S.found) self.old line.now result out self.new }
    {
        self.text.clear();
        match read_numbered_setup(self.alloc, &mut self.scratch, line) {
            Ok((setup, base)) => self.begin_node(setup, base, output),
            Err(fault) => self.refuse_setup(fault, output),
        }
    }

    /// Says why the first line is no setup.
    fn refuse_setup(&mut self, fault: JsonFault, output: &mut String) -> Turn
        requires { self.old.running ≡ None }
        ensures { (line : List ℕ) → FailsToRead fault (numbered_setup_in line) → (out : List ℕ) × (string_bytes output.new ≡ string_bytes output.old ++ out)
            × SetupTurn (keeper_of K.content K.is_honest K.refusals K.may_leave) (source_of S.may_refuse S.found) self.old line result out self.new }
    {
        if is_starved(fault) {
            return self.starve();
        }
        self.text.clear();
        let written = write_malformed(1, None, fault, &mut self.text);
        match add_written(written, self.text.as_str(), output) {
            Ok(()) => Turn::Ended,
            Err(_) => self.starve(),
        }
    }

    /// Memory ran out.
    fn starve(&mut self) -> Turn
        ensures turn { result ≡ Ended }
        ensures stage { self.new ≡ stopped_stage self.old Memory }
    {
        self.stop = Some(NodeStop::Memory);
        Turn::Ended
    }

    /// Opens the node of a setup, and says so.
    fn begin_node(&mut self, setup: Setup, base: Option<Whole>, output: &mut String) -> Turn
        requires none { self.old.running ≡ None }
        requires least { IsBase base }
        ensures { (line : List ℕ) → numbered_setup_in line ≡ Ok (setup, base) → (out : List ℕ) × (string_bytes output.new ≡ string_bytes output.old ++ out)
            × SetupTurn (keeper_of K.content K.is_honest K.refusals K.may_leave) (source_of S.may_refuse S.found) self.old line result out self.new }
    {
        match begin(self.alloc, self.seed, &mut self.keeps, &self.wanted, setup) {
            Ok(begun) => self.take_begun(begun, base, output),
            Err(unbegun) => {
                let Unbegun { keep, stop } = unbegun;
                self.spare = keep;
                self.stop = Some(stop);
                Turn::Ended
            }
        }
    }

    /// Goes on with a node that was opened, and says so.
    fn take_begun(&mut self, begun: Begun<K>, base: Option<Whole>, output: &mut String) -> Turn
        requires { 1 ≤ number_from base begun.line }
        ensures { IsOpenedWith self.old begun base (string_bytes output.old) (string_bytes output.new) result self.new }
    {
        let Begun {
            running,
            rows,
            line,
        } = begun;
        let party = running.party;
        let serial = running.node.node().last_serial();
        self.running = Some(running);
        self.known = line;
        self.number = number_from(base, line);
        self.text.clear();
        let written = write_opened(
            self.alloc,
            line.value(),
            &party,
            rows,
            serial,
            &mut self.text,
        );
        match add_written(written, self.text.as_str(), output) {
            Ok(()) => Turn::Taken,
            Err(_) => self.starve(),
        }
    }

    /// Answers the line of the next number.
    fn answer_next(&mut self, running: Running<K>, line: &[u8], output: &mut String) -> Turn
        requires none { self.old.running ≡ None }
        requires counted { 1 ≤ self.old.number }
        ensures { (out : List ℕ) × (string_bytes output.new ≡ string_bytes output.old ++ out)
            × BehindTurn (keeper_of K.content K.is_honest K.refusals K.may_leave) running self.old line.now result out self.new }
    {
        running.is_stored();
        let Some(number) = self.number.next() else {
            let _bound = self.number.value();
            return self.refuse_beyond(running, output);
        };
        self.number = number;
        if number.value() <= self.known.value() {
            return self.tell_known(running, output);
        }
        self.answer_new(running, line, output)
    }

    /// Says that there is no number for the line.
    fn refuse_beyond(&mut self, running: Running<K>, output: &mut String) -> Turn
        requires none { self.old.running ≡ None }
        requires counted { 1 ≤ self.old.number }
        ensures { (after : AfterOf K) × IsTold running Refused (refused_line max_whole None NumbersUsedUp) (string_bytes output.old) (string_bytes output.new) after
            × GoesOnWith self.old after result self.new }
    {
        self.text.clear();
        let written = write_refused(Whole::MAX, None, NodeFault::NumbersUsedUp, &mut self.text);
        let after = tell_written(running, written, Turn::Refused, self.text.as_str(), output);
        self.take_after(after)
    }

    /// Says that the line of the last number had taken hold before the run.
    fn tell_known(&mut self, running: Running<K>, output: &mut String) -> Turn
        requires none { self.old.running ≡ None }
        requires counted { 1 ≤ self.old.number }
        ensures { (after : AfterOf K) × IsTold running Taken (known_line self.old.number) (string_bytes output.old) (string_bytes output.new) after
            × GoesOnWith self.old after result self.new }
    {
        self.text.clear();
        let written = write_known(self.number.value(), &mut self.text);
        let after = tell_written(running, written, Turn::Taken, self.text.as_str(), output);
        self.take_after(after)
    }

    /// Reads the line of the last number, and lets happen what it asks for.
    fn answer_new(&mut self, running: Running<K>, line: &[u8], output: &mut String) -> Turn
        requires none { self.old.running ≡ None }
        requires counted { 2 ≤ self.old.number }
        ensures { (after : AfterOf K)
            × IsAfter (keeper_of K.content K.is_honest K.refusals K.may_leave) running self.old.number line.now (string_bytes output.old) (string_bytes output.new) after
            × GoesOnWith self.old after result self.new }
    {
        let Some(number) = LineNumber::new(self.number) else {
            unreachable!()
        };
        let after = answer_behind_setup(
            self.alloc,
            &mut self.scratch,
            running,
            number,
            line,
            &mut self.text,
            output,
        );
        self.take_after(after)
    }

    /// Goes on with what a line behind the setup left. Where the node has ended, its keeper is what is left.
    fn take_after(&mut self, after: After<K>) -> Turn
        requires none { self.old.running ≡ None }
        requires counted { 1 ≤ self.old.number }
        ensures { GoesOnWith self.old after result self.new }
    {
        match after {
            After::Runs { running, turn } => {
                self.running = Some(running);
                turn
            }
            After::Lost { keep, stop } => {
                self.spare = Some(keep);
                self.stop = Some(stop);
                Turn::Ended
            }
        }
    }
}

/// The party that a word spells, where it spells one.
fn asked_for(word: &str) -> Option<Party>
    ensures { result ≡ asked_for word.now }
{
    match Party::read(word) {
        Ok(party) => Some(party),
        Err(_) => None,
    }
}

/// How a run went that the node may have stopped.
fn ended(ran: Result<Ran, RunFault>, stop: Option<NodeStop>) -> Result<Ran, NodeRunFault>
    ensures ok { IfOk result (λ r. (ran ≡ Ok r) × (stop ≡ None)) }
    ensures run { IfErr result (IfRun (λ fault. ran ≡ Err fault)) }
    ensures node { IfErr result (IfStop (λ fault. IsOk ran × (stop ≡ Some fault))) }
{
    match ran {
        Ok(ran) => match stop {
            Some(stop) => Err(NodeRunFault::Stop(stop)),
            None => Ok(ran),
        },
        Err(fault) => Err(NodeRunFault::Run(fault)),
    }
}

/// Runs one node of a setup for as long as lines come. The first line that holds something is the setup, in which
/// `party` names the node, compared without case. Each other is an event, or an array of at most 256 events. Each
/// packet that the node sends for an event is a line, and after these comes one that says what became of it, by the
/// number of the line. An event of another node, or of the other role, is skipped. A line that is refused changes
/// nothing, and the next follows; a refused or absent setup ends the run. With `echo` two line feeds are written first,
/// and each line that holds something is written as it came, before what it gives.
///
/// The setup is line 1. The lines behind it that hold something are counted on from the number in its member `line`,
/// else from that of the last line that took hold, which the keeper has. What a line changes is committed with its
/// number. A line whose number is not above that which the keeper had is answered `known`, and not read.
///
/// The events of an array are carried out one after another, as if each were a line, and committed together. What
/// became of each tells its place too, from 0, and behind them a line says that all are done. One that is malformed,
/// refused or another's touches no other. `[]` commits nothing.
///
/// The keeper of the node is opened once, as that of the first place, behind the setup and the party; where the setup
/// is refused or has no such party, none is. It is made of what was found for that place, and the node of the rows that
/// it keeps. The rows that a line changes are committed before its packets are written (no clause says when). Where
/// none of this can be had, where a commit is refused, and where memory runs out at any line, the run ends, of that
/// line nothing is written but its echo, and `Stop` tells why, unless the last flush fails too. `kept` gets the keeper
/// as the run left it, where one was opened. However the run ends, it keeps what the lines that were carried out made
/// of it, each line whole or not at all. Where a write failed, that is all those before and the one whose output was
/// not written whole.
///
/// Where the run was not stopped, what is written is the output of the input. Where it was stopped, what is written is
/// a beginning of that: by a failed read or too many reads, what exactly the lines that were read whole give; by the
/// node, what the lines before give. At most 1,000,000,000 lines are read. What a line gives is flushed before the next
/// is read, and an echo before its line is carried out.
pub fn run_node<R: BufRead, W: Write, S: Keeps + Drop>(
    alloc: Global,
    seed: HashSeed,
    input: &mut LineReader<R>,
    writer: &mut W,
    party: &str,
    echo: bool,
    keeps: S,
    kept: &mut Option<S::Kept>,
) -> Result<Ran, NodeRunFault>
    ensures output { IfOk result (λ ran. NodeOutputs (keeper_of S.Kept.content S.Kept.is_honest S.Kept.refusals S.Kept.may_leave)
        (source_of S.may_refuse S.found) (S.opened keeps) party.now echo (R.Read.remaining input.old.reader) ran None (W.contents writer.old) (W.contents writer.new) kept.new) }
    ensures begun { IfErr result (IfRun (λ fault. NodeBegins (keeper_of S.Kept.content S.Kept.is_honest S.Kept.refusals S.Kept.may_leave)
        (source_of S.may_refuse S.found) (S.opened keeps) party.now echo (R.Read.remaining input.old.reader) (W.contents writer.old) (W.contents writer.new) kept.new)) }
    ensures stopped { IfErr result (IfRun (λ fault. fault ≢ RunFault.WriteFailed → NodeStops (keeper_of S.Kept.content S.Kept.is_honest S.Kept.refusals S.Kept.may_leave)
        (source_of S.may_refuse S.found) (S.opened keeps) party.now echo fault (R.Read.remaining input.old.reader)
        (R.Read.remaining input.new.reader) (W.contents writer.old) (W.contents writer.new) kept.new)) }
    ensures node { IfErr result (IfStop (λ stop. NodeOutputs (keeper_of S.Kept.content S.Kept.is_honest S.Kept.refusals S.Kept.may_leave)
        (source_of S.may_refuse S.found) (S.opened keeps) party.now echo (R.Read.remaining input.old.reader) WithRefusals (Some stop)
        (W.contents writer.old) (W.contents writer.new) kept.new)) }
    ensures failed { result ≡ Err (NodeRunFault.Run RunFault.ReadFailed) → input.new.failed ≡ true }
    ensures reads { ReadsFewLines (R.Read.remaining input.old.reader) (R.Read.remaining input.new.reader) }
{
    let wanted = asked_for(party);
    let mut program: Program<S::Kept, S> = Program::new(alloc, seed, wanted, keeps);
    let ran = run_begun(alloc, &mut program, input, writer, echo);
    let (left, stop) = program.close();
    *kept = left;
    ended(ran, stop)
}
