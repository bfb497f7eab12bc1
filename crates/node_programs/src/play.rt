//! The program `play`: a world of nodes, which the first line sets up and at one of which each other line is an event.

ghost use Rattle.std.specs.Prelude.{◌≡◌, ◌≢◌, ◌++◌, ℕ, List, Option, None, Some, Ok, Err, true};
ghost use Rattle.std.specs.Prelude.{IfOk, IfErr, IsOk, OnOk, codes, string_bytes};
ghost use Rattle.json_text.specs.Fault.{Fails};
ghost use Rattle.ocpi_json.specs.EventForms.{event_in};
ghost use Rattle.ocpi_json.specs.SetupForms.{setup_in};
ghost use Rattle.ocpi_types.specs.declared.setup.Node.{Node as NodeOf};
ghost use Rattle.node_keepers.specs.Keeping.{AreOpened, AreUnopened, keeping_of};
ghost use Rattle.node_programs.specs.Play.{EventTurn, PlayBegins, PlayEndGives, PlayLineGives, PlayOutputs, PlayStops};
ghost use Rattle.node_programs.specs.Play.{SetupTurn, Stage, opening, owed_lines, played_from};
ghost use Rattle.world_steps.specs.World.{opened};
ghost use Rattle.line_runs.specs.Run.{ReadsFewLines};
ghost use Rattle.line_runs.specs.declared.outcome.Ran.TheVariants.{WithRefusals};
ghost use Rattle.line_runs.specs.declared.run.Turn.{Turn as TurnOf};
ghost use Rattle.node_programs.specs.Stops.{IfRun, IfStore};

use crate::debts::write_all_debts;
use crate::done_lines::{next_line, refuse_event, refuse_line, write_outcome};
use crate::fault::PlayFault;
use line_runs::{AnswerLines, LineReader, Ran, RunFault, Turn, run_whole};
use node_keepers::{Keeps, KeptNode, commit, open_all};
use node_steps::NodeFault;
use node_store::{Keep, StoreFault};
use ocpi_json::{JsonFault, Scratch, read_event, read_setup};
use ocpi_types::{Event, Setup};
use program_lines::refuse;
use std::alloc::{AllocError, Global};
use std::io::{BufRead, Write};
use std::marker::Model;
use tables::HashSeed;
use world::World;

/// The world, the setup that it was opened from, and the keepers of its nodes.
pub struct Played<K> {
    setup: Setup,
    world: World,
    kept: Vec<KeptNode<K>>,
}

/// What a derive would do, in a function of its own: so it is proved once, and not in each function that drops a world.
impl<K: Drop> Drop for Played<K> {
    fn drop(self) {
        let Played { setup, world, kept } = self;
        drop(setup);
        drop(world);
        drop(kept);
    }
}

impl<K> Model for Played<K> {
    ghost use Rattle.std.specs.Coded.{codes};
    ghost use Rattle.std.specs.FinMap as map;
    ghost use Rattle.node_programs.specs.Play.{Playing};

    ghost Value = { Playing K };

    ghost coded = { Prim.hlevel (codes, map.code, K.code) };

    ghost view = { λ p. record { setup = p.setup; world = p.world.places; kept = p.kept.items } };
}

impl<K> Played<K> {
    /// The world, and the keepers of its nodes in the order of the setup.
    pub fn into_parts(self) -> (World, Vec<KeptNode<K>>)
        ensures world { result.0.places ≡ self.world }
        ensures kept { result.1.items ≡ self.kept }
    {
        let Played { setup, world, kept } = self;
        drop(setup);
        (world, kept)
    }
}

/// What the lines so far have made: a world, from the first on; and why a store stopped the run, where one did. With
/// `--done` also the number of the last line.
#[derive(Drop)]
struct Program<K, S> {
    alloc: Global,
    seed: HashSeed,
    scratch: Scratch,
    keeps: S,
    played: Option<Played<K>>,
    stop: Option<StoreFault>,
    line: Option<u64>,
}

impl<K, S> Model for Program<K, S> {
    ghost use Rattle.std.specs.Coded.{codes};
    ghost use Rattle.std.specs.FinMap as map;
    ghost use Rattle.node_programs.specs.Play.{Counted};

    ghost Value = { Counted K };

    ghost coded = { Prim.hlevel (codes, map.code, K.code) };

    ghost view = { λ p. record { stage = record { playing = p.played; stop = p.stop }; line = p.line } };
}

impl<K, S> Program<K, S> {
    fn new(alloc: Global, seed: HashSeed, keeps: S, done: bool) -> Program<K, S>
        ensures { result ≡ opening done }
    {
        let line = if done { Some(0) } else { None };
        Program {
            alloc,
            seed,
            scratch: Scratch::new(alloc),
            keeps,
            played: None,
            stop: None,
            line,
        }
    }
}

impl<K, S: Drop> Program<K, S> {
    /// The world and its keepers as the lines left them, and why a store stopped the run.
    fn close(self) -> (Option<Played<K>>, Option<StoreFault>)
        ensures played { result.0 ≡ self.stage.playing }
        ensures stop { result.1 ≡ self.stage.stop }
    {
        let Program {
            alloc: _,
            seed: _,
            scratch,
            keeps,
            played,
            stop,
            line: _,
        } = self;
        drop(scratch);
        drop(keeps);
        (played, stop)
    }
}

impl<K: Keep + Drop, S: Keeps<Kept = K>> AnswerLines for Program<K, S> {
    ghost use Rattle.node_programs.specs.PlayCut.{play_cut_alike};

    ghost line_gives = { PlayLineGives (keeping_of K.content K.is_honest K.refusals) S.may_refuse };

    ghost end_gives = { PlayEndGives };

    fn answer_line(&mut self, line: &[u8], output: &mut String) -> Result<Turn, AllocError> {
        self.line = next_line(self.line);
        match &mut self.played {
            None => {}
            Some(played) => {
                return play_event(
                    self.alloc,
                    &mut self.scratch,
                    played,
                    &mut self.stop,
                    self.line,
                    line,
                    output,
                );
            }
        }
        play_setup(
            self.alloc,
            self.seed,
            &mut self.scratch,
            &mut self.keeps,
            &mut self.played,
            &mut self.stop,
            line,
            output,
        )
    }

    fn answer_end(&self, output: &mut String) -> Result<Ran, AllocError> {
        match &self.played {
            None => {
                refuse(output, JsonFault::Syntax)?;
                Ok(Ran::WithRefusals)
            }
            Some(played) => {
                write_owed(self.alloc, played, output)?;
                Ok(Ran::Whole)
            }
        }
    }

    ghost cut_alike = { play_cut_alike (keeping_of K.content K.is_honest K.refusals) S.may_refuse };
}

/// The setup of a line, and its world, in which nothing has happened.
fn open(
    alloc: Global,
    seed: HashSeed,
    scratch: &mut Scratch,
    line: &[u8],
) -> Result<(Setup, World), JsonFault>
    ensures ok { IfOk result (λ p. (setup_in line.now ≡ Ok p.0) × (p.1.places ≡ opened p.0)) }
    ensures err { IfErr result (λ fault. Fails fault (setup_in line.now)) }
{
    let setup = read_setup(alloc, scratch, line)?;
    let world = World::open(alloc, seed, &setup)?;
    Ok((setup, world))
}

/// Opens the keepers of a world that was opened.
fn keep_world<S: Keeps>(
    alloc: Global,
    keeps: &mut S,
    setup: Setup,
    world: World,
) -> Result<Played<S::Kept>, StoreFault>
    ensures ok { IfOk result (λ p. (p.setup ≡ setup) × (p.world ≡ world.places)
        × AreOpened (keeping_of S.Kept.content S.Kept.is_honest S.Kept.refusals) setup p.kept) }
    ensures err { IfErr result (AreUnopened (keeping_of S.Kept.content S.Kept.is_honest S.Kept.refusals) S.may_refuse setup) }
{
    let kept = open_all(alloc, keeps, setup.as_slice())?;
    Ok(Played { setup, world, kept })
}

/// Opens the world of a setup line, where there is none.
fn play_setup<K: Keep + Drop, S: Keeps<Kept = K>>(
    alloc: Global,
    seed: HashSeed,
    scratch: &mut Scratch,
    keeps: &mut S,
    played: &mut Option<Played<K>>,
    stop: &mut Option<StoreFault>,
    line: &[u8],
    output: &mut String,
) -> Result<Turn, AllocError>
    requires { played.old ≡ None }
    ensures ok { IfOk result (λ turn. (out : List ℕ) × (string_bytes output.new ≡ string_bytes output.old ++ out)
        × SetupTurn (keeping_of K.content K.is_honest K.refusals) S.may_refuse stop.old line.now turn out
        (record { playing = played.new; stop = stop.new })) }
    ensures err { IfErr result (λ _. (turn : TurnOf) × (out : List ℕ)
        × SetupTurn (keeping_of K.content K.is_honest K.refusals) S.may_refuse stop.old line.now turn out
        (record { playing = played.new; stop = stop.new })) }
{
    let (setup, world) = match open(alloc, seed, scratch, line) {
        Ok(opened) => opened,
        Err(fault) => {
            refuse(output, fault)?;
            return Ok(Turn::Ended);
        }
    };
    match keep_world(alloc, keeps, setup, world) {
        Ok(kept) => {
            *played = Some(kept);
            Ok(Turn::Taken)
        }
        Err(fault) => {
            *stop = Some(fault);
            Ok(Turn::Ended)
        }
    }
}

/// Lets an event that was read happen, has its changes kept, and then writes what comes of it. Where memory runs out
/// for it, it is refused. Where they are not kept, nothing is written, and the run ends.
fn play_read<K: Keep>(
    alloc: Global,
    played: &mut Played<K>,
    stop: &mut Option<StoreFault>,
    number: Option<u64>,
    event: &Event,
    output: &mut String,
) -> Result<Turn, AllocError>
    ensures ok { IfOk result (λ turn. (out : List ℕ) × (string_bytes output.new ≡ string_bytes output.old ++ out)
        × ((line : List ℕ) → event_in line ≡ Ok event.now
        → EventTurn (keeping_of K.content K.is_honest K.refusals) number stop.old played.old line turn out
        (record { playing = Some played.new; stop = stop.new }))) }
    ensures err { IfErr result (λ _. (turn : TurnOf) × (out : List ℕ)
        × ((line : List ℕ) → event_in line ≡ Ok event.now
        → EventTurn (keeping_of K.content K.is_honest K.refusals) number stop.old played.old line turn out
        (record { playing = Some played.new; stop = stop.new }))) }
{
    let Ok(outcome) = played.world.step(event) else {
        refuse_event(number, NodeFault::Memory, output)?;
        return Ok(Turn::Refused);
    };
    match commit(&mut played.kept, &event.node, played.world.changes()) {
        Ok(()) => {}
        Err(fault) => {
            *stop = Some(fault);
            return Ok(Turn::Ended);
        }
    }
    let packets = played.world.packets();
    write_outcome(
        alloc,
        number,
        outcome,
        packets,
        played.world.changes(),
        output,
    )
}

/// Reads a line's event and lets it happen.
fn play_event<K: Keep>(
    alloc: Global,
    scratch: &mut Scratch,
    played: &mut Played<K>,
    stop: &mut Option<StoreFault>,
    number: Option<u64>,
    line: &[u8],
    output: &mut String,
) -> Result<Turn, AllocError>
    ensures ok { IfOk result (λ turn. (out : List ℕ) × (string_bytes output.new ≡ string_bytes output.old ++ out)
        × EventTurn (keeping_of K.content K.is_honest K.refusals) number stop.old played.old line.now turn out
        (record { playing = Some played.new; stop = stop.new })) }
    ensures err { IfErr result (λ _. (turn : TurnOf) × (out : List ℕ)
        × EventTurn (keeping_of K.content K.is_honest K.refusals) number stop.old played.old line.now turn out
        (record { playing = Some played.new; stop = stop.new })) }
{
    match read_event(alloc, scratch, line) {
        Ok(event) => play_read(alloc, played, stop, number, &event, output),
        Err(fault) => {
            refuse_line(number, fault, output)?;
            Ok(Turn::Refused)
        }
    }
}

/// Adds a line for each provider and each operator: what is owed.
fn write_owed<K>(alloc: Global, played: &Played<K>, output: &mut String) -> Result<(), AllocError>
    ensures { OnOk result (string_bytes output.new ≡ string_bytes output.old ++ owed_lines played.now) }
{
    write_all_debts(alloc, &played.world, played.setup.as_slice(), output)
}

/// How a run went that a store may have stopped.
fn ended(ran: Result<Ran, RunFault>, stop: Option<StoreFault>) -> Result<Ran, PlayFault>
    ensures ok { IfOk result (λ r. (ran ≡ Ok r) × (stop ≡ None)) }
    ensures run { IfErr result (IfRun (λ fault. ran ≡ Err fault)) }
    ensures store { IfErr result (IfStore (λ fault. IsOk ran × (stop ≡ Some fault))) }
{
    match ran {
        Ok(ran) => match stop {
            Some(fault) => Err(PlayFault::Store(fault)),
            None => Ok(ran),
        },
        Err(fault) => Err(PlayFault::Run(fault)),
    }
}

/// Plays the events of an input in a world of nodes. The first line that holds something is the setup, and each other
/// an event at one of its nodes; each packet that the node sends is one line. An event that is of no node is written
/// as `skipped`. A line that is refused is written as `refused`, its number and its name, changes nothing, and the
/// next follows; a refused or absent setup ends the run. At the end what each provider owes each operator is one line.
///
/// With `done` one line more stands behind the packets of each event, or in place of `skipped` or `refused`. It says by
/// the number of the line what became of it: `stepped` with how many packets, `idle`, `skipped`, `refused`, or
/// `malformed` of a line that is no event. Lines that hold something are counted, the setup as 1. A refused setup, and
/// what is owed, are written as without.
///
/// Each node has a keeper of its rows, opened once the setup was read, in its order, and the rows that an event changes
/// are committed to it before the packets of the event are written (no clause says when). Where one of these is refused
/// the run ends, of that line nothing is written, and `Store` tells the fault of the refusal, unless the last flush
/// fails too. A keeper counts the calls that it refuses, but not want of memory, so that no clause ties
/// `StoreFault::Memory` to a refusal. `left` gets the world with its keepers as the run left them; none, where the
/// nodes of no setup got any. However the run ends, they keep what the lines that were carried out made of them. Where
/// a write failed, that is all those before and the one whose output was not written whole.
///
/// Where the run was not stopped, what is written is the output of the input. Where it was stopped, what is written is
/// a beginning of that: by a failed read or too many reads, what exactly the lines that were read whole give; by a
/// store, what the lines before give. At most 1,000,000,000 lines are read. What was answered is flushed before each
/// read that may wait, and at the end.
pub fn run_play<R: BufRead, W: Write, S: Keeps + Drop>(
    alloc: Global,
    seed: HashSeed,
    input: &mut LineReader<R>,
    writer: &mut W,
    keeps: S,
    done: bool,
    left: &mut Option<Played<S::Kept>>,
) -> Result<Ran, PlayFault>
    ensures output { IfOk result (λ ran. PlayOutputs (keeping_of S.Kept.content S.Kept.is_honest S.Kept.refusals) S.may_refuse done
        (R.Read.remaining input.old.reader) ran None (W.contents writer.old) (W.contents writer.new) left.new) }
    ensures begun { IfErr result (IfRun (λ fault. PlayBegins (keeping_of S.Kept.content S.Kept.is_honest S.Kept.refusals) S.may_refuse done
        (R.Read.remaining input.old.reader) (W.contents writer.old) (W.contents writer.new) left.new)) }
    ensures stopped { IfErr result (IfRun (λ fault. fault ≢ RunFault.WriteFailed
        → PlayStops (keeping_of S.Kept.content S.Kept.is_honest S.Kept.refusals) S.may_refuse done fault
        (R.Read.remaining input.old.reader) (R.Read.remaining input.new.reader)
        (W.contents writer.old) (W.contents writer.new) left.new)) }
    ensures store { IfErr result (IfStore (λ fault. PlayOutputs (keeping_of S.Kept.content S.Kept.is_honest S.Kept.refusals) S.may_refuse done
        (R.Read.remaining input.old.reader) WithRefusals (Some fault) (W.contents writer.old) (W.contents writer.new) left.new)) }
    ensures failed { result ≡ Err (PlayFault.Run RunFault.ReadFailed) → input.new.failed ≡ true }
    ensures reads { ReadsFewLines (R.Read.remaining input.old.reader) (R.Read.remaining input.new.reader) }
{
    let mut playing: Program<S::Kept, S> = Program::new(alloc, seed, keeps, done);
    let ran = run_whole(alloc, &mut playing, input, writer);
    let (played, stop) = playing.close();
    *left = played;
    ended(ran, stop)
}
