//! What comes of a line of several events, which are carried out one after another and committed together.

ghost use Rattle.std.specs.Prelude.{◌≡◌, ◌≢◌, ◌<◌, ◌+◌, ◌≤◌, ◌++◌, List, [], IfOk, Ok, Option, Some, false, length, slice_get, string_bytes, string_capacity, string_len, ℕ};
ghost use Rattle.json_text.specs.Fault.{Read};
ghost use Rattle.stored_nodes.specs.Keepers.{keeper_of};
ghost use Rattle.node_lines.specs.NodeLines.{node_line_in};
ghost use Rattle.node_lines.specs.declared.node_line.NodeLine.TheVariants.{Several};
ghost use Rattle.ocpi_types.specs.declared.node_events.NodeEvent.{NodeEvent as NodeEventOf};
ghost use Rattle.node_runs.specs.Afters.{DoesAll, DoesPlaced, IsAfter, IsCommitted, TellsRefusal, turn_behind};
ghost use Rattle.node_runs.specs.DoneLines.{malformed_line};

use crate::beginning::Running;
use crate::done_lines::{write_all, write_malformed, write_refused, write_skipped};
use crate::event_lines::write_applied;
use crate::fault::NodeStop;
use line_runs::Turn;
use node_lines::Elements;
use node_store::{Keep, LineNumber};
use ocpi_json::JsonFault;
use ocpi_text::Party;
use ocpi_types::NodeEvent;
use std::alloc::{AllocError, Global};
use stored_nodes::{StepFault, Transaction, Uncommitted};

/// What a line behind the setup left of the node.
#[derive(Drop)]
pub enum After<K: Keep> {
    /// The node runs on. `turn` says how the line was answered.
    Runs { running: Running<K>, turn: Turn },
    /// The node has ended, and nothing of the line is written.
    Lost { keep: K, stop: NodeStop },
}

/// Carries out the events of a line one after another, commits them together, and then writes what came of each. `lines`
/// is room for that.
///
/// Where memory runs out, or the commit is refused, the node ends: nothing of the line is written.
pub fn answer_list<K: Keep>(
    alloc: Global,
    running: Running<K>,
    elements: &Elements<'_>,
    number: LineNumber,
    lines: &mut String,
    output: &mut String,
) -> After<K>
    requires { string_bytes lines.old ≡ [] }
    ensures { (line : List ℕ) → node_line_in line ≡ Ok (Several elements.now)
        → IsAfter (keeper_of K.content K.is_honest K.refusals K.may_leave) running number line (string_bytes output.old) (string_bytes output.new) result }
{
    let (party, node) = running.into_parts();
    let mut transaction = node.begin();
    let answered = answer_all(
        alloc,
        &party,
        &mut transaction,
        elements,
        number.value().value(),
        lines,
    );
    match answered {
        Ok(turn) => commit_all(party, transaction, number, turn, lines.as_str(), output),
        Err(_) => After::Lost {
            keep: transaction.abandon(),
            stop: NodeStop::Memory,
        },
    }
}

/// Commits what the events of a line changed, once there is room for what came of them, and then adds that to `output`.
fn commit_all<K: Keep>(
    party: Party,
    transaction: Transaction<K>,
    number: LineNumber,
    turn: Turn,
    lines: &str,
    output: &mut String,
) -> After<K>
    ensures { IsCommitted (keeper_of K.content K.is_honest K.refusals K.may_leave) party number transaction turn lines.now (string_bytes output.old) (string_bytes output.new) result }
{
    match output.reserve(lines.len()) {
        Ok(()) => {}
        Err(_) => {
            return After::Lost {
                keep: transaction.abandon(),
                stop: NodeStop::Memory,
            };
        }
    }
    match transaction.commit(Some(number)) {
        Ok(node) => {
            add_within(lines, output);
            After::Runs {
                running: Running { party, node },
                turn,
            }
        }
        Err(uncommitted) => {
            let Uncommitted { keep, fault } = uncommitted;
            After::Lost {
                keep,
                stop: NodeStop::Store(fault),
            }
        }
    }
}

/// Adds a text for which there is room.
pub fn add_within(text: &str, output: &mut String)
    requires { string_len output.old + length text.now ≤ string_capacity output.old }
    ensures { string_bytes output.new ≡ string_bytes output.old ++ text.now }
{
    match output.push_str(text) {
        Ok(()) => {}
        Err(_) => unreachable!(),
    }
}

/// Carries out the events of a line one after another in memory, and writes what comes of each, and then that all are
/// done. An error is want of memory.
fn answer_all<K: Keep>(
    alloc: Global,
    party: &Party,
    transaction: &mut Transaction<K>,
    elements: &Elements<'_>,
    number: u64,
    lines: &mut String,
) -> Result<Turn, AllocError>
    ensures ok { IfOk result (λ turn. DoesAll party.now transaction.old number elements.now turn (string_bytes lines.old) (string_bytes lines.new) transaction.new) }
    ensures keep { transaction.new.keep ≡ transaction.old.keep }
{
    let mut turn = Turn::Taken;
    for place in 0..elements.len() {
        match answer_element(alloc, party, transaction, elements, place, number, lines) {
            Ok(taken) => {
                let later = turn_behind(turn, taken);
                turn = later;
            }
            Err(_) => return Err(AllocError),
        }
    }
    write_all(number, elements.len(), lines)?;
    Ok(turn)
}

/// How a line is answered whose events were answered so, and the next one was taken or not.
fn turn_behind(turn: Turn, taken: bool) -> Turn
    ensures { result ≡ turn_behind turn taken }
{
    if taken { turn } else { Turn::Refused }
}

/// Reads the event at that place of a line and lets it happen in memory. Answers whether it was taken: one that is
/// malformed or refused is not. An error is want of memory.
fn answer_element<K: Keep>(
    alloc: Global,
    party: &Party,
    transaction: &mut Transaction<K>,
    elements: &Elements<'_>,
    place: usize,
    number: u64,
    lines: &mut String,
) -> Result<bool, AllocError>
    requires { place < length elements.now }
    ensures ok { IfOk result (λ taken. (read : Read NodeEventOf) → slice_get elements.now place ≡ Some read
        → DoesPlaced party.now transaction.old number place read taken (string_bytes lines.old) (string_bytes lines.new) transaction.new) }
    ensures keep { transaction.new.keep ≡ transaction.old.keep }
{
    match elements.read(alloc, place) {
        Ok(event) => answer_placed(alloc, party, transaction, &event, place, number, lines),
        Err(fault) => tell_malformed_at(fault, place, number, lines),
    }
}

/// Writes why the event at that place is none. An error is want of memory, also for reading it.
fn tell_malformed_at(
    fault: JsonFault,
    place: usize,
    number: u64,
    lines: &mut String,
) -> Result<bool, AllocError>
    ensures { IfOk result (λ taken. (taken ≡ false) × (fault ≢ JsonFault.Memory)
        × (string_bytes lines.new ≡ string_bytes lines.old ++ malformed_line number (Some place) fault)) }
{
    match fault {
        JsonFault::Memory => Err(AllocError),
        _ => {
            write_malformed(number, Some(place), fault, lines)?;
            Ok(false)
        }
    }
}

/// Lets an event that was read happen in memory, where it is the node's, and writes what comes of it.
fn answer_placed<K: Keep>(
    alloc: Global,
    party: &Party,
    transaction: &mut Transaction<K>,
    event: &NodeEvent,
    place: usize,
    number: u64,
    lines: &mut String,
) -> Result<bool, AllocError>
    ensures ok { IfOk result (λ taken. (read : Read NodeEventOf) → read ≡ Ok event.now
        → DoesPlaced party.now transaction.old number place read taken (string_bytes lines.old) (string_bytes lines.new) transaction.new) }
    ensures keep { transaction.new.keep ≡ transaction.old.keep }
{
    if !event.node.is_same(party) {
        write_skipped(number, Some(place), lines)?;
        return Ok(true);
    }
    match transaction.apply(&event.kind) {
        Ok(applied) => {
            write_applied(alloc, applied, number, Some(place), lines)?;
            Ok(true)
        }
        Err(fault) => tell_refused_at(fault, place, number, lines),
    }
}

/// Writes why the node refused the event at that place. An error is want of memory, also in the node.
fn tell_refused_at(
    fault: StepFault,
    place: usize,
    number: u64,
    lines: &mut String,
) -> Result<bool, AllocError>
    ensures { IfOk result (λ taken. (taken ≡ false) × TellsRefusal number place fault (string_bytes lines.old) (string_bytes lines.new)) }
{
    match fault {
        StepFault::Core(fault) => {
            write_refused(number, Some(place), fault, lines)?;
            Ok(false)
        }
        StepFault::Memory => Err(AllocError),
    }
}
