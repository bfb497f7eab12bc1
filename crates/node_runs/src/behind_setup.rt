//! What comes of the lines behind the setup that are read, each of which is an event, or an array of events.

ghost use Rattle.std.specs.Prelude.{◌≡◌, ◌↔◌, ◌++◌, List, [], IsOk, IsTrue, Ok, OnErr, OnOk, string_bytes, ℕ};
ghost use Rattle.json_text.specs.Fault.{Fails as FailsToRead};
ghost use Rattle.json_text.specs.declared.fault.JsonFault.TheVariants.{Memory};
ghost use Rattle.stored_nodes.specs.Keepers.{keeper_of};
ghost use Rattle.node_lines.specs.NodeLines.{node_line_in};
ghost use Rattle.node_lines.specs.declared.node_line.NodeLine.TheVariants.{One, Several};
ghost use Rattle.stored_nodes.specs.Stored.{IsStored};
ghost use Rattle.node_runs.specs.Afters.{IfRuns, IsAfter, IsAnswered, IsTold};
ghost use Rattle.node_runs.specs.NodeTurns.{Running as RunningOf};
ghost use Rattle.node_runs.specs.declared.list_lines.After.TheVariants.{Lost};

use crate::beginning::Running;
use crate::done_lines::write_malformed;
use crate::event_lines::{Answered, answer_event};
use crate::fault::NodeStop;
use crate::list_lines::{After, add_within, answer_list};
use line_runs::Turn;
use node_lines::{Elements, NodeLine, read_node_line};
use node_store::{Keep, LineNumber};
use ocpi_json::{JsonFault, Scratch};
use ocpi_types::NodeEvent;
use std::alloc::{AllocError, Global};

/// Reads the line of that number and lets happen what it asks for: one event, or several that are committed together.
/// `text` is room for what comes of it, which is then added to `output`.
pub fn answer_behind_setup<K: Keep>(
    alloc: Global,
    scratch: &mut Scratch,
    running: Running<K>,
    number: LineNumber,
    line: &[u8],
    text: &mut String,
    output: &mut String,
) -> After<K>
    ensures { IsAfter (keeper_of K.content K.is_honest K.refusals K.may_leave) running number line.now (string_bytes output.old) (string_bytes output.new) result }
{
    text.clear();
    match read_node_line(alloc, scratch, line) {
        Ok(held) => answer_held(alloc, running, held, number, text, output),
        Err(fault) => refuse_line(running, fault, number, line, text, output),
    }
}

/// Lets happen what a line holds.
fn answer_held<K: Keep>(
    alloc: Global,
    running: Running<K>,
    held: NodeLine<'_>,
    number: LineNumber,
    text: &mut String,
    output: &mut String,
) -> After<K>
    requires { string_bytes text.old ≡ [] }
    ensures { (line : List ℕ) → node_line_in line ≡ Ok held.entry
        → IsAfter (keeper_of K.content K.is_honest K.refusals K.may_leave) running number line (string_bytes output.old) (string_bytes output.new) result }
{
    match held {
        NodeLine::One(event) => answer_one(alloc, running, event, number, text, output),
        NodeLine::Several(elements) => {
            answer_several(alloc, running, elements, number, text, output)
        }
    }
}

/// Lets the event of a line happen.
fn answer_one<K: Keep>(
    alloc: Global,
    mut running: Running<K>,
    event: NodeEvent,
    number: LineNumber,
    text: &mut String,
    output: &mut String,
) -> After<K>
    requires { string_bytes text.old ≡ [] }
    ensures { (line : List ℕ) → node_line_in line ≡ Ok (One event)
        → IsAfter (keeper_of K.content K.is_honest K.refusals K.may_leave) running number line (string_bytes output.old) (string_bytes output.new) result }
{
    running.is_stored();
    let answered = answer_event(alloc, &mut running, &event, number, text);
    drop(event);
    tell_answered(running, answered, text.as_str(), output)
}

/// Adds what came of the event of a line to `output`, or ends the node where nothing of it is to be told.
fn tell_answered<K: Keep>(
    running: Running<K>,
    answered: Answered,
    text: &str,
    output: &mut String,
) -> After<K>
    ensures { (now : RunningOf K) → (number : ℕ) → (line : List ℕ) → IsStored (keeper_of K.content K.is_honest K.refusals K.may_leave) now.node
        → IsAnswered (keeper_of K.content K.is_honest K.refusals K.may_leave) now number line [] text.now answered running
        → IsAfter (keeper_of K.content K.is_honest K.refusals K.may_leave) now number line (string_bytes output.old) (string_bytes output.new) result }
{
    running.is_stored();
    match answered {
        Answered::Told(turn) => tell_written(running, Ok(()), turn, text, output),
        Answered::Untold => lose(running, NodeStop::Memory),
        Answered::Starved => lose(running, NodeStop::Memory),
        Answered::Declined(fault) => lose(running, NodeStop::Store(fault)),
    }
}

/// Ends the node.
fn lose<K: Keep>(running: Running<K>, stop: NodeStop) -> After<K>
    ensures { result ≡ Lost running.node.keep stop }
{
    After::Lost {
        keep: running.into_keep(),
        stop,
    }
}

/// Adds a text to `output`. An error is want of memory, and adds nothing.
fn add_text(text: &str, output: &mut String) -> Result<(), AllocError>
    ensures added { OnOk result (string_bytes output.new ≡ string_bytes output.old ++ text.now) }
    ensures same { OnErr result (string_bytes output.new ≡ string_bytes output.old) }
{
    match output.reserve(text.len()) {
        Ok(()) => {
            add_within(text, output);
            Ok(())
        }
        Err(_) => Err(AllocError),
    }
}

/// Adds a text to `output` that was written whole, unless memory ran out for that. An error is want of memory, and adds
/// nothing.
pub fn add_written(
    written: Result<(), AllocError>,
    text: &str,
    output: &mut String,
) -> Result<(), AllocError>
    ensures written { OnOk result (IsOk written) }
    ensures added { OnOk result (string_bytes output.new ≡ string_bytes output.old ++ text.now) }
    ensures same { OnErr result (string_bytes output.new ≡ string_bytes output.old) }
{
    match written {
        Ok(()) => add_text(text, output),
        Err(_) => Err(AllocError),
    }
}

/// Adds what came of a line to `output`, and runs on. Where memory ran out, the node ends.
pub fn tell_written<K: Keep>(
    running: Running<K>,
    written: Result<(), AllocError>,
    turn: Turn,
    text: &str,
    output: &mut String,
) -> After<K>
    ensures told { IsTold running turn text.now (string_bytes output.old) (string_bytes output.new) result }
    ensures written { IfRuns result (IsOk written) }
{
    match add_written(written, text, output) {
        Ok(()) => After::Runs { running, turn },
        Err(_) => lose(running, NodeStop::Memory),
    }
}

/// Lets the events of a line happen.
fn answer_several<K: Keep>(
    alloc: Global,
    running: Running<K>,
    elements: Elements<'_>,
    number: LineNumber,
    text: &mut String,
    output: &mut String,
) -> After<K>
    requires { string_bytes text.old ≡ [] }
    ensures { (line : List ℕ) → node_line_in line ≡ Ok (Several elements.entry)
        → IsAfter (keeper_of K.content K.is_honest K.refusals K.may_leave) running number line (string_bytes output.old) (string_bytes output.new) result }
{
    let after = answer_list(alloc, running, &elements, number, text, output);
    drop(elements);
    after
}

/// Whether memory ran out.
pub fn is_starved(fault: JsonFault) -> bool
    ensures { IsTrue result ↔ (fault ≡ Memory) }
{
    matches!(fault, JsonFault::Memory)
}

/// Writes why a line was refused as a text. Where memory ran out, the node ends.
fn refuse_line<K: Keep>(
    running: Running<K>,
    fault: JsonFault,
    number: LineNumber,
    line: &[u8],
    text: &mut String,
    output: &mut String,
) -> After<K>
    requires { string_bytes text.old ≡ [] }
    ensures { FailsToRead fault (node_line_in line.now)
        → IsAfter (keeper_of K.content K.is_honest K.refusals K.may_leave) running number line.now (string_bytes output.old) (string_bytes output.new) result }
{
    running.is_stored();
    if is_starved(fault) {
        return lose(running, NodeStop::Memory);
    }
    let written = write_malformed(number.value().value(), None, fault, text);
    tell_written(running, written, Turn::Refused, text.as_str(), output)
}
