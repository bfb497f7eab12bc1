//! The line that says what became of a line of the input, or of one event of it: an object whose first member is
//! `done`.

ghost use Rattle.std.specs.Prelude.{◌≡◌, ◌++◌, IfOk, None, OnOk, Some, string_bytes};
ghost use Rattle.node_runs.specs.DoneLines.{all_line, fault_line, idle_line, known_line, malformed_line, opened_line, refused_line, skipped_line, stepped_line, text_json};

use json::Writer;
use node_steps::NodeFault;
use ocpi_json::JsonFault;
use ocpi_text::{Party, Whole};
use ocpi_types::Field;
use std::alloc::{AllocError, Global};
use std::fmt;

/// The member that tells the place of an event in its line, from 0. Where the line is one event, it is left out.
#[derive(Clone, Copy)]
struct PlaceMember(Option<usize>);

impl fmt::Display for PlaceMember {
    ghost use Rattle.node_runs.specs.DoneLines.{place_member};

    ghost output = { λ p. Some (place_member p.0) };

    fn fmt<W: fmt::Write>(&self, f: &mut fmt::Formatter<W>) -> fmt::Result {
        match self.0 {
            None => Ok(()),
            Some(place) => write!(f, ",\"event\":{place}"),
        }
    }
}

/// A text as JSON has it, in quotes.
fn quote(alloc: Global, text: &str) -> Result<String, AllocError>
    ensures { IfOk result (λ s. string_bytes s ≡ text_json text.now) }
{
    let mut writer = Writer::new(Vec::new(alloc));
    writer.string(text)?;
    Ok(unsafe { String::from_utf8_unchecked(writer.into_inner()) })
}

/// The node was opened: the number of the last line that had taken hold, its party, how many rows were loaded, and the
/// serial of the last packet that it sent.
pub fn write_opened(
    alloc: Global,
    line: u64,
    party: &Party,
    rows: usize,
    serial: Whole,
    output: &mut String,
) -> Result<(), AllocError>
    ensures { OnOk result (string_bytes output.new ≡ string_bytes output.old ++ opened_line line party.now rows serial) }
{
    let party = quote(alloc, party.as_str())?;
    writeln!(
        output,
        "{{\"done\":\"opened\",\"line\":{line},\"party\":{},\"rows\":{rows},\"serial\":{}}}",
        party.as_str(),
        serial.value()
    )
}

/// Rows were changed, or packets sent: so many.
pub fn write_stepped(
    line: u64,
    place: Option<usize>,
    packets: usize,
    output: &mut String,
) -> Result<(), AllocError>
    ensures { OnOk result (string_bytes output.new ≡ string_bytes output.old ++ stepped_line line place packets) }
{
    writeln!(
        output,
        "{{\"done\":\"stepped\"{},\"line\":{line},\"packets\":{packets}}}",
        PlaceMember(place)
    )
}

/// The event was this node's, changed no row and sent nothing.
pub fn write_idle(line: u64, place: Option<usize>, output: &mut String) -> Result<(), AllocError>
    ensures { OnOk result (string_bytes output.new ≡ string_bytes output.old ++ idle_line line place) }
{
    writeln!(
        output,
        "{{\"done\":\"idle\"{},\"line\":{line}}}",
        PlaceMember(place)
    )
}

/// The event is another node's, or one of the other role.
pub fn write_skipped(line: u64, place: Option<usize>, output: &mut String) -> Result<(), AllocError>
    ensures { OnOk result (string_bytes output.new ≡ string_bytes output.old ++ skipped_line line place) }
{
    writeln!(
        output,
        "{{\"done\":\"skipped\"{},\"line\":{line}}}",
        PlaceMember(place)
    )
}

/// A line, or an event of one, was refused as a text, because of a member.
fn write_malformed_member(
    line: u64,
    place: Option<usize>,
    fault: JsonFault,
    field: Field,
    output: &mut String,
) -> Result<(), AllocError>
    ensures { OnOk result (string_bytes output.new ≡ string_bytes output.old ++ fault_line line place fault (Some field)) }
{
    let member = field.name();
    let name = fault.name();
    let number = fault.number();
    writeln!(
        output,
        "{{\"done\":\"malformed\"{},\"field\":\"{}\",\"line\":{line},\"name\":\"{}\",\"number\":{}}}",
        PlaceMember(place),
        member,
        name,
        number
    )
}

/// A line, or an event of one, was refused as a text, because of no member.
fn write_malformed_line(
    line: u64,
    place: Option<usize>,
    fault: JsonFault,
    output: &mut String,
) -> Result<(), AllocError>
    ensures { OnOk result (string_bytes output.new ≡ string_bytes output.old ++ fault_line line place fault None) }
{
    let name = fault.name();
    let number = fault.number();
    writeln!(
        output,
        "{{\"done\":\"malformed\"{},\"line\":{line},\"name\":\"{}\",\"number\":{}}}",
        PlaceMember(place),
        name,
        number
    )
}

/// The line, or the event at that place of it, was refused as a text.
pub fn write_malformed(
    line: u64,
    place: Option<usize>,
    fault: JsonFault,
    output: &mut String,
) -> Result<(), AllocError>
    ensures { OnOk result (string_bytes output.new ≡ string_bytes output.old ++ malformed_line line place fault) }
{
    match fault.field() {
        Some(field) => write_malformed_member(line, place, fault, field, output),
        None => write_malformed_line(line, place, fault, output),
    }
}

/// The node refused the event.
pub fn write_refused(
    line: u64,
    place: Option<usize>,
    fault: NodeFault,
    output: &mut String,
) -> Result<(), AllocError>
    ensures { OnOk result (string_bytes output.new ≡ string_bytes output.old ++ refused_line line place fault) }
{
    let name = fault.name();
    let number = fault.number();
    writeln!(
        output,
        "{{\"done\":\"refused\"{},\"line\":{line},\"name\":\"{}\",\"number\":{}}}",
        PlaceMember(place),
        name,
        number
    )
}

/// A line of that many events was carried out.
pub fn write_all(line: u64, events: usize, output: &mut String) -> Result<(), AllocError>
    ensures { OnOk result (string_bytes output.new ≡ string_bytes output.old ++ all_line line events) }
{
    writeln!(
        output,
        "{{\"done\":\"all\",\"events\":{events},\"line\":{line}}}"
    )
}

/// A line had taken hold before the run, and was not read.
pub fn write_known(line: u64, output: &mut String) -> Result<(), AllocError>
    ensures { OnOk result (string_bytes output.new ≡ string_bytes output.old ++ known_line line) }
{
    writeln!(output, "{{\"done\":\"known\",\"line\":{line}}}")
}
