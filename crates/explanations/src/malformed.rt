//! Why a line, or an event of one, was refused as a text.

ghost use Rattle.std.specs.Prelude.{◌≡◌, ◌++◌, ℕ, List, OnOk, string_bytes};
ghost use Rattle.explanations.specs.Explained.{explained};

use crate::finding::find;
use crate::shapes::Shape;
use crate::showing::show_value;
use crate::text_faults::tell_text_fault;
use json::{Scratch, Value};
use ocpi_json::JsonFault;
use std::alloc::{AllocError, Global};
use std::{fmt, str};

/// A line of the input, or an event of one.
#[derive(Clone, Copy)]
pub struct Place {
    /// The number of the line, from 1; of `node` as its output has it.
    pub line: u64,
    /// The place of the event in its line, from 0, where the line is a list of several.
    pub event: Option<usize>,
}

/// The text of a line, or of an event of one.
#[derive(Clone, Copy)]
pub struct LineText<'t> {
    /// Its bytes, or the first ones of a line that is too long.
    pub bytes: &'t [u8],
    /// How many it has.
    pub len: u64,
    /// What is read in it.
    pub shape: Shape,
}

/// The part of a place that tells the event of a line of several.
#[derive(Clone, Copy)]
struct EventPart(Option<usize>);

impl fmt::Display for EventPart {
    ghost use Rattle.std.specs.Prelude.{Some};
    ghost use Rattle.explanations.specs.Explained.{event_part};

    ghost output = { λ p. Some (event_part p.0) };

    fn fmt<W: fmt::Write>(&self, f: &mut fmt::Formatter<W>) -> fmt::Result {
        match self.0 {
            None => Ok(()),
            Some(event) => write!(f, ", event {event}"),
        }
    }
}

/// As `line 7: `, or `line 7, event 2: `.
impl fmt::Display for Place {
    ghost use Rattle.std.specs.Prelude.{Some};
    ghost use Rattle.explanations.specs.Explained.{place_text};

    ghost output = { λ p. Some (place_text p.line p.event) };

    fn fmt<W: fmt::Write>(&self, f: &mut fmt::Formatter<W>) -> fmt::Result {
        write!(f, "line {}{}: ", self.line, EventPart(self.event))
    }
}

/// Adds a line that says why a text was refused: where it stands, the refusal with the member's name, the path of the
/// member or the column, what was found, and what is wanted there. It fails for want of memory alone.
pub fn explain_malformed(
    alloc: Global,
    place: Place,
    fault: JsonFault,
    text: LineText<'_>,
    output: &mut String,
) -> Result<(), AllocError>
    ensures { OnOk result ((words : List ℕ)
        × (string_bytes output.new ≡ string_bytes output.old ++ explained place.line place.event fault words)) }
{
    let words = words_for(alloc, fault, text)?;
    writeln!(output, "{place}{fault}: {}", words.as_str())
}

/// What is said of a refusal behind its name.
fn words_for(alloc: Global, fault: JsonFault, text: LineText<'_>) -> Result<String, AllocError> {
    let mut words = String::new(alloc);
    match fault {
        JsonFault::Syntax | JsonFault::BadNumberToken | JsonFault::TaggedText => {
            tell_text_fault(alloc, fault, text.bytes, text.len, &mut words)?;
        }
        JsonFault::Memory => words.push_str("memory ran out: give more")?,
        _ => tell_member(alloc, fault, text, &mut words)?,
    }
    words.push_str(first_line_hint(text.shape))?;
    Ok(words)
}

/// What is added where the line is the first one.
fn first_line_hint(shape: Shape) -> &'static str {
    match shape {
        Shape::Setup => " (the first line is the setup, without which the run ends)",
        Shape::SiteLine => " (the first line is the site line, without which the run ends)",
        _ => "",
    }
}

/// Tells the path of the member that is at fault, what was found there, and what is wanted.
fn tell_member(
    alloc: Global,
    fault: JsonFault,
    text: LineText<'_>,
    output: &mut String,
) -> Result<(), AllocError> {
    let mut scratch = Scratch::new(alloc);
    let Ok(spelled) = str::from_utf8(text.bytes) else {
        return Ok(());
    };
    match Value::parse(alloc, spelled, &mut scratch) {
        Ok(tree) => tell_member_of(alloc, fault, text.shape, &tree, output),
        Err(_) => Ok(()),
    }
}

fn tell_member_of(
    alloc: Global,
    fault: JsonFault,
    shape: Shape,
    tree: &Value<'_>,
    output: &mut String,
) -> Result<(), AllocError> {
    if !matches!(tree, Value::Object(_)) {
        output.push_str("found ")?;
        show_value(tree, output)?;
        return output.push_str("; wanted an object");
    }
    match find(alloc, fault, shape, tree)? {
        Some(found) => write!(
            output,
            "{}{}: {}",
            found.path.as_str(),
            found.field.name(),
            found.told.as_str()
        ),
        None => output.push_str("see docs/PROTOCOL.md"),
    }
}
