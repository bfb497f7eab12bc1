//! Why a line is no JSON that is read, and where.

use crate::nesting::{End, MAX_DEPTH, end_of_json};
use crate::showing::show_front;
use json::{Scratch, Value, is_number};
use ocpi_json::JsonFault;
use std::alloc::{AllocError, Global};
use std::str;

/// The most bytes of a line.
const MAX_LINE: u64 = 1_048_576;

/// What a column is told with: what was found there, and what is wanted.
#[derive(Clone, Copy)]
struct Told<'t> {
    /// How many bytes stand before it.
    offset: usize,
    found: &'t str,
    wanted: &'static str,
}

/// How many characters stand before a byte of a text, counted from 1 as an editor counts.
fn column_at(text: &str, offset: usize) -> usize {
    let before = text
        .char_indices()
        .take_while(|each| each.0 < offset)
        .count();
    before.saturating_add(1)
}

/// What stands at a byte of a text and behind it, or no text where none begins there.
fn rest_at(text: &str, offset: usize) -> &str {
    text.get(offset..).unwrap_or("")
}

fn tell(text: &str, told: Told<'_>, output: &mut String) -> Result<(), AllocError> {
    write!(output, "column {}: found ", column_at(text, told.offset))?;
    if told.found.is_empty() {
        output.push_str("the end of the line")?;
    } else {
        output.push('`')?;
        show_front(told.found, output)?;
        output.push('`')?;
    }
    write!(output, "; wanted {}", told.wanted)
}

/// Where a text stands outside strings and numbers, in a number that began at a byte, or in a string.
#[derive(Clone, Copy)]
enum Spot {
    Between,
    Number(usize),
    Inside,
    Escaped,
}

fn is_number_byte(byte: u8) -> bool {
    byte.is_ascii_digit() || matches!(byte, b'+' | b'-' | b'.' | b'e' | b'E')
}

/// Where the byte behind that one stands.
fn spot_behind(spot: Spot, at: usize, byte: u8) -> Spot {
    match spot {
        Spot::Number(_) if is_number_byte(byte) => spot,
        Spot::Between | Spot::Number(_) => {
            if byte == b'"' {
                Spot::Inside
            } else if byte.is_ascii_digit() || byte == b'-' {
                Spot::Number(at)
            } else {
                Spot::Between
            }
        }
        Spot::Inside => match byte {
            b'"' => Spot::Between,
            b'\\' => Spot::Escaped,
            _ => Spot::Inside,
        },
        Spot::Escaped => Spot::Inside,
    }
}

/// The first token of a text that begins as a number and is none, with the bytes before it.
fn bad_number(text: &str) -> Option<(usize, &str)> {
    let mut spot = Spot::Between;
    for (at, byte) in text.as_bytes().iter().enumerate() {
        if let Spot::Number(from) = spot {
            if !is_number_byte(*byte) {
                let token = text.get(from..at).unwrap_or("");
                if !is_number(token) {
                    return Some((from, token));
                }
            }
        }
        spot = spot_behind(spot, at, *byte);
    }
    match spot {
        Spot::Number(from) => Some((from, rest_at(text, from))),
        _ => None,
    }
}

fn tell_bad_number(text: &str, output: &mut String) -> Result<(), AllocError> {
    let (offset, found) = bad_number(text).unwrap_or((0, text));
    let wanted = "a number of JSON: no zero or + in front, and a digit on each side of a point";
    tell(
        text,
        Told {
            offset,
            found,
            wanted,
        },
        output,
    )
}

fn tell_tagged(text: &str, output: &mut String) -> Result<(), AllocError> {
    let offset = text.find("\"\\u0001").unwrap_or(0);
    let found = rest_at(text, offset);
    let wanted = "a text that does not begin with \\u0001";
    tell(
        text,
        Told {
            offset,
            found,
            wanted,
        },
        output,
    )
}

/// What is wanted where a text ceases to be JSON: `before` stands before it, without spaces, and `rest` behind that.
fn wanted_at(before: &str, rest: &str, depth: usize) -> &'static str {
    if rest.is_empty() {
        return "the rest of the object, which must stand in one line";
    }
    if depth >= MAX_DEPTH {
        return "at most 127 lists and objects within one another";
    }
    if is_decimal_comma(before, rest) {
        return "a name in quotes. Is it a decimal comma? A number has a point";
    }
    if !before.starts_with('{') && !before.starts_with('[') {
        return "an object, which begins with {. Does one go on from the line before?";
    }
    if rest.starts_with('\'') {
        return "a text in double quotes";
    }
    if before.ends_with(',') {
        return "another member or element, as there is a comma before";
    }
    if before.ends_with('}') && rest.starts_with('{') {
        return "nothing behind the object: each stands in a line of its own";
    }
    "JSON"
}

/// Whether a comma stands between two digits.
fn is_decimal_comma(before: &str, rest: &str) -> bool {
    match before.as_bytes() {
        [.., digit, b','] => {
            digit.is_ascii_digit()
                && rest
                    .as_bytes()
                    .first()
                    .is_some_and(|byte| byte.is_ascii_digit())
        }
        _ => false,
    }
}

/// Tells where a text ceases to be JSON.
fn tell_end(text: &str, end: End, output: &mut String) -> Result<(), AllocError> {
    let rest = rest_at(text, end.offset).trim_ascii_start();
    let offset = text.len().saturating_sub(rest.len());
    let before = text.get(..offset).unwrap_or("").trim_ascii();
    let wanted = wanted_at(before, rest, end.depth);
    tell(
        text,
        Told {
            offset,
            found: rest,
            wanted,
        },
        output,
    )
}

/// How many elements a text has that is a list of JSON.
fn element_count(alloc: Global, text: &str) -> usize {
    let mut scratch = Scratch::new(alloc);
    match Value::parse(alloc, text, &mut scratch) {
        Ok(Value::Array(items)) => items.len(),
        _ => 0,
    }
}

fn tell_syntax(alloc: Global, text: &str, output: &mut String) -> Result<(), AllocError> {
    if text.starts_with('\u{feff}') {
        return output.push_str("column 1: found a byte order mark; wanted UTF-8 without one");
    }
    match end_of_json(alloc, text)? {
        Some(end) => tell_end(text, end, output),
        None => {
            let count = element_count(alloc, text);
            write!(output, "found a list of {count}; wanted at most 256 events")
        }
    }
}

/// Tells why a line that is no UTF-8 is none.
fn tell_no_utf8(line: &[u8], valid: usize, output: &mut String) -> Result<(), AllocError> {
    let (front, rest) = line.split_at(valid.min(line.len()));
    let column = match str::from_utf8(front) {
        Ok(text) => column_at(text, text.len()),
        Err(_) => 1,
    };
    let byte = rest.first().copied().unwrap_or(0);
    if line.starts_with(b"\xff\xfe") || line.starts_with(b"\xfe\xff") {
        return output.push_str("column 1: found UTF-16; wanted UTF-8");
    }
    write!(
        output,
        "column {column}: found the byte {byte:02X}; wanted UTF-8, which it is not: is the file Latin-1?"
    )
}

/// Tells where the text of a line has a fault that is of no member, and what is wanted there. `len` is the number of
/// the line's bytes, of which `line` may be the first ones.
pub fn tell_text_fault(
    alloc: Global,
    fault: JsonFault,
    line: &[u8],
    len: u64,
    output: &mut String,
) -> Result<(), AllocError> {
    if len > MAX_LINE {
        return write!(output, "found {len} bytes; wanted at most {MAX_LINE}");
    }
    let text = match str::from_utf8(line) {
        Ok(text) => text,
        Err(error) => return tell_no_utf8(line, error.valid_up_to(), output),
    };
    match fault {
        JsonFault::BadNumberToken => tell_bad_number(text, output),
        JsonFault::TaggedText => tell_tagged(text, output),
        _ => tell_syntax(alloc, text, output),
    }
}
