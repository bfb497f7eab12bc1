//! What was found, shown in few characters of one line.

use crate::forms::is_control;
use json::Value;
use std::alloc::AllocError;

/// The most characters of what was found that are shown.
pub const MOST_SHOWN: usize = 40;

/// Adds a character, or its number where it is a control character.
fn show_char(c: char, output: &mut String) -> Result<(), AllocError> {
    if is_control(c) {
        return write!(output, "\\u{:04x}", u32::from(c));
    }
    output.push(c)
}

/// Adds the first characters of a text, at most [`MOST_SHOWN`], and two points where there are more.
pub fn show_front(text: &str, output: &mut String) -> Result<(), AllocError> {
    for (place, c) in text.chars().enumerate() {
        if place >= MOST_SHOWN {
            return output.push_str("..");
        }
        show_char(c, output)?;
    }
    Ok(())
}

/// Adds a text in quotes, and of a long one how many characters it has.
pub fn show_text(text: &str, output: &mut String) -> Result<(), AllocError> {
    output.push('"')?;
    show_front(text, output)?;
    output.push('"')?;
    let count = text.chars().count();
    if count > MOST_SHOWN {
        write!(output, " of {count} characters")?;
    }
    Ok(())
}

/// Adds a value: a text in quotes, a number as it was written, and of lists and objects what they are.
pub fn show_value(value: &Value<'_>, output: &mut String) -> Result<(), AllocError> {
    match value {
        Value::Null => output.push_str("null"),
        Value::Bool(true) => output.push_str("true"),
        Value::Bool(false) => output.push_str("false"),
        Value::Number(token) => {
            output.push_str("the number ")?;
            show_front(token, output)
        }
        Value::String(text) => show_text(text, output),
        Value::Array(items) => write!(output, "a list of {}", items.len()),
        Value::Object(_) => output.push_str("an object"),
    }
}
