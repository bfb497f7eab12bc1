//! What may stand under a member's name: whether a value does, and in words.

use crate::shapes::Shape;
use crate::word_lists::WordList;
use json::Value;
use ocpi_text::{CiText, E4, Moment, Party, Quantity, Whole};
use ocpi_types::PricePerKwh;
use std::alloc::AllocError;

/// Where a list has no most.
pub const ANY_NUMBER: usize = usize::MAX;

/// The greatest number from which lines may be counted on.
const MAX_LINE: u64 = 900_000_000_000_000_000;

/// Among which others an id must be new.
#[derive(Clone, Copy)]
pub enum Scope {
    /// The locations of a site.
    Locations,
    /// The EVSEs of a site.
    Evses,
    /// The connectors of an EVSE.
    Connectors,
    /// The nodes of a setup, by their parties.
    Nodes,
}

/// What may stand under a name.
#[derive(Clone, Copy)]
pub enum Form {
    /// A text that is compared without case, of at most so many characters.
    CiString(usize),
    /// One of exactly so many.
    Exactly(usize),
    /// An id of a site or a setup, which differs from those before it.
    NewId(Scope),
    /// A text that is compared exactly, of at most so many characters.
    FreeText(usize),
    Party,
    Moment,
    /// A moment later than that of the object before in its list.
    LaterMoment,
    Whole,
    /// The number of a line, from which those behind the setup are counted on.
    LineNumber,
    StatusCode,
    Decimal,
    Quantity,
    Price,
    Truth,
    /// A word of a closed list.
    Word(WordList),
    /// A word that chooses what else is read.
    Name(WordList),
    Object(Shape),
    /// The object that the word under `kind` names.
    Body,
    /// An object that is looked at where `status_code` is 1000.
    Data(Shape),
    /// A list of objects, of at least and at most so many.
    Objects(Shape, usize, usize),
    /// Any number of EVSEs' uids.
    Uids,
    /// The providers of a site line.
    Providers,
}

/// Whether a text is of at most so many characters, all printable ASCII.
fn is_ci(text: &str, most: usize) -> bool {
    text.len() <= most && text.bytes().all(|byte| byte >= 32 && byte <= 126)
}

/// Whether a text is of at most so many characters, none a control character.
fn is_free(text: &str, most: usize) -> bool {
    text.chars().count() <= most && !text.chars().any(is_control)
}

/// Whether a character is one that no text has.
pub fn is_control(c: char) -> bool {
    c < ' ' || (c >= '\u{7f}' && c <= '\u{9f}')
}

/// Whether a list has so many elements, each of them an object.
fn are_objects(items: &[Value<'_>], least: usize, most: usize) -> bool {
    least <= items.len()
        && items.len() <= most
        && items.iter().all(|item| matches!(item, Value::Object(_)))
}

fn is_uid(item: &Value<'_>) -> bool {
    match item {
        Value::String(text) => is_ci(text, 36),
        _ => false,
    }
}

/// Whether a text may stand under a name of that form.
fn is_text_of(form: Form, text: &str) -> bool {
    match form {
        Form::CiString(most) => is_ci(text, most),
        Form::Exactly(count) => is_ci(text, count) && text.len() == count,
        Form::NewId(Scope::Nodes) | Form::Party => Party::read(text).is_ok(),
        Form::NewId(_) => CiText::<36>::new(text).is_ok(),
        Form::FreeText(most) => is_free(text, most),
        Form::Moment | Form::LaterMoment => Moment::read(text).is_ok(),
        Form::Word(_) | Form::Name(_) => true,
        _ => false,
    }
}

/// Whether the token of a number may stand under a name of that form.
fn is_number_of(form: Form, token: &str) -> bool {
    match form {
        Form::Whole => Whole::read(token).is_ok(),
        Form::LineNumber => match Whole::read(token) {
            Ok(number) => number.value() >= 1 && number.value() <= MAX_LINE,
            Err(_) => false,
        },
        Form::StatusCode => match Whole::read(token) {
            Ok(number) => number.value() >= 1000 && number.value() <= 9999,
            Err(_) => false,
        },
        Form::Decimal => E4::read(token).is_ok(),
        Form::Quantity => match E4::read(token) {
            Ok(number) => Quantity::new(number).is_some(),
            Err(_) => false,
        },
        Form::Price => match E4::read(token) {
            Ok(number) => PricePerKwh::new(number).is_some(),
            Err(_) => false,
        },
        _ => false,
    }
}

/// Whether each element of a list is a party, and none is the operator or one before it.
pub fn are_providers(items: &[Value<'_>], operator: &str) -> bool {
    for (place, item) in items.iter().enumerate() {
        let Value::String(text) = item else {
            return false;
        };
        let before = &items[..place];
        if Party::read(text).is_err()
            || text.eq_ignore_ascii_case(operator)
            || before.iter().any(|other| is_party(other, text))
        {
            return false;
        }
    }
    true
}

fn is_party(item: &Value<'_>, text: &str) -> bool {
    match item {
        Value::String(other) => other.eq_ignore_ascii_case(text),
        _ => false,
    }
}

/// What is added where a number stands in quotes, or a text does not.
pub fn quotes_hint(form: Form, value: &Value<'_>) -> &'static str {
    match value {
        Value::String(text) if is_number_of(form, text) => ", not in quotes",
        Value::Number(token) if is_text_of(form, token) => ", in quotes",
        _ => "",
    }
}

impl Form {
    /// The list of which a word of this form is one.
    pub fn words(self) -> Option<WordList> {
        match self {
            Form::Word(list) | Form::Name(list) => Some(list),
            _ => None,
        }
    }

    /// Whether a value may stand under a name of this form. What an object or the objects of a list have is not asked,
    /// nor is whether a text differs from others or is a word of its list.
    pub fn is_met(self, value: &Value<'_>) -> bool {
        match value {
            Value::Null => false,
            Value::Bool(_) => matches!(self, Form::Truth),
            Value::Number(token) => is_number_of(self, token),
            Value::String(text) => is_text_of(self, text),
            Value::Object(_) => { matches!(self, Form::Object(_) | Form::Body | Form::Data(_)) }
            Value::Array(items) => match self {
                Form::Objects(_, least, most) => are_objects(items.as_slice(), least, most),
                Form::Uids => items.iter().all(is_uid),
                Form::Providers => items.len() <= 63,
                _ => false,
            },
        }
    }
}

/// What is wanted under a name of a form whose words have no number and no list; else no text.
fn fixed_words(form: Form) -> &'static str {
    match form {
        Form::NewId(Scope::Nodes) | Form::Party => "a party, as BE/BEC",
        Form::NewId(_) => "a text of at most 36 printable ASCII characters",
        Form::Moment | Form::LaterMoment => "a moment in UTC, as 2025-01-01T10:00:00Z",
        Form::Whole => "a whole number of at most 18 digits",
        Form::LineNumber => "a whole number from 1 to 900000000000000000",
        Form::StatusCode => "a whole number from 1000 to 9999",
        Form::Decimal => "a number without an exponent, below 100000000000 in magnitude",
        Form::Quantity => { "a number without an exponent, not negative and below 100000000000" }
        Form::Price => "a number without an exponent, from 0 to 10000",
        Form::Truth => "true or false",
        Form::Object(_) | Form::Body | Form::Data(_) => "an object",
        Form::Objects(_, _, _) => "a list of one or more objects",
        Form::Uids => "a list of texts of at most 36 printable ASCII characters",
        Form::Providers => {
            "a list of at most 63 parties, which differ from one another and from the operator"
        }
        Form::CiString(_) | Form::Exactly(_) | Form::FreeText(_) | Form::Word(_) | Form::Name(_) =>
            "",
    }
}

/// Adds what is wanted under a name of a form, in words.
pub fn write_wanted(form: Form, output: &mut String) -> Result<(), AllocError> {
    match form {
        Form::CiString(most) => write!(
            output,
            "a text of at most {most} printable ASCII characters"
        ),
        Form::Exactly(count) => write!(output, "a text of {count} printable ASCII characters"),
        Form::FreeText(most) => {
            write!(
                output,
                "a text of at most {most} characters, none a control character"
            )
        }
        Form::Word(list) | Form::Name(list) => {
            output.push_str("one of ")?;
            output.push_str(list.words())
        }
        Form::Objects(_, least, most) if most < ANY_NUMBER => {
            write!(output, "a list of {least} to {most} objects")
        }
        _ => output.push_str(fixed_words(form)),
    }
}
