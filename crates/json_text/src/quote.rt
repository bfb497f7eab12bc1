//! Number tokens as tagged strings.

ghost use Rattle.std.specs.Prelude.{
  ◌≡◌,
  ◌↔◌,
  ℕ,
  List,
  ◌∷◌,
  ◌||◌,
  ◌==◌,
  ◌++◌,
  ◌≤◌,
  length,
  true,
  Ok,
  OnOk,
  string_bytes,
};
ghost use Rattle.std.specs.List.{prefix_len};
ghost use Rattle.json_text.specs.Fault.{Read, GivesBy};
ghost use Rattle.json_text.specs.Quote.{
  is_digit,
  is_number_char,
  first_place,
  next_place,
  place_after,
  is_whole,
  outside,
  tag_char,
  in_string,
  opened,
  next_mode,
  is_plain,
  skipped,
  in_number,
  mark,
  ending,
  quote,
};
ghost use Rattle.json_text.specs.Numbers.{IsJsonNumber};
ghost use Rattle.json_text.specs.Pieces.{Quotes};

use crate::fault::JsonFault;
use std::alloc::{AllocError, Global};

/// Where a number of JSON stands (RFC 8259, section 6).
#[derive(Clone, Copy)]
enum Place {
    Minus,
    Zero,
    Whole,
    Point,
    Fraction,
    Mark,
    Sign,
    Exponent,
    Bad,
}

/// Where a text stands.
#[derive(Clone, Copy)]
enum Mode {
    /// Outside strings and numbers.
    Between,
    Number(Place),
    /// In a string that began with so many characters of the tag.
    Opening(u8),
    Inside,
    Escaped,
}

fn is_digit(c: u8) -> bool
    ensures { result ≡ is_digit c }
{
    c >= b'0' && c <= b'9'
}

fn is_number_char(c: u8) -> bool
    ensures { result ≡ is_number_char c }
{
    is_digit(c) || c == b'+' || c == b'-' || c == b'.' || c == b'e' || c == b'E'
}

fn first_place(c: u8) -> Place
    ensures { result ≡ first_place c }
{
    if c == b'-' {
        Place::Minus
    } else if c == b'0' {
        Place::Zero
    } else {
        Place::Whole
    }
}

impl Place {
    fn next(self, c: u8) -> Place
        ensures { result ≡ next_place self c }
    {
        let digit = is_digit(c);
        let mark = c == b'e' || c == b'E';
        match self {
            Place::Minus if c == b'0' => Place::Zero,
            Place::Minus if digit => Place::Whole,
            Place::Zero if c == b'.' => Place::Point,
            Place::Zero if mark => Place::Mark,
            Place::Whole if digit => Place::Whole,
            Place::Whole if c == b'.' => Place::Point,
            Place::Whole if mark => Place::Mark,
            Place::Point if digit => Place::Fraction,
            Place::Fraction if digit => Place::Fraction,
            Place::Fraction if mark => Place::Mark,
            Place::Mark if digit => Place::Exponent,
            Place::Mark if c == b'+' || c == b'-' => Place::Sign,
            Place::Sign if digit => Place::Exponent,
            Place::Exponent if digit => Place::Exponent,
            _ => Place::Bad,
        }
    }

    fn is_whole(self) -> bool
        ensures { result ≡ is_whole self }
    {
        match self {
            Place::Zero | Place::Whole | Place::Fraction | Place::Exponent => true,
            _ => false,
        }
    }
}

fn outside(c: u8) -> Mode
    ensures { result ≡ outside c }
{
    if c == b'"' {
        Mode::Opening(0)
    } else if is_digit(c) || c == b'-' {
        Mode::Number(first_place(c))
    } else {
        Mode::Between
    }
}

fn in_string(c: u8) -> Mode
    ensures { result ≡ in_string c }
{
    match c {
        b'"' => Mode::Between,
        b'\\' => Mode::Escaped,
        _ => Mode::Inside,
    }
}

/// The character at `k` of the tag as it is written, `\u0001`.
pub(crate) fn tag_char(k: u8) -> u8
    ensures { result ≡ tag_char k }
{
    match k {
        0 => b'\\',
        1 => b'u',
        5 => b'1',
        _ => b'0',
    }
}

/// How many bytes there are before a quote or a backslash.
pub(crate) fn plain_len(text: &[u8]) -> usize
    ensures value { result ≡ prefix_len is_plain text.now }
    ensures bound { result ≤ length text.now }
{
    text.iter()
        .take_while(|c| **c != b'"' && **c != b'\\')
        .count()
}

fn opened(k: u8, c: u8) -> Result<Mode, JsonFault>
    ensures { result ≡ opened k c }
{
    if c == tag_char(k) {
        if k >= 5 {
            return Err(JsonFault::TaggedText);
        }
        return Ok(Mode::Opening(k + 1));
    }
    if k == 1 {
        return Ok(Mode::Inside);
    }
    Ok(in_string(c))
}

impl Mode {
    #[tactic(auto, unfolding(crate::specs::Quote::next_mode))]
    fn next(self, c: u8) -> Result<Mode, JsonFault>
        ensures { result ≡ next_mode self c }
    {
        match self {
            Mode::Between => Ok(outside(c)),
            Mode::Number(place) if is_number_char(c) => Ok(Mode::Number(place.next(c))),
            Mode::Number(place) if place.is_whole() => Ok(outside(c)),
            Mode::Number(_) => Err(JsonFault::BadNumberToken),
            Mode::Opening(k) => opened(k, c),
            Mode::Inside => Ok(in_string(c)),
            Mode::Escaped => Ok(Mode::Inside),
        }
    }

    fn in_number(self) -> bool
        ensures { result ≡ in_number self }
    {
        matches!(self, Mode::Number(_))
    }

    /// How many bytes leave this as it is, and are copied.
    fn skipped(self, rest: &[u8]) -> usize
        ensures value { result ≡ skipped self rest.now }
        ensures bound { result ≤ length rest.now }
    {
        match self {
            Mode::Inside => plain_len(rest),
            _ => 0,
        }
    }

    #[tactic(auto, unfolding(crate::specs::Quote::ending))]
    fn ending(self) -> Result<&'static str, JsonFault>
        ensures { GivesBy (λ s. s.now) result (ending self) }
    {
        match self {
            Mode::Number(place) if place.is_whole() => Ok("\""),
            Mode::Number(_) => Err(JsonFault::BadNumberToken),
            _ => Ok(""),
        }
    }
}

fn push_both(out: &mut String, first: &str, second: &str) -> Result<(), AllocError>
    ensures { OnOk result (string_bytes out.new ≡ string_bytes out.old ++ (first.now ++ second.now)) }
{
    out.push_str(first)?;
    out.push_str(second)
}

/// What stands before a character, by the modes before and after it.
#[tactic(auto, unfolding(crate::specs::Quote::mark))]
fn mark(old: Mode, new: Mode) -> &'static str
    ensures { result.now ≡ mark old new }
{
    match (old.in_number(), new.in_number()) {
        (false, true) => "\"\\u0001",
        (true, false) => "\"",
        _ => "",
    }
}

/// The text with each number token as a string that begins with U+0001, so `0.5` becomes
/// `"\u00010.5"`. No number is read as floating point then, and none loses a digit.
///
/// Outside strings a number token begins at a digit or `-` and is the longest run of digits, `+`,
/// `-`, `.`, `e` and `E`. The text need not be JSON (RFC 8259). Refused is what comes first from the
/// left: a token that is no number of JSON (`BadNumberToken`), or a string, a name or not, ended or
/// not, whose first character is written `\u0001` (`TaggedText`).
pub fn quote_numbers(alloc: Global, text: &str) -> Result<String, JsonFault>
    ensures { GivesBy string_bytes result (quote text.now) }
{
    let bytes = text.as_bytes();
    let mut out = String::with_capacity(alloc, text.len())?;
    let mut mode = Mode::Between;
    // Up to here the text is in `out`.
    let mut start = 0;
    let mut i = 0;
    while i < bytes.len() {
        let next = mode.next(bytes[i])?;
        if mode.in_number() != next.in_number() {
            push_both(&mut out, &text[start..i], mark(mode, next))?;
            start = i;
        }
        mode = next;
        i = i + 1 + next.skipped(&bytes[i + 1..]);
    }
    push_both(&mut out, &text[start..], mode.ending()?)?;
    Ok(out)
}

/// The number tokens that quoting takes are the numbers of JSON (RFC 8259, section 6).
pub fn quoted_numbers_are_json_numbers()
    ensures { (c : ℕ) (cs : List ℕ) → (is_digit c || (c == 45)) ≡ true
        → (is_whole (place_after (first_place c) cs) ≡ true ↔ IsJsonNumber (c ∷ cs)) }
{}

/// A text is cut into numbers, strings and other characters. Quoting makes each number a string,
/// leaves all else, and refuses the first bad number or tagged string; it answers nothing else.
pub fn quoting_goes_by_pieces()
    ensures { (text : List ℕ) (read : Read (List ℕ)) → (quote text ≡ read ↔ Quotes text read) }
{}
