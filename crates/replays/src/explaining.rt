//! What is told of a file that was not printed so. No clause speaks of it.

ghost use Rattle.std.specs.Prelude.{◌≤◌, length};

use crate::cutting::split_feed;
use crate::opening::Piece;
use node_runs::write_opened;
use ocpi_json::{Scratch, read_setup};
use ocpi_text::{Party, Whole};
use std::alloc::{AllocError, Global};

/// What is left of a line that may be the one of an opening, or a beginning of it.
#[derive(Drop)]
struct Left<'a> {
    rest: &'a [u8],
    /// Whether the line came to its end.
    is_over: bool,
    is_closed: bool,
}

/// What a line of an opening tells.
#[derive(Clone, Copy)]
pub(crate) struct ToldOpening {
    /// The number of the last line that had taken hold, as far as it stands there.
    pub line: Option<u64>,
}

impl Left<'_> {
    /// Passes a text, or what stands there of it. Whether it stands there.
    fn pass(&mut self, text: &[u8]) -> bool {
        if self.is_over {
            return true;
        }
        if self.rest.starts_with(text) {
            let (_, rest) = self.rest.split_at(text.len());
            self.rest = rest;
            return true;
        }
        self.is_over = true;
        !self.is_closed && text.starts_with(self.rest)
    }

    /// Passes a number, or what stands there of it.
    fn pass_number(&mut self) -> Option<u64> {
        if self.is_over {
            return None;
        }
        let count = digits_in_front(self.rest);
        let (digits, rest) = self.rest.split_at(count);
        self.rest = rest;
        if rest.is_empty() {
            self.is_over = true;
        }
        if count == 0 {
            None
        } else {
            Some(number_of(digits))
        }
    }
}

/// How many digits a text begins with.
fn digits_in_front(text: &[u8]) -> usize
    ensures { result ≤ length text.now }
{
    for (count, byte) in text.iter().enumerate() {
        if *byte < b'0' || *byte > b'9' {
            return count;
        }
    }
    text.len()
}

/// The number that digits spell, or the greatest of its type.
fn number_of(digits: &[u8]) -> u64 {
    let mut number: u64 = 0;
    for byte in digits {
        let digit = byte.saturating_sub(b'0') as u64;
        number = number.saturating_mul(10).saturating_add(digit);
    }
    number
}

/// What stands in front of the number in the line of an opening.
const FRONT: &str = "{\"done\":\"opened\",\"line\":";

/// What stands behind the number of rows there, where each number has one digit.
const BACK: &str = "0,\"serial\":0}\n";

/// What stands between the two numbers there: the party. An error is want of memory.
fn between(alloc: Global, party: &Party) -> Result<String, AllocError> {
    let mut text = String::new(alloc);
    let Some(nothing) = Whole::new(0) else {
        unreachable!()
    };
    write_opened(alloc, 0, party, 0, nothing, &mut text)?;
    let front = FRONT.len().saturating_add(1);
    let end = text.len().saturating_sub(BACK.len());
    match text.as_str().get(front..end) {
        Some(between) => String::from_str(alloc, between),
        None => Err(AllocError),
    }
}

/// What a line tells of the opening of the node of a party, where it is that of one, or a beginning of it. An error is
/// want of memory.
pub(crate) fn told_opening(
    alloc: Global,
    piece: Piece<'_>,
    party: &Party,
) -> Result<Option<ToldOpening>, AllocError> {
    let between = between(alloc, party)?;
    let mut left = Left {
        rest: piece.bytes,
        is_over: false,
        is_closed: piece.is_closed,
    };
    let begins = left.pass(FRONT.as_bytes());
    let line = left.pass_number();
    let has_party = left.pass(between.as_bytes());
    drop(between);
    let _ = left.pass_number();
    let has_serial = left.pass(b",\"serial\":");
    let _ = left.pass_number();
    let ends = left.pass(b"}");
    let is_whole = if left.is_over {
        !piece.is_closed
    } else {
        left.rest.is_empty()
    };
    if begins && has_party && has_serial && ends && is_whole {
        Ok(Some(ToldOpening { line }))
    } else {
        Ok(None)
    }
}

/// The first line of a text.
fn first_line(text: &[u8]) -> &[u8] {
    match split_feed(text) {
        Some((line, _)) => line,
        None => text,
    }
}

/// The text of a line, where it is one.
fn text_of(line: &[u8]) -> &str {
    match std::str::from_utf8(line) {
        Ok(text) => text,
        Err(_) => "bytes that are no text",
    }
}

/// Says what the node prints, and what stands there, at the first line in which they differ. An error is want of
/// memory.
pub(crate) fn tell_difference(
    expected: &[u8],
    found: &[u8],
    words: &mut String,
) -> Result<(), AllocError> {
    let mut expected = expected;
    let mut found = found;
    for _ in 0..expected.len() {
        let (Some((one, later)), Some((other, behind))) = (split_feed(expected), split_feed(found))
        else {
            break;
        };
        if one != other {
            break;
        }
        expected = later;
        found = behind;
    }
    let one = text_of(first_line(expected));
    let other = text_of(first_line(found));
    words.clear();
    write!(
        words,
        "the node would have printed {one} where {other} stands"
    )
}

/// Says that the store that was opened is an older copy. An error is want of memory.
pub(crate) fn tell_older(number: u64, last: u64, words: &mut String) -> Result<(), AllocError> {
    words.clear();
    write!(
        words,
        "the line before took hold as number {last}, and the store that was opened had {number}: an older copy of it was put in its place"
    )
}

/// Adds that an earlier program wrote the file, where a run was opened in it behind no empty line. An error is want of
/// memory.
pub(crate) fn tell_earlier(
    alloc: Global,
    scratch: &mut Scratch,
    rest: &[u8],
    words: &mut String,
) -> Result<(), AllocError> {
    let mut rest = rest;
    for _ in 0..rest.len() {
        let Some((line, behind)) = split_feed(rest) else {
            return Ok(());
        };
        if behind.starts_with(FRONT.as_bytes()) && is_setup(alloc, scratch, line) {
            return words.push_str("; an earlier program wrote the file: weave it with that");
        }
        rest = behind;
    }
    Ok(())
}

/// Whether a line is a setup.
fn is_setup(alloc: Global, scratch: &mut Scratch, line: &[u8]) -> bool {
    match read_setup(alloc, scratch, line) {
        Ok(setup) => {
            drop(setup);
            true
        }
        Err(_) => false,
    }
}
