//! The setup of a run is read from its file.

ghost use Rattle.std.specs.Prelude.{◌≡◌, ◌<◌, ◌≤◌, ◌++◌, ◌+◌, ◌∷◌, [], Err, None, IfOk, IfSome, IsOkAnd, OnOk, false, length, map, take, true};
ghost use Rattle.std.specs.Io.BufRead.{strip_last};
ghost use Rattle.program_messages.specs.SetupFiles.{begins_object, in_line, line_member, line_of, numbered};

use std::alloc::{AllocError, Global};
use std::fs::File;
use std::io::{ErrorKind, Read};

/// The most bytes of a setup's file: as many as a line may have.
pub const SETUP_BYTES: usize = 1_048_576;

/// Why the file of a setup gives no line.
#[derive(Clone, Copy, Debug, PartialEq, Eq)]
pub enum SetupFault {
    /// It was not read.
    Unread(ErrorKind),
    /// It has more than `SETUP_BYTES` bytes.
    TooLong,
    /// Its first byte is no brace that opens an object, or it has none.
    NoObject,
}

/// The line that the file at a path makes, with that number as its member `line`, where one is given, and its line
/// feed; where no file is named, no bytes.
pub fn read_setup(
    rt: &HostRuntime,
    path: Option<&str>,
    number: Option<u64>,
) -> Result<Vec<u8>, SetupFault>
    ensures none { path.entry ≡ None → IsOkAnd result (λ line. line.items ≡ []) }
{
    match path {
        None => Ok(Vec::new(rt.alloc())),
        Some(path) => match File::open(rt, path) {
            Ok(file) => setup_line(rt.alloc(), file, number),
            Err(error) => Err(SetupFault::Unread(error.kind())),
        },
    }
}

/// The line that the text of a file makes, with its line feed: each end of a line within it becomes a space. A text of
/// JSON has none in its strings, so the line spells the same value. Where a number is given, that is the first member of
/// the object, as `line`.
pub fn setup_line<R: Read + Drop>(
    alloc: Global,
    file: R,
    number: Option<u64>,
) -> Result<Vec<u8>, SetupFault>
    ensures line { IfOk result (λ line. IfSome (R.remaining file) (λ text. line.items ≡ line_of number text)) }
    ensures bounds { IfOk result (λ line. IfSome (R.remaining file) (λ text. (begins_object text ≡ true) × (length text ≤ SETUP_BYTES))) }
    ensures long { result ≡ Err SetupFault.TooLong → IfSome (R.remaining file) (λ text. SETUP_BYTES < length text) }
    ensures other { result ≡ Err SetupFault.NoObject → IfSome (R.remaining file) (λ text. begins_object text ≡ false) }
{
    match read_at_most(alloc, file) {
        Ok(text) => line_of(alloc, text.as_slice(), number),
        Err(kind) => Err(SetupFault::Unread(kind)),
    }
}

/// What a file has, but no more than shows that this is too long.
fn read_at_most<R: Read + Drop>(alloc: Global, file: R) -> Result<Vec<u8>, ErrorKind>
    ensures { IfOk result (λ read. IfSome (R.remaining file) (λ text. read.items ≡ take (SETUP_BYTES + 1) text)) }
{
    let mut text = Vec::new(alloc);
    let mut file = file.take(SETUP_BYTES as u64 + 1);
    let read = file.read_to_end(&mut text);
    drop(file);
    match read {
        Ok(_) => Ok(text),
        Err(error) => Err(error.kind()),
    }
}

/// The line of a text.
fn line_of(alloc: Global, text: &[u8], number: Option<u64>) -> Result<Vec<u8>, SetupFault>
    ensures line { IfOk result (λ line. line.items ≡ line_of number text.now) }
    ensures bounds { IfOk result (λ line. (begins_object text.now ≡ true) × (length text.now ≤ SETUP_BYTES)) }
    ensures long { result ≡ Err SetupFault.TooLong → SETUP_BYTES < length text.now }
    ensures other { result ≡ Err SetupFault.NoObject → (begins_object text.now ≡ false) × (length text.now ≤ SETUP_BYTES) }
{
    if text.len() > SETUP_BYTES {
        return Err(SetupFault::TooLong);
    }
    if !begins_object(text) {
        return Err(SetupFault::NoObject);
    }
    let kept = without_last(without_last(text, b'\n'), b'\r');
    match in_one_line(alloc, kept, number) {
        Ok(line) => Ok(line),
        Err(_) => Err(SetupFault::Unread(ErrorKind::OutOfMemory)),
    }
}

/// Whether the first byte is a brace that opens an object.
fn begins_object(text: &[u8]) -> bool
    ensures { result ≡ begins_object text.now }
{
    text.first() == Some(&b'{')
}

/// The text without its last byte, where that is `byte`.
fn without_last(text: &[u8], byte: u8) -> &[u8]
    ensures { result.now ≡ strip_last byte text.now }
{
    if text.last() == Some(&byte) {
        return &text[..text.len() - 1];
    }
    text
}

/// The text as one line, with the member `line` where its number is given, and a line feed after it.
fn in_one_line(alloc: Global, text: &[u8], number: Option<u64>) -> Result<Vec<u8>, AllocError>
    ensures { IfOk result (λ line. line.items ≡ numbered number text.now ++ (10 ∷ [])) }
{
    let first = text.len().min(1);
    let mut line = Vec::new(alloc);
    push_in_line(&text[..first], &mut line)?;
    push_member(alloc, number, &mut line)?;
    push_in_line(&text[first..], &mut line)?;
    line.push(b'\n')?;
    Ok(line)
}

/// Adds the member `line`, where its number is given.
fn push_member(alloc: Global, number: Option<u64>, line: &mut Vec<u8>) -> Result<(), AllocError>
    ensures { OnOk result (line.new.items ≡ line.old.items ++ line_member number) }
{
    match number {
        None => Ok(()),
        Some(number) => {
            let member = format!(in alloc; "\"line\":{number},")?;
            line.extend_from_slice(member.as_bytes())
        }
    }
}

/// Adds the text with spaces in place of the ends of its lines.
fn push_in_line(text: &[u8], line: &mut Vec<u8>) -> Result<(), AllocError>
    ensures { OnOk result (line.new.items ≡ line.old.items ++ map in_line text.now) }
{
    for byte in text {
        line.push(in_line(*byte))?;
    }
    Ok(())
}

/// A byte as a line has it.
fn in_line(byte: u8) -> u8
    ensures { result ≡ in_line byte }
{
    match byte {
        b'\n' | b'\r' => b' ',
        _ => byte,
    }
}
