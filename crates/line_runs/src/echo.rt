//! The echo of a line, which is written while the line is read.
ghost use Rattle.std.specs.Prelude.{◌≡◌, ◌-◌, ◌<◌, ℕ, [], ◌∷◌, IfErr, OnOk, cond, length, take};
ghost use Rattle.std.specs.Io.KnownBytes.{Appends};
ghost use Rattle.std.specs.Io.BufRead.{ends_with_byte};
ghost use Rattle.line_runs.specs.Echo.{BeginsPart, EchoesPart, held_bytes, holds_back, passed};

use crate::outcome::RunFault;
use crate::writing::{write_flushed, write_whole};
use std::io::Write;

/// Where `echo` says so, writes a part of a line. A carriage return at its end is held back, until the next part shows
/// whether a line feed follows. The last part of a line is `done`: it ends with the line feed, which is not written, or
/// is empty, where the input ended; then a carriage return that was held back is written.
///
/// After a refusal, which is `WriteFailed`, a beginning of that is written.
pub fn echo_part<W: Write>(
    echo: bool,
    done: bool,
    part: &[u8],
    held: &mut bool,
    writer: &mut W,
) -> Result<(), RunFault>
    ensures ok { OnOk result (EchoesPart echo done held.old part.now held.new (W.contents writer.old) (W.contents writer.new)) }
    ensures err { IfErr result (λ fault. (fault ≡ RunFault.WriteFailed) × BeginsPart echo done held.old part.now (W.contents writer.old) (W.contents writer.new)) }
{
    if !echo {
        return Ok(());
    }
    if !done {
        return pass_on(part, held, writer);
    }
    if part.is_empty() {
        return write_held(*held, writer);
    }
    pass_on(&part[..part.len() - 1], held, writer)
}

/// Where `echo` says so, ends the echo of a line by a line feed, and flushes it.
pub fn end_echo<W: Write>(echo: bool, writer: &mut W) -> Result<(), RunFault>
    ensures ok { OnOk result (Appends (W.contents writer.old) (W.contents writer.new) (cond echo (10 ∷ []) [])) }
    ensures err { IfErr result (λ fault. (fault ≡ RunFault.WriteFailed)
        × (n : ℕ) × Appends (W.contents writer.old) (W.contents writer.new) (take n (cond echo (10 ∷ []) []))) }
{
    if !echo {
        return Ok(());
    }
    write_flushed(writer, b"\n")
}

/// Writes what was held back and a further part of a line, and holds back a carriage return at its end.
fn pass_on<W: Write>(part: &[u8], held: &mut bool, writer: &mut W) -> Result<(), RunFault>
    ensures ok { OnOk result ((held.new ≡ holds_back held.old part.now) × Appends (W.contents writer.old) (W.contents writer.new) (passed held.old part.now)) }
    ensures err { IfErr result (λ fault. (fault ≡ RunFault.WriteFailed)
        × (n : ℕ) × Appends (W.contents writer.old) (W.contents writer.new) (take n (passed held.old part.now))) }
{
    if part.is_empty() {
        return Ok(());
    }
    match write_held(*held, writer) {
        Ok(()) => {}
        Err(fault) => return Err(fault),
    }
    let ends = ends_with(part, b'\r');
    *held = ends;
    write_front(part, ends, writer)
}

/// Whether the last byte is `byte`.
fn ends_with(bytes: &[u8], byte: u8) -> bool
    ensures { result ≡ ends_with_byte byte bytes.now }
{
    bytes.last() == Some(&byte)
}

/// Writes these bytes, and where `cut` says so without the last.
fn write_front<W: Write>(bytes: &[u8], cut: bool, writer: &mut W) -> Result<(), RunFault>
    requires { 0 < length bytes.now }
    ensures ok { OnOk result (Appends (W.contents writer.old) (W.contents writer.new) (cond cut (take (length bytes.now - 1) bytes.now) bytes.now)) }
    ensures err { IfErr result (λ fault. (fault ≡ RunFault.WriteFailed)
        × (n : ℕ) × Appends (W.contents writer.old) (W.contents writer.new) (take n (cond cut (take (length bytes.now - 1) bytes.now) bytes.now))) }
{
    if cut {
        return write_whole(writer, &bytes[..bytes.len() - 1]);
    }
    write_whole(writer, bytes)
}

/// Writes a carriage return that was held back.
fn write_held<W: Write>(held: bool, writer: &mut W) -> Result<(), RunFault>
    ensures ok { OnOk result (Appends (W.contents writer.old) (W.contents writer.new) (held_bytes held)) }
    ensures err { IfErr result (λ fault. (fault ≡ RunFault.WriteFailed)
        × (n : ℕ) × Appends (W.contents writer.old) (W.contents writer.new) (take n (held_bytes held))) }
{
    if held {
        return write_whole(writer, b"\r");
    }
    Ok(())
}
