//! All of some bytes are written, and a writer is flushed.
ghost use Rattle.std.specs.Prelude.{◌≡◌, ◌≤◌, ℕ, IfErr, OnOk, length, take};
ghost use Rattle.std.specs.Io.KnownBytes.{Appends, Keeps};

use crate::outcome::RunFault;
use std::io::{ErrorKind, Write};

/// Writes all of these bytes; a write that was interrupted is tried again. After a refusal, which is `WriteFailed`, a
/// beginning of them is written.
pub fn write_whole<W: Write>(writer: &mut W, bytes: &[u8]) -> Result<(), RunFault>
    ensures ok { OnOk result (Appends (W.contents writer.old) (W.contents writer.new) bytes.now) }
    ensures err { IfErr result (λ fault. (fault ≡ RunFault.WriteFailed)
        × (n : ℕ) × Appends (W.contents writer.old) (W.contents writer.new) (take n bytes.now)) }
{
    let mut at = 0;
    for _turn in 0..u64::MAX {
        if at >= bytes.len() {
            return Ok(());
        }
        match writer.write(&bytes[at..]) {
            Ok(0) => return Err(RunFault::WriteFailed),
            Ok(taken) => at += taken,
            Err(error) => {
                if error.kind() != ErrorKind::Interrupted {
                    return Err(RunFault::WriteFailed);
                }
            }
        }
    }
    Err(RunFault::WriteFailed)
}

/// Has a writer pass on what it holds. A refusal is `WriteFailed`. What was written to it stays as it was.
pub fn flush<W: Write>(writer: &mut W) -> Result<(), RunFault>
    ensures err { IfErr result (λ fault. fault ≡ RunFault.WriteFailed) }
    ensures writer { Keeps (W.contents writer.old) (W.contents writer.new) }
{
    match writer.flush() {
        Ok(()) => Ok(()),
        Err(_) => Err(RunFault::WriteFailed),
    }
}

/// Writes all of these bytes, and has the writer pass them on. After a refusal, which is `WriteFailed`, a beginning of
/// them is written.
pub fn write_flushed<W: Write>(writer: &mut W, bytes: &[u8]) -> Result<(), RunFault>
    ensures ok { OnOk result (Appends (W.contents writer.old) (W.contents writer.new) bytes.now) }
    ensures err { IfErr result (λ fault. (fault ≡ RunFault.WriteFailed)
        × (n : ℕ) × Appends (W.contents writer.old) (W.contents writer.new) (take n bytes.now)) }
{
    match write_whole(writer, bytes) {
        Ok(()) => flush(writer),
        Err(fault) => Err(fault),
    }
}
