//! A run over lines, behind what an echo begins with.

ghost use Rattle.std.specs.Prelude.{◌≡◌, ◌≢◌, ℕ, Ok, Err, IfErr, IfOk, OnOk, take, true};
ghost use Rattle.std.specs.Io.KnownBytes.{Appends};
ghost use Rattle.line_runs.specs.Numbered.{NumberedBegins, NumberedOutputs, NumberedStops};
ghost use Rattle.line_runs.specs.Run.{ReadsFewLines};
ghost use Rattle.node_runs.specs.NodeOutputs.{BeginsSo, IsBehind, begin_bytes};

use line_runs::{AnswerNumbered, LineReader, Ran, RunFault, run_numbered, write_flushed};
use std::alloc::Global;
use std::io::{BufRead, Write};

/// Writes what an echo begins with, and has it passed on.
fn write_beginning<W: Write>(writer: &mut W, echo: bool) -> Result<(), RunFault>
    ensures ok { OnOk result (Appends (W.contents writer.old) (W.contents writer.new) (begin_bytes echo)) }
    ensures err { IfErr result (λ fault. (fault ≡ RunFault.WriteFailed)
        × (n : ℕ) × Appends (W.contents writer.old) (W.contents writer.new) (take n (begin_bytes echo))) }
{
    if !echo {
        return Ok(());
    }
    write_flushed(writer, b"\n\n")
}

/// Writes that, and behind it what the lines of the input give. Where it was not written whole, the machine is as
/// before.
pub fn run_begun<M: AnswerNumbered, R: BufRead, W: Write>(
    alloc: Global,
    machine: &mut M,
    input: &mut LineReader<R>,
    writer: &mut W,
    echo: bool,
) -> Result<Ran, RunFault>
    ensures output { IfOk result (λ ran. IsBehind echo (W.contents writer.old) (λ begun. NumberedOutputs M.line_gives M.end_gives echo machine.old
        (R.Read.remaining input.old.reader) ran begun (W.contents writer.new) machine.new)) }
    ensures begun { IfErr result (λ fault. BeginsSo (NumberedBegins M.line_gives M.end_gives echo machine.old (R.Read.remaining input.old.reader)) machine.old echo
        (W.contents writer.old) (W.contents writer.new) machine.new) }
    ensures stopped { IfErr result (λ fault. fault ≢ RunFault.WriteFailed → IsBehind echo (W.contents writer.old) (λ begun. NumberedStops M.line_gives echo machine.old fault
        (R.Read.remaining input.old.reader) (R.Read.remaining input.new.reader) begun (W.contents writer.new) machine.new)) }
    ensures failed { result ≡ Err RunFault.ReadFailed → input.new.failed ≡ true }
    ensures reads { ReadsFewLines (R.Read.remaining input.old.reader) (R.Read.remaining input.new.reader) }
{
    match write_beginning(writer, echo) {
        Ok(()) => run_numbered(alloc, machine, input, writer, echo),
        Err(fault) => Err(fault),
    }
}
