//! A run that tells its machine the number of each line, and may echo the lines.
ghost use Rattle.std.specs.Prelude.{◌≡◌, ◌≢◌, ℕ, ◌++◌, List, Ok, Err, true, length, take, IfOk, IfErr, OnOk, string_bytes};
ghost use Rattle.std.specs.Io.KnownBytes.{Appends};
ghost use Rattle.line_runs.specs.Run.{ReadsFewLines, gives_beginning, gives_front};
ghost use Rattle.line_runs.specs.Numbered.{NumberedBegins, NumberedOutputs, NumberedStops};
ghost use Rattle.line_runs.specs.Outcome.{both_ran};
ghost use Rattle.line_runs.specs.declared.outcome.Ran.{Ran as RanOf};
ghost use Rattle.line_runs.specs.declared.run.Turn.{Turn as TurnOf};
ghost use Rattle.line_runs.specs.declared.lines.TheConstants.{KEPT_BYTES};

use crate::echo::end_echo;
use crate::lines::{KEPT_BYTES, LineReader};
use crate::outcome::{Ran, RunFault};
use crate::run::{MOST_READS, Turn};
use crate::writing::{flush, write_flushed, write_whole};
use std::alloc::{AllocError, Global};
use std::io::{BufRead, Write};

/// What answers the lines of an input one after another, by their numbers.
pub trait AnswerNumbered {
    /// `line_gives s number line turn output t`: at the state s a line of this number may be answered by these bytes,
    /// and t is the state after it.
    ghost line_gives: { Self → ℕ → List ℕ → TurnOf → List ℕ → Self → Type 0 };

    /// `end_gives s ran output`: where the input ends at the state s, these bytes may be the last.
    ghost end_gives: { Self → RanOf → List ℕ → Type 0 };

    /// Answers one line at the end of `output`. `number` counts all lines of the input from 1, the empty ones too. An
    /// error means that memory ran out for the answer: then `output` may hold anything, and the state is after the line
    /// nevertheless.
    fn answer_line(
        &mut self,
        number: u64,
        line: &[u8],
        output: &mut String,
    ) -> Result<Turn, AllocError>
        ensures ok { IfOk result (λ turn. (out : List ℕ) × (string_bytes output.new ≡ string_bytes output.old ++ out)
            × line_gives self.old number line.now turn out self.new) }
        ensures err { IfErr result (λ _. (turn : TurnOf) × (out : List ℕ) × line_gives self.old number line.now turn out self.new) };

    /// Adds to `output` what is written at the end of the input.
    fn answer_end(&self, output: &mut String) -> Result<Ran, AllocError>
        ensures { IfOk result (λ ran. (out : List ℕ) × (string_bytes output.new ≡ string_bytes output.old ++ out)
            × end_gives self.now ran out) };

    /// A line is answered as its first bytes are.
    ghost cut_alike: { (s t : Self) (number : ℕ) (line : List ℕ) (turn : TurnOf) (out : List ℕ)
        → line_gives s number (take KEPT_BYTES line) turn out t → line_gives s number line turn out t };
}

/// Answers each line of the input that holds something, by its number among all lines, and writes what it gives. With
/// `echo` each such line is written before, as it came: without its end, and then a line feed.
///
/// The echo of a line is flushed before the line is answered, and its answer before the next line is read. Of a line
/// longer than `KEPT_BYTES` the machine is handed the first `KEPT_BYTES` bytes. The echo has all of it, and takes no
/// memory for the rest. A last line without its line feed is echoed with one.
///
/// Where the run was not stopped, what is written is what the lines of the input give, and the machine is in the state
/// that they left. Where it was stopped, what is written is a beginning of that: by a failed read or too many reads,
/// what exactly the lines that were read whole give, and with `echo` then what was read of the next. The machine is in
/// the state that the lines left which it answered, the one too whose answer was not written whole. A line of which
/// only the echo, or a part of it, was written is not answered. At most 1,000,000,000 lines are read.
pub fn run_numbered<M: AnswerNumbered, R: BufRead, W: Write>(
    alloc: Global,
    machine: &mut M,
    input: &mut LineReader<R>,
    writer: &mut W,
    echo: bool,
) -> Result<Ran, RunFault>
    ensures output { IfOk result (λ ran. NumberedOutputs M.line_gives M.end_gives echo machine.old (R.Read.remaining input.old.reader) ran
        (W.contents writer.old) (W.contents writer.new) machine.new) }
    ensures begun { IfErr result (λ fault. NumberedBegins M.line_gives M.end_gives echo machine.old (R.Read.remaining input.old.reader)
        (W.contents writer.old) (W.contents writer.new) machine.new) }
    ensures stopped { IfErr result (λ fault. fault ≢ RunFault.WriteFailed → NumberedStops M.line_gives echo machine.old fault
        (R.Read.remaining input.old.reader) (R.Read.remaining input.new.reader) (W.contents writer.old) (W.contents writer.new) machine.new) }
    ensures failed { result ≡ Err RunFault.ReadFailed → input.new.failed ≡ true }
    ensures reads { ReadsFewLines (R.Read.remaining input.old.reader) (R.Read.remaining input.new.reader) }
{
    let mut line = Vec::new(alloc);
    let mut output = String::new(alloc);
    let ran = run_numbered_lines(machine, input, &mut line, &mut output, writer, echo);
    match flush(writer) {
        Ok(()) => ran,
        Err(fault) => Err(fault),
    }
}

/// Answers each line, without a flush at the end. What `line` and `output` hold is replaced.
fn run_numbered_lines<M: AnswerNumbered, R: BufRead, W: Write>(
    machine: &mut M,
    input: &mut LineReader<R>,
    line: &mut Vec<u8>,
    output: &mut String,
    writer: &mut W,
    echo: bool,
) -> Result<Ran, RunFault>
    ensures output { IfOk result (λ ran. NumberedOutputs M.line_gives M.end_gives echo machine.old (R.Read.remaining input.old.reader) ran
        (W.contents writer.old) (W.contents writer.new) machine.new) }
    ensures begun { IfErr result (λ fault. NumberedBegins M.line_gives M.end_gives echo machine.old (R.Read.remaining input.old.reader)
        (W.contents writer.old) (W.contents writer.new) machine.new) }
    ensures stopped { IfErr result (λ fault. fault ≢ RunFault.WriteFailed → NumberedStops M.line_gives echo machine.old fault
        (R.Read.remaining input.old.reader) (R.Read.remaining input.new.reader) (W.contents writer.old) (W.contents writer.new) machine.new) }
    ensures failed { result ≡ Err RunFault.ReadFailed → input.new.failed ≡ true }
    ensures reads { ReadsFewLines (R.Read.remaining input.old.reader) (R.Read.remaining input.new.reader) }
{
    let mut ran = Ran::Whole;
    for read in 0..MOST_READS {
        match input.next_echoed(line, echo, writer) {
            Ok(true) => {}
            Ok(false) => return write_last(machine, ran, output, writer),
            Err(fault) => return Err(fault),
        }
        if line.is_empty() {
            continue;
        }
        match end_echo(echo, writer) {
            Ok(()) => {}
            Err(fault) => return Err(fault),
        }
        let number = u64::from(read) + 1;
        let turn = match write_numbered(machine, number, line.as_slice(), output, writer) {
            Ok(turn) => turn,
            Err(fault) => return Err(fault),
        };
        match turn {
            Turn::Taken => {}
            Turn::Refused => ran = Ran::WithRefusals,
            Turn::Ended => return Ok(Ran::WithRefusals),
        }
    }
    match input.has_ended(writer) {
        Ok(true) => write_last(machine, ran, output, writer),
        Ok(false) => Err(RunFault::TooManyReads),
        Err(fault) => Err(fault),
    }
}

/// Answers one line, writes the answer, and flushes it.
fn write_numbered<M: AnswerNumbered, W: Write>(
    machine: &mut M,
    number: u64,
    line: &[u8],
    output: &mut String,
    writer: &mut W,
) -> Result<Turn, RunFault>
    ensures ok { IfOk result (λ turn. (out : List ℕ) × Appends (W.contents writer.old) (W.contents writer.new) out
        × M.line_gives machine.old number line.now turn out machine.new) }
    ensures err { IfErr result (λ fault. (fault ≡ RunFault.WriteFailed)
        × gives_front (λ out. (turn : TurnOf) × M.line_gives machine.old number line.now turn out machine.new)
        (W.contents writer.old) (W.contents writer.new)) }
{
    output.clear();
    match machine.answer_line(number, line, output) {
        Ok(turn) => match write_flushed(writer, output.as_bytes()) {
            Ok(()) => Ok(turn),
            Err(fault) => Err(fault),
        },
        Err(_) => Err(RunFault::WriteFailed),
    }
}

/// Writes what the end of the input gives, and answers how the whole run went.
fn write_last<M: AnswerNumbered, W: Write>(
    machine: &M,
    ran: Ran,
    output: &mut String,
    writer: &mut W,
) -> Result<Ran, RunFault>
    ensures ok { IfOk result (λ all. (last : RanOf) × (out : List ℕ) × (all ≡ both_ran ran last)
        × Appends (W.contents writer.old) (W.contents writer.new) out × M.end_gives machine.now last out) }
    ensures err { IfErr result (λ fault. (fault ≡ RunFault.WriteFailed)
        × gives_beginning (λ out. (last : RanOf) × M.end_gives machine.now last out) (W.contents writer.old) (W.contents writer.new)) }
{
    output.clear();
    match machine.answer_end(output) {
        Ok(last) => match write_whole(writer, output.as_bytes()) {
            Ok(()) => Ok(ran.and(last)),
            Err(fault) => Err(fault),
        },
        Err(_) => Err(RunFault::WriteFailed),
    }
}
