//! A run that answers each line of an input.
ghost use Rattle.std.specs.Prelude.{
  ◌≡◌,
  ◌≢◌,
  ℕ,
  ◌++◌,
  ◌≤◌,
  List,
  [],
  Ok,
  Err,
  true,
  length,
  take,
  IfOk,
  IfErr,
  OnOk,
  string_bytes,
};
ghost use Rattle.std.specs.Io.KnownBytes.{Appends};
ghost use Rattle.line_runs.specs.Run.{Begins, Outputs, StopsReading, ReadsFewLines, gives_beginning, gives_front};
ghost use Rattle.line_runs.specs.Outcome.{both_ran};
ghost use Rattle.line_runs.specs.declared.outcome.Ran.{Ran as RanOf};
ghost use Rattle.line_runs.specs.declared.run.Turn.{Turn as TurnOf};
ghost use Rattle.line_runs.specs.declared.lines.TheConstants.{KEPT_BYTES};

use crate::lines::{KEPT_BYTES, LineReader};
use crate::outcome::{Ran, RunFault};
use crate::writing::{flush, write_whole};
use std::alloc::{AllocError, Global};
use std::io::{BufRead, Write};

/// How one line was answered.
#[derive(Clone, Copy, Debug, PartialEq, Eq)]
pub enum Turn {
    /// The line was taken, and the next follows.
    Taken,
    /// The line was refused, and the next follows.
    Refused,
    /// The line was refused, and the run ends.
    Ended,
}

/// The most lines that a run reads.
pub const MOST_READS: u32 = 1_000_000_000;

/// What answers the lines of an input one after another.
pub trait AnswerLines {
    /// `line_gives s line turn output t`: at the state s a line may be answered by these bytes, and t is the state
    /// after it.
    ghost line_gives: { Self → List ℕ → TurnOf → List ℕ → Self → Type 0 };

    /// `end_gives s ran output`: where the input ends at the state s, these bytes may be the last.
    ghost end_gives: { Self → RanOf → List ℕ → Type 0 };

    /// Answers one line at the end of `output`. An error means that memory ran out for the answer: then `output` may
    /// hold anything, and the state is after the line nevertheless.
    fn answer_line(&mut self, line: &[u8], output: &mut String) -> Result<Turn, AllocError>
        ensures ok { IfOk result (λ turn. (out : List ℕ) × (string_bytes output.new ≡ string_bytes output.old ++ out)
            × line_gives self.old line.now turn out self.new) }
        ensures err { IfErr result (λ _. (turn : TurnOf) × (out : List ℕ) × line_gives self.old line.now turn out self.new) };

    /// Adds to `output` what is written at the end of the input.
    fn answer_end(&self, output: &mut String) -> Result<Ran, AllocError>
        ensures { IfOk result (λ ran. (out : List ℕ) × (string_bytes output.new ≡ string_bytes output.old ++ out)
            × end_gives self.now ran out) };

    /// A line is answered as its first bytes are.
    ghost cut_alike: { (s t : Self) (line : List ℕ) (turn : TurnOf) (out : List ℕ)
        → line_gives s (take KEPT_BYTES line) turn out t → line_gives s line turn out t };
}

/// Answers each line of the input that holds something, writes what it gives, and flushes the writer at the end.
///
/// Where the run was not stopped, what is written is what the lines of the input give, and the machine is in the state
/// that they left. Where it was stopped, what is written is a beginning of that: by a failed read or too many reads,
/// what exactly the lines that were read whole give. The machine is in the state that the lines left which it answered,
/// the one too whose answer was not written whole. At most 1,000,000,000 lines are read. What was answered is flushed
/// before each read that may wait.
pub fn run_whole<M: AnswerLines, R: BufRead, W: Write>(
    alloc: Global,
    machine: &mut M,
    input: &mut LineReader<R>,
    writer: &mut W,
) -> Result<Ran, RunFault>
    ensures output { IfOk result (λ ran. Outputs M.line_gives M.end_gives machine.old (R.Read.remaining input.old.reader) ran
        (W.contents writer.old) (W.contents writer.new) machine.new) }
    ensures begun { IfErr result (λ fault. Begins M.line_gives M.end_gives machine.old (R.Read.remaining input.old.reader)
        (W.contents writer.old) (W.contents writer.new) machine.new) }
    ensures stopped { IfErr result (λ fault. fault ≢ RunFault.WriteFailed → StopsReading M.line_gives machine.old fault
        (R.Read.remaining input.old.reader) (R.Read.remaining input.new.reader) (W.contents writer.old) (W.contents writer.new) machine.new) }
    ensures failed { result ≡ Err RunFault.ReadFailed → input.new.failed ≡ true }
    ensures reads { ReadsFewLines (R.Read.remaining input.old.reader) (R.Read.remaining input.new.reader) }
{
    let mut line = Vec::new(alloc);
    let mut output = String::new(alloc);
    let ran = run_lines(machine, input, &mut line, &mut output, writer);
    match flush(writer) {
        Ok(()) => ran,
        Err(fault) => Err(fault),
    }
}

/// Answers each line, without a flush at the end. What `line` and `output` hold is replaced.
fn run_lines<M: AnswerLines, R: BufRead, W: Write>(
    machine: &mut M,
    input: &mut LineReader<R>,
    line: &mut Vec<u8>,
    output: &mut String,
    writer: &mut W,
) -> Result<Ran, RunFault>
    ensures output { IfOk result (λ ran. Outputs M.line_gives M.end_gives machine.old (R.Read.remaining input.old.reader) ran
        (W.contents writer.old) (W.contents writer.new) machine.new) }
    ensures begun { IfErr result (λ fault. Begins M.line_gives M.end_gives machine.old (R.Read.remaining input.old.reader)
        (W.contents writer.old) (W.contents writer.new) machine.new) }
    ensures stopped { IfErr result (λ fault. fault ≢ RunFault.WriteFailed → StopsReading M.line_gives machine.old fault
        (R.Read.remaining input.old.reader) (R.Read.remaining input.new.reader) (W.contents writer.old) (W.contents writer.new) machine.new) }
    ensures failed { result ≡ Err RunFault.ReadFailed → input.new.failed ≡ true }
    ensures reads { ReadsFewLines (R.Read.remaining input.old.reader) (R.Read.remaining input.new.reader) }
{
    let mut ran = Ran::Whole;
    for _read in 0..MOST_READS {
        match input.next_line(line, writer) {
            Ok(true) => {}
            Ok(false) => return write_end(machine, ran, output, writer),
            Err(fault) => return Err(fault),
        }
        if line.is_empty() {
            continue;
        }
        let turn = match write_answer(machine, line.as_slice(), output, writer) {
            Ok(turn) => turn,
            Err(fault) => return Err(fault),
        };
        match turn {
            Turn::Taken => {}
            Turn::Refused => ran = Ran::WithRefusals,
            Turn::Ended => return Ok(Ran::WithRefusals),
        }
    }
    match input.has_ended(writer) {
        Ok(true) => write_end(machine, ran, output, writer),
        Ok(false) => Err(RunFault::TooManyReads),
        Err(fault) => Err(fault),
    }
}

/// Answers one line, and writes the answer.
fn write_answer<M: AnswerLines, W: Write>(
    machine: &mut M,
    line: &[u8],
    output: &mut String,
    writer: &mut W,
) -> Result<Turn, RunFault>
    ensures ok { IfOk result (λ turn. (out : List ℕ) × Appends (W.contents writer.old) (W.contents writer.new) out
        × M.line_gives machine.old line.now turn out machine.new) }
    ensures err { IfErr result (λ fault. (fault ≡ RunFault.WriteFailed)
        × gives_front (λ out. (turn : TurnOf) × M.line_gives machine.old line.now turn out machine.new) (W.contents writer.old) (W.contents writer.new)) }
{
    output.clear();
    match machine.answer_line(line, output) {
        Ok(turn) => match write_whole(writer, output.as_bytes()) {
            Ok(()) => Ok(turn),
            Err(fault) => Err(fault),
        },
        Err(_) => Err(RunFault::WriteFailed),
    }
}

/// Writes what the end of the input gives, and answers how the whole run went.
fn write_end<M: AnswerLines, W: Write>(
    machine: &M,
    ran: Ran,
    output: &mut String,
    writer: &mut W,
) -> Result<Ran, RunFault>
    ensures ok { IfOk result (λ all. (last : RanOf) × (out : List ℕ) × (all ≡ both_ran ran last)
        × Appends (W.contents writer.old) (W.contents writer.new) out × M.end_gives machine.now last out) }
    ensures err { IfErr result (λ fault. (fault ≡ RunFault.WriteFailed)
        × gives_beginning (λ out. (last : RanOf) × M.end_gives machine.now last out) (W.contents writer.old) (W.contents writer.new)) }
{
    output.clear();
    match machine.answer_end(output) {
        Ok(last) => match write_whole(writer, output.as_bytes()) {
            Ok(()) => Ok(ran.and(last)),
            Err(fault) => Err(fault),
        },
        Err(_) => Err(RunFault::WriteFailed),
    }
}
