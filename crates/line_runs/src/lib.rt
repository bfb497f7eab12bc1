//! Runs over the lines of an input: each is answered, and what it gives is written before the program waits for more.
//!
//! ```
//! impl AnswerLines for Program {
//!     fn answer_line(&mut self, line: &[u8], output: &mut String) -> Result<Turn, AllocError> { .. }
//!     fn answer_end(&self, output: &mut String) -> Result<Ran, AllocError> { .. }
//! }
//!
//! let mut input = LineReader::new(reader);
//! let ran = run_whole(alloc, &mut program, &mut input, &mut writer);
//! let status = status_of(ran);
//! ```
//!
//! The trait also asks what a line may give (`line_gives`, `end_gives`), and that a line is answered as its first bytes
//! are.
//!
//! # Promises
//!
//! Over any reader and writer that tell what they give and hold.
//!
//! - Whatever the lines mean, what is written is what they give. It is told in which state the machine ends, a line
//!   that ended the run among what it took. By `run_whole`: `output`.
//! - Where the run was stopped, the machine is in the state that the lines left which it answered. Where the answer to
//!   one was not written whole, or there was no memory for it, that is the state after this line. By `run_whole`:
//!   `begun`, `stopped`; `AnswerLines::answer_line`: `err`.
//! - A machine may be told the number of each line among all lines, from 1, the empty ones too. With an echo each line
//!   that holds something is written before its answer, all of it and a line feed, also where the machine gets only its
//!   first bytes. By `run_numbered`: `output` (`specs/Numbered`).
//! - Where such a run was stopped in the echo of a line, the machine is as before that line. After `ReadFailed` the
//!   echo has what was read of the line, but for a carriage return at its end. By `run_numbered`: `begun`, `stopped`.
//! - The status is 0 where no line was refused, and 1 where one was or the run was stopped. By `status_of`.
//! - After `ReadFailed` or `TooManyReads` it is what exactly the lines that were read whole give. `TooManyReads` comes
//!   only after 1,000,000,000 lines, with more to come. By `stopped`.
//! - `ReadFailed` comes only with the reader's note that a read failed. By `failed`.
//! - At most 1,000,000,000 lines are read, whatever the outcome. By `reads`.
//! - With a store each event's packets are written out before the next event is carried out. No clause says so: says
//!   what a flush has written (tested by `tools/try_stores`, `faults/stop_in_store.py`).
//! - Both are told, what stopped the run first. No clause says so (tested by `tools/try_stores`).
//! - It writes the text of the fault to standard error. No clause says so (tested by `tools/try_stores`, and
//!   `/dev/full`).
//!
//! # How it is built
//!
//! `LineReader` reads lines from any reader, and flushes a writer before each read that may wait: where nothing is
//! left of the bytes that the last read showed. `run_whole` answers each line by an `AnswerLines` (a trait with a
//! relation for what one line gives) and says what is written, whatever the lines mean. Each exit names the state
//! that the lines left: an answer for which memory runs out leaves what the line makes of the state nevertheless, so
//! that one constructor (`in_line`) has all cut answers. `run_numbered` is the same with the number of each line and
//! an echo, which is written as the line is read (`echo.rt`): what is echoed of the bytes read so far is these
//! without a carriage return at their end, which is held back. It is a loop of its own, since it flushes each answer,
//! and counts empty lines, which `AnswerLines` never sees; `ChainLemmas` says how far a run has come, whatever is
//! said of the lines.
#![tactic(auto)]

mod echo;
mod lines;
mod numbered;
mod outcome;
mod run;
mod writing;

pub use lines::{KEPT_BYTES, LineReader};
pub use numbered::{AnswerNumbered, run_numbered};
pub use outcome::{Ran, RunFault, status_of};
pub use run::{AnswerLines, Turn, run_whole};
pub use writing::{flush, write_flushed, write_whole};
