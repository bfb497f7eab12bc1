//! Transcripts: what a node printed that ran by itself, run behind run, each line behind its echo. One is read by
//! running the node again over its lines, and comparing what it prints then, byte by byte.
//!
//! ```
//! let transcript = read_transcript(alloc, seed, &mut scratch, text, Start::new(alloc), &[], &mut words)?;
//! let entries = transcript.entries();
//! ```
//!
//! # Promises
//!
//! - What is read was printed by runs of one node over one store, from no rows or from those that are given, each over
//!   what the one before left, wherever they were stopped and whatever their setups were. What it tells is their history.
//!   By `read_transcript`: `read` (`PrintedBy` of `specs/Transcripts`, `ArePrinted` of `specs/Printed`).
//! - What is refused was printed by no such runs, or by such of which none was opened. Asked of rows that are given is
//!   that each request has a url of its own. By `read_transcript`: `none` (`AccusesRightly`).
//! - Some runs print all in front of the line that is named. By `read_transcript`: `line` (`BlamesNoLineBefore`).
//! - What a node prints for an event is one value, and so is the node behind it. By law `events_give_one_value`. So is
//!   what a run prints and leaves, given what its store had and its lines. By law `printed_is_one`.
//! - Runs of the program `node` with an echo are such runs, each over what its keeper had, wherever it was stopped. By law
//!   `outputs_are_printed` (`specs/Outputs`).
//! - Runs over one store, one behind the other, print what such runs print. By law `runs_are_printed`.
//! - Which refusal it is, and what is said beside it. No clause says so (tested by the examples).
#![tactic(auto)]

mod answering;
mod cutting;
mod explaining;
mod fault;
mod held;
mod history;
pub mod laws;
mod members;
mod opening;
mod reading;
mod transcript;

pub use cutting::EchoedLine;
pub use fault::ReplayFault;
pub use held::Start;
pub use reading::read_transcript;
pub use transcript::{Opening, Source, Transcript};
