//! A run that echoes its lines is written to a file, which keeps all of it, and to an output, which gets what a run
//! without an echo writes.
//!
//! ```
//! let file = open_transcript(rt, path, store)?;
//! let mut writer = TranscriptWriter::new(file, output);
//! let ran = run_node(alloc, seed, &mut input, &mut writer, party, true, keeps, kept);
//! let unwritten = writer.unwritten();
//! ```
//!
//! # Promises
//!
//! Over any file and output that tell what they hold.
//!
//! - The file gets all that is written, in its order. By `TranscriptWriter::write`: `bytes`.
//! - The output gets the answers, once the file has them, and nothing else. By `TranscriptWriter::write`: `told`,
//!   `untold`.
//! - An echo is synced where it is flushed. By `TranscriptWriter::flush`: `synced`.
//! - Where the output did not take all of an answer, nothing more is written. By `TranscriptWriter::write`: `stopped`;
//!   `TranscriptWriter::flush`: `stopped`.
//! - What a run of `line_runs` writes with an echo is told apart so that the output gets what it writes without one. No
//!   clause says so (tested by the examples and `faults/kill_node.py`).
//!
//! # How it is built
//!
//! A run writes two line feeds and flushes; then, line by line, the parts of a line, a line feed by itself, a flush,
//! the answer, and a flush. So bytes and flushes tell which part of a line stands next (`Part`). At the end of the
//! input a run may write an answer where a line could begin: that ends with a line feed, and has more bytes.
#![tactic(auto)]

mod opening;
mod part;
mod synced;
mod writer;

pub use opening::open_transcript;
pub use synced::SyncedWrite;
pub use writer::TranscriptWriter;
