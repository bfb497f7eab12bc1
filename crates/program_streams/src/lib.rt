//! The programs `answer`, `play` and `settle`, joined to the standard input and output, and to the files of stores.
//!
//! ```
//! let status = run_play_word(rt, seed, &words);
//! ```
//!
//! # Promises
//!
//! - What a program reads is the standard input, and what it writes goes to the standard output. No clause says so
//!   (tested by the examples).
//! - The status is that of the run and of the closing of its stores. No clause says so: `report` and `and_closed` of
//!   `program_messages` have it, and the calls stand here (tested by the examples, `tools/try_stores`).
//! - With a store each event's packets are written before the next event is carried out. No clause says so (tested by
//!   `tools/try_stores`, `faults/stop_in_store.py`).
//!
//! # How it is built
//!
//! A reader, a writer and the keepers are made one after the other, and each is handed on by value to a function over
//! its trait, so that a body holds at most one value of a dear type. With a store the output has no buffer. The world
//! of a run is left as it is, since the process ends.
#![tactic(auto)]

mod answer;
mod play;
mod settle;

pub use answer::run_answer_word;
pub use play::run_play_word;
pub use settle::run_settle_word;
