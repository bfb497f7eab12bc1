//! What a program of the command line tells its user on standard error, and by its exit status: what it waits for, what
//! stopped its run, why a store refused and what to do about it, and that a line was explained.
//!
//! ```
//! let (ran, besides) = and_closed(ran, let_go(closed));
//! status_with(report_node(rt, ran, besides, words), telling, lines.into_inner())
//! ```
//!
//! # Promises
//!
//! - The program ends with the status of its run. By `report`, `report_node`.
//! - It is 3 where a transcript was not opened, or a setup not read. By `report_unopened`, `report_setup`.
//! - The setup that a file has over several lines is the one line of its text, with spaces in place of ends of lines.
//!   It is refused just where the file is empty, too long, or cannot be read. By `setup_line`.
//! - Where a store could not be closed and nothing else had stopped the run, that did. Where something had, it is
//!   handed on to be told besides. By `and_closed`: `refused`; `besides`, `once`, `nothing`.
//! - With `--strict` the status is 1 in place of 0 just where the watch has told of a line. Without it explanations change
//!   no status, and with it none but 0. By `status_with`: `strict`, `untold`; `lax`, `other`.
//! - Which words are told. No clause says so (tested by examples, `tools/try_stores`).
//!
//! # How it is built
//!
//! The faults of the programs over stores and that of one node are told alike: `StoppedByStore` says of each how it
//! tells a refusal of the store. The words for causes and rows are tables (`refusal.rt`).
#![tactic(auto)]

mod endings;
mod refusal;
mod setup;
mod streams;
mod watching;

pub use endings::{
    Besides, StoppedByStore, Told, UNOPENED, and_closed, let_go, report, report_node, report_setup,
    report_unopened,
};
pub use refusal::words_for_unread;
pub use setup::{SETUP_BYTES, SetupFault, read_setup, setup_line};
pub use streams::{BUFFER_BYTES, tell_wait, wanted_behind};
pub use watching::{Lines, lines_of, status_with, watch_in};
