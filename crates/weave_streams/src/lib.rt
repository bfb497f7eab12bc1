//! The program `weave`, joined to the files of its transcripts and to the standard output.
//!
//! ```
//! let status = report_weave(rt, weave_files(rt, seed, &words));
//! ```
//!
//! # Promises
//!
//! - The program ends with the status of its run, with 2 where a party that was given is wrong, and with 3 where a file
//!   was not read. By `report_weave`: `ran`, `given`, `stopped`; that 3 is told no clause says (tested by the examples).
//! - All files are read before anything is written. No clause says so (its few lines).
//!
//! # How it is built
//!
//! Each file is read whole. What stops a run before its text is made is told by a text of its own, which takes no
//! memory.
#![tactic(auto)]

mod weaving;

pub use weaving::{UNREAD, WeaveStop, report_weave, weave_files};
