//! The event lines of a woven run that were in no transcript.
//!
//! ```
//! let line = delivery_line(alloc, at, &from, &node, serial)?;
//! let line = restart_line(alloc, &node)?;
//! ```
//!
//! # Promises
//!
//! Lines that name what happened for `play`.
//!
//! - What is written of a delivery and of a restart is read by `play` as that event, where it is no longer than a line
//!   may be. By `delivery_line`, `restart_line`: `text`, `again`.
//! - A line that one node reads as an event, and that is no delivery, is read by `play` as the same event. By law
//!   `node_lines_are_lines`.
#![tactic(auto)]

mod event_lines;
pub mod laws;

pub use event_lines::{delivery_line, restart_line};
