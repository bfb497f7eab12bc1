//! What an event brings to a node.
//!
//! ```
//! let Some(input) = input_of(&event) else { return Ok(Applied::Skipped) };
//! let planned = node.plan(&input)?;
//! ```
//!
//! # Promises
//!
//! - What a node of either role gets is just what the event brings to it. An event whose storing was refused brings
//!   nothing, and each other one something. By `input_of`: `some` (`SaysTheSame` of `specs/Inputs`), `none`.
//!
//! # How it is built
//!
//! It stands below all keepers of rows, so that a node without a keeper needs none of them.
#![tactic(auto)]

mod input;

pub use input::input_of;
