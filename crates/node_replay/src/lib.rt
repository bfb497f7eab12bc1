//! A node of a setup that is made of rows and carried through events, with no keeper of its rows.
//!
//! ```
//! let mut replay = NodeReplay::from_rows(alloc, seed, nodes, member, rows)?;
//! let replayed = replay.apply(event, &mut entries)?;
//! ```
//!
//! # Promises
//!
//! - It begins as the node of the setup that has just the rows, as it starts again, and is refused as that is. By
//!   `NodeReplay::from_rows`.
//! - An event adds one entry, whose packets are what the node sent, and it is told whether a row changed. Nothing is
//!   entered, and nothing changes, where the event is of the other role, where the node has that fault, and for want of
//!   memory. By `NodeReplay::apply`: `ok` (`Adds` of `specs/Replayed`), `err` (`Fails`).
//! - It can be made again of its rows at any time. By the type `NodeReplay`; `NodeReplay::can_start_again`.
//! - It has at most one answer to an event, where the ids of its places differ. By law `nodes_have_one_answer` of
//!   `replay_laws`.
//! - It tells its rows and the serial of its last packet. By `NodeReplay::stored`, `NodeReplay::last_serial`.
#![tactic(auto)]

mod outcome;
mod replay;
mod stepping;

pub use outcome::{ReplayFault, Replayed};
pub use replay::NodeReplay;
