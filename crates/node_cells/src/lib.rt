//! A node over its keeper, with the history of all that happened at it since it was opened.
//!
//! ```
//! let mut cell = NodeCell::open(alloc, seed, setup.as_slice(), member, keep)?;
//! let packets = cell.apply(event)?;
//! let entries = cell.history();
//! ```
//!
//! # Promises
//!
//! `NodeCell`, such a node with the history of all that happened at it since it was opened.
//!
//! - At any time the node is what its history made of it: each entry is a step of it with just the entry's packets. An
//!   event of the other role and `refused` are entries that change nothing. A history has at most 100,000 entries. What
//!   is kept is just the rows of the node. By the type `NodeCell`: `IsCell` (`specs/Cells`), `Replays`
//!   (`history_laws/specs/Replays`); `NodeCell::is_replay`.
//! - A stop leaves the rows that the history made, or that a beginning of it made behind which no row changed, or,
//!   where a commit was refused since, what one event more would have made of these. Of either the node can be made
//!   again. By the type `NodeCell`: `stops` of `IsCell` (`IsLeft`).
//! - It opens as the node over its keeper does: fresh, with the state of its setup before any event; or made again of
//!   what is kept, and not fresh. By `NodeCell::open`, `NodeCell::reopen`.
//! - An event is entered with the packets that are answered, and is a step of the node whose changes were committed
//!   first. By `NodeCell::apply`: `ok` (`Enters`).
//! - It is not entered where the history is full, where the node has that fault, where the keeper's count of refusals
//!   rose, or for want of memory. The cell is as before, but for its keeper, which keeps what it kept. By
//!   `NodeCell::apply`: `err` (`IsNotEntered`).
#![tactic(auto)]

mod cell;
mod fault;
mod stepping;

pub use cell::NodeCell;
pub use fault::CellFault;
pub use stepping::MOST_ENTRIES;
