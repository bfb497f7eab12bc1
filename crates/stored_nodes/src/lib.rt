//! One node over the keeper of its rows: it is opened, or made again of what is kept; each event's changes are
//! committed before its packets are answered; and whatever stops it, it goes on from what is kept.
//!
//! ```
//! let reopened = StoredNode::reopen(alloc, seed, setup.as_slice(), member, keep)?;
//! let mut node = reopened.node;
//! let applied = node.apply(&event.kind, LineNumber::new(line))?;
//! let keep = node.into_keep();
//! ```
//!
//! A transaction does several events in memory, and commits their changes at once, all of them or none. So the disk is
//! waited for once. Packets are kept back until the commit is made.
//!
//! ```
//! let mut transaction = node.begin();
//! let first = transaction.apply(&events[0].kind)?;
//! let second = transaction.apply(&events[1].kind)?;
//! match transaction.commit(LineNumber::new(line)) {
//!     Ok(node) => {}
//!     Err(uncommitted) => {}
//! }
//! ```
//!
//! # Promises
//!
//! `StoredNode`, a node over any keeper of its rows.
//!
//! - What is kept is at any time just the rows of the node, as they are read. A stop leaves that, or, where a commit
//!   was refused since the last one with changes, what one event more would have made of it. Of either the node can be
//!   made again. By the type `StoredNode`: `IsStored` (`specs/Stored`).
//! - A node of a setup opens over a keeper that keeps nothing, and is made again of what one keeps, as it starts again.
//!   Refused are only texts that are no rows, rows of no such node, by one that shows it, a keeper that refused to tell
//!   them, and want of memory. The keeper comes back then, and keeps what it kept. By `StoredNode::open`,
//!   `StoredNode::reopen`: `ok`, `again`, `good`, `err`, `kept`.
//! - An event is none of the node's role, or a step of the node, whose packets are answered once its changes are
//!   committed; then a stop leaves just these. Where it has no changes the keeper is not asked. By `StoredNode::apply`:
//!   `ok`.
//! - An event is refused just for a fault that the node has, for want of memory in the node before the keeper is asked,
//!   or where the keeper does not take its changes. Which of these it is, is told, and want of memory of the keeper is
//!   told as its own. After the first two all is as before. After the third the node is, and what is kept; the keeper's
//!   count of refusals rises as its fault says. By `StoredNode::apply`: `err` (`Fails`).
//! - The same in two calls, for a caller that takes memory of its own between them: what comes of an event is told
//!   before anything changes, and then carried out. By `StoredNode::plan`, `StoredNode::carry_out`.
//! - A transaction does several events in memory, one after another. What is kept is meanwhile the rows of the node
//!   before the first. The changes that it gathers are those of the events, in order, which led from that node to the
//!   one it has. By `StoredNode::begin`; the type `Transaction`: `IsPending` (`specs/Transactions`);
//!   `Transaction::is_pending`.
//! - In it an event is none of the node's role, or a step of the node with just its packets. It is refused just for a
//!   fault that the node has, or for want of memory in the node, and then all is as before. The keeper is not asked. By
//!   `Transaction::apply`: `ok` (`AppliesInMemory`), `err` (`FailsInMemory`).
//! - All changes are committed in turn, all of them or none, so of a row that comes again the last one counts. Where
//!   there are none the keeper is not asked. A commit that is refused ends the node and hands the keeper back. By
//!   `Transaction::commit`: `ok`, `err`.
//! - Of such a keeper a stop leaves what it keeps, what one event that was refused earlier would have made of that, or
//!   the rows of the node after all of the events, with the number of their line. It never leaves those after a part of
//!   them. By law `refused_commits_leave_all_or_nothing` (`LeavesAllOrNothing` of `specs/Transactions`).
//! - Where the commit before was taken, or the keeper was just opened, it leaves what it keeps, or what these very events
//!   make of it. By law `refused_commits_leave_their_events` (`LeavesTheseEvents`).
//! - A transaction that is let go leaves its keeper as it was. By `Transaction::abandon`.
//!
//! # How it is built
//!
//! A line of several events goes through a `Transaction` of `stored_nodes`: the node does each in memory, and the
//! changes are committed at the end. The type's invariant says that there is some node whose rows are kept, and
//! events from there to the node as it is (`IsPending`). Each call says by equations what it adds. So no ghost member
//! is needed: who begins a transaction carries its first node through the calls. A refused commit ends the node,
//! since no `StoredNode` has rows that its keeper has not; what is left is its keeper
//! (`refused_commits_leave_all_or_nothing`).
#![tactic(auto)]

mod fault;
pub mod laws;
mod stored_node;
mod transaction;

pub use fault::{ApplyFault, ReopenFault, StepFault};
pub use stored_node::{Applied, Reopened, StoredNode, Unopened};
pub use transaction::{Transaction, Uncommitted};
