//! A node of either role: how it is opened or made of its rows, what it plans, and how it carries that out.
//!
//! ```
//! let mut node = Node::open(alloc, seed, nodes, member)?;
//! match node.plan(&NodeInput::Tick { at })? {
//!     NodePlan::Skipped => {}
//!     NodePlan::Refused(fault) => {}
//!     NodePlan::Acts(work) => {
//!         node.make_room(&work)?;
//!         let packets = node.apply(work);
//!     }
//! }
//! ```
//!
//! Nothing changes before `apply`, and `apply` cannot fail. Whoever stores the rows of a node does so between
//! `make_room` and `apply`, so a refusal has nothing to undo. A world of nodes and a node that runs alone step by these
//! calls.
//!
//! # Promises
//!
//! - A node of a setup opens as the definition says: an operator with all providers, or a provider with all operators.
//!   By `Node::open`.
//! - What reaches a node is skipped just where it is not for its role, refused for a fault that the node has, or leads
//!   to the work that its tables ask for. Planning changes nothing. By `Node::plan`.
//! - Room is taken first, and nothing changes then. Work that has room is carried out, which cannot fail: the state and
//!   the packets are those of the plan, and a restart leaves what was stored, and nothing else. By `Node::make_room`,
//!   `Node::apply`.
//! - Planned work is a step of the definition, its changes lead from the rows before it to those after it, and no two
//!   are of one row. By laws `work_is_a_step`, `work_changes_rows`.
//! - Of rows the node of a setup is made that has just these. Refused are only rows of no such node, by a row that
//!   shows it. Of its own rows the very same is made, as it starts again; want of memory alone can refuse them. By
//!   `Node::from_rows`: `made`, `bad`, `again`, `good`; `Node::stored`, `Node::start_again`.
//! - The node of a member of a setup is opened with what the member has, and keeps it whatever it does. By law
//!   `members_stay`.
//! - What a node tells is by its state: what it owes, and the serial of its last packet. What its type keeps holds at
//!   any time. By `Node::settlement`, `Node::last_serial`, `Node::is_sound`.
#![tactic(auto)]

mod carrying;
mod input;
pub mod laws;
mod making;
mod node;
mod opening;
mod planning;
mod restarting;
mod work;

pub use input::NodeInput;
pub use node::Node;
pub use opening::nodes_of;
pub use work::{NodePlan, NodeWork};
