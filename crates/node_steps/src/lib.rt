//! What steps of a node are made of, of an operator or a provider: the rows that change, the packets that are sent,
//! and what becomes of what a restart empties.
//!
//! ```
//! let needs = Needs { packets: 2, requests: 1, changes: 3 };
//! let mut draft = Draft::open(alloc, party, serial, request, needs)?;
//! draft.answer(sender, to, number, reply)?;
//! draft.push(at, to, Push::CommandResult(command_result))?;
//! draft.change(Change::Put(result_row))?;
//! let plan = draft.into_plan();
//! ```
//!
//! `open` counts the numbers, and refuses where they are used up. From there on each act fails for want of memory
//! alone, and nothing changes until the plan is carried out.
//!
//! # Promises
//!
//! The laws of `node_laws` are over any step relation; `operator_laws` and `provider_laws` show that an operator and
//! a provider are such nodes.
//!
//! - A step that is gathered by its acts is that of the definition: its rows, its packets under the next serials, its
//!   requests under the next numbers, and when each was sent (`specs/Acts`, `specs/Drafts`). By `Draft`: `open`, each
//!   act, `into_plan`.
//! - `NumbersUsedUp` comes exactly where so many packets and requests would take a counter past its last number, and is
//!   never told as Memory. By `Draft::open`: `ok`, `in_range`, `err`.
//! - An act needs numbers that were counted, so it fails for want of memory alone. By `requires` of the acts;
//!   `counters_in_range`.
//! - The party of a list is found without case, or there is none. What is sent again goes to its party as the list
//!   spells it. Copies equal their changes; a plan may do nothing, or change one row. By `find_peer`, `peer_of`,
//!   `Draft::resend`, `Draft::resend_command`, `copies`, `Plan::nothing`, `Plan::one`.
//! - `NodeFault` has the refusals of both nodes, each with its number, its name and its text (`specs/FaultText`). By
//!   `number`, `name`, `Display` of `NodeFault`.
//!
//! # How it is built
//!
//! A step is a list of acts (`specs/Acts`): a change of a row, an answer that is kept and sent, a kept reply that is
//! sent again, a push, a push that is sent again, an acknowledgement, a command that is sent, one that is sent again,
//! and a question that is sent once and kept in no row. Each act has the rows that it changes, the messages that it
//! sends, what it does to what stands in no row (`Volatile`), and how many requests of the node's own it makes. What
//! the acts come to is said once, for any list of them (`specs/Drafts`: `step_by`): the rows of the counters first,
//! then what each act changes, in order; the messages under the next serials. A later kind of event is a further act.
//!
//! The code counts first how many packets and requests its acts take (`Needs`). `Draft::open` refuses where a counter
//! would pass its last number, before it allocates anything, and takes room for the lists; after that nothing but
//! memory can be missing. Each call of a `Draft` adds one act (`with_acts`), and asks only that its numbers were
//! counted (`HasNumbers`). Acts for each of a list are told the number of the last request before them (`in_turn`).
//! `into_plan` gives the step as it is to be carried out; nothing has changed until then. `proofs/Gathering` has what
//! callers need: acts that are gathered one after the other, in a loop, and from `open` to `into_plan`.
#![tactic(auto)]

mod draft;
mod fault;
mod peers;
mod plan;

pub use draft::{Draft, Needs};
pub use fault::NodeFault;
pub use peers::{find_peer, peer_of};
pub use plan::{Plan, Stepped, Volatile, copies};
