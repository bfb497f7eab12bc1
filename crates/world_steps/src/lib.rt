//! The nodes of a setup as one world: what may happen to it (`specs/World`, `specs/Network`, `specs/Steps`, in this
//! order), and what each node did in a run of it (`specs/Traces`).
//!
//! There is one induction over runs of worlds, and it knows nothing of what nodes do: all that holds of a world
//! follows from the laws of an operator and of a provider, and from the packets that link them.
//!
//! # Promises
//!
//! - In each world that is run from the opening, what each node did is a run of that node, and each packet that came to
//!   a node was sent to it by a node. By law `traced`.
//! - Where the world runs on, each node goes on from the very state that it had. By law `traced_on`.
//! - The packet that a list of sent ones has at a serial is found exactly where it was sent to that party. By
//!   `sent_to`.
#![tactic(auto)]

pub mod delivering;
pub mod laws;
