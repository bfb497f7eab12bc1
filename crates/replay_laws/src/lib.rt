//! A node has one answer to an event. So where a node's file tells another answer, it is of no run.
//!
//! # Promises
//!
//! - By the rules a node has at most one answer to an event: its packets, whether rows changed and the node behind it;
//!   that the event is none of its role; or why it refuses it. Excepted is want of memory. By law
//!   `nodes_have_one_answer` (`specs/Answers`).
//! - The ids of the places of each node differ in each setup that a line spells. By law `setups_have_places`.
#![tactic(auto)]

pub mod laws;
