//! What a refusal says of the step. What a node refuses for any reason but want of memory it cannot do: no step of the
//! definition takes that input from that state. So no reason is true of everything, and a node that refuses what it is
//! to do is none.
//!
//! # Promises
//!
//! - What a node refuses for any reason but want of memory, no step of it does, where the locations of its site have
//!   different ids. So no reason of a refusal is true of everything. By law `refusals_exclude_steps`
//!   (`specs/Refusals`).
#![tactic(auto)]

pub mod laws;
