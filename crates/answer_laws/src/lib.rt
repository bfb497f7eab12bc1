//! A node has one answer. What a node does by an input is one thing, and a refusal has one reason. So where a node's file
//! says otherwise, it is of no run.
//!
//! # Promises
//!
//! - What a provider does by an input is one thing: the rows that it changes, the packets that it sends, each in order,
//!   and the provider behind it. No two of its commands may have one url. By law `providers_have_one_step`
//!   (`specs/Answers`).
//! - So is what an operator does. Its providers, and the ids of its places, must differ. By law
//!   `operators_have_one_step`.
//! - A command is decided in one way, also which EVSE is taken where it names none. By law `commands_have_one_decision`
//!   (`specs/Decisions`).
//! - Why a node refuses an input is one thing, but for want of memory. By law `refusals_have_one_reason`.
#![tactic(auto)]

pub mod laws;
