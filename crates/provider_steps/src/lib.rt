//! What a provider does: the definition of its steps, and what follows from it for each step (OCPI 2.2.1, Commands,
//! Sessions, CDRs, Tokens).
//!
//! # Promises
//!
//! - What an event asks for may always be carried out, by the tables of `docs/PROTOCOL.md`. By laws
//!   `packets_may_follow`, `orders_may_follow`, `tokens_may_follow`, `ticks_may_follow`.
//! - Each refusal is the one that is due. In this order: the packet is not for this provider, the operator is not
//!   known, the token is not held, no version can be later, a number is used up. By `fault` of these.
//! - Want of memory of a packet, an order and a token comes only where none of these does. By `fault`.
//! - A refusal leaves everything as it was. By `err`.
#![tactic(auto)]

pub mod facts;
mod pushing;

pub use pushing::Pushing;
