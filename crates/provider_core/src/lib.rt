//! The provider: it has the tokens of its drivers, orders commands of operators, and holds the sessions and the charge
//! detail records that these hand over (OCPI 2.2.1, Commands, Sessions, CDRs, Tokens).
//!
//! # Promises
//!
//! - Each answer is a step of the definition, with its rows, its packets and the state after it. By `on_packet`,
//!   `submit`, `on_token`, `on_tick`: `step`, `rows`.
//! - Planning changes nothing, and what is planned may be carried out. By `plan_packet`, `plan_order`, `plan_token`,
//!   `plan_tick`: `step`, `follows`.
//! - Room is taken and a plan carried out as by an operator. A step that has room already is never refused. By
//!   `make_room`: `again`; `apply`.
//! - A restart empties the resend times and nothing else, and takes no memory. By `restart`.
//! - What is owed is the sum over the held records, each once, those of credits negative. By `settlement`.
//! - A provider is made of exactly the rows of one, wherever they stand in the list. By `books_of_rows`,
//!   `Provider::from_rows`: `made`, `again`, `good`.
//!
//! # How it is built
//!
//! A provider is built in the same way, in `provider_rows`, `provider_steps`, `provider_stored` and `provider_core`:
//! its acts are those of every node and a few of its own (a command is sent, is kept with its answer; a token is
//! stored and pushed; a session or a charge detail record is held; a reference is given), and what follows from acts
//! follows as for an operator. What is said of an operator below holds of it with these parts in place of the site
//! and its claims.
#![tactic(auto)]

mod authorization_references;
mod from_rows;
mod orders;
mod packets;
mod provider;
mod ticks;
mod tokens;

pub use provider::Provider;
