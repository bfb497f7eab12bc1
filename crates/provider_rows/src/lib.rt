//! What a provider stores: its rows, where the results of its commands are posted, and the resend times of its
//! requests; and how a step that is decided is carried out.
//!
//! A step comes as a `Plan`. `Books::make_room` takes all the memory that it needs, and changes nothing that is stored;
//! `Books::apply` then carries it out, takes no memory and cannot fail.
//!
//! # Promises
//!
//! `Books` is what a provider stores: counters, kept replies, its tokens, sent commands, pushes, held sessions and
//! records, and the resend times of what waits.
//!
//! - Each push and each command is to an operator that it deals with and has a number that was given, of its own, and
//!   no two pushes are about the same. By `consistency` (`specs/Sound`: `IsSound`).
//! - No command has an authorization reference of this party that was not given yet. By `consistency`.
//! - What holds at all times stays. By laws `steps_stay_sound`, `stays_consistent`.
//! - A command whose result is posted to a url by a party is found, or there is none. Urls are compared as spelled,
//!   parties by key. By `find_command`: `found`, `none`.
//! - The memory for a step is taken, and the state stays. Carrying it out takes no memory and cannot fail. By
//!   `make_room`, `apply`.
//! - The rows that stand are listed, each once, and changes lead from rows to rows. By `stored`; law `rows_change`.
#![tactic(auto)]

mod adding;
mod books;
mod dropping;
mod making_room;
mod peers;
mod putting;
mod row_laws;
mod row_lists;
mod stepping;
mod urls;

pub use books::Books;
pub use peers::Peers;
pub use row_laws::{rows_change, stays_consistent, steps_stay_sound};
