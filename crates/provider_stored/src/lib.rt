//! A provider's books made again of rows that were stored.
//!
//! # Promises
//!
//! As `operator_stored`, of a provider's peers.
//!
//! - `BadRows` tells a row of the list and a reason of `specs/Bad` which that row shows. By `bad`.
//! - What it is made of is of its own drivers: each token, and that of each session and of each charge detail record.
//!   By `made` (`specs/Whole`: `IsWhole`).
//! - Bad rows are of no provider that its type allows and that is whole; rows tell all; a whole provider's rows make it
//!   again. By laws `bad_rows_are_of_none`, `rows_tell_all`, `rows_make_again`.
#![tactic(auto)]

mod fitting;
mod laws;
mod making;

pub use laws::{bad_rows_are_of_none, rows_make_again, rows_tell_all};
pub use making::books_of_rows;
