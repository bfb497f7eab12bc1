//! Rows that were stored, and what may be wrong with them, whatever node they are of.
//!
//! # Promises
//!
//! - The number of which a party made an id is found, and none where it made it of no number. By `own_number`: `some`,
//!   `none`.
//! - Rows are put counters first, then replies, then all others, of which pushes and commands rise by number. By
//!   `in_turn`: `same`, `order`, `by_rank`.
#![tactic(auto)]

mod fault;
mod own_numbers;
mod turns;

pub use fault::{BadReason, BadRow, RowsFault};
pub use own_numbers::{bill_id, own_number, record_number};
pub use turns::in_turn;
