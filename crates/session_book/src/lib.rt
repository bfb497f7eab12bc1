//! The sessions and the charge detail records that an operator stores, and the numbers of which their ids are made
//! (OCPI 2.2.1, Sessions and CDRs).
//!
//! ```
//! let mut book = SessionBook::new(alloc);
//! let id = session_id(&party, book.last_session().next()?);
//! book.reserve_row(&row)?;
//! book.put_row(row);
//! let version = book.session(id.key());
//! let bill = book.sole_bill(id.key());
//! ```
//!
//! # Promises
//!
//! - Each row that is put stands in the place of the one of its id, and nothing else changes. `rows` are exactly those
//!   that stand, each once. By `put_row`, `rows`.
//! - The bill of a session is found where it has one alone, and whether it has a credit is told. By `sole_bill`:
//!   `some`, `none`; `has_credit`.
//! - Where each id that the operator made has a number that was given, the next is new; ids of different numbers
//!   differ, also without case. By laws `next_is_new`, `ids_differ`.
#![tactic(auto)]

mod book;
mod ids;
pub mod laws;
mod records;
mod stored;

pub use book::SessionBook;
pub use ids::{cdr_id, session_id};
