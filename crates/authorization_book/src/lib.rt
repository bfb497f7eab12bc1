//! The authorizations that an operator waits for (OCPI 2.2.1, Tokens: Real-time authorization). A driver shows a token
//! at an EVSE; where its provider must be asked, the operator sends one request and waits for the answer until a
//! deadline. None of this is stored in a row: after a restart nothing is awaited.
//!
//! ```
//! let mut book = AuthorizationBook::new(alloc);
//! let begins = Waiting::Begins { number, awaited: Awaited { token, place, deadline } };
//! book.reserve(&begins)?;
//! book.change(begins);
//! let asked = book.at(place.evse_uid.key());
//! for number in book.due(alloc, at)?.as_slice() {
//!     book.change(Waiting::Ends { number: *number });
//! }
//! book.clear(alloc);
//! ```
//!
//! At an EVSE at most one authorization is awaited.
//!
//! # Promises
//!
//! - At an EVSE at most one authorization is awaited. It is found, and those whose deadline is at or before a moment
//!   are listed by number. By `consistency`, `at`, `due`.
//! - Changes are made one after the other without memory once there is room for all, and what ends gives its room back.
//!   By `reserve_all`, `change_all`; laws `waits_change`, `one_each_stays`.
#![tactic(auto)]

mod awaited;
mod book;
mod changing;
mod due;
mod laws;
mod making_room;
mod waiting;

pub use awaited::Awaited;
pub use book::AuthorizationBook;
pub use laws::{one_each_stays, waits_change};
pub use waiting::Waiting;
