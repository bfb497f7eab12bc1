//! What operators hand over to a provider: the sessions and charge detail records that it takes and settles by.
//!
//! ```
//! let mut inbox = Inbox::new(alloc);
//! let taking = inbox.take_session(&own, &sender, Boxed::new(alloc, session)?)?;
//! let held = inbox.held(&session.party, &session.id);
//! match inbox.take_cdr(&own, &sender, Boxed::new(alloc, cdr)?)? {
//!     CdrTaking::Taken | CdrTaking::Kept => acknowledge(),
//!     CdrTaking::Conflict => refuse(),
//! }
//! let owed = inbox.settlement(&sender, currency);
//! ```
//!
//! What is `owed` is the sum of the costs of the records that are held, each once, in ten-thousandths, however often
//! each came. The cost of a credit is its bill's, negated, so that both come to 0.
//!
//! # Promises
//!
//! - A version of a session is taken just where it is news. A bill is taken where no record of its id is held and no
//!   bill of its session, and a credit likewise. By `session_taking`, `take_session`, `cdr_taking`, `take_cdr`.
//! - A bill and a credit of one session, of different ids, are no conflict: where the one is held, and nothing else of
//!   that session, the other is taken. By `take_cdr`: `beside`; law `bills_stand_beside_credits`.
//! - Where no session has two bills or two credits, taking a record leaves it so. By `take_cdr`: `once`.
//! - Whether a record differs from a held one is told by equality in every field, as spelled. By `is_equal`.
//! - What is owed is the sum over the held records, each once, those of credits negative; over a list, the sums of it.
//!   By `settlement`, `settle_all`.
//! - What is taken comes boxed, so that no memory is taken for it, and the packet and the row share it. By
//!   `take_session`, `take_cdr`.
#![tactic(auto)]

mod cdr_book;
mod equality;
mod fault;
mod inbox;
mod inbox_listing;
pub mod laws;
mod settle;
mod sums;
mod takings;

pub use equality::is_equal;
pub use fault::HandoverFault;
pub use inbox::Inbox;
pub use settle::settle_all;
pub use sums::{Currency, Sums};
pub use takings::{CdrTaking, SessionTaking};
