//! How an operator decides each command of a provider (OCPI 2.2.1, Commands), reading what it stores. Nothing is
//! changed here.
//!
//! ```
//! let request = Request { at, from, provider: packet.from.key(), number: packet.request };
//! let decision = decide(&books, &request, &packet.from, &command);
//! if let Some(result) = decision.result() {
//!     push(result)?;
//! }
//! ```
//!
//! Each command has a table, whose lines are tried in order: the first that applies decides. The decision is a value
//! of its own (`Decision`), which owns no memory; what is answered, changed and sent follows from it.
//!
//! # Promises
//!
//! How each command is decided. Nothing is changed, no memory is taken, and nothing is refused but by a decision.
//!
//! A body without a command gets an answer of which no clause speaks.
//!
//! - The decision is that of the first line that applies of the command's table, whichever EVSE is picked where none is
//!   named. By `decide` (`specs/Start`, `Reserve`, `Cancel`, `Stop`, `Unlock`, joined in `specs/Decides`).
//! - The result that a decision gives at once, if it does. By `Decision::result`.
//! - Each decision tells the same of the command and the state, whatever line gave it (`specs/Outcomes`: `Tells`). By
//!   law `decisions_tell`.
//! - A start takes a connector of the site, on an EVSE in service that is free or that a reservation of the sender
//!   holds for that token there. Its reference was not used before. By `decisions_tell`.
//! - A reservation is made on an EVSE of the site that nothing else claims, for the sender's valid token, to end later.
//!   By `decisions_tell`.
//! - What is noted, made or ended of a reservation is so by a number that is not below its mark, and only a
//!   cancellation below it is rejected. By `decisions_tell`.
#![tactic(auto)]

mod cancel;
mod commands;
mod decision;
mod found;
mod laws;
mod request;
mod reserve;
mod start;
mod stop;
mod unlock;

pub use commands::decide;
pub use decision::Decision;
pub use laws::decisions_tell;
pub use request::{Request, TIMEOUT};
