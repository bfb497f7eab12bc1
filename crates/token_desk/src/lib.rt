//! The tokens that a node holds, and what it decides by them: whether an operator starts a session for a token that a
//! driver shows, and whether a provider allows a token (OCPI 2.2.1, Tokens).
//!
//! ```
//! let mut desk = TokenDesk::new(alloc);
//! let put = desk.put(sender, &token)?;
//! let held = desk.find(sender, uid, token_type);
//! match desk.decide(None, uid, token_type) {
//!     Swipe::Begin(token) => begin(token),
//!     Swipe::Ask(token) => ask(token),
//!     Swipe::Nothing => {}
//! }
//! let answer = desk.authorize(&party, uid, Some(token_type))?;
//! ```
//!
//! # Promises
//!
//! - The newest token stands. By `judge_put`, `put`, `next_version`, `store`.
//! - What a swipe and a question give, by cases. By `decide`; `judge_authorize`, `authorize`: `line`.
//! - References never repeat. By law `references_never_repeat`.
#![tactic(auto)]

mod answers;
mod authorizing;
mod desk;
mod fault;
pub mod laws;
mod putting;
mod references;
mod stored;
mod swipes;
mod type_key;

pub use answers::{Authorized, Reference, Swipe, TokenPut};
pub use desk::TokenDesk;
pub use fault::TokenFault;
