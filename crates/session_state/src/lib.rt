//! Charging sessions whose state is a type (OCPI 2.2.1, Sessions), and the charge detail records that completed ones
//! give (OCPI 2.2.1, CDRs).
//!
//! ```
//! let pending = start(opening, at, price);
//! let active = pending.activate(at, price)?;
//! let active = active.meter(later, kwh)?;
//! let (completed, draft) = active.complete(end)?;
//! let cdr = draft.issue(alloc, id, location)?;
//! ```
//!
//! A session is moved by value: a call that takes it gives the session in its new state, or hands it back. So a
//! session that has ended cannot be metered. Each call of `complete` gives one draft of a charge detail record, so a
//! session gives one, unless it was copied before.
//!
//! # Promises
//!
//! `Session<Pending>`, `<Active>`, `<Completed>`, `<Invalid>`, moved by value.
//!
//! - Each call gives exactly the version that the rules name. By `start`; `activate`, `meter`, `void`, `complete`:
//!   `moved`, `exact`.
//! - It may follow the one before: `last_updated` rises, `kwh` does not fall, the constant members stay, the cost is
//!   that of the energy. By `follows`.
//! - `StampEnd` comes exactly where the last moment was used, and hands the session back. No call takes memory but
//!   `issue`. By `refused`.
//! - A charge detail record is that of the completed version. By `CdrDraft::issue`: `issued`.
//! - A credit is its bill, but for its id, its negated cost, its reference and a later `last_updated`. `StampEnd` comes
//!   exactly where the bill is of the last moment. By `credit_of`: `credit`, `fault`.
//! - A draft that is neither issued nor given up does not compile, nor does a session that is used after it moved. By
//!   `crates/session_state/refused` (tested, by name, in `./check`).
//! - Versions are orderly over every list of these calls, and costs are rounded down. By laws `pasts_are_orderly`,
//!   `costs_are_rounded_down`.
#![tactic(auto)]

mod costs;
mod credits;
mod drafts;
mod fault;
mod laws;
mod resuming;
mod sessions;
mod states;

pub use credits::{credit_id, credit_of};
pub use drafts::CdrDraft;
pub use fault::{Refused, SessionFault};
pub use laws::{costs_are_rounded_down, pasts_are_orderly};
pub use resuming::{Resumed, is_uncharged, resume};
pub use sessions::{Session, start};
pub use states::{Active, Completed, Invalid, Pending, State};
