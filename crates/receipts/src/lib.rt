//! What a node did for a caller, and whether it is what its history says.
//!
//! ```
//! let packets = cell.apply(event.copy()?)?;
//! let receipt = Receipt { place, event, packets };
//! audit(alloc, cell.history(), receipts.as_slice())?;
//! ```
//!
//! # Promises
//!
//! - An audit accepts just the receipts of which each has the event and the packets of the entry of its place, and no
//!   two one place. Else it tells of the first that fails: there is no such entry, or it is another or was told before.
//!   By `audit`: `ok`, `fault`; law `faults_exclude`.
//! - Where the receipts that it accepts are as many as the entries, the history is these receipts, each once. By law
//!   `each_entry_has_one_receipt`.
#![tactic(auto)]

mod auditing;
mod fault;
mod laws;
mod receipt;

pub use auditing::audit;
pub use fault::AuditFault;
pub use laws::{each_entry_has_one_receipt, faults_exclude};
pub use receipt::Receipt;
