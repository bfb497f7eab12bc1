//! What the programs over lines have in common: how they write packets and refusals, and that a line which is too long
//! is read alike whatever comes after its first bytes.
//!
//! ```
//! write_packets(alloc, packets, &mut output)?;
//! refuse(&mut output, fault)?;
//! ```
#![tactic(auto)]

mod writing;

pub use writing::{refuse, write_packets};
