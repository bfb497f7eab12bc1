//! Whether two setups are equal: in every field, as spelled.
//!
//! ```
//! let same = are_equal(&first, &second);
//! ```
//!
//! # Promises
//!
//! `are_equal` answers just whether two setups are equal, in every field as spelled (proved). It takes no memory.
#![tactic(auto)]

mod lists;
mod setups;
mod sites;

pub use setups::are_equal;
