//! The two tables of a store that keeps a node's rows: `layout`, which tells its version, and `row_text`, which has a
//! text under each kind and name.
//!
//! # Promises
//!
//! - Over any list of openings, changes and stops, from a file with nothing on, each opening finds what was opened or
//!   changed last, or what a refused change would have made. By law `stops_are_found`.
//! - It is never told `OldLayout` for the version that is kept. By law `stops_are_found`.
//! - Texts and version change in one transaction, all or none. By `TextTable::change_to`: `all`, `none`, `stops`.
//! - An opening takes one of two versions, tells which, and changes nothing of a store that stands. By
//!   `TextTable::adopt`: `either`, `untouched`.
#![tactic(auto)]

mod checking;
mod edits;
mod laws;
mod layout;
mod making;
mod opening;
mod past;
mod reading;
mod statements;
mod table;

pub use edits::TextEdit;
pub use laws::stops_are_found;
pub use opening::OpenFault;
pub use past::Past;
pub use reading::TextRow;
pub use table::TextTable;
