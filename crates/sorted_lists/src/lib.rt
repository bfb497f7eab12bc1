//! An ordered map in one row of memory, for keys of which most are later than all before.
//!
//! ```
//! let mut pushes = SortedList::new(alloc);
//! pushes.reserve(number)?;
//! pushes.put(number, push);
//! for (number, push) in pushes.range_from(first) {
//!     send(*number, push)?;
//! }
//! pushes.remove(number);
//! ```
//!
//! # Promises
//!
//! A `SortedList` is two finite maps, as a `Table` is: the values (`shown`) and the keys that have a value or room for
//! one (`room`).
//!
//! - Look-ups and visits are what the maps answer. By `get`, `contains`, `has_room`, `iter`, `range_from`,
//!   `range_after`.
//! - The least key that fits is found, or there is none. By `first_from`, `first_after`: `some`, `none`.
//! - Making room leaves the values as they were, whether it succeeds or not. On success the key has room, and no key
//!   loses its room. By `reserve`: `shown`, `ready`, `keeps`.
//! - What follows room cannot fail. By `put` on a key with room; `clear`, `remove`.
//! - An error leaves the map as it was, and none comes for a key that has room. By `reserve`: `err`, `again`.
//!
//! # How it is built
//!
//! A slot has a key, and room, a value, or nothing: then it was given back. `slots` has what is done to a row of slots,
//! by the place of a key.
#![tactic(auto)]

mod list;
mod slots;
mod visits;

pub use list::SortedList;
pub use visits::Visits;
