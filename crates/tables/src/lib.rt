//! An ordered map with keys that are copied, in which room for a key can be taken ahead of its value.
//!
//! ```
//! let mut moments = Table::new(alloc);
//! moments.reserve(number)?;
//! moments.put(number, at);
//! let found = moments.get(number);
//! for (key, _) in moments.range_from(number) {
//!     due.push(*key)?;
//! }
//! moments.clear(number);
//! moments.release(number);
//! ```
//!
//! Only `reserve` may want memory here: `put` asks for a key that has room. `clear` takes the value away and keeps the
//! room, and `release` gives it back.
//!
//! The slots stand from the latest key on, since a search of a node begins at its first key and most new keys are later
//! than all others. Visits go from the end.
//!
//! A `Lookup` is such a map for keys that are only looked up. It finds them by their hash, which begins with a
//! `HashSeed`.
//!
//! # Promises
//!
//! A `Table` and a `Lookup` are two finite maps, the values (`shown`) and the keys that have a value or room for one
//! (`room`).
//!
//! - Look-ups and visits are what the maps answer. By `get`, `contains`, `has_room`, `iter`, `range_from`. A `Lookup`
//!   visits each entry once, in any order.
//! - The least key that fits is found, or there is none. By `first`, `first_from`, `first_after`, `first_with`: `some`,
//!   `none`.
//! - The number of keys that have room is told. By `room_count`.
//! - Making room leaves the values as they were, whether it succeeds or not. On success the key has room, and no key
//!   loses its room. By `reserve`: `shown`, `ready`, `keeps`.
//! - What follows room cannot fail. By `put` on a key with room; `clear`, `remove`, `release`.
//! - An error leaves the map as it was, and none comes for a key that has room. By `reserve`, `insert`: `err`,
//!   `again`.
#![tactic(auto)]

mod found;
mod hash_seed;
mod key;
mod least;
mod lookup;
mod queue;
mod reversed;
mod table;
mod visits;

pub use found::Found;
pub use hash_seed::HashSeed;
pub use key::TableKey;
pub use least::least_text;
pub use lookup::Lookup;
pub use table::Table;
pub use visits::Visits;
