//! What a node remembers of the requests that came to it: what each was answered, which commands are open until which
//! moment, and how each command ended (OCPI 2.2.1, Commands: CommandResponse and CommandResult).
//!
//! ```
//! let mut book = CommandBook::new(alloc, seed);
//! book.keep_reply(provider, number, reply)?;
//! book.open(provider, number, Boxed::new(alloc, open)?)?;
//! let open = book.opened(provider, number);
//! for (provider, number) in book.due(alloc, at)?.as_slice() {
//!     book.settle(*provider, *number, CommandResultType::Timeout)?;
//! }
//! let result = book.answered(provider, number);
//! ```
//!
//! # Promises
//!
//! - Replies and results stay for good, and an open command has no result, over every list of calls. By laws
//!   `replies_stay`, `results_stay`, `stays_consistent`.
//! - A command that is opened comes boxed, so that no memory is taken for it. By `open`.
//! - Exactly the open commands whose deadline is at or before the moment are listed, by provider and number. By `due`.
//! - What has room keeps it in each call, and a command that is settled gives its room back. By `keeps`, `room`,
//!   `gives_back`.
//!
//! # How it is built
//!
//! A book keeps the rows of some kinds, each kind in a `Table` by its key. It is seen as two records: `rows`, a
//! finite map for each kind, and `rooms`, the keys that have room. Indexes (open commands by deadline, reservations
//! by token and by expiry, CDRs by session, tokens by uid) are in neither: the type's invariant says that they are
//! sound and complete against the rows. A book has
//!
//! - what decides (`&self`): the answer or the refusal, without a change;
//! - `reserve_row`, `put_row` and `drop_row`, by which a core makes room for and carries out a row that belongs to this
//!   book, and which pass over rows of other kinds. `Books` of `operator_rows` hands each row to the book of its kind
//!   (`putting.rt`, `dropping.rt`, `making_room.rt`). `put_row` and `drop_row` cannot fail. A row that was put has room
//!   from then on, a dropped row gives its room back, and what other rows have as room stays (`keeps`);
//! - its own calls, which are these in order: decide, take room, put or drop. They say the same of room;
//! - `rows`, the rows as a list, `add_row` for a row that was read from a store, a law that values with the same rows
//!   are equal, and `copy` (a `SessionBook` has only `rows`). A list that is empty takes no memory (`none`).
//!
//! The kinds of row are listed one by one wherever a book tells them apart, in definitions and in code, so that a
//! further kind is an error in each book until it is said what becomes of it there.
//!
//! A core carries out changes of different rows (`AreApart` of `node_steps`), so that no row takes the room that was
//! made for another.
#![tactic(auto)]

mod book;
mod due;
mod fault;
mod laws;
mod listing;

pub use book::CommandBook;
pub use fault::CommandFault;
pub use laws::{replies_stay, results_stay, same_rows, stays_consistent};
