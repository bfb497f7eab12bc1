//! What a node sends until it is answered: its pushes, which are acknowledged, and at a provider the commands that it
//! has sent; and the number of its last request.
//!
//! ```
//! let mut outbox = Outbox::new(alloc);
//! let number = outbox.new_push(to, push)?;
//! outbox.reserve_sent(number, at)?;
//! outbox.sent(number, at);
//! let due = outbox.due(alloc, at.after(10_000))?;
//! outbox.ack(&to, number);
//! outbox.restart(alloc);
//! ```
//!
//! The push is among those that are `due`, since it was sent ten seconds before; once it is acknowledged it stands no
//! more. After a restart all that waits for an answer is due.
//!
//! # Promises
//!
//! What a node sends until it is answered: pushes, and the commands that a provider sent, under numbers of one
//! counter.
//!
//! - Each number was given, none is both a push and a command, no two pushes are about the same session or token at one
//!   operator, and only what waits has a resend time. By `consistency`: `rows`, `resend`.
//! - What waits and has no resend time is due at once. So a restart is two empty lists, and takes no memory. By
//!   `restart`.
//! - Exactly what waits and whose resend time is absent, or at or before the moment, is listed by number. Memory never
//!   wants where nothing is due. By `due`: `ok`, `none`.
//! - A row is put or dropped only where it fits (`MayPut`, `MayDrop`). By `requires` of `put_row`, `drop_row`.
//! - What stands, what room stays and what a refusal leaves is said of each call. By `new_push`, `new_command`,
//!   `set_answer`, `set_result`, `ack`, `sent`.
//! - An acknowledgement drops exactly the push of that number and addressee. By `ack`: `acknowledged`.
//! - A request that waits has at most one resend time, ten seconds after the moment at which it was last sent
//!   (`specs/Resend`: `due_again`). By `sent`: `resend`.
//! - What stands after a row is put or dropped. By laws `outbox_puts`, `outbox_drops`.
//!
//! # How it is built
//!
//! An `Outbox` has beside its rows what a start of the node empties: `resend`, the resend times of what waits for an
//! answer, and `sending`, the room for them. `SendTimes` keeps each time by number, and a queue of the numbers by
//! time. What waits and has no time is due at once; none has a number below one that is kept beside the lists
//! (`first`), so that a look for it begins there, and a restart is two empty lists. `reserve_sent` and `sent` are to
//! a resend time what `reserve_row` and `put_row` are to a row.
//!
//! Numbers and times rise, so what is kept by them is a `SortedList`: what comes last moves nothing. A store gives its
//! rows in another order; `in_turn` of `stored_rows` puts them by number first.
#![tactic(auto)]

mod fault;
mod outbox;
mod outbox_laws;
mod outbox_rows;
mod outbox_times;
mod push_book;
mod requests;
mod send_times;
mod sent_commands;

pub use fault::OutboxFault;
pub use outbox::Outbox;
pub use outbox_laws::{outbox_drops, outbox_puts, same_outbox_rows};
pub use push_book::Outgoing;
