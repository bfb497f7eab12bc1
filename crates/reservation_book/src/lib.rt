//! The reservations of an operator (OCPI 2.2.1, Commands: ReserveNow and CancelReservation): which stand, and how new a
//! request about one must be.
//!
//! ```
//! let mut book = ReservationBook::new(alloc);
//! book.reserve(provider, id, number, reservation)?;
//! let mark = book.mark(provider, id);
//! let token = TokenAt { provider, location_id, uid, token_type };
//! let held = book.first_for(&token, None);
//! let outcome = book.cancel(provider, id, later_number)?;
//! let expired = book.expire(alloc, at)?;
//! ```
//!
//! A request whose number is below the mark of its reservation is refused (`Stale`). A cancellation sets the mark also
//! where the reservation does not stand, so it holds where it comes first.
//!
//! # Promises
//!
//! - A number below the mark is `Stale` with that mark. By `check_number`, `reserve`, `note`, `cancel`.
//! - A cancellation sets the mark whether or not the reservation stood. By `cancel`: `ok`, `outcome`.
//! - Marks never fall, and a reservation that is made is newer. By laws `marks_never_fall`,
//!   `new_reservations_are_newer`.
#![tactic(auto)]

mod all_rows;
mod book;
mod calls;
mod expiring;
mod fault;
mod laws;
mod listings;
mod place_key;
mod standing;

pub use book::ReservationBook;
pub use fault::ReservationFault;
pub use laws::{marks_never_fall, new_reservations_are_newer, rows_are_all};
pub use standing::{CancelOutcome, Standing, TokenAt};
