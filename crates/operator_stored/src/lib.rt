//! An operator's books made again of rows that were stored.
//!
//! # Promises
//!
//! - `BadRows` tells a row of the list, by its key, and one of the reasons of `specs/Bad`: that row shows that reason.
//!   Where two rows show it together, either may be told. By `bad`.
//! - Where there is such a reason nothing is made: those rows are of no operator that its type allows and that is
//!   whole. No reason is missing. By laws `bad_rows_are_of_none`, `other_rows_are_bad`.
//! - Rows tell all that is stored. By law `rows_tell_all`.
//! - Of the rows of an operator that is whole the very same is made, as it starts again. By `again`, `good`; law
//!   `rows_make_again`.
//!
//! # How it is built
//!
//! `books_of_rows` puts the rows into empty books in three turns (`in_turn`), so that what a row needs beside it
//! already stands when its turn comes: counters before what has numbers, replies before commands and results, and
//! then all others. The bills and credits of an operator are matched with their sessions before, over the whole list
//! (`check_bills`). For each kind a small function says whether the row may be put: where it may, the books' type
//! stays kept (`MayPut`); where it may not, that row shows that the rows are bad, for one of the reasons of
//! `specs/Bad`, which name rows of the list and no order. So the order is a matter of the code alone. What the type
//! of the books does not keep, and every run does, is asked beside it (`specs/Whole`): a law over all runs
//! (`stored_laws`) says that the rows of a node that ran are never bad.
#![tactic(auto)]

mod adding;
mod bills;
mod commands;
mod laws;
mod making;
mod places;
mod pushes;
mod sessions;
mod standing;

pub use laws::{bad_rows_are_of_none, other_rows_are_bad, rows_make_again, rows_tell_all};
pub use making::books_of_rows;
