//! A keeper's content holds the rows of a node where it is read as just those. The changes of a step lead from the rows
//! of the node before it to those of the node after it, and of what is held the node is made again.
//!
//! # Promises
//!
//! A content holds the rows of a node where its texts, however they are spelled, are read as just those
//! (`specs/Holds`: `HoldsRows`).
//!
//! - Where a content holds the rows of a node, the changes of a step make of it one that holds those of the node after
//!   the step. Each row that they put is read again, and each key fits its types. By laws `changes_are_held`,
//!   `plans_are_held`.
//! - A content holds the rows of a node whatever number of a line it has, and with none. By law `numbers_are_apart`.
//! - The empty content holds the rows of each node before its first event, and of no node in which a row stands. By law
//!   `empty_is_held`.
//! - Nodes that start again as one node store alike, and a content holds the rows of both or of neither. A node does so
//!   as it starts again, and after a step that changes no row. By laws `restarts_are_held`, `alike_are_classes`.
//! - Of one opening, rows are those of one node, as it starts again, and of them it is made again, if it can start
//!   again. By laws `rows_are_of_one`, `held_rows_start_again`.
//! - The packets of a step have the serials that follow the last one, in order. By law `serials_are_in_order`.
//!
//! # How it is built
//!
//! `node_rows` joins the texts that a keeper keeps and a node. `HoldsRows` says what `rows_of` reads and nothing of
//! how a text is spelled, since a file may have been written by another hand. The proofs go by one place at a time
//! (`proofs/Readings`: `IsKept`): a row is kept where the text in the place of its key is read as that row. A row
//! that is read has a key that fits its types (`ReadKeysFit`), and keys that fit have places of their own
//! (`KeysAreApart`), so a change leaves all other rows as they are. The changes of a step are of different rows
//! (`AreApart`); else a row that is put and then dropped would count as put.
#![tactic(auto)]

pub mod laws;
