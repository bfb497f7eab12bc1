//! What the command line of `ocpi_nodes` says.
//!
//! # Promises
//!
//! - The status is 2 where the command line is wrong, whether or not that could be printed. After help or version it is
//!   0 where it was printed, and else 1. By `status_after`: `wrong`, `printed`, `unprinted`.
//! - What each command takes, and what its help says. No clause says so (tested by the examples).
//!
//! # How it is built
//!
//! A command and each of its words is made by a function of its own, and handed on as that answered it, so that no
//! function lets a command go by a `?`.
#![tactic(auto)]

mod commands;
mod help;
mod words;

pub use words::{
    FileWords, NodeWords, PlayWords, SettleWords, WRONG_WORDS, WeaveWords, Word, status_after,
    take_words,
};
