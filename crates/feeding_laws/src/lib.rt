//! A node that is fed lines by their numbers, in runs over one store that may stop anywhere.
//!
//! # Promises
//!
//! - A run is told the number of a line, and is fed those behind it. What is kept at any end are the rows of a node
//!   to which each line came once and in order: up to the last line that was answered, and up to the last that took
//!   hold. Between lines the node may start again, each time under another setup of which its rows can be. By law
//!   `feeding_is_exact` (`IsExact` of `specs/Feeding`).
//! - No line changes rows twice, in whichever runs it is fed. So what a line sent was sent by one run alone. By the
//!   same: `once`.
//! - Each run of `run_node` that is fed so is such a run, wherever it ends: with its input, which may end within a
//!   line; at a line, for want of memory or because its commit is refused; or where reading or writing fails. This is
//!   of the node's store: of what its keeper keeps at the end, and of what a stop leaves of that. By law
//!   `runs_are_fed` (`FedRun` of `specs/Fed`), from the clauses `output`, `node` and `begun` of `run_node`.
//! - What such a run writes tells of no line that was fed to its end, behind those that it answered. So a feeder has
//!   seen the `done` of none. By the same: `tells`.
//! - Such runs over one store, each over what the one before left, leave each line once and in order. By law
//!   `fed_runs_are_exact`.
//! - The answers that such a run writes, whole or in part, tell of nothing but what its node did in it for the lines that it
//!   answered (`IsPiece`). So each packet that it prints was sent. With an echo a line of the input may look like a packet,
//!   and nothing is said of that. By `runs_are_fed`: `tells`.
//! - Such runs over one store are runs of one node, in which it did just that. By law `fed_runs_are_told`.
#![tactic(auto)]

pub mod laws;
