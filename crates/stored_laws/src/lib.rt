//! Each node of each world of a legal run is whole: what is tested of its rows before a node is made again of them
//! holds of it. So it is made again of its rows, whatever happened to it.
//!
//! # Promises
//!
//! - Each node of each world of each legal run is whole. So of its rows the very same is made, as it starts again; want
//!   of memory alone can refuse them. By laws `operators_are_whole`, `providers_are_whole`.
//! - A node is of its opening from there on. Each node of a setup can start again before its first event. One that can
//!   start again still can after each event, and once it has, also under another setup where it may. By laws
//!   `nodes_keep_openings`, `openings_can_start_again`, `nodes_can_start_again`, `restarts_can_start_again`,
//!   `reopenings_can_start_again`.
//! - Each COMPLETED session without a credit has a bill that may be taken back, at each operator that can start again.
//!   Of its provider and of its last moment nothing is said here. By law `bills_may_be_taken_back`.
#![tactic(auto)]

pub mod laws;
