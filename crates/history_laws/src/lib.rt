//! What the entries of a history make of a node (`specs/Replays`), and what an interleaving of histories that nodes
//! of a setup left is: a legal run of their world. So all that is promised of worlds holds of nodes that ran by
//! themselves.
//!
//! # Promises
//!
//! - An interleaving of the histories of nodes of a setup is a legal run of their world, which is right. It ends with
//!   each node as its history left it, and with all that this sent. By law `interleavings_are_runs`.
//! - A node numbers its packets from 1, whatever its history. By law `replays_are_numbered`.
#![tactic(auto)]

pub mod laws;
