//! How long the line of a packet is at most: so a packet that a node sends is read again.
//!
//! # Promises
//!
//! - The line of a packet has at most 40,000 bytes, and 2,000 more for each EVSE that an authorization request lists, and
//!   for each charging period of a charge detail record and each dimension of one. By law `packets_have_short_lines`.
//! - So a packet that lists at most 500 of them is read again from the line that is written. By
//!   `written_packets_are_read_again`.
//! - An operator's own charge detail records list three: one period and its dimensions (by reading, `session_state`).
//!   The EVSEs of an authorization request are those that its provider's event lists, which may be more than 500: of
//!   such a request nothing is said.
//!
//! # How it is built
//!
//! `proofs/Sizes` bounds the text of a JSON value, token by token, by what its texts and numbers have at most, and
//! `proofs/Records` adds these up for each record of OCPI.
#![tactic(auto)]

pub mod laws;
