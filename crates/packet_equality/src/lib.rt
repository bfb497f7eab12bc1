//! Whether two packets, or two events of a node, are equal: in every field, as spelled.
//!
//! ```
//! let sent_as_before = is_equal_packet(&sent, &kept);
//! let same_answer = is_equal_packets(first.as_slice(), second.as_slice());
//! let same_event = is_equal_node_event_kind(&told, &entered);
//! ```
//!
//! That `==` is equality of what a packet or an event holds, each record of it, is in `proofs/`.
//!
//! # Promises
//!
//! - `==` of bodies, packets and events of a node is equality in every field, as spelled; of lists of packets, of as
//!   many in the same order. By `is_equal_body`, `is_equal_packet`, `is_equal_node_event_kind`, `is_equal_node_event`;
//!   `is_equal_packets`.
#![tactic(auto)]

mod node_events;
mod packets;

pub use node_events::{is_equal_node_event, is_equal_node_event_kind};
pub use packets::{is_equal_body, is_equal_packet, is_equal_packets};
