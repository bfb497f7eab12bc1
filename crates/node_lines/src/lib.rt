//! What a line is that comes to one node behind its setup: one event, or several, which a JSON array holds.
//!
//! ```
//! match read_node_line(alloc, &mut scratch, line)? {
//!     NodeLine::One(event) => carry_out(event),
//!     NodeLine::Several(elements) => {
//!         for place in 0..elements.len() {
//!             carry_out(elements.read(alloc, place)?);
//!         }
//!     }
//! }
//! ```
//!
//! # Promises
//!
//! A line of `node` behind the setup, read in one pass over its text.
//!
//! - A JSON array of at most 256 elements is a line of several events. Each element is read as its tree tells, also
//!   beside one that is refused; an array in it is no list of events. A longer one is `Syntax`. By `read_node_line`:
//!   `exact` (`node_line_in` of `specs/NodeLines`).
//! - The elements are told one by one, and how many there are. By `Elements::read`, `Elements::len`.
//! - Any other line is read, or refused, as `read_node_event` does it. By law `events_are_read_as_lines_of_their_own`:
//!   `events`, `others`.
//! - A line is read as its first 1,048,577 bytes are, and no memory is taken for one that is too long or no UTF-8. By
//!   law `long_lines_are_read_as_their_first_bytes`; `read_node_line`: `unread`.
//! - A line whose first byte that is no JSON space is `[` is told from others, and each line of several events begins
//!   so. They are at most 256. By `is_list_line`; laws `lines_of_several_begin_with_a_bracket`,
//!   `lines_of_several_have_at_most_256`.
//! - The text of each element of an array is told as it stands there, without the JSON spaces around it. It is read as
//!   that element is. By `element_texts`: `cut` (`AreElementsOf` of `specs/ElementTexts`), `read`.
#![tactic(auto)]

mod array_texts;
mod elements;
mod laws;
mod list_lines;
mod node_line;

pub use array_texts::element_texts;
pub use elements::Elements;
pub use laws::{
    events_are_read_as_lines_of_their_own, lines_of_several_begin_with_a_bracket,
    lines_of_several_have_at_most_256, long_lines_are_read_as_their_first_bytes,
};
pub use list_lines::is_list_line;
pub use node_line::{MAX_EVENTS, NodeLine, read_node_line};
