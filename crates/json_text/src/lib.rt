//! Lines of JSON as trees in which a number stands as it was written, the members of such trees, and records written as
//! JSON.
//!
//! ```
//! let mut scratch = Scratch::new(alloc);
//! let tree = line_tree(alloc, &mut scratch, line)?;
//! let uid = fields::ci_in::<36>(&tree, Field::Uid)?;
//!
//! let mut out = RecordWriter::new(alloc)?;
//! out.begin()?;
//! out.ci(Field::Uid, uid)?;
//! out.end()?;
//! let text = out.into_text();
//! ```
//!
//! # Promises
//!
//! - Quoting numbers and undoing it are exact. It goes piece by piece, the numbers are those of RFC 8259, and undoing
//!   gives the text again. By `quote_numbers`, `unquote_numbers`; laws `quoting_goes_by_pieces`,
//!   `quoted_numbers_are_json_numbers`, `unquoting_undoes_quoting`.
//! - A line nests no deeper than 127; of a repeated name the last counts. By laws `lines_nest_no_deeper_than_127`,
//!   `the_last_of_a_repeated_name_counts`.
//! - `JsonFault` has the refusals of lines, each with its number, its name, the member at fault and its text
//!   (`specs/Fault`). By `number`, `name`, `field`, `Display` of `JsonFault`.
//!
//! # How it is built
//!
//! What is true of every record stands once, in `json_text`: `specs/Fields` (one member by its name), `specs/Form`
//! (its form), `specs/Lists` (the number of elements, texts that differ), `specs/Members` (what is written),
//! `proofs/Exact`, `proofs/Elements`, `proofs/MemberForms`, `proofs/WellFormed`. A new record is one more topic file
//! of each kind, and no proof above it changes but the list of kinds in `bodies`.
//!
//! Numbers never pass through floating point. What a line is read as is defined in two steps: `quote_numbers` makes
//! each number token a string that begins with U+0001, and the line's tree is that of the quoted text. `specs/Quote`
//! has the pass character by character; `specs/Pieces` says what it means piece by piece, and `specs/Numbers` which
//! tokens are numbers, in the words of RFC 8259. The code reads nearly every line in one pass over its tokens
//! (`one_pass`), which makes the same tree, as is proved. Where that finds none there is none (`none_by_quoting` of
//! `proofs/FaultyTrees`), and the two steps are gone to tell the refusal.
//!
//! A tree (`Tree`) borrows its texts from the line, or from the memory for reading where they have escapes there, and
//! its objects are lists of their members in the order of the line. So only arrays and objects take memory, a block
//! each, and a member is found by walking those of its object from the end. Clauses see a tree by `view`
//! (`specs/Trees`) as the data of `serde_json`'s definitions, in which a number is a text behind U+0001 and the last
//! of members with one name stays: the definitions of reading name nothing of how a tree lies in memory.
//!
//! Each call that reads a line or a text takes a `Scratch`: memory of 16 KB and more for the places of tokens and for
//! texts without their escapes, of which no clause speaks, since what it holds makes no difference. A run makes one
//! and lends it to each line.
#![tactic(auto)]

mod fault;
pub mod fields;
mod laws;
mod lines;
pub mod lists;
mod names;
mod one_pass;
mod plain;
mod putting;
mod quote;
mod quoted_names;
mod record_writer;
mod same;
mod tag;
mod texts;
mod trees;
mod unquote;

pub use fault::JsonFault;
pub use json::Scratch;
pub use laws::{lines_nest_no_deeper_than_127, the_last_of_a_repeated_name_counts};
pub use lines::line_tree;
pub use quote::{quote_numbers, quoted_numbers_are_json_numbers, quoting_goes_by_pieces};
pub use record_writer::RecordWriter;
pub use same::{is_same_id, is_same_party};
pub use texts::text_tree;
pub use trees::Tree;
pub use unquote::{unquote_numbers, unquoting_undoes_quoting};
