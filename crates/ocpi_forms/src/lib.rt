//! The records of OCPI 2.2.1, each read from a JSON tree with the first fault told, and written as JSON.
//!
//! ```
//! let tree = line_tree(alloc, &mut scratch, line)?;
//! let token = token_of(&tree)?;
//! let mut out = RecordWriter::new(alloc)?;
//! token.write(&mut out)?;
//! let text = out.into_text();
//! ```
//!
//! # How it is built
//!
//! Three crates, so that what is dear to prove is proved once: `ocpi_forms`, half of the work, has neither tests nor
//! must-fail edits. Each promise of a reader or writer is broken by an edit in `json_text`, where one member is read
//! and written, or in `ocpi_json`, where an envelope, a setup, an event, a row or its key is. A record's `impl
//! Record` stands in `ocpi_forms`, with the trait, since Rattle, as Rust, refuses an impl of another crate's trait
//! for another crate's type; so in `ocpi_json` a packet is written by a function, `write_members`, with the same two
//! clauses.
//!
//! Each topic (tokens, commands, replies, sessions, charge detail records and their locations and periods,
//! authorizations, packets; sites and their prices, setups, events, which are read and never written) has a source
//! file, definitions and lemmas of its own. For each of its records these say:
//!
//! - **Reading**, a function from a tree to the value or the first fault, one line for each member, in the order in
//!   which faults are told (`token_at`). The code mirrors it line by line, and its contract is that its answer equals
//!   it.
//! - **The form**, a relation between a tree and a value, a field for each member, without any order (`IsToken`). Both
//!   are proved to agree (`token_exact`): a tree is read just where it has the form.
//! - **What is written**, a list of members in the byte order of their names (`token_members`). The code writes one
//!   after another straight into a JSON writer, and its contract is that the tokens are those of that list.
//! - **What the types keep** (`TokenFits`), told by the writing: with it, what is written has the form (`token_form`),
//!   so it is read again, and is JSON whose names ascend, whose texts carry no tag and whose depth is small
//!   (`token_well`).
//!
//! That ids of locations and EVSEs differ is found in ordered sets (`IdSet`), as they are read and once more where
//! `Locations` is made. Connectors of an EVSE, parties of a site and nodes of a setup, of which there are few, are
//! compared pair by pair.
//!
//! A record that is written is an `impl Record`: its members, in the byte order of their names, as a list (`members`,
//! of the kinds in `specs/Members`), what its types keep (`fits`), and `write`, one line a member, into a
//! `RecordWriter`: no tree is made. Its bytes are `json`'s print of some tokens, which is its type's invariant
//! (`specs/Writing`), and it is seen as the list of these tokens. One lemma says what one more token does (`pushed`
//! of `proofs/Writing`). Names stand ready in quotes (`quoted_name`), and a text with escapes is left to `json`'s own
//! writer. `proofs/Said` joins the steps to the JSON value, `proofs/Tagged` and `MemberForms` say which member each
//! name finds in its tree, and `proofs/ReadAgain` that the text is read as that tree. So "a written packet is read as
//! itself" is a line for each member in its topic's lemmas, and one for the packet.
#![tactic(auto)]

mod any_command;
mod authorizations;
mod bodies;
mod cdr_locations;
mod cdrs;
mod charging_periods;
mod commands;
mod credits;
mod on_heap;
mod records;
mod replies;
mod sessions;
mod site_prices;
mod sites;
mod status;
mod tokens;

pub use any_command::{CommandKind, command_of};
pub use authorizations::{authorization_of, authorize_of};
pub use bodies::body_of;
pub use cdrs::{cdr_of, stored_cdr_of, write_stored_cdr};
pub use commands::{
    cancel_reservation_of, reserve_now_of, start_session_of, stop_session_of, unlock_connector_of,
};
pub use on_heap::{
    boxed_authorization_of, boxed_cdr_of, boxed_reserve_now_of, boxed_session_of,
    boxed_start_session_of, boxed_stored_cdr_of, boxed_token_of,
};
pub use records::{Record, write_optional_record, write_record, write_records};
pub use replies::{ack_of, command_response_of, command_result_of};
pub use sessions::session_of;
pub use sites::{site_of, site_of_line};
pub use tokens::token_of;
