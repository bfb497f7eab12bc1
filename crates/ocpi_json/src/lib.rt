//! OCPI 2.2.1 as lines of JSON: packets, site lines, setups, and events of a run or of one node, read with the first
//! fault told, and packets written; and the rows of a node, whose texts are JSON, read and written.
//!
//! ```
//! let mut scratch = Scratch::new(alloc);
//! let site_line = read_site(alloc, &mut scratch, first_line)?;
//! let packet = read_packet(alloc, &mut scratch, line)?;
//! let text = write_packet(alloc, &packet)?;
//!
//! let kind = RowKind::of_key(&row.key()).word();
//! let key = write_key(alloc, &row.key())?;
//! let text = write_row(alloc, &row)?;
//! let row = read_row(alloc, &mut scratch, kind, key.as_str(), text.as_bytes())?;
//! ```
//!
//! # Promises
//!
//! For packets of all thirteen kinds, site, setup and event lines, event lines of one node, and rows of all thirteen
//! kinds. It stands on `json_text` (trees, members) and `ocpi_forms` (records).
//!
//! - A line is read exactly where it has the form, with that value; else its first refusal is told, or Memory. Forms:
//!   `specs/Packets`, `SetupForms`, `EventForms`, `NodeEventForms`, and `specs/SiteForm` of `ocpi_forms`. By
//!   `read_packet`, `read_site`, `read_setup`, `read_event`, `read_node_event`: `found`, `only`, `exact`.
//! - A line that is too long or no UTF-8 is refused as `Syntax`, and never as Memory. By `unread` of these.
//! - A written packet is the text of its JSON (`packet_json`), its members in the byte order of their names. Within the
//!   line limit it is read as that packet. Its parts are what their types keep, of which `packet_lengths` says how long it
//!   may be. By `write_packet`: `text`, `again`, `fits`.
//! - A kind, a key and a text are read exactly where they have the form of a row (`specs/RowForms`, `RowKeys`,
//!   `StoredForms`), of layout 2 or of layout 1. By `read_row`, `read_row_1`: `found`, `only`, `exact`.
//! - A written row is read as itself beside its kind and key, however long. By `write_row`: `again`; `write_key`.
//! - Kinds and key texts differ just where the keys do, of keys that the types can hold. By law `row_keys_are_apart`.
//! - Each row that is read has such a key, in either layout. By laws `read_keys_fit`, `read_keys_fit_1`.
//! - A row of another kind than `cdr` is read alike in both layouts. By law `other_rows_are_alike`.
//! - The text of a row in layout 1 is read as that row in layout 1, beside its kind and its key. By law
//!   `row_texts_of_1_are_read`.
//!
//! # How it is built
//!
//! `ocpi_json` reads and writes rows in three parts. `row_keys` has the text of each key (`specs/RowKeys`:
//! `key_text`), and readers of its parts, each of which finds a value just where the value fits and makes that text
//! (`Reads` in `proofs/RowKeyLemmas`). `stored` has what rows hold beside OCPI's records: a body beside its kind, in
//! one form for commands, replies and pushes (`Carries`), and the records of reservations, open and sent commands.
//! `rows` joins them: the text is read first, then the key. A token's, a session's and a charge detail record's key
//! is made from the text and compared. A text is read as a line is, by `text_tree`, without the limit of a line, so
//! that no premise stands in the clause that a written row is read as itself.
//!
//! A charge detail record has two forms, which differ in what they say of credits alone: as it is sent (`credit` of a
//! bill is left out), and as its row has it (`credit` always). One definition has the form as a parameter (`CdrForm`:
//! `cdr_in`, `IsCdrIn`, `cdr_members_in`), and so has one proof. Rows of layout 1 have the sent form. `row_laid_out`
//! has the layout as a parameter, and a law says that all other kinds are read alike in both
//! (`other_rows_are_alike`).
#![tactic(auto)]

mod events;
mod node_events;
mod packets;
mod reading;
mod row_keys;
mod row_kinds;
mod rows;
mod setups;
mod stored;
mod writing;

pub use json_text::{
    JsonFault, Scratch, lines_nest_no_deeper_than_127, quote_numbers,
    quoted_numbers_are_json_numbers, quoting_goes_by_pieces, the_last_of_a_repeated_name_counts,
    unquote_numbers, unquoting_undoes_quoting,
};
pub use node_events::node_event_of_line;
pub use reading::{
    other_rows_are_alike, read_event, read_node_event, read_packet, read_row, read_row_1,
    read_setup, read_site, row_texts_of_1_are_read,
};
pub use row_keys::{read_keys_fit, read_keys_fit_1, row_keys_are_apart, write_key};
pub use row_kinds::RowKind;
pub use writing::{write_packet, write_row};
