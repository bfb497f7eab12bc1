//! The text of each row is read again as that row. It is known of a row at hand, and no text is written.
//!
//! ```
//! is_read_again(&row);
//! ```
//!
//! # Promises
//!
//! - The text of a row that nobody wrote is read again as that row: it is known of the row, where its key fits its
//!   types. By `is_read_again`.
//!
//! # How it is built
//!
//! It says of a row at hand what `write_row` says of the text that it writes. Functions without a result read each
//! member once, and so tell what its type keeps (`TokenFits`), and that its texts are UTF-8. A lemma for each record,
//! beside `token_well`, says that its members have texts of UTF-8 then (`token_utf8`), and one over tokens that so has
//! what is printed. A keeper in memory therefore keeps rows, and their texts are only spoken of.
#![tactic(auto)]

mod bodies;
mod records;
mod rows;
mod values;

pub use rows::is_read_again;
