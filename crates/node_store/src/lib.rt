//! Keepers of a node's rows, under the kind and the key of each its text; and of the number of the last line that took
//! hold.
//!
//! ```
//! let mut keep = ListKeep::new(alloc, seed);
//! keep.commit(world.changes(), LineNumber::new(number))?;
//! let Kept { rows, line } = keep.load()?;
//! ```
//!
//! # Promises
//!
//! Which stands on `row_table` (`TextTable`: `adopt`, `rows`, `change`, `change_to`). What is kept is a finite map
//! from the word of a kind and the text of a key to the text of a row.
//!
//! - A commit makes the changes of that map in turn, all of them or none. What it put is read again as that very row.
//!   By `Keep::commit`: `all`, `none`, `again`.
//! - Of several changes of one counter in a commit a `TableKeep` writes the last one alone: what is kept is as if it
//!   had written all. By law `counters_are_written_once`.
//! - In the same commit it keeps the number of the line that made the changes, where one is given (`marked`). So
//!   whatever a stop leaves tells which lines took hold. By `Keep::commit`: `all`, `none`, `stops`.
//! - The number is kept under the kind `count` and the key `line`, which no row has, as `{"last":n}` with `n` from 2
//!   (`line_place`, `line_text`). A map without it is one in which no line took hold, and the number is 1 (`line_of`).
//!   By `Keep::load`: `line`; `LineNumber::value`: `least`.
//! - It is no row: to keep one changes no row that is given, changes of rows leave it, and the one that was kept last
//!   is read again. By law `numbers_are_no_rows`.
//! - Each key of a change that is made is one that the types can hold, so that no other key has its place. By
//!   `Keep::commit`: `again` (`IsReadAgain`).
//! - The rows of the map are given, ordered by kind and key. `BadRow` comes only where a text is no row of its kind and
//!   key, or that of the number is read as no number from 2. By `Keep::load`: `rows`, `bad`.
//! - `Refused` comes only in a call that raises the number of calls that the keeper has refused. By `counted` of both.
//! - A commit is refused for what is told of an error of a database, or for want of memory: never as if a file were
//!   missing or a keeper were not new. Which error it was is not said. By `Keep::commit`: `fault` (`IsCommitFault`).
//! - Want of memory leaves what is kept. By `none`, `kept`.
//! - A stop leaves what a stop before the call could leave, or what the changes of that call make of what was kept. So
//!   it may leave the rows of a commit that was refused, and then these can be read again. By `Keep::commit`: `stops`.
//! - After changes that were made, or a number that was kept, a stop leaves just what is kept then, whatever was
//!   refused before. By `Keep::commit`: `settled`, `numbered`.
//! - All this is said of a keeper that is honest after the call. By `is_honest`, in `honest`.
//! - `ListKeep` always is, begins empty, and keeps rows, whose texts it writes only where they are loaded; the number
//!   is kept as the row of a counter, of which only the text is seen. It never counts a refusal, so that each call of
//!   it fails for want of memory alone. By `is_honest`, `refusals` of `ListKeep`; `ListKeep::new`, `has_rows`;
//!   `counted`, `bad`, `layout`.
//! - `TableKeep` is, as long as nobody else writes the database and the disk returns what was written (`IsClean`). In
//!   memory it always is. By `stays_honest`.
//! - What a `TableKeep` keeps are its version and the texts of `row_text`, as the last change or the opening left them.
//!   A fault that shuts the database changes nothing of what is said (`specs/Kept` of `row_table`). By `content`.
//! - Opening gives what the tables held, or the version and no text where the database had nothing; then both tables
//!   are made in one transaction. What was of layout 1 is moved to layout 2: each `cdr` text is that of the record that
//!   was read, and all other texts stay (`OpensAs`, `IsMoved`). No store of layout 1 has a number; where one does, it
//!   stays as it is. By `adopt`, `open_memory`, `open_file_from`: `content`; law `opening_keeps_rows`: `others`.
//! - A refused opening leaves the database as it was. A stop inside leaves that, or all that the opening would have
//!   made: a whole new store where there was nothing, or the whole store of layout 2 (`SparesStore`). By `adopt`,
//!   `open_file_from`: `spared`.
//! - `OldLayout` comes only where the database has something, and not just the two tables with their columns, or not
//!   just the version 1 or 2 (`IsOldLayout`). In memory it never comes. By `adopt`, `open_file_from`: `old`;
//!   `open_memory`: `layout`.
//! - `BadRow` on opening comes only where a store of layout 1 has a text that is no row of its kind and key (`WasBad`);
//!   in memory never. By `adopt`, `open_file_from`, `open_memory`: `bad`.
//! - Where no database was opened in a file, it is neither of the two. Where nothing comes back, it is that the file
//!   cannot be opened, that another has it, or want of memory. By `open_file_from`: `fault`, `unopened`
//!   (`IsUnopenedFault`).
//! - What a refused opening leaves comes back, locked until it is let go: the files, in which a stop leaves what they
//!   held, or a store under way where they held none yet; or the connection. By `open_file_from`: `left` (`IsLeft`),
//!   `spared`.
//! - Where nothing comes back, the file is as it was. No clause says so: can speak of it (tested by
//!   `tools/try_stores`).
//! - A closing has copied what was committed last into the file, which has it by itself, also after a stop. One that
//!   was refused gives the store back, and a stop leaves nothing new. By `close_files`: `copied`, `usable`, `fault`,
//!   `unclosed` (where the disk returns what was written).
//! - So whichever opening finds what may lie there then, the log beside it or not, has the same version and texts. By
//!   law `closed_files_are_found`.
//! - The keeper has the rows of the store that it opens, and so has whatever a stop inside may leave: a node made of
//!   them is made of the same rows, behind the same line. By law `opening_keeps_rows`.
//! - A stop after opening leaves just these texts, and no call was refused yet. By `stops`, `refusals` of the openings.
//! - Whatever a stop leaves is a whole store: the two tables and nothing else, just one version, and rows that are
//!   texts. A `TableKeep`'s version is 2 in all of them. By `leaves_whole` (`IsWhole`).
//! - Of a file, all this is said of whatever it holds (`S: Start`): what is found, what a refusal leaves, and which it
//!   is. By `open_file_from`: `content`, `left`, `spared`, `old`, `bad`.
//! - `main` opens its files at the type `Unknown`, since no code can name what a file holds. It supposes that a torn
//!   write leaves each byte old or new. The clauses are proved for every type, and so for whatever the file holds; that
//!   they are true of a run of `main` is the kit's argument, which no proof makes. By `StoreFile::new`,
//!   `StoreFile::existing`, `rows_in` in `main` (by reading).
#![tactic(auto)]

mod changing;
mod closing;
mod copies;
mod editing;
mod fault;
mod keep;
mod laws;
mod line_number;
mod list_keep;
mod moving;
mod stored;
mod table_keep;
mod table_opening;
mod unopened;

pub use copies::kept_in;
pub use fault::{Cause, StoreFault};
pub use keep::{Keep, Kept};
pub use laws::{
    closed_files_are_found, counters_are_written_once, numbers_are_no_rows, opening_keeps_rows,
};
pub use line_number::LineNumber;
pub use list_keep::ListKeep;
pub use table_keep::TableKeep;
pub use unopened::Unopened;
