//! The keepers of a world's nodes: where they come from, what the events at their nodes give them, and what ends them.
//!
//! ```
//! let mut keeps = ListKeeps::new(alloc, seed);
//! let mut kept = open_all(alloc, &mut keeps, setup.as_slice())?;
//! commit(&mut kept, &event.node, world.changes())?;
//! close_all(&mut keeps, kept)?;
//! ```
//!
//! # Promises
//!
//! Over any type of keepers that meets `Keep` (`specs/Keeping`).
//!
//! - Where opening succeeds there is one keeper for each node of the setup, in its order and with its party. Each, if
//!   it is honest, keeps no row. By `open_all`: `ok`.
//! - Where it fails one of the nodes got no keeper, for a fault that the opening at its place may have (`may_refuse` of
//!   `Keeps`). By `open_all`: `err` (`AreUnopened`).
//! - Or a keeper could not tell its rows (its count of refusals is raised as the fault says), or keeps a row already or
//!   the number of a line (`Refused(NotEmpty)`); or the fault is `Memory`. By `open_all`: `err`.
//! - A commit gives the changes to the keeper of the node of that party, compared without case. It keeps, if it is
//!   honest, what just these changes make of what it kept, and every other is as it was. No number of a line is kept.
//!   By `commit`: `ok`.
//! - No changes change nothing, and are never refused. By `commit`: `some`.
//! - Where a commit is refused that keeper refused, with its count raised as the fault says, or the party has no keeper
//!   (`Refused(NoKeeper)`). What each keeps, if it is honest, is as it was. By `commit`: `err` (`KeeperRefuses`).
//! - Opening fails only for a fault that it may have. With `ListKeeps` it never fails, with `FileKeeps` and `StoreFile`
//!   it may for any. By `Keeps::open`: `fault`.
//! - A keeper in memory begins with nothing, one in a new file with no text. One of a `StoreFile` has what its file
//!   held, as it is in layout 2, whatever that was (`FindsInFile`). By `Keeps::open`: `found` (`specs/InFiles`).
//! - What a closing leaves is handed out: the files, locked until they are dropped, which were copied as `node_store`
//!   says. A `StoreFile` is opened once. By `Keeps::close`: `closed`; that it is opened once: by its type.
//! - The rows of a file are those that it held, also where closing it is refused then; a text that is no row, or no number
//!   of a line, is told only where it held one. A file that was closed was copied; one that was not comes back as its
//!   store. By `rows_in`: `rows`, `bad` (`WereFound` of `specs/InFiles`).
//! - A log is removed only while this program holds the locks of its file, and where its name still leads to that file.
//!   No clause says what lies on a disk (tested by `tools/try_stores`, `faults/open_at_once.py`).
//! - A closing is refused for what a commit may be refused (`IsCommitFault`). All keepers are closed, also where
//!   one is refused, and where a later one is not opened. By `Keeps::close`, `close_all`: the fault; that all are, and
//!   what each left, none (proved; the rest by reading).
//! - The rows of the i-th node are in `node<i>.db`, and new files are empty. No clause says so: a `Keep` has no name
//!   (tested by `tools/try_stores`).
//! - The keepers in files tell their folder, the path of the file that was opened last, or refused, and of the first
//!   that could not be closed. By `FileKeeps::new`: `folder`, `path`, `unclosed`; `FileKeeps::path`: `none`, `last`;
//!   `FileKeeps::unclosed`: `none`, `first`.
//! - A file that was closed holds all rows, and no other stands beside it. None is left beside a file that was refused,
//!   but maybe an empty log. No clause says what lies on a disk (tested by `tools/try_stores`).
//! - A file must not exist, or must, and why it was refused is told in words. No clause says what lies on a disk, and
//!   `words_for` has none (tested by examples, `tools/try_stores`).
//!
//! # How it is built
//!
//! Where keepers of rows come from is a trait, `Keeps`: in memory (`ListKeeps`), or in new files of a folder
//! (`FileKeeps`). `open_all` opens one for each node of a setup, loads it, and refuses one that is not new; `commit`
//! finds the keeper by the party and hands it the changes; `close_all` ends them. All of it is said of any type of
//! keepers. What ends a keeper in a file is a trait (`InFile` of `files.rt`, `FoundInFile` of `found.rt`), so that the
//! bodies which hold one are generic.
#![tactic(auto)]

mod copies;
mod files;
mod found;
mod keeping;
mod keeps;
mod loading;
mod system_files;

pub use copies::kept_in_copy;
pub use files::{FileKeeps, StoreFile};
pub use found::{Found, rows_in};
pub use keeping::{KeptNode, close_all, commit, open_all};
pub use keeps::{Keeps, ListKeeps};
