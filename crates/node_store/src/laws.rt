//! The laws of what an opening makes of rows, and finds in files that were closed, of the number beside the rows, and of
//! what is written of a commit.

ghost use Rattle.node_store.specs.Closed.{ClosedFilesAreFound};
ghost use Rattle.node_store.specs.Editing.{CountersAreWrittenOnce};
ghost use Rattle.node_store.specs.Moved.{OpeningKeepsRows};
ghost use Rattle.node_store.specs.Numbers.{NumbersAreNoRows};

use sqlite_disk::Disk;

/// A store of layout 1 has the same rows once it is moved to layout 2. So a node that is reopened, also after a stop
/// inside an opening, is made again of the rows that it stored. A text under another kind than `cdr` stays as it was,
/// and so does the number of the last line that took hold.
pub fn opening_keeps_rows()
    ensures { OpeningKeepsRows }
{}

/// What a keeper had whose files were closed is found again, its version and its texts, with the log that was left and
/// with none: by the next opening in this run, and by one after a stop. So the file alone is a copy of the store.
pub fn closed_files_are_found<D: Disk, E: Disk>()
    ensures { ClosedFilesAreFound D.Disk E.Disk }
{}

/// The number of the last line that took hold is beside the rows: to keep one changes no row, changes of rows leave it
/// as it is, and the one that was kept last is read again.
pub fn numbers_are_no_rows()
    ensures { NumbersAreNoRows }
{}

/// Of several changes of one counter in a commit the last one alone is written, and the rows are as if all were.
pub fn counters_are_written_once()
    ensures { CountersAreWrittenOnce }
{}
