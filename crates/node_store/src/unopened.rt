//! What a refused opening of files hands back.

use sqlite::{Connection, FileStore, Leftover};
use sqlite_disk::Disk;

/// What a refused opening hands back of the files that it opened. They stay locked until it is dropped.
pub enum Unopened<D: Disk> {
    /// The files, in which no database was opened.
    Files(Leftover<D>),
    /// The database that was opened in them, of which no keeper was made.
    Connection(Connection<FileStore<D>>),
}

// It is written out, so that a caller does not prove again how each part is dropped.
impl<D: Disk + Drop> Drop for Unopened<D> {
    fn drop(self) {
        match self {
            Unopened::Files(_left) => {}
            Unopened::Connection(_connection) => {}
        }
    }
}
