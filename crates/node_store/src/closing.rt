//! Keepers in databases end.

ghost use Rattle.std.specs.Prelude.{◌≡◌, IfErr, IfOk};
ghost use Rattle.node_store.specs.Closed.{AreUsable, IsCopiedIfClean, IsUnclosed};
ghost use Rattle.node_store.specs.Faults.{IsCommitFault};

use crate::fault::StoreFault;
use crate::table_keep::{TableKeep, fault_of};
use sqlite::{Alter, Connection, FileFrom, FileStore, Files, Start};

impl<S: Alter> TableKeep<S> {
    /// The connection, as the last call left it. Whoever handed it over closes what it is over.
    pub fn into_connection(self) -> Connection<S>
        ensures { result ≡ self.0.conn }
    {
        self.into_table().into_connection()
    }
}

impl<S: Start> TableKeep<FileStore<FileFrom<S>>> {
    /// Copies the log into the file, empties the log, and gives both back, locked as they were. What was committed last
    /// is in the file alone then, also after a stop. A refusal gives the store back, with its files locked: the rows
    /// are in the file and the log together, as before.
    pub fn close_files(self) -> Result<Files<FileFrom<S>>, (StoreFault, FileStore<FileFrom<S>>)>
        ensures copied { IfOk result (λ files. IsCopiedIfClean self.0.conn files) }
        ensures usable { IfOk result (λ files. AreUsable self.0.conn files) }
        ensures fault { IfErr result (λ e. IsCommitFault e.0) }
        ensures unclosed { IfErr result (λ e. IsUnclosed self.0.conn e.1 e.0) }
    {
        match self.into_connection().close_files() {
            Ok(files) => Ok(files),
            Err((error, store)) => Err((fault_of(error), store)),
        }
    }
}
