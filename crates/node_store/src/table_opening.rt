//! Keepers in SQLite databases are opened.

ghost use Rattle.std.specs.Prelude.{◌≡◌, ◌≢◌, ◌⊎◌, IfErr, IfOk, None};
ghost use Rattle.std.specs.FinMap.{empty};
ghost use Rattle.sqlite.specs.State.{HasCleanDisk};
ghost use Rattle.sqlite.specs.Tree.{Trees};
ghost use Rattle.sqlite.specs.Held.{state};
ghost use Rattle.sqlite.specs.Steps.{over_memory};
ghost use Rattle.sqlite.specs.Files.{file_state, over_files};
ghost use Rattle.sqlite.specs.WalFiles.{image_at};
ghost use Rattle.row_table.specs.Contents.{IsWhole, content_of};
ghost use Rattle.row_table.specs.Kept.{IsClean, Leaves, MayLeave, content, texts};
ghost use Rattle.row_table.specs.Opening.{IsOldLayout, ShowsTheSame};
ghost use Rattle.node_store.specs.Contents.{Content};
ghost use Rattle.node_store.specs.Faults.{IsCommitFault};
ghost use Rattle.node_store.specs.Moved.{HasBadText, IsMovedTo, OpensAs, SparesStore, WasBad};
ghost use Rattle.node_store.specs.Opened.{FindsInFile, IfConnection, IfFiles, IfNoConnection, IsLeft, IsUnopenedFault, SparesFile, WasBadInFile, WasOldInFile};

use crate::fault::StoreFault;
use crate::moving::{LAYOUT, OLDER, move_texts};
use crate::table_keep::{TableKeep, fault_of};
use crate::unopened::Unopened;
use row_table::{OpenFault, TextTable};
use sqlite::{Alter, Connection, FileFrom, FileStore, MemStore, Start};
use std::alloc::Global;

fn opening_fault(fault: OpenFault) -> StoreFault
    ensures old { result ≡ StoreFault.OldLayout → fault ≡ OpenFault.OldLayout }
    ensures bad { result ≢ StoreFault.BadRow }
{
    match fault {
        OpenFault::OldLayout => StoreFault::OldLayout,
        OpenFault::Refused(error) => fault_of(error),
    }
}

impl<S: Alter> TableKeep<S> {
    /// Takes a connection over, of which a stop leaves just what it holds, as of one that was just opened. A store
    /// with nothing gets both tables, in one transaction. A store of layout 1 is moved to layout 2, in one transaction
    /// too; `BadRow` where a text of it is no row of its kind and key. A refusal hands the connection back.
    pub fn adopt(
        alloc: Global,
        connection: Connection<S>,
    ) -> Result<TableKeep<S>, (StoreFault, Connection<S>)>
        // The texts are those of the table as they are in layout 2, or none where there was no table.
        ensures content { IfOk result (λ k. IsClean S.Store k.0 → OpensAs (state S.Store connection).now (content S.Store k.0)) }
        ensures refusals { IfOk result (λ k. k.1 ≡ 0) }
        ensures stops { IfOk result (λ k. IsClean S.Store k.0 → (c : Content) → MayLeave S.Store k.0 c → c ≡ texts S.Store k.0) }
        ensures honest { IfOk result (λ k. IsClean S.Store k.0 → HasCleanDisk (state S.Store connection)) }
        ensures unharmed { IfErr result (λ e. HasCleanDisk (state S.Store e.1) → HasCleanDisk (state S.Store connection)) }
        // The store is as it was. A stop leaves that, or all that the opening would have made of it.
        ensures spared { IfErr result (λ e. HasCleanDisk (state S.Store e.1) → SparesStore (state S.Store connection) (state S.Store e.1)) }
        ensures old { IfErr result (λ e. HasCleanDisk (state S.Store e.1) → e.0 ≡ StoreFault.OldLayout → IsOldLayout 2 1 (state S.Store connection).now) }
        ensures bad { IfErr result (λ e. HasCleanDisk (state S.Store e.1) → e.0 ≡ StoreFault.BadRow → WasBad (state S.Store connection).now) }
    {
        match TextTable::adopt(alloc, connection, LAYOUT, OLDER) {
            Ok((table, found)) => {
                if found == LAYOUT {
                    Ok(TableKeep::over(alloc, table))
                } else {
                    TableKeep::moved(alloc, table)
                }
            }
            Err((fault, connection)) => Err((opening_fault(fault), connection)),
        }
    }

    /// Moves a table of layout 1, or hands its connection back.
    fn moved(
        alloc: Global,
        mut table: TextTable<S>,
    ) -> Result<TableKeep<S>, (StoreFault, Connection<S>)>
        ensures content { IfOk result (λ k. IsClean S.Store k.0 → IsMovedTo (texts S.Store table) (content S.Store k.0)) }
        ensures refusals { IfOk result (λ k. k.1 ≡ 0) }
        ensures settled { IfOk result (λ k. IsClean S.Store k.0 → (c : Content) → MayLeave S.Store k.0 c → c ≡ texts S.Store k.0) }
        ensures honest { IfOk result (λ k. IsClean S.Store k.0 → IsClean S.Store table) }
        ensures unharmed { IfErr result (λ e. HasCleanDisk (state S.Store e.1) → IsClean S.Store table) }
        ensures shown { IfErr result (λ e. HasCleanDisk (state S.Store e.1) → ShowsTheSame (state S.Store table.conn) (state S.Store e.1)) }
        ensures stops { IfErr result (λ e. HasCleanDisk (state S.Store e.1) → (trees : Trees) → (state S.Store e.1).may_leave trees
            → Leaves S.Store table trees ⊎ (IsWhole trees × IsMovedTo (texts S.Store table) (content_of trees))) }
        ensures fault { IfErr result (λ e. e.0 ≢ StoreFault.OldLayout) }
        ensures bad { IfErr result (λ e. HasCleanDisk (state S.Store e.1) → e.0 ≡ StoreFault.BadRow → HasBadText (texts S.Store table)) }
    {
        match move_texts(alloc, &mut table) {
            Ok(()) => Ok(TableKeep::over(alloc, table)),
            Err(fault) => Err((fault, table.into_connection())),
        }
    }
}

impl TableKeep<MemStore> {
    /// A keeper of no rows in memory.
    pub fn open_memory(alloc: Global) -> Result<TableKeep<MemStore>, StoreFault>
        ensures content { IfOk result (λ k. texts over_memory k.0 ≡ empty) }
        ensures refusals { IfOk result (λ k. k.1 ≡ 0) }
        ensures stops { IfOk result (λ k. (c : Content) → MayLeave over_memory k.0 c → c ≡ empty) }
        ensures layout { IfErr result (λ e. e ≢ StoreFault.OldLayout) }
        ensures bad { IfErr result (λ e. e ≢ StoreFault.BadRow) }
    {
        let connection = Connection::open_in_memory(alloc)?;
        match TableKeep::adopt(alloc, connection) {
            Ok(keep) => Ok(keep),
            Err((fault, _connection)) => Err(fault),
        }
    }

    /// A keeper in memory is honest at all times.
    pub fn stays_honest(&self)
        ensures { IsClean over_memory self.now.0 }
    {
        let _table = &self.table;
    }
}

impl<S: Start> TableKeep<FileStore<FileFrom<S>>> {
    /// A keeper in the file at the path. A file that is missing is made, and one of layout 1 is moved to layout 2.
    /// `OldLayout` where the file has tables for other rows, and `BadRow` where it is of layout 1 with a text that is
    /// no row of its kind and key. Where no database was opened, it is neither of the two. Where nothing comes back,
    /// the cause is `CannotOpen`, `DatabaseBusy` or want of memory. After any other refusal the files come back, or the
    /// connection once there is one: a stop leaves what the files held, or, where that was no database yet or an
    /// opening had begun to move it, all that the opening would have made of it.
    ///
    /// `S` stands for what the file holds, which no code can read: so the clauses are proved of whatever it holds. A
    /// program names `Unknown`, at which they speak of an empty file alone.
    pub fn open_file_from(
        rt: &HostRuntime,
        path: &str,
        start: S,
    ) -> Result<TableKeep<FileStore<FileFrom<S>>>, (StoreFault, Option<Unopened<FileFrom<S>>>)>
        // The texts are those of the file as they are in layout 2, or none where there was no table.
        ensures content { IfOk result (λ k. IsClean over_files k.0 → FindsInFile (image_at S.Start) k.0.conn (content over_files k.0)) }
        ensures refusals { IfOk result (λ k. k.1 ≡ 0) }
        ensures stops { IfOk result (λ k. IsClean over_files k.0 → (c : Content) → MayLeave over_files k.0 c → c ≡ texts over_files k.0) }
        // The file is as it was. A stop leaves that, or all that the opening would have made of it.
        ensures spared { IfErr result (λ e. IfConnection e.1 (λ c. HasCleanDisk (file_state c) → SparesFile (image_at S.Start) c)) }
        // `OldLayout` and `BadRow` come only where a database was opened, and by what was found there.
        ensures old { IfErr result (λ e. IfConnection e.1 (λ c. HasCleanDisk (file_state c) → e.0 ≡ StoreFault.OldLayout → WasOldInFile (image_at S.Start) c)) }
        ensures bad { IfErr result (λ e. IfConnection e.1 (λ c. HasCleanDisk (file_state c) → e.0 ≡ StoreFault.BadRow → WasBadInFile (image_at S.Start) c)) }
        // The files had just been opened, and hold what they held.
        ensures left { IfErr result (λ e. IfFiles e.1 (λ left. IsLeft left e.0)) }
        ensures unopened { IfErr result (λ e. e.1 ≡ None → IsUnopenedFault e.0) }
        ensures fault { IfErr result (λ e. IfNoConnection e.1 (IsCommitFault e.0)) }
    {
        let connection = match Connection::open_from(rt, path, false, start) {
            Ok(connection) => connection,
            Err((error, Some(left))) => return Err((fault_of(error), Some(Unopened::Files(left)))),
            Err((error, None)) => return Err((fault_of(error), None)),
        };
        match TableKeep::adopt(rt.alloc(), connection) {
            Ok(keep) => Ok(keep),
            Err((fault, connection)) => Err((fault, Some(Unopened::Connection(connection)))),
        }
    }
}
