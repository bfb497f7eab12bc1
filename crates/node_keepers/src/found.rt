//! The rows of an existing file.

ghost use Rattle.std.specs.Prelude.{◌≡◌, ◌≢◌, Err, IfErr, IfOk, IsOk, None, Ok, Some};
ghost use Rattle.node_store.specs.Closed.{IsCopiedIfClean, IsUnclosed};
ghost use Rattle.node_store.specs.Faults.{IsCommitFault};
ghost use Rattle.node_store.specs.declared.fault.StoreFault.{StoreFault as StoreFaultOf};
ghost use Rattle.node_store.specs.declared.fault.StoreFault.TheVariants.{BadRow, OldLayout};
ghost use Rattle.node_keepers.specs.InFiles.{HadRows, WereFound};
ghost use Rattle.sqlite.specs.WalFiles.{image_at};

use crate::files::open_file;
use crate::loading::load_rows;
use crate::system_files::{Identity, Locked, find_file, remove_empty_log};
use node_store::{Keep, StoreFault, TableKeep};
use ocpi_types::Row;
use sqlite::{FileFrom, FileStore, Files, Start};
use sqlite_disk::Disk;

/// A keeper whose rows were found in a file, of which it also gives what it leaves where ending it is refused.
trait FoundInFile: Keep {
    /// The file and its log, once the keeper was ended. Both are locked until they are dropped.
    type Ended: Locked + Drop;

    /// The same, where ending it was refused.
    type Left: Drop;

    /// What is known of what a keeper leaves.
    ghost leaves: { Self → Self.Ended → Type 0 };

    /// What is known of what it leaves where ending it was refused with that fault.
    ghost keeps: { Self → StoreFaultOf → Self.Left → Type 0 };

    /// Ends it, so that the file at that path holds all rows; whoever gets the files may remove the log beside it.
    /// After a refusal they are in the file and its log together, as before.
    fn end_found(
        self,
        rt: &HostRuntime,
        path: &str,
        identity: Option<Identity>,
    ) -> Result<Self::Ended, (StoreFault, Self::Left)>
        ensures ended { IfOk result (leaves self) }
        ensures unended { IfErr result (λ e. keeps self e.0 e.1) }
        ensures fault { IfErr result (λ e. IsCommitFault e.0) };
}

impl<S: Start> FoundInFile for TableKeep<FileStore<FileFrom<S>>> {
    type Ended = Files<FileFrom<S>>;

    type Left = FileStore<FileFrom<S>>;

    ghost leaves = { λ keep files. IsCopiedIfClean keep.0.conn files };

    ghost keeps = { λ keep fault store. IsUnclosed keep.0.conn store fault };

    fn end_found(
        self,
        rt: &HostRuntime,
        path: &str,
        identity: Option<Identity>,
    ) -> Result<Files<FileFrom<S>>, (StoreFault, FileStore<FileFrom<S>>)> {
        match self.close_files() {
            Ok(files) => {
                remove_empty_log(rt, path, identity, &files);
                Ok(files)
            }
            Err(left) => Err(left),
        }
    }
}

/// What was found in a file that was opened.
#[derive(Drop)]
pub struct Found<F, L> {
    /// Its rows, ordered by kind and key, or why they were not told: `BadRow` where a text is no row of its kind and
    /// key, or that of the number of the last line is no such number, and never `OldLayout`.
    pub rows: Result<Vec<Row>, StoreFault>,
    /// The file and its log, which was closed once these were read, so that the file holds all rows alone. After a
    /// refusal the rows are in the file and its log together, as before. Both are locked until this is dropped.
    pub closed: Result<F, (StoreFault, L)>,
}

impl<F: Drop, L: Drop> Found<F, L> {
    /// Its rows, and whether closing it was refused. What that left is let go.
    pub fn into_rows(self) -> (Result<Vec<Row>, StoreFault>, Result<(), StoreFault>)
        ensures rows { result.0 ≡ self.rows }
        ensures closed { IfOk self.closed (λ left. IsOk result.1) }
        ensures refused { IfErr self.closed (λ e. result.1 ≡ Err e.0) }
    {
        let Found { rows, closed } = self;
        match closed {
            Ok(left) => {
                drop(left);
                (rows, Ok(()))
            }
            Err((fault, left)) => {
                drop(left);
                (rows, Err(fault))
            }
        }
    }
}

/// The rows of a keeper that was opened, which ends here. It stands for any keeper, since a body that holds one in a
/// file is dear to prove.
#[tactic(auto, using(crate::proofs::FileLemmas::had_rows))]
fn rows_of<K: FoundInFile>(
    rt: &HostRuntime,
    path: &str,
    identity: Option<Identity>,
    opened: Result<K, StoreFault>,
) -> Result<Found<K::Ended, K::Left>, StoreFault>
    ensures told { IfOk opened (λ k. IsOk result) }
    ensures rows { IfOk opened (λ k. IfOk result (λ f. IfOk f.rows (λ v. HadRows K.content K.is_honest K.leaves K.keeps k (Some v.items) f.closed))) }
    ensures bad { IfOk opened (λ k. IfOk result (λ f. IfErr f.rows (λ e. e ≡ BadRow → HadRows K.content K.is_honest K.leaves K.keeps k None f.closed))) }
    ensures layout { IfOk result (λ f. IfErr f.rows (λ e. e ≢ OldLayout)) }
    ensures closed { IfOk result (λ f. IfErr f.closed (λ e. IsCommitFault e.0)) }
    ensures fault { IfErr opened (λ e. result ≡ Err e) }
{
    let mut keep = opened?;
    let rows = load_rows(&mut keep);
    let closed = keep.end_found(rt, path, identity);
    Ok(Found { rows, closed })
}

/// The rows of a file that exists. It is refused where it was not opened: `NotFound`, `NotAFile` and `PermissionDenied`
/// are told of the path before the file is opened as a database. Else the file is closed again; its rows are told also
/// where that is refused. A refusal leaves no file beside it that was not there before, but a log where the file is
/// empty, where another program has the file, or where no file came back.
///
/// `S` stands for what the file holds. A program names `Unknown`.
pub fn rows_in<S: Start>(
    rt: &HostRuntime,
    path: &str,
    start: S,
) -> Result<Found<Files<FileFrom<S>>, FileStore<FileFrom<S>>>, StoreFault>
    // Whatever closing says: where the disk returned what was written.
    ensures rows { IfOk result (λ f. IfOk f.rows (λ v. WereFound ⟦<FileFrom<S> as Disk>⟧ (image_at S.Start) (Some v.items) f.closed)) }
    ensures bad { IfOk result (λ f. IfErr f.rows (λ e. e ≡ BadRow → WereFound ⟦<FileFrom<S> as Disk>⟧ (image_at S.Start) None f.closed)) }
    ensures layout { IfOk result (λ f. IfErr f.rows (λ e. e ≢ OldLayout)) }
    ensures closed { IfOk result (λ f. IfErr f.closed (λ e. IsCommitFault e.0)) }
{
    let standing = find_file(rt, path)?;
    rows_of(
        rt,
        path,
        standing.identity,
        open_file(rt, path, &standing, start),
    )
}
