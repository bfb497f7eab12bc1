//! Keepers in files: those of new nodes, and that of one node.

ghost use Rattle.std.specs.Prelude.{
  ◌≡◌,
  [],
  Err,
  IfErr,
  IfOk,
  IfSome,
  None,
  Ok,
  Some,
  string_bytes,
  true,
  false,
  ⊤,
};
ghost use Rattle.node_store.specs.Closed.{IsCopiedIfClean};
ghost use Rattle.node_store.specs.Contents.{Content};
ghost use Rattle.node_store.specs.Faults.{IsCommitFault};
ghost use Rattle.node_keepers.specs.InFiles.{IsBlank, IsFoundIn};
ghost use Rattle.row_table.specs.Kept.{IsClean, MayLeave, texts};
ghost use Rattle.sqlite.specs.Files.{over_files};
ghost use Rattle.sqlite.specs.WalFiles.{image_at};

use crate::keeps::Keeps;
use crate::system_files::{
    Identity, LOG_OF_A_PAGE, Locked, Standing, find_file, find_folder, find_or_make_file,
    make_file, remove_empty_log,
};
use node_store::{Cause, Keep, StoreFault, TableKeep, Unopened};
use row_table::Past;
use sqlite::{File, FileFrom, FileStore, Files, Start, Unknown};
use sqlite_disk::Disk;
use std::alloc::AllocError;

/// A file that was made for the node at a place.
#[derive(Clone, Copy)]
struct MadeFile {
    place: usize,
    identity: Option<Identity>,
}

/// Keepers in new files of a folder: `node1.db` of the first node, and so on. Each file is its owner's alone.
#[derive(Drop)]
pub struct FileKeeps<'a> {
    rt: &'a HostRuntime,
    folder: &'a str,
    path: Option<String>,
    unclosed: Option<String>,
    made: Vec<MadeFile>,
    opened: Past<usize>,
}

impl<'a> FileKeeps<'a> {
    /// Keepers whose files are to be in that folder, which must exist once the first is opened.
    pub fn new(rt: &'a HostRuntime, folder: &'a str) -> FileKeeps<'a>
        ensures folder { result.folder ≡ folder.entry }
        ensures path { result.path ≡ None }
        ensures unclosed { result.unclosed ≡ None }
        ensures opened { result.opened.items ≡ [] }
    {
        FileKeeps {
            rt,
            folder,
            path: None,
            unclosed: None,
            made: Vec::new(rt.alloc()),
            opened: Past::new(),
        }
    }

    /// The path of the file that was opened last, or refused; before that, the folder.
    pub fn path(&self) -> &str
        ensures none { self.now.path ≡ None → result.now ≡ self.now.folder.now }
        ensures last { IfSome self.now.path (λ path. result.now ≡ string_bytes path) }
    {
        match &self.path {
            Some(path) => path.as_str(),
            None => self.folder,
        }
    }

    /// The path of the first file whose closing was refused; where none was, the folder.
    pub fn unclosed(&self) -> &str
        ensures none { self.now.unclosed ≡ None → result.now ≡ self.now.folder.now }
        ensures first { IfSome self.now.unclosed (λ path. result.now ≡ string_bytes path) }
    {
        match &self.unclosed {
            Some(path) => path.as_str(),
            None => self.folder,
        }
    }

    /// The path of the file of the node at a place.
    fn path_of(&self, place: usize) -> Result<String, AllocError> {
        format!(in self.rt.alloc(); "{}/node{place}.db", self.folder)
    }

    /// Makes the file whose path was noted, of the node at this place, and notes which file it is. Room for the note is
    /// taken before.
    fn make(&mut self, place: usize) -> Result<Standing, StoreFault>
        ensures { self.new.opened ≡ self.old.opened }
    {
        self.made.reserve(1)?;
        let standing = make_file(self.rt, self.path())?;
        self.made.push(MadeFile {
            place,
            identity: standing.identity,
        })?;
        Ok(standing)
    }

    /// Ends the keeper of the node at this place, and notes the path of the first file that refused it. It stands for
    /// any keeper, since a body that holds one in a file is dear to prove.
    fn end<K: InFile + Drop>(&mut self, place: usize, keep: K) -> Result<K::Ended, StoreFault>
        ensures ended { IfOk result (K.leaves keep) }
        ensures fault { IfErr result IsCommitFault }
        ensures opened { self.new.opened ≡ self.old.opened }
    {
        let path = self.path_of(place);
        let closed = close_at(self.rt, &path, self.identity_at(place), keep);
        if closed.is_err() && self.unclosed.is_none() {
            self.unclosed = path.ok();
        }
        closed
    }

    /// The same of a keeper in a file, whatever that holds.
    fn end_in_file<S: Start>(
        &mut self,
        place: usize,
        keep: TableKeep<FileStore<FileFrom<S>>>,
    ) -> Result<Files<FileFrom<S>>, StoreFault>
        ensures ended { IfOk result (IsCopiedIfClean keep.0.conn) }
        ensures fault { IfErr result IsCommitFault }
        ensures opened { self.new.opened ≡ self.old.opened }
    {
        self.end(place, keep)
    }

    /// Which file was made last for the node at this place, where that is known.
    fn identity_at(&self, place: usize) -> Option<Identity> {
        let mut identity = None;
        for file in self.made.as_slice() {
            if file.place == place {
                identity = file.identity;
            }
        }
        identity
    }
}

impl Keeps for FileKeeps<'_> {
    type Kept = TableKeep<FileStore<File>>;

    type Closed = Files<File>;

    ghost may_refuse = { λ place fault. ⊤ };

    // The file was new, and held nothing.
    ghost found = { λ place keep. IsBlank keep };

    ghost is_closed = { λ keep files. IsCopiedIfClean keep.0.conn files };

    ghost opened = { λ keeps. keeps.opened.items };

    /// The folder must exist, and nothing may have the file's name. The path is noted first. A refusal for that, or for
    /// want of memory before, leaves no file that was not there. Any other leaves the new file, which is no store yet,
    /// or one without rows; a log may stand beside it.
    fn open(&mut self, place: usize) -> Result<TableKeep<FileStore<File>>, StoreFault> {
        self.opened = self.opened.note(&place);
        let path = self.path_of(place)?;
        self.path = Some(path);
        find_folder(self.rt, self.folder)?;
        let standing = self.make(place)?;
        open_new(self.rt, self.path(), &standing)
    }

    /// The file holds all rows then. A log that was made beside it is removed where it still is this file's, and where
    /// that can be. The path is noted where the closing was refused.
    fn close(
        &mut self,
        place: usize,
        keep: TableKeep<FileStore<File>>,
    ) -> Result<Files<File>, StoreFault> {
        self.end_in_file(place, keep)
    }
}

/// The keeper of one node in a file that may exist. It is opened once.
///
/// `S` stands for what the file holds. A program names `Unknown`.
#[derive(Drop)]
pub struct StoreFile<'a, S> {
    rt: &'a HostRuntime,
    path: &'a str,
    is_to_stand: bool,
    start: Option<S>,
    identity: Option<Identity>,
    opened: Past<usize>,
}

impl<'a, S: Start> StoreFile<'a, S> {
    /// A keeper of the rows in the file at that path. Where nothing has its name once the keeper is opened, it is made,
    /// of its owner alone.
    pub fn new(rt: &'a HostRuntime, path: &'a str, start: S) -> StoreFile<'a, S>
        ensures path { result.path ≡ path.entry }
        ensures made { result.is_to_stand ≡ false }
        ensures start { result.start ≡ Some start }
        ensures opened { result.opened.items ≡ [] }
    {
        StoreFile {
            rt,
            path,
            is_to_stand: false,
            start: Some(start),
            identity: None,
            opened: Past::new(),
        }
    }

    /// A keeper of the rows in the file at that path. Where nothing has its name once the keeper is opened, that is
    /// refused as `NotFound`, and no file is made.
    pub fn existing(rt: &'a HostRuntime, path: &'a str, start: S) -> StoreFile<'a, S>
        ensures path { result.path ≡ path.entry }
        ensures stands { result.is_to_stand ≡ true }
        ensures start { result.start ≡ Some start }
        ensures opened { result.opened.items ≡ [] }
    {
        StoreFile {
            rt,
            path,
            is_to_stand: true,
            start: Some(start),
            identity: None,
            opened: Past::new(),
        }
    }

    /// The path of the file.
    pub fn path(&self) -> &str
        ensures { result.now ≡ self.now.path.now }
    {
        self.path
    }

    /// The file as it stands, where it may be read and written. It is made where it may be missing, and is.
    fn find(&self) -> Result<Standing, StoreFault> {
        if self.is_to_stand {
            find_file(self.rt, self.path)
        } else {
            find_or_make_file(self.rt, self.path)
        }
    }
}

impl<S: Start> Keeps for StoreFile<'_, S> {
    type Kept = TableKeep<FileStore<FileFrom<S>>>;

    type Closed = Files<FileFrom<S>>;

    ghost may_refuse = { λ place fault. ⊤ };

    ghost found = { λ place keep. IsFoundIn (image_at S.Start) keep };

    ghost is_closed = { λ keep files. IsCopiedIfClean keep.0.conn files };

    ghost opened = { λ keeps. keeps.opened.items };

    /// The folder of the file must exist. Whichever the place is, it is the same file. A second opening is refused as
    /// `OpenedBefore`. `NotAFile` and `PermissionDenied` are told of the path, and `NotFound` of one whose file is to
    /// stand, before the file is opened as a database. A refusal leaves an empty log beside the file only where the
    /// file is empty, where another program has it open, or where no file came back.
    fn open(&mut self, place: usize) -> Result<TableKeep<FileStore<FileFrom<S>>>, StoreFault> {
        self.opened = self.opened.note(&place);
        let Some(start) = self.start.take() else {
            return Err(StoreFault::Refused(Cause::OpenedBefore));
        };
        let standing = self.find()?;
        self.identity = standing.identity;
        open_file(self.rt, self.path, &standing, start)
    }

    /// The file holds all rows then. A log that was made beside it is removed where it still is this file's, and where
    /// that can be.
    fn close(
        &mut self,
        _place: usize,
        keep: TableKeep<FileStore<FileFrom<S>>>,
    ) -> Result<Files<FileFrom<S>>, StoreFault> {
        keep.end(self.rt, self.path, self.identity)
    }
}

// A file and its log that were closed: the log holds nothing that the file lacks.
impl<D: Disk> Locked for Files<D> {
    fn least_log(&self) -> u64 {
        LOG_OF_A_PAGE
    }
}

// What opened no database may have left its mark in the log of a file that it was making.
impl<D: Disk> Locked for Unopened<D> {
    fn least_log(&self) -> u64 {
        match self {
            Unopened::Files(_) => 1,
            Unopened::Connection(_) => LOG_OF_A_PAGE,
        }
    }
}

/// A keeper whose rows are in a file.
trait InFile: Keep {
    /// The file and its log, once the keeper was ended. Both are locked until they are dropped.
    type Ended: Locked + Drop;

    /// What is known of what a keeper leaves.
    ghost leaves: { Self → Self.Ended → Type 0 };

    /// Ends it, so that the file at that path holds all rows; whoever gets the files may remove the log beside it.
    /// After a refusal they are in the file and its log together, as before.
    fn end(
        self,
        rt: &HostRuntime,
        path: &str,
        identity: Option<Identity>,
    ) -> Result<Self::Ended, StoreFault>
        ensures ended { IfOk result (leaves self) }
        ensures fault { IfErr result IsCommitFault };
}

impl<S: Start> InFile for TableKeep<FileStore<FileFrom<S>>> {
    type Ended = Files<FileFrom<S>>;

    ghost leaves = { λ keep files. IsCopiedIfClean keep.0.conn files };

    fn end(
        self,
        rt: &HostRuntime,
        path: &str,
        identity: Option<Identity>,
    ) -> Result<Files<FileFrom<S>>, StoreFault> {
        match self.close_files() {
            Ok(files) => {
                remove_empty_log(rt, path, identity, &files);
                Ok(files)
            }
            Err((fault, store)) => {
                drop(store);
                Err(fault)
            }
        }
    }
}

/// Ends a keeper of the file at a path, or lets it go where there was no memory for that. It stands for any keeper,
/// since a body that holds one in a file is dear to prove.
fn close_at<K: InFile + Drop>(
    rt: &HostRuntime,
    path: &Result<String, AllocError>,
    identity: Option<Identity>,
    keep: K,
) -> Result<K::Ended, StoreFault>
    ensures ended { IfOk result (K.leaves keep) }
    ensures fault { IfErr result IsCommitFault }
{
    match path {
        Ok(path) => keep.end(rt, path.as_str(), identity),
        Err(_) => {
            drop(keep);
            Err(StoreFault::Memory)
        }
    }
}

/// A keeper of the file at a path, as it was opened. Where that was refused and the file is still locked, its log goes
/// that the opening made.
fn keeper_of<K: Keep + Drop, L: Locked + Drop>(
    rt: &HostRuntime,
    path: &str,
    standing: &Standing,
    opened: Result<K, (StoreFault, Option<L>)>,
) -> Result<K, StoreFault>
    ensures same { IfOk opened (λ k. result ≡ Ok k) }
    ensures fault { IfErr opened (λ e. result ≡ Err e.0) }
{
    match opened {
        Ok(keep) => Ok(keep),
        Err((fault, Some(left))) => {
            standing.remove_made_log(rt, path, &left);
            drop(left);
            Err(fault)
        }
        Err((fault, None)) => Err(fault),
    }
}

/// Opens the file at a path, which stands, as a database. A refusal leaves no file beside it that was not there before,
/// but a log where the file is empty, where another program has the file, or where no file came back.
pub(crate) fn open_file<S: Start>(
    rt: &HostRuntime,
    path: &str,
    standing: &Standing,
    start: S,
) -> Result<TableKeep<FileStore<FileFrom<S>>>, StoreFault>
    ensures found { IfOk result (IsFoundIn (image_at S.Start)) }
    ensures stops { IfOk result (λ k. IsClean over_files k.0 → (c : Content) → MayLeave over_files k.0 c → c ≡ texts over_files k.0) }
{
    keeper_of(
        rt,
        path,
        standing,
        TableKeep::open_file_from(rt, path, start),
    )
}

/// Opens a file that was just made.
fn open_new(
    rt: &HostRuntime,
    path: &str,
    standing: &Standing,
) -> Result<TableKeep<FileStore<File>>, StoreFault>
    ensures blank { IfOk result IsBlank }
    ensures stops { IfOk result (λ k. IsClean over_files k.0 → (c : Content) → MayLeave over_files k.0 c → c ≡ texts over_files k.0) }
{
    open_file(rt, path, standing, Unknown)
}
