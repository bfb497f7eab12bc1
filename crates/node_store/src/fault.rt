//! Why a keeper refused a call.

ghost use Rattle.std.specs.Prelude.{◌≡◌, Some};

use std::alloc::{AllocError, AllocFailed};
use std::error::Error;
use std::fmt;

/// Why a store would not do what it was asked.
#[derive(Clone, Copy, Debug, PartialEq, Eq)]
pub enum Cause {
    /// A file was to be new, and something has its name already.
    AlreadyExists,
    /// The folder in which a file was to be made does not exist.
    FolderNotFound,
    /// The file does not exist.
    NotFound,
    /// A folder has the name of the file, or something else that is no regular file.
    NotAFile,
    /// The system does not permit to make the file, or to read and write it.
    PermissionDenied,
    /// Another program has the file open.
    DatabaseBusy,
    /// The file cannot be opened as a database, for none of the reasons before.
    CannotOpen,
    /// The file is no database, a damaged one, or one with tables that no store has.
    NotADatabase,
    /// The disk is full.
    StorageFull,
    /// The disk failed.
    Disk,
    /// A text is larger than the store takes.
    Size,
    /// A keeper that was to be new keeps rows already.
    NotEmpty,
    /// The party whose rows were changed has no keeper.
    NoKeeper,
    /// A keeper that is opened once was opened already.
    OpenedBefore,
    /// Anything else.
    Other,
}

/// Why a keeper refused a call.
#[derive(Clone, Copy, Debug, PartialEq, Eq)]
pub enum StoreFault {
    /// The store would not do it.
    Refused(Cause),
    /// A text that is kept is no row of its kind and key.
    BadRow,
    /// The database has something, and not just the two tables of a store with their columns, or not just one version
    /// that is read. So it was laid out for other rows: by another version of the program, or by another program whose
    /// tables these are; a third table or another column is enough.
    OldLayout,
    /// Memory ran out.
    Memory,
}

impl fmt::Display for StoreFault {
    ghost use Rattle.node_store.specs.Faults.{fault_text};

    ghost output = { λ f. Some (fault_text f) };

    fn fmt<W: fmt::Write>(&self, f: &mut fmt::Formatter<W>) -> fmt::Result {
        match self {
            StoreFault::Refused(_) => f.write_str("1 Refused"),
            StoreFault::BadRow => f.write_str("2 BadRow"),
            StoreFault::OldLayout => f.write_str("3 OldLayout"),
            StoreFault::Memory => f.write_str("4 Memory"),
        }
    }
}

impl Error for StoreFault {}

impl From<AllocError> for StoreFault {
    ghost use Rattle.node_store.specs.declared.fault.StoreFault.TheVariants.{Memory};

    ghost from_gives = { λ _ e. e ≡ Memory };

    fn from(_e: AllocError) -> StoreFault {
        StoreFault::Memory
    }
}

impl<T: Drop> From<AllocFailed<T>> for StoreFault {
    ghost use Rattle.node_store.specs.declared.fault.StoreFault.TheVariants.{Memory};

    ghost from_gives = { λ _ e. e ≡ Memory };

    fn from(_e: AllocFailed<T>) -> StoreFault {
        StoreFault::Memory
    }
}
