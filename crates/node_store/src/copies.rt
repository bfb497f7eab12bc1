//! What a store keeps, read from its bytes in memory, so that its file stays as it is.

ghost use Rattle.std.specs.Prelude.{IfOk, IsTrue};

use crate::fault::StoreFault;
use crate::keep::{Keep, Kept};
use crate::table_keep::{TableKeep, fault_of};
use sqlite::{Alter, Connection, Files, Options};
use sqlite_disk::{Disk, Memory};
use std::alloc::Global;

/// A file in memory with these bytes. An error is want of memory.
fn disk_of(alloc: Global, bytes: &[u8]) -> Result<Memory, StoreFault>
    ensures usable { IfOk result (λ disk. IsTrue disk.usable) }
{
    let mut disk = Memory::new(alloc);
    if bytes.is_empty() {
        return Ok(disk);
    }
    match disk.write_at(0, bytes) {
        Ok(()) => Ok(disk),
        Err(_) => {
            drop(disk);
            Err(StoreFault::Memory)
        }
    }
}

/// What the tables of a connection keep.
fn kept_by<S: Alter + Drop>(alloc: Global, connection: Connection<S>) -> Result<Kept, StoreFault> {
    match TableKeep::adopt(alloc, connection) {
        Ok(mut keep) => {
            let kept = keep.load();
            drop(keep);
            kept
        }
        Err((fault, connection)) => {
            drop(connection);
            Err(fault)
        }
    }
}

/// What the store keeps of which these are the bytes, those of its file and of the log beside it, in layout 1 too.
pub fn kept_in(alloc: Global, file: &[u8], log: &[u8]) -> Result<Kept, StoreFault> {
    let db = disk_of(alloc, file)?;
    let log = match disk_of(alloc, log) {
        Ok(log) => log,
        Err(fault) => {
            drop(db);
            return Err(fault);
        }
    };
    match Connection::open_files(alloc, Files { log, db }, Options::new(0)) {
        Ok(connection) => kept_by(alloc, connection),
        Err((error, left)) => {
            drop(left);
            Err(fault_of(error))
        }
    }
}
