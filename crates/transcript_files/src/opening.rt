//! The file of a transcript is opened.

use std::fs::{self, File, OpenOptions};
use std::io::{self, ErrorKind};
use std::os::fd::AsRawFd;
use std::os::unix::fs::{MetadataExt, OpenOptionsExt};

/// The last descriptor of a standard stream.
const LAST_STREAM: i32 = 2;

/// Opens the file at that path, to write behind what it has. It is made, for its owner alone, where it is not there.
/// That it is there lasts. The file of the run's store is refused as one that exists.
pub fn open_transcript(rt: &HostRuntime, path: &str, store: Option<&str>) -> io::Result<File> {
    let file = OpenOptions::new()
        .append(true)
        .create(true)
        .mode(0o600)
        .open(rt, path)?;
    let file = apart_from_streams(file)?;
    match settle(rt, &file, path, store) {
        Ok(()) => Ok(file),
        Err(error) => {
            drop(file);
            Err(error)
        }
    }
}

/// Refuses the file of a store, and syncs the folder of any other.
fn settle(rt: &HostRuntime, file: &File, path: &str, store: Option<&str>) -> io::Result<()> {
    if let Some(store) = store {
        if is_at(rt, file, store)? {
            return Err(io::Error::from(ErrorKind::AlreadyExists));
        }
    }
    sync_folder(rt, path)
}

/// Whether the file is the one at that path.
fn is_at(rt: &HostRuntime, file: &File, path: &str) -> io::Result<bool> {
    let found = file.metadata()?;
    match fs::metadata(rt, path) {
        Ok(named) => Ok(found.dev() == named.dev() && found.ino() == named.ino()),
        Err(_) => Ok(false),
    }
}

/// A handle of the same file that is none of a standard stream: what is meant for one that was closed must not land in
/// the file.
fn apart_from_streams(file: File) -> io::Result<File> {
    if file.as_raw_fd() <= LAST_STREAM {
        let other = file.try_clone();
        drop(file);
        return other;
    }
    Ok(file)
}

/// Syncs the folder in which the file at that path is.
fn sync_folder(rt: &HostRuntime, path: &str) -> io::Result<()> {
    let mut folder = fs::canonicalize(rt, path)?;
    folder.pop();
    File::open(rt, folder.as_str())?.sync_all()
}
