//! What a file keeps, read without a change to it.

use crate::system_files::{find_readable, log_beside};
use node_store::{Kept, StoreFault, kept_in};

/// What the store in the file at a path keeps, in layout 1 too. The file and its log stay as they are. No other program
/// may have it open.
pub fn kept_in_copy(rt: &HostRuntime, path: &str) -> Result<Kept, StoreFault> {
    let file = find_readable(rt, path)?;
    let log = match log_beside(rt, path) {
        Ok(log) => log,
        Err(fault) => {
            drop(file);
            return Err(fault);
        }
    };
    let kept = kept_in(rt.alloc(), file.as_slice(), log.as_slice());
    drop(file);
    drop(log);
    kept
}
