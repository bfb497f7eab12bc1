//! A file that can be synced.

ghost use Rattle.std.specs.Prelude.{◌≡◌, ℕ, List, Option, OnOk};
ghost use Rattle.std.specs.Io.KnownBytes.{Keeps};

use std::fs::File;
use std::io::{self, Write};

/// What is written, and lasts once it was synced.
pub trait SyncedWrite: Write {
    /// The bytes that are left whatever stops, where they are known.
    ghost synced: { Self → Option (List ℕ) };

    /// Has all last that was written.
    fn sync(&mut self) -> io::Result<()>
        ensures bytes { Keeps (Self.contents self.old) (Self.contents self.new) }
        ensures synced { OnOk result (synced self.new ≡ Self.contents self.new) };
}

impl SyncedWrite for File {
    ghost use Rattle.std.specs.Prelude.{None};

    ghost synced = { λ f. None };

    fn sync(&mut self) -> io::Result<()> {
        self.sync_data()
    }
}
