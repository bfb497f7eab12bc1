//! Queues: tables of moments and keys, in which what is due first stands first.

ghost use Rattle.std.specs.Prelude.{◌≡◌, ◌++◌, ◌≤◌, IsOk, OnOk};
ghost use Rattle.std.specs.FinMap as map;
ghost use Rattle.std.specs.Ordering.{nat_cmp};
ghost use Rattle.tables.specs.Keys.{pair_cmp};
ghost use Rattle.tables.specs.Queues.{due_front};
ghost use Rattle.tables.specs.Tables.{shown_of, HasNone};

use crate::key::TableKey;
use crate::table::Table;
use ocpi_text::Moment;
use std::alloc::AllocError;

impl<K: TableKey> Table<(Moment, K), ()> {
    /// Adds the keys whose moments are at or before a moment to a list, in the order of their moments and then of the
    /// keys. It costs what it adds. An error is want of memory, and none is taken where no moment is due.
    pub fn push_due(&self, at: Moment, due: &mut Vec<K>) -> Result<(), AllocError>
        ensures list { OnOk result (due.new.items ≡ due.old.items ++ due_front at (map.entries (shown_of (pair_cmp nat_cmp K.cmp) self.now))) }
        ensures none { HasNone (pair_cmp nat_cmp K.cmp) (shown_of (pair_cmp nat_cmp K.cmp) self.now) (λ q. q.0 ≤ at) → IsOk result }
    {
        for (key, _) in self.iter() {
            if key.0 > at {
                return Ok(());
            }
            due.push(key.1)?;
        }
        Ok(())
    }
}
