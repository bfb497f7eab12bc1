//! The rows of a provider as a list.

ghost use Rattle.std.specs.Prelude.{◌≡◌, ◌++◌, IfOk, OnOk};
ghost use Rattle.provider_rows.specs.Listing.{serial_rows};
ghost use Rattle.provider_rows.specs.Rows.{AreRowsOf};

use crate::books::Books;
use ocpi_text::Whole;
use ocpi_types::{Counter, Row};
use std::alloc::{AllocError, Global};

/// Adds the row of the counter of packets, where it has given a number.
fn push_serial(last: Whole, rows: &mut Vec<Row>) -> Result<(), AllocError>
    ensures { OnOk result (rows.new.items ≡ rows.old.items ++ serial_rows last) }
{
    if last.value() == 0 {
        return Ok(());
    }
    rows.push(Row::Count {
        counter: Counter::Serial,
        last,
    })?;
    Ok(())
}

/// Adds more rows.
fn push_rows(rows: &mut Vec<Row>, mut more: Vec<Row>) -> Result<(), AllocError>
    ensures { OnOk result (rows.new.items ≡ rows.old.items ++ more.items) }
{
    rows.append(&mut more)?;
    Ok(())
}

impl Books {
    /// The rows: exactly those that stand, each once. An error is want of memory.
    pub fn stored(&self, alloc: Global) -> Result<Vec<Row>, AllocError>
        ensures { IfOk result (λ rows. AreRowsOf rows.items self.now.state.rows) }
    {
        let mut rows = self.answered.rows(alloc)?;
        push_serial(self.serial, &mut rows)?;
        push_rows(&mut rows, self.desk.rows(alloc)?)?;
        push_rows(&mut rows, self.outbox.rows(alloc)?)?;
        push_rows(&mut rows, self.inbox.rows(alloc)?)?;
        Ok(rows)
    }
}
