//! The rows of an operator as a list.

ghost use Rattle.std.specs.Prelude.{◌≡◌, ◌++◌, map as list_map, IfOk, OnOk};
ghost use Rattle.std.specs.FinMap as map;
ghost use Rattle.tables.specs.Keys.{text_pair_cmp};
ghost use Rattle.tables.specs.Tables.{shown_of};
ghost use Rattle.operator_rows.specs.Listing.{AddsOthers, AddsSpent, serial_rows, service_row};
ghost use Rattle.operator_rows.specs.Rows.{AreRowsOf};

use crate::books::{Books, SpentTable};
use ocpi_text::Whole;
use ocpi_types::{Counter, Row};
use site_book::SiteBook;
use std::alloc::{AllocError, Global};

/// Adds the row of the counter of packets, where it has given a number.
fn push_serial(last: Whole, rows: &mut Vec<Row>) -> Result<(), AllocError>
    ensures { OnOk result (rows.new.items ≡ rows.old.items ++ serial_rows last) }
{
    if last.value() == 0 {
        return Ok(());
    }
    rows.push(Row::Count {
        counter: Counter::Serial,
        last,
    })?;
    Ok(())
}

/// Adds the references that are spent.
fn push_spent(spent: &SpentTable, rows: &mut Vec<Row>) -> Result<(), AllocError>
    ensures { OnOk result (AddsSpent (shown_of text_pair_cmp spent.now) rows.old.items rows.new.items) }
{
    for (key, _) in spent.iter() {
        rows.push(Row::Spent {
            provider: key.0,
            reference: key.1,
        })?;
    }
    Ok(())
}

/// Adds the EVSEs that are out of service.
fn push_service(site: &SiteBook, rows: &mut Vec<Row>) -> Result<(), AllocError>
    ensures { OnOk result (rows.new.items ≡ rows.old.items ++ list_map service_row (map.entries site.now.out_of_service)) }
{
    for (key, _) in site.out_of_service() {
        rows.push(Row::Service { evse_uid: *key })?;
    }
    Ok(())
}

impl Books {
    /// Adds the rows that are of none of the books.
    fn push_others(&self, rows: &mut Vec<Row>) -> Result<(), AllocError>
        ensures { OnOk result (AddsOthers self.now.state.rows rows.old.items rows.new.items) }
    {
        push_serial(self.serial, rows)?;
        push_spent(&self.spent, rows)?;
        push_service(&self.site, rows)?;
        Ok(())
    }

    /// The rows: exactly those that stand, each once. An error is want of memory.
    pub fn stored(&self, alloc: Global) -> Result<Vec<Row>, AllocError>
        ensures { IfOk result (λ rows. AreRowsOf rows.items self.now.state.rows) }
    {
        let mut rows = self.commands.rows(alloc)?;
        let mut booked = self.booked.rows(alloc)?;
        rows.append(&mut booked)?;
        self.push_others(&mut rows)?;
        let mut pushed = self.outbox.rows(alloc)?;
        rows.append(&mut pushed)?;
        let mut tokens = self.desk.rows(alloc)?;
        rows.append(&mut tokens)?;
        let mut charged = self.charged.rows(alloc)?;
        rows.append(&mut charged)?;
        Ok(rows)
    }
}
