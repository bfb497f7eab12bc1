//! The rows of a session book: those of its sessions, of its charge detail records, and of the counters of both.

ghost use Rattle.std.specs.Prelude.{◌≡◌, ◌++◌, [], OnOk, OnErr, IfOk, IsOk, map as list_map};
ghost use Rattle.std.specs.FinMap as map;
ghost use Rattle.session_book.specs.Stored.{
  HasRoomOf,
  KeepsRoom,
  KeepsOtherRoom,
  AreRowsOf,
  no_rows,
  cdr_row,
  count_rows,
  counted,
  put_row,
  drop_row,
  rooms_after_drop,
  rooms_with,
  session_row,
};

use crate::book::SessionBook;
use ocpi_text::Whole;
use ocpi_types::{Counter, Row, RowKey};
use std::alloc::{AllocError, Global};

/// Adds the row of a counter, if it has given a number.
fn push_count(counter: Counter, last: Whole, rows: &mut Vec<Row>) -> Result<(), AllocError>
    ensures list { OnOk result (rows.new.items ≡ rows.old.items ++ count_rows counter last) }
    ensures none { last ≡ 0 → IsOk result }
{
    if last.value() == 0 {
        return Ok(());
    }
    rows.push(Row::Count { counter, last })?;
    Ok(())
}

impl SessionBook {
    /// Sets a counter, if it is one of the book's.
    fn count(&mut self, counter: Counter, last: Whole)
        ensures rows { self.new.rows ≡ counted counter last self.old.rows }
        ensures rooms { self.new.rooms ≡ self.old.rooms }
    {
        match counter {
            Counter::Session => self.set_last_session(last),
            Counter::Cdr => self.set_last_cdr(last),
            Counter::Serial | Counter::Request | Counter::Reference => {}
        }
    }

    /// Takes the room that a row needs, which is none but for a session's and a charge detail record's. An error is
    /// want of memory, for a row that has no room, and leaves the book as it was. The rows are as they were in either
    /// case.
    pub fn reserve_row(&mut self, row: &Row) -> Result<(), AllocError>
        ensures rows { self.new.rows ≡ self.old.rows }
        ensures rooms { OnOk result (self.new.rooms ≡ rooms_with row.now self.old.rooms) }
        ensures room { OnOk result (HasRoomOf self.new.rooms row.now) }
        ensures keeps { KeepsRoom self.old.rooms self.new.rooms }
        ensures again { HasRoomOf self.old.rooms row.now → IsOk result }
        ensures err { OnErr result (self.new ≡ self.old) }
    {
        match row {
            Row::Session { session } => self.reserve_session(session.id.key()),
            Row::Cdr { cdr } => self.reserve_cdr(cdr),
            Row::Count { .. }
            | Row::Reply { .. }
            | Row::Token { .. }
            | Row::Push { .. }
            | Row::Service { .. }
            | Row::Spent { .. }
            | Row::Mark { .. }
            | Row::Reservation { .. }
            | Row::Pending { .. }
            | Row::Result { .. }
            | Row::Command { .. } => Ok(()),
        }
    }

    /// Puts a row, in the place of the one of its kind and id if there is one. One of a kind that the book does not
    /// have changes nothing. It takes no memory.
    pub fn put_row(&mut self, row: Row)
        requires { HasRoomOf self.old.rooms row }
        ensures rows { self.new.rows ≡ put_row row self.old.rows }
        ensures rooms { self.new.rooms ≡ self.old.rooms }
        ensures keeps { KeepsRoom self.old.rooms self.new.rooms }
    {
        match row {
            Row::Count { counter, last } => self.count(counter, last),
            Row::Session { session } => self.put_session(session),
            Row::Cdr { cdr } => self.put_cdr(cdr),
            Row::Reply { .. }
            | Row::Token { .. }
            | Row::Push { .. }
            | Row::Service { .. }
            | Row::Spent { .. }
            | Row::Mark { .. }
            | Row::Reservation { .. }
            | Row::Pending { .. }
            | Row::Result { .. }
            | Row::Command { .. } => {}
        }
    }

    /// Drops the row of a kind and key, if there is one, and gives its room back. It takes no memory.
    pub fn drop_row(&mut self, key: RowKey)
        ensures rows { self.new.rows ≡ drop_row key self.old.rows }
        ensures rooms { self.new.rooms ≡ rooms_after_drop key self.old.rows self.old.rooms }
        ensures keeps { KeepsOtherRoom key self.old.rooms self.new.rooms }
    {
        match key {
            RowKey::Count { counter } => self.count(counter, Whole::new(0).unwrap()),
            RowKey::Session { id, .. } => self.drop_session(id),
            RowKey::Cdr { id, .. } => self.drop_cdr(id),
            RowKey::Reply { .. }
            | RowKey::Token { .. }
            | RowKey::Push { .. }
            | RowKey::Service { .. }
            | RowKey::Spent { .. }
            | RowKey::Mark { .. }
            | RowKey::Reservation { .. }
            | RowKey::Pending { .. }
            | RowKey::Result { .. }
            | RowKey::Command { .. } => {}
        }
    }

    /// Adds the rows of the counters.
    fn push_counts(&self, rows: &mut Vec<Row>) -> Result<(), AllocError>
        ensures list { OnOk result (rows.new.items ≡ rows.old.items ++ (count_rows Counter.Session self.now.rows.last_session ++ count_rows Counter.Cdr self.now.rows.last_cdr)) }
        ensures none { self.now.rows ≡ no_rows → IsOk result }
    {
        push_count(Counter::Session, self.last_session(), rows)?;
        push_count(Counter::Cdr, self.last_cdr(), rows)
    }

    /// Adds the rows of the sessions.
    fn push_sessions(&self, rows: &mut Vec<Row>) -> Result<(), AllocError>
        ensures list { OnOk result (rows.new.items ≡ rows.old.items ++ list_map session_row (map.entries self.now.rows.sessions)) }
        ensures none { self.now.rows.sessions ≡ map.empty → IsOk result }
    {
        for (_, session) in self.sessions.iter() {
            let session = session.copy()?;
            rows.push(Row::Session { session })?;
        }
        Ok(())
    }

    /// Adds the rows of the charge detail records.
    fn push_cdrs(&self, rows: &mut Vec<Row>) -> Result<(), AllocError>
        ensures list { OnOk result (rows.new.items ≡ rows.old.items ++ list_map cdr_row (map.entries self.now.rows.cdrs)) }
        ensures none { self.now.rows.cdrs ≡ map.empty → IsOk result }
    {
        for (_, cdr) in self.records.iter() {
            let cdr = cdr.copy()?;
            rows.push(Row::Cdr { cdr })?;
        }
        Ok(())
    }

    /// All rows of the book, each once: those of the counters that have given a number, of the sessions and of the
    /// charge detail records, by their ids. An error is want of memory, and a book without rows takes none.
    pub fn rows(&self, alloc: Global) -> Result<Vec<Row>, AllocError>
        ensures list { IfOk result (λ rows. AreRowsOf self.now.rows rows.items) }
        ensures none { self.now.rows ≡ no_rows → IsOk result }
    {
        self.consistency();
        let mut rows = Vec::new(alloc);
        self.push_counts(&mut rows)?;
        self.push_sessions(&mut rows)?;
        self.push_cdrs(&mut rows)?;
        Ok(rows)
    }
}
