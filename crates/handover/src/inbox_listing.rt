//! The rows of an inbox as a list, and a copy of an inbox.

ghost use Rattle.std.specs.Prelude.{◌≡◌, ◌≢◌, ◌++◌, IfOk, IsOk, OnErr, OnOk, IsTrue, false};
ghost use Rattle.tables.specs.Keys.{text_pair_cmp};
ghost use Rattle.tables.specs.Tables.{shown_of};
ghost use Rattle.handover.specs.Inbox.{HasRoomOf, KeepsRoom, no_rows, put_row};
ghost use Rattle.handover.specs.InboxListing.{AreOwnRows, AreRowsOf, RowsAreAll, put_rows, rows_of, session_rows};

use crate::inbox::Inbox;
use ocpi_text::{CiKey, PartyKey};
use ocpi_types::{Boxed, Row, Session};
use std::alloc::{AllocError, Global};
use tables::Table;

fn push_sessions(
    sessions: &Table<(PartyKey, CiKey<36>), Boxed<Session>>,
    rows: &mut Vec<Row>,
) -> Result<(), AllocError>
    ensures { OnOk result (rows.new.items ≡ rows.old.items ++ session_rows (shown_of text_pair_cmp sessions.now)) }
{
    for (_, session) in sessions.iter() {
        let session = session.copy()?;
        rows.push(Row::Session { session })?;
    }
    Ok(())
}

impl Inbox {
    /// What holds of every inbox, since its type keeps it: each row stands under its own key. The method does nothing.
    pub fn consistency(&self)
        ensures { AreOwnRows self.now.rows }
    {
        let _sessions = &self.sessions;
        self.cdrs.consistency();
    }

    /// Two inboxes with the same rows are equal in all that is stored. The contract is a law, and the method does
    /// nothing.
    pub fn same_rows(&self, other: &Inbox)
        ensures { RowsAreAll self.now.rows other.now.rows }
    {
        self.consistency();
        other.consistency();
    }

    /// The rows kind by kind, each in the order of its keys.
    fn push_rows(&self, rows: &mut Vec<Row>) -> Result<(), AllocError>
        ensures { OnOk result (rows.new.items ≡ rows.old.items ++ rows_of self.now.rows) }
    {
        push_sessions(&self.sessions, rows)?;
        self.cdrs.push_rows(rows)?;
        Ok(())
    }

    /// Whether nothing is held.
    pub fn is_empty(&self) -> bool
        ensures yes { IsTrue result → self.now.rows ≡ no_rows }
        ensures no { result ≡ false → self.now.rows ≢ no_rows }
    {
        match self.sessions.first() {
            Some(_first) => false,
            None => self.cdrs.is_empty(),
        }
    }

    /// The rows that stand, as a list.
    fn list_rows(&self, alloc: Global) -> Result<Vec<Row>, AllocError>
        ensures { IfOk result (λ rows. AreRowsOf rows.items self.now.rows) }
    {
        self.consistency();
        let mut rows = Vec::new(alloc);
        self.push_rows(&mut rows)?;
        Ok(rows)
    }

    /// The rows: exactly those that stand, each once. An error is want of memory, which an empty inbox does not need.
    pub fn rows(&self, alloc: Global) -> Result<Vec<Row>, AllocError>
        ensures ok { IfOk result (λ rows. AreRowsOf rows.items self.now.rows) }
        ensures err { OnErr result (self.now.rows ≢ no_rows) }
    {
        if self.is_empty() {
            return Ok(Vec::new(alloc));
        }
        self.list_rows(alloc)
    }

    /// Adds a row that was read from a store, as `put_row`. An error is want of memory, for a row that has no room, and
    /// leaves the rows as they were.
    pub fn add_row(&mut self, row: Row) -> Result<(), AllocError>
        ensures ok { OnOk result (self.new.rows ≡ put_row row self.old.rows) }
        ensures err { OnErr result (self.new.rows ≡ self.old.rows) }
        ensures keeps { KeepsRoom self.old.rooms self.new.rooms }
        ensures again { HasRoomOf self.old.rooms row → IsOk result }
    {
        self.reserve_row(&row)?;
        self.put_row(row);
        Ok(())
    }

    /// Adds rows one after the other.
    fn add_rows(&mut self, rows: Vec<Row>) -> Result<(), AllocError>
        ensures { OnOk result (self.new.rows ≡ put_rows rows.items self.old.rows) }
    {
        for row in rows {
            self.add_row(row)?;
        }
        Ok(())
    }

    /// An inbox with the same rows. An error is want of memory, which an empty inbox does not need.
    pub fn copy(&self, alloc: Global) -> Result<Inbox, AllocError>
        ensures ok { IfOk result (λ b. b.rows ≡ self.now.rows) }
        ensures err { OnErr result (self.now.rows ≢ no_rows) }
    {
        if self.is_empty() {
            return Ok(Inbox::new(alloc));
        }
        self.copy_rows(alloc)
    }

    /// An inbox to which the rows were added one after the other.
    fn copy_rows(&self, alloc: Global) -> Result<Inbox, AllocError>
        ensures { IfOk result (λ b. b.rows ≡ self.now.rows) }
    {
        self.consistency();
        let mut rows = Vec::new(alloc);
        self.push_rows(&mut rows)?;
        let mut copy = Inbox::new(alloc);
        copy.add_rows(rows)?;
        Ok(copy)
    }
}
