//! The rows of a command book as a list, and a copy of a command book.

ghost use Rattle.std.specs.Prelude.{◌≡◌, ◌++◌, List, IfOk, IsOk, OnErr, OnOk};
ghost use Rattle.std.specs.FinMap.{empty};
ghost use Rattle.ocpi_types.specs.declared.rows.Row.{Row as RowOf};
ghost use Rattle.tables.specs.Keys.{text_number_cmp};
ghost use Rattle.tables.specs.Tables.{shown_of};
ghost use Rattle.command_book.specs.Stored.{no_rows};
ghost use Rattle.command_book.specs.Listing.{AddsRows, AreKindByKind, AreRowsOf, put_rows, reply_row, pending_row, result_row};

use crate::book::{CommandBook, Request};
use ocpi_types::{Boxed, CommandResultType, OpenCommand, Reply, Row};
use std::alloc::{AllocError, Global};
use tables::{HashSeed, Lookup, Table};

fn push_replies(replies: &Lookup<Request, Reply>, rows: &mut Vec<Row>) -> Result<(), AllocError>
    ensures list { OnOk result (AddsRows reply_row (shown_of text_number_cmp replies.now) rows.old.items rows.new.items) }
    ensures none { shown_of text_number_cmp replies.now ≡ empty → IsOk result }
{
    for (request, reply) in replies.iter() {
        rows.push(Row::Reply {
            sender: request.0,
            number: request.1,
            reply: reply.copy()?,
        })?;
    }
    Ok(())
}

fn push_pending(
    pending: &Table<Request, Boxed<OpenCommand>>,
    rows: &mut Vec<Row>,
) -> Result<(), AllocError>
    ensures list { OnOk result (AddsRows pending_row (shown_of text_number_cmp pending.now) rows.old.items rows.new.items) }
    ensures none { shown_of text_number_cmp pending.now ≡ empty → IsOk result }
{
    for (request, open) in pending.iter() {
        let open = open.copy()?;
        rows.push(Row::Pending {
            provider: request.0,
            number: request.1,
            open,
        })?;
    }
    Ok(())
}

fn push_results(
    results: &Lookup<Request, CommandResultType>,
    rows: &mut Vec<Row>,
) -> Result<(), AllocError>
    ensures list { OnOk result (AddsRows result_row (shown_of text_number_cmp results.now) rows.old.items rows.new.items) }
    ensures none { shown_of text_number_cmp results.now ≡ empty → IsOk result }
{
    for (request, outcome) in results.iter() {
        rows.push(Row::Result {
            provider: request.0,
            number: request.1,
            result: *outcome,
        })?;
    }
    Ok(())
}

impl CommandBook {
    /// Adds the rows kind by kind.
    fn push_rows(&self, rows: &mut Vec<Row>) -> Result<(), AllocError>
        ensures list { OnOk result ((list : List RowOf) × AreKindByKind list self.now.rows × (rows.new.items ≡ rows.old.items ++ list)) }
        ensures none { self.now.rows ≡ no_rows → IsOk result }
    {
        push_replies(&self.replies, rows)?;
        push_pending(&self.pending, rows)?;
        push_results(&self.results, rows)?;
        Ok(())
    }

    /// The rows: exactly those that stand, each once. An error is want of memory, and an empty book takes none.
    pub fn rows(&self, alloc: Global) -> Result<Vec<Row>, AllocError>
        ensures list { IfOk result (λ rows. AreRowsOf rows.items self.now.rows) }
        ensures none { self.now.rows ≡ no_rows → IsOk result }
    {
        let mut rows = Vec::new(alloc);
        self.push_rows(&mut rows)?;
        Ok(rows)
    }

    /// Adds rows one after the other. An error is want of memory.
    fn add_rows(&mut self, rows: Vec<Row>) -> Result<(), AllocError>
        ensures { OnOk result (self.new.rows ≡ put_rows rows.items self.old.rows) }
    {
        for row in rows {
            self.add_row(row)?;
        }
        Ok(())
    }

    /// A command book with the same rows, whose hashes begin with the seed. An error is want of memory.
    pub fn copy(&self, alloc: Global, seed: HashSeed) -> Result<CommandBook, AllocError>
        ensures { IfOk result (λ b. b.rows ≡ self.now.rows) }
    {
        let rows = self.rows(alloc)?;
        let mut copy = CommandBook::new(alloc, seed);
        copy.add_rows(rows)?;
        Ok(copy)
    }
}
