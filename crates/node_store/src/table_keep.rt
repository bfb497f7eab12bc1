//! A keeper in a SQLite database.

ghost use Rattle.std.specs.Prelude.{
  ◌≡◌,
  ◌≢◌,
  ◌≤◌,
  ◌⊎◌,
  All,
  List,
  ℕ,
  [],
  length,
  IfErr,
  IfOk,
  OnErr,
  OnOk,
  IsSome,
  None,
  Some,
};
ghost use Rattle.node_store.specs.Contents.{AnswersNumber, Content, IsReadAgain, changed_all, line_of, line_place, marked, number_kept, rows_after, rows_of};
ghost use Rattle.node_store.specs.Faults.{IsListFault, IsCommitFault, counted, counted_fault, fault_for};
ghost use Rattle.node_store.specs.Numbers.{others};
ghost use Rattle.node_store.specs.declared.fault.StoreFault.TheVariants.{BadRow, OldLayout};
ghost use Rattle.node_store.specs.Layout.{KeepsLayout};
ghost use Rattle.row_table.specs.Kept.{IsClean, MayLeave, texts};
ghost use Rattle.std.specs.FinMap.{find};
ghost use Rattle.tables.specs.Keys.{text_pair_cmp};

use crate::editing::edits_of;
use crate::fault::{Cause, StoreFault};
use crate::keep::{Keep, Kept};
use crate::line_number::{LineNumber, first_number, is_line_place, number_of_text};
use crate::stored::row_of;
use ocpi_json::Scratch;
use ocpi_text::Whole;
use ocpi_types::{Change, Row};
use row_table::{Past, TextRow, TextTable};
use sqlite::{Alter, Error, ErrorCode};
use std::alloc::Global;
use std::marker::Model;

/// A keeper in a SQLite database, of a file or of memory.
pub struct TableKeep<S: Alter> {
    alloc: Global,
    pub(crate) table: TextTable<S>,
    refused: Past<()>,
}

impl<S: Alter + Drop> Drop for TableKeep<S> {
    fn drop(self) {
        let TableKeep {
            alloc: _,
            table: _,
            refused: _,
        } = self;
    }
}

impl<S: Alter> TableKeep<S> {
    /// The table, as the last call left it.
    pub(crate) fn into_table(self) -> TextTable<S>
        ensures { result ≡ self.0 }
    {
        let TableKeep {
            alloc: _,
            table,
            refused: _,
        } = self;
        table
    }
}

impl<S: Alter> Model for TableKeep<S> {
    ghost use Rattle.std.specs.Prelude.{ℕ, length};
    ghost use Rattle.std.specs.Coded.{coded×, coded_ℕ};
    ghost use Rattle.row_table.specs.Kept.{Kept, kept_code};
    ghost use Rattle.node_store.specs.Layout.{KeepsLayout};

    ghost Value = { Kept S × ℕ };

    ghost coded = { coded× (kept_code S.code) coded_ℕ };

    ghost view = { λ k. (k.table, length k.refused.items) };

    ghost invariant = { λ k. KeepsLayout S.Store k.table };
}

/// What is told of an error of the database.
pub(crate) fn fault_of(error: Error) -> StoreFault
    ensures value { result ≡ fault_for error }
    ensures fault { IsCommitFault result }
{
    let Error::SqliteFailure(code) = error else {
        return StoreFault::Refused(Cause::Other);
    };
    match code {
        ErrorCode::OutOfMemory => StoreFault::Memory,
        ErrorCode::CannotOpen => StoreFault::Refused(Cause::CannotOpen),
        ErrorCode::DatabaseBusy => StoreFault::Refused(Cause::DatabaseBusy),
        ErrorCode::NotADatabase | ErrorCode::DatabaseCorrupt => {
            StoreFault::Refused(Cause::NotADatabase)
        }
        ErrorCode::DiskFull => StoreFault::Refused(Cause::StorageFull),
        ErrorCode::SystemIoFailure | ErrorCode::Closed => StoreFault::Refused(Cause::Disk),
        ErrorCode::TooBig => StoreFault::Refused(Cause::Size),
        _ => StoreFault::Refused(Cause::Other),
    }
}

/// The rows of texts with their kinds and names, but that at the place of the number. Each text is let go once it is
/// read.
fn rows_of(alloc: Global, texts: Vec<TextRow>) -> Result<Vec<Row>, StoreFault>
    ensures rows { IfOk result (λ v. rows_after [] (others texts.items) ≡ Some v.items) }
    ensures bad { IfErr result (λ e. e ≡ BadRow → rows_after [] (others texts.items) ≡ None) }
    ensures fault { IfErr result IsListFault }
{
    let mut scratch = Scratch::new(alloc);
    let mut rows = Vec::new(alloc);
    for text in texts {
        if is_line_place(text.kind(), text.name()) {
            continue;
        }
        let row = row_of(
            alloc,
            &mut scratch,
            text.kind(),
            text.name(),
            text.text().as_bytes(),
        )?;
        rows.push(row)?;
    }
    Ok(rows)
}

/// The number of the last line that took hold, of texts with their kinds and names.
fn line_of(alloc: Global, texts: &[TextRow]) -> Result<Whole, StoreFault>
    ensures { AnswersNumber result (number_kept (find text_pair_cmp line_place texts.now)) }
{
    for text in texts {
        if is_line_place(text.kind(), text.name()) {
            return number_of_text(alloc, &mut Scratch::new(alloc), text.text().as_bytes());
        }
    }
    Ok(first_number())
}

/// What is kept in texts with their kinds and names.
#[tactic(auto, using(crate::proofs::Numbered::kept_least))]
fn kept_in(alloc: Global, texts: Vec<TextRow>) -> Result<Kept, StoreFault>
    ensures rows { IfOk result (λ k. rows_after [] (others texts.items) ≡ Some k.rows.items) }
    ensures first { IfOk result (λ k. 1 ≤ k.line) }
    ensures line { IfOk result (λ k. number_kept (find text_pair_cmp line_place texts.items) ≡ Some k.line) }
    ensures bad { IfErr result (λ e. e ≡ BadRow → (rows_after [] (others texts.items) ≡ None) ⊎ (number_kept (find text_pair_cmp line_place texts.items) ≡ None)) }
    ensures fault { IfErr result IsListFault }
{
    let line = line_of(alloc, texts.as_slice())?;
    let rows = rows_of(alloc, texts)?;
    Ok(Kept { rows, line })
}

fn load<S: Alter>(alloc: Global, table: &mut TextTable<S>) -> Result<Kept, StoreFault>
    ensures rows { IsClean S.Store table.new → IfOk result (λ k. rows_of (texts S.Store table.old) ≡ Some k.rows.items) }
    ensures first { IfOk result (λ k. 1 ≤ k.line) }
    ensures line { IsClean S.Store table.new → IfOk result (λ k. line_of (texts S.Store table.old) ≡ Some k.line) }
    ensures bad { IsClean S.Store table.new → IfErr result (λ e. e ≡ BadRow → (rows_of (texts S.Store table.old) ≡ None) ⊎ (line_of (texts S.Store table.old) ≡ None)) }
    ensures fault { IfErr result (λ e. e ≢ OldLayout) }
    ensures kept { texts S.Store table.new ≡ texts S.Store table.old }
    ensures layout { KeepsLayout S.Store table.old → KeepsLayout S.Store table.new }
    ensures honest { IsClean S.Store table.new → IsClean S.Store table.old }
    ensures stops { IsClean S.Store table.new → (c : Content) → MayLeave S.Store table.new c → MayLeave S.Store table.old c }
{
    match table.rows() {
        Ok(texts) => kept_in(alloc, texts),
        Err(error) => Err(fault_of(error)),
    }
}

fn change<S: Alter>(
    alloc: Global,
    table: &mut TextTable<S>,
    changes: &[Change],
    line: Option<LineNumber>,
) -> Result<(), StoreFault>
    ensures all { IsClean S.Store table.new → OnOk result (texts S.Store table.new ≡ marked line (changed_all (texts S.Store table.old) changes.now)) }
    ensures none { IsClean S.Store table.new → OnErr result (texts S.Store table.new ≡ texts S.Store table.old) }
    ensures fault { IfErr result IsCommitFault }
    ensures again { OnOk result (All IsReadAgain changes.now) }
    ensures layout { KeepsLayout S.Store table.old → KeepsLayout S.Store table.new }
    ensures honest { IsClean S.Store table.new → IsClean S.Store table.old }
    ensures settled { IsClean S.Store table.new → OnOk result (changes.now ≢ [] → (c : Content) → MayLeave S.Store table.new c → c ≡ texts S.Store table.new) }
    ensures numbered { IsClean S.Store table.new → OnOk result (line ≢ None → (c : Content) → MayLeave S.Store table.new c → c ≡ texts S.Store table.new) }
    ensures stops { IsClean S.Store table.new → (c : Content) → MayLeave S.Store table.new c
        → MayLeave S.Store table.old c ⊎ ((c ≡ marked line (changed_all (texts S.Store table.old) changes.now)) × All IsReadAgain changes.now) }
{
    let edits = edits_of(alloc, changes, line)?;
    match table.change(edits.as_slice()) {
        Ok(()) => Ok(()),
        Err(error) => Err(fault_of(error)),
    }
}

impl<S: Alter> TableKeep<S> {
    /// A keeper that has refused nothing.
    pub(crate) fn over(alloc: Global, table: TextTable<S>) -> TableKeep<S>
        requires { KeepsLayout S.Store table }
        ensures { (result.0 ≡ table) × (result.1 ≡ 0) }
    {
        TableKeep {
            alloc,
            table,
            refused: Past::new(),
        }
    }

    /// Whatever a stop leaves is a whole store with the version that an opening takes.
    pub fn leaves_whole(&self)
        ensures { KeepsLayout S.Store self.now.0 }
    {
        let _table = &self.table;
    }

    /// Counts a refusal, and answers the fault as it is.
    fn tell(&mut self, fault: StoreFault) -> StoreFault
        ensures same { (result ≡ fault) × (self.new.0 ≡ self.old.0) }
        ensures counted { self.new.1 ≡ counted_fault fault self.old.1 }
    {
        if matches!(fault, StoreFault::Refused(_)) {
            self.refused = self.refused.note(&());
        }
        fault
    }
}

impl<S: Alter> Keep for TableKeep<S> {
    ghost use Rattle.row_table.specs.Kept.{IsClean, MayLeave, texts};

    ghost content = { λ k. texts S.Store k.0 };

    ghost is_honest = { λ k. IsClean S.Store k.0 };

    ghost refusals = { λ k. k.1 };

    ghost may_leave = { λ k c. MayLeave S.Store k.0 c };

    fn load(&mut self) -> Result<Kept, StoreFault> {
        match load(self.alloc, &mut self.table) {
            Ok(kept) => Ok(kept),
            Err(fault) => Err(self.tell(fault)),
        }
    }

    fn commit(&mut self, changes: &[Change], line: Option<LineNumber>) -> Result<(), StoreFault> {
        match change(self.alloc, &mut self.table, changes, line) {
            Ok(()) => Ok(()),
            Err(fault) => Err(self.tell(fault)),
        }
    }
}
