//! A table of texts, with the version of its layout.

ghost use Rattle.std.specs.Prelude.{◌≡◌, ◌≢◌, ◌⊎◌, [], IfOk, OnOk, OnErr};
ghost use Rattle.std.specs.FinMap.{entries};
ghost use Rattle.sqlite.specs.Held.{state};
ghost use Rattle.sqlite.specs.Tree.{Trees};
ghost use Rattle.row_table.specs.Contents.{at_version, content_of, with_texts};
ghost use Rattle.row_table.specs.Effects.{set_all};
ghost use Rattle.row_table.specs.Kept.{IsClean, Leaves, LeavesWhole, content, texts};
ghost use Rattle.row_table.specs.Opening.{ShowsTheSame};

use crate::edits::{TextEdit, commit_all, commit_to};
use crate::opening::{OpenFault, open_tables};
use crate::past::Past;
use crate::reading::{TextRow, load};
use sqlite::{Alter, Connection, Error, ErrorCode};
use std::alloc::Global;
use std::marker::Model;

/// A text under each kind and name, in a store.
pub struct TextTable<S: Alter> {
    conn: Connection<S>,
    last: Past<Connection<S>>,
    alloc: Global,
}

impl<S: Alter + Drop> Drop for TextTable<S> {
    fn drop(self) {
        let TextTable {
            conn: _,
            last: _,
            alloc: _,
        } = self;
    }
}

impl<S: Alter> TextTable<S> {
    /// The connection, as the last call left it.
    pub fn into_connection(self) -> Connection<S>
        ensures { result ≡ self.conn }
    {
        let TextTable {
            conn,
            last: _,
            alloc: _,
        } = self;
        conn
    }
}

impl<S: Alter> Model for TextTable<S> {
    ghost use Rattle.std.specs.Prelude.{◌≡◌, [], ◌∷◌, slice_index_or};
    ghost use Rattle.row_table.specs.Kept.{Kept, kept_code, IsAtRest};

    ghost Value = { Kept S };

    ghost coded = { kept_code S.code };

    ghost view = { λ t. record { conn = t.conn; last = slice_index_or t.last.items 0 t.conn } };

    ghost invariant = { λ t. (t.last.items ≡ slice_index_or t.last.items 0 t.conn ∷ []) × IsAtRest S.Store (record { conn = t.conn; last = slice_index_or t.last.items 0 t.conn }) };
}

impl<S: Alter> TextTable<S> {
    /// The texts with their kinds and names, ordered by kind and name.
    pub fn rows(&mut self) -> Result<Vec<TextRow>, Error>
        ensures rows { IsClean S.Store self.new → IfOk result (λ v. entries (texts S.Store self.old) ≡ v.items) }
        ensures kept { content S.Store self.new ≡ content S.Store self.old }
        ensures honest { IsClean S.Store self.new → IsClean S.Store self.old }
        ensures stops { IsClean S.Store self.new → (trees : Trees) → Leaves S.Store self.new trees → Leaves S.Store self.old trees }
        ensures shown { IsClean S.Store self.new → ShowsTheSame (state S.Store self.old.conn) (state S.Store self.new.conn) }
    {
        load(self.alloc, &mut self.conn)
    }

    /// Makes the edits in turn, all of them or none. The version stays.
    pub fn change(&mut self, edits: &[TextEdit]) -> Result<(), Error>
        ensures all { IsClean S.Store self.new → OnOk result (content S.Store self.new ≡ with_texts (content S.Store self.old) (set_all (texts S.Store self.old) edits.now)) }
        ensures none { IsClean S.Store self.new → OnErr result (content S.Store self.new ≡ content S.Store self.old) }
        ensures honest { IsClean S.Store self.new → IsClean S.Store self.old }
        // After changes were made, a stop leaves just what is kept.
        ensures settled { IsClean S.Store self.new → OnOk result (edits.now ≢ [] → (trees : Trees) → Leaves S.Store self.new trees → content_of trees ≡ content S.Store self.new) }
        // A stop at any other time leaves what it could leave before, or what the edits make of what is kept.
        ensures stops { IsClean S.Store self.new → (trees : Trees) → Leaves S.Store self.new trees
            → Leaves S.Store self.old trees ⊎ (content_of trees ≡ with_texts (content S.Store self.old) (set_all (texts S.Store self.old) edits.now)) }
        // Whatever a stop leaves is a whole store: the two tables and no other, with one version.
        ensures whole { IsClean S.Store self.new → LeavesWhole S.Store self.new }
    {
        if edits.is_empty() {
            self.leaves_whole();
            return Ok(());
        }
        commit_all(&mut self.conn, edits)?;
        self.last = Past::new().note(&self.conn);
        Ok(())
    }

    /// Writes the version and makes the edits in turn, all of it or nothing.
    pub fn change_to(&mut self, version: u32, edits: &[TextEdit]) -> Result<(), Error>
        ensures all { IsClean S.Store self.new → OnOk result (content S.Store self.new ≡ at_version version (set_all (texts S.Store self.old) edits.now)) }
        ensures none { IsClean S.Store self.new → OnErr result (content S.Store self.new ≡ content S.Store self.old) }
        ensures honest { IsClean S.Store self.new → IsClean S.Store self.old }
        // After that a stop leaves just what is kept.
        ensures settled { IsClean S.Store self.new → OnOk result ((trees : Trees) → Leaves S.Store self.new trees → content_of trees ≡ content S.Store self.new) }
        // A stop at any other time leaves what it could leave before, or the new version with what the edits make.
        ensures stops { IsClean S.Store self.new → (trees : Trees) → Leaves S.Store self.new trees
            → Leaves S.Store self.old trees ⊎ (content_of trees ≡ at_version version (set_all (texts S.Store self.old) edits.now)) }
        ensures shown { IsClean S.Store self.new → OnErr result (ShowsTheSame (state S.Store self.old.conn) (state S.Store self.new.conn)) }
        // Whatever a stop leaves is a whole store: the two tables and no other, with one version.
        ensures whole { IsClean S.Store self.new → LeavesWhole S.Store self.new }
    {
        commit_to(&mut self.conn, version, edits)?;
        self.last = Past::new().note(&self.conn);
        Ok(())
    }
}

impl<S: Alter> TextTable<S> {
    /// What the type keeps of a stop between two calls.
    fn leaves_whole(&self)
        ensures { IsClean S.Store self.now → LeavesWhole S.Store self.now }
    {
        let _conn = &self.conn;
    }
}

impl<S: Alter> TextTable<S> {
    ghost use Rattle.std.specs.Prelude.{IfErr};
    ghost use Rattle.sqlite.specs.State.{HasCleanDisk};
    ghost use Rattle.row_table.specs.Layout.{no_schema};
    ghost use Rattle.row_table.specs.Opening.{Finds, IsOldLayout, IsSpared, IsUntouched};

    /// Takes over a connection to a store of one of these versions, and answers which it has. A store with nothing gets
    /// both tables and the first version, in one transaction. `OldLayout` where it has something else, or another
    /// version. A refusal hands the connection back.
    pub fn adopt(
        alloc: Global,
        mut conn: Connection<S>,
        version: u32,
        older: u32,
    ) -> Result<(TextTable<S>, u32), (OpenFault, Connection<S>)>
        ensures finds { IfOk result (λ t. IsClean S.Store t.0 → Finds version t.1 (state S.Store conn).now (content S.Store t.0)) }
        ensures either { IfOk result (λ t. (t.1 ≡ version) ⊎ (t.1 ≡ older)) }
        ensures honest { IfOk result (λ t. IsClean S.Store t.0 → HasCleanDisk (state S.Store conn)) }
        ensures stops { IfOk result (λ t. IsClean S.Store t.0 → (trees : Trees) → Leaves S.Store t.0 trees → content_of trees ≡ content S.Store t.0) }
        ensures whole { IfOk result (λ t. IsClean S.Store t.0 → LeavesWhole S.Store t.0) }
        // A store that had something is as it was.
        ensures untouched { IfOk result (λ t. IsClean S.Store t.0 → (state S.Store conn).now.schema ≢ no_schema → IsUntouched (state S.Store conn) (state S.Store t.0.conn)) }
        ensures unharmed { IfErr result (λ e. HasCleanDisk (state S.Store e.1) → HasCleanDisk (state S.Store conn)) }
        // The store is as it was, or a whole new one where there was none, and a stop leaves one of these.
        ensures spared { IfErr result (λ e. HasCleanDisk (state S.Store e.1) → IsSpared version (state S.Store conn) (state S.Store e.1)) }
        ensures old { IfErr result (λ e. HasCleanDisk (state S.Store e.1) → e.0 ≡ OpenFault.OldLayout → IsOldLayout version older (state S.Store conn).now) }
    {
        if !conn.is_autocommit() {
            return Err((
                OpenFault::Refused(Error::SqliteFailure(ErrorCode::TransactionState)),
                conn,
            ));
        }
        match open_tables(alloc, &mut conn, version, older) {
            Ok((last, found)) => Ok((TextTable { conn, last, alloc }, found)),
            Err(fault) => Err((fault, conn)),
        }
    }
}
