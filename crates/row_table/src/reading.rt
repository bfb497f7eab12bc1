//! The rows of `row_text`, read in order.

ghost use Rattle.std.specs.Prelude.{◌≡◌, ◌↔◌, ◌∷◌, ◌++◌, false, [], T, IsTrue, IfOk, OnOk, map};
ghost use Rattle.std.specs.FinMap.{entries, is_sorted};
ghost use Rattle.std.specs.declared.cmp.Ordering.TheVariants.{Less};
ghost use Rattle.sqlite.specs.State.{HasCleanDisk, Survives};
ghost use Rattle.sqlite.specs.Held.{state};
ghost use Rattle.tables.specs.Keys.{text_pair_cmp};
ghost use Rattle.row_table.specs.Texts.{texts_of};
ghost use Rattle.row_table.specs.Effects.{HadTables, HasUndone};
ghost use Rattle.row_table.specs.Reading.{IsAnswered, entry_shown};

use sqlite::{Alter, Connection, Error, ErrorCode, Row};
use std::alloc::Global;
use std::cmp::Ordering;
use std::marker::Model;

/// A kind, a name and the text under them.
#[derive(Drop)]
pub struct TextRow {
    kind: String,
    name: String,
    text: String,
}

impl Model for TextRow {
    ghost use Rattle.std.specs.Prelude.{List, ℕ, string_bytes};
    ghost use Rattle.std.specs.Coded.{coded×, coded_list, coded_ℕ};
    ghost use Rattle.row_table.specs.Texts.{Place};

    ghost Value = { Place × List ℕ };

    ghost coded = { coded× (coded× (coded_list coded_ℕ) (coded_list coded_ℕ)) (coded_list coded_ℕ) };

    ghost view = { λ r. ((string_bytes r.kind, string_bytes r.name), string_bytes r.text) };
}

impl TextRow {
    fn read(row: &Row) -> Result<TextRow, Error>
        ensures { IfOk result (λ t. t ≡ entry_shown row.now) }
    {
        let kind = row.get(0)?;
        let name = row.get(1)?;
        let text = row.get(2)?;
        Ok(TextRow { kind, name, text })
    }

    /// The kind of the row: the first half of the key by which its text stands.
    pub fn kind(&self) -> &str
        ensures { result.now ≡ self.now.0.0 }
    {
        self.kind.as_str()
    }

    /// The name of the row among those of its kind: the second half of that key.
    pub fn name(&self) -> &str
        ensures { result.now ≡ self.now.0.1 }
    {
        self.name.as_str()
    }

    /// The text that stands under kind and name.
    pub fn text(&self) -> &str
        ensures { result.now ≡ self.now.1 }
    {
        self.text.as_str()
    }

    fn is_before(&self, other: &TextRow) -> bool
        ensures { IsTrue result ↔ (text_pair_cmp self.now.0 other.now.0 ≡ Less) }
    {
        match self.kind().cmp(other.kind()) {
            Ordering::Less => true,
            Ordering::Equal => self.name().cmp(other.name()) == Ordering::Less,
            Ordering::Greater => false,
        }
    }
}

/// Runs a query by itself, and changes nothing.
pub(crate) fn query_alone<S: Alter>(conn: &mut Connection<S>, sql: &str) -> Result<Vec<Row>, Error>
    requires { conn.old.in_transaction ≡ false }
    ensures mode { conn.new.in_transaction ≡ false }
    ensures answer { HasCleanDisk (state S.Store conn.new) → IfOk result (λ v. IsAnswered S.Store conn.old sql.now v.items) }
    ensures same { HasCleanDisk (state S.Store conn.new) → HasUndone (state S.Store conn.old) (state S.Store conn.new) }
    ensures crash { Survives (state S.Store conn.old) (state S.Store conn.new) (λ _. ⊥) }
{
    let mut tx = conn.transaction();
    tx.query_all(sql, &[])
}

/// Whether the next one is behind all of these, which are in order.
fn follows(all: &[TextRow], next: &TextRow) -> bool
    ensures { IsTrue result → T (is_sorted text_pair_cmp all.now) → T (is_sorted text_pair_cmp (all.now ++ next.now ∷ [])) }
{
    match all.last() {
        Some(last) => last.is_before(next),
        None => true,
    }
}

/// Reads rows of kind, name and text, which have to be in order. Each row is let go once it is read.
fn read_all(alloc: Global, rows: Vec<Row>) -> Result<Vec<TextRow>, Error>
    ensures read { IfOk result (λ v. v.items ≡ map entry_shown rows.items) }
    ensures sorted { IfOk result (λ v. T (is_sorted text_pair_cmp v.items)) }
{
    let mut all = Vec::new(alloc);
    for row in rows {
        let next = TextRow::read(&row)?;
        if !follows(all.as_slice(), &next) {
            return Err(Error::SqliteFailure(ErrorCode::DatabaseCorrupt));
        }
        all.push(next)?;
    }
    Ok(all)
}

/// The rows, ordered by kind and name.
pub(crate) fn load<S: Alter>(alloc: Global, conn: &mut Connection<S>) -> Result<Vec<TextRow>, Error>
    requires { conn.old.in_transaction ≡ false }
    ensures mode { conn.new.in_transaction ≡ false }
    ensures rows { HasCleanDisk (state S.Store conn.new) → HadTables (state S.Store conn.old) → IfOk result (λ v. entries (texts_of (state S.Store conn.old).now.trees) ≡ v.items) }
    ensures was_open { HasCleanDisk (state S.Store conn.new) → OnOk result (IsTrue (state S.Store conn.old).is_open) }
    ensures same { HasCleanDisk (state S.Store conn.new) → HasUndone (state S.Store conn.old) (state S.Store conn.new) }
    ensures crash { Survives (state S.Store conn.old) (state S.Store conn.new) (λ _. ⊥) }
{
    let rows = query_alone(
        conn,
        "SELECT kind, name, body FROM row_text ORDER BY kind, name",
    )?;
    read_all(alloc, rows)
}
