//! A store is opened.

ghost use Rattle.std.specs.Prelude.{
  ◌≡◌,
  ◌≢◌,
  ◌⊎◌,
  false,
  [],
  ◌∷◌,
  slice_index_or,
  IsTrue,
  IfOk,
  IfErr,
  IfSome,
  None,
  OnOk,
  OnErr,
};
ghost use Rattle.sqlite.specs.State.{HasCleanDisk, Survives};
ghost use Rattle.sqlite.specs.Held.{state};
ghost use Rattle.row_table.specs.Layout.{both_tables, no_schema};
ghost use Rattle.row_table.specs.Texts.{AreTexts};
ghost use Rattle.row_table.specs.Contents.{HasVersion, IsOfOthers};
ghost use Rattle.row_table.specs.Effects.{HasUndone};
ghost use Rattle.row_table.specs.Opening.{HoldsAsOpened, IsOfVersion, IsOldLayout, IsSpared};
ghost use Rattle.row_table.specs.Checking.{HasOurNames};

use crate::checking::{are_whole, number_in};
use crate::layout::{has_our_names, is_empty, is_ours};
use crate::making::make_tables;
use crate::past::Past;
use crate::reading::query_alone;
use sqlite::{Alter, Connection, Error, ErrorCode};
use sqlite_schema::schema::Schema;
use std::alloc::Global;

/// Why a store is not opened.
#[derive(Clone, Copy, Debug, PartialEq, Eq)]
pub enum OpenFault {
    /// It was laid out for other rows.
    OldLayout,
    /// The store refused.
    Refused(Error),
}

impl From<Error> for OpenFault {
    ghost use Rattle.row_table.specs.declared.opening.OpenFault.TheVariants.{Refused};

    ghost from_gives = { λ e f. f ≡ Refused e };

    fn from(e: Error) -> OpenFault {
        OpenFault::Refused(e)
    }
}

/// Which of the two versions stands in `layout`, where that has just one row.
fn version_of<S: Alter>(
    conn: &mut Connection<S>,
    version: u32,
    older: u32,
) -> Result<Option<u32>, Error>
    requires { conn.old.in_transaction ≡ false }
    ensures mode { conn.new.in_transaction ≡ false }
    ensures one { HasCleanDisk (state S.Store conn.new) → (state S.Store conn.old).now.schema ≡ both_tables → IfOk result
        (λ o. IfSome o (λ found. HasVersion found (state S.Store conn.old).now.trees)) }
    ensures either { IfOk result (λ o. IfSome o (λ found. (found ≡ version) ⊎ (found ≡ older))) }
    ensures none { HasCleanDisk (state S.Store conn.new) → (state S.Store conn.old).now.schema ≡ both_tables → IfOk result
        (λ o. o ≡ None → IsOfOthers version older (state S.Store conn.old).now.trees) }
    ensures was_open { HasCleanDisk (state S.Store conn.new) → OnOk result (IsTrue (state S.Store conn.old).is_open) }
    ensures same { HasCleanDisk (state S.Store conn.new) → HasUndone (state S.Store conn.old) (state S.Store conn.new) }
    ensures crash { Survives (state S.Store conn.old) (state S.Store conn.new) (λ _. ⊥) }
{
    let rows = query_alone(conn, "SELECT rowid, version FROM layout")?;
    number_in(rows.as_slice(), version, older)
}

/// Whether each row of `row_text` has a rowid of its own and three texts.
fn are_rows_whole<S: Alter>(conn: &mut Connection<S>) -> Result<bool, Error>
    requires { conn.old.in_transaction ≡ false }
    ensures mode { conn.new.in_transaction ≡ false }
    ensures whole { HasCleanDisk (state S.Store conn.new) → (state S.Store conn.old).now.schema ≡ both_tables → IfOk result
        (λ b. IsTrue b → AreTexts ((state S.Store conn.old).now.trees 1)) }
    ensures was_open { HasCleanDisk (state S.Store conn.new) → OnOk result (IsTrue (state S.Store conn.old).is_open) }
    ensures same { HasCleanDisk (state S.Store conn.new) → HasUndone (state S.Store conn.old) (state S.Store conn.new) }
    ensures crash { Survives (state S.Store conn.old) (state S.Store conn.new) (λ _. ⊥) }
{
    let rows = query_alone(
        conn,
        "SELECT rowid, kind, name, body FROM row_text ORDER BY rowid",
    )?;
    are_whole(rows.as_slice())
}

/// Whether a schema that has something is that of the two tables.
fn check_schema(alloc: Global, schema: &Schema) -> Result<(), OpenFault>
    ensures ours { OnOk result (schema.now ≡ both_tables) }
    ensures other { IfErr result (λ e. e ≡ OpenFault.OldLayout → ¬ HasOurNames schema.now) }
{
    if !has_our_names(schema) {
        return Err(OpenFault::OldLayout);
    }
    match is_ours(alloc, schema) {
        Ok(true) => Ok(()),
        Ok(false) => Err(OpenFault::Refused(Error::SqliteFailure(ErrorCode::NotADatabase))),
        Err(_) => Err(OpenFault::Refused(Error::SqliteFailure(ErrorCode::OutOfMemory))),
    }
}

/// Which of the two versions a store that has something has, beside the two tables.
fn check_tables<S: Alter>(
    alloc: Global,
    conn: &mut Connection<S>,
    version: u32,
    older: u32,
) -> Result<u32, OpenFault>
    requires { conn.old.in_transaction ≡ false }
    ensures mode { conn.new.in_transaction ≡ false }
    ensures one { HasCleanDisk (state S.Store conn.new) → IfOk result (λ found. IsOfVersion found (state S.Store conn.old)) }
    ensures either { IfOk result (λ found. (found ≡ version) ⊎ (found ≡ older)) }
    ensures other { HasCleanDisk (state S.Store conn.new) → IfErr result
        (λ e. e ≡ OpenFault.OldLayout → (¬ HasOurNames (state S.Store conn.old).now.schema) ⊎ IsOfOthers version older (state S.Store conn.old).now.trees) }
    ensures same { HasCleanDisk (state S.Store conn.new) → HasUndone (state S.Store conn.old) (state S.Store conn.new) }
    ensures crash { Survives (state S.Store conn.old) (state S.Store conn.new) (λ _. ⊥) }
{
    let _settled = conn.is_autocommit();
    check_schema(alloc, conn.schema())?;
    let Some(found) = version_of(conn, version, older)? else {
        return Err(OpenFault::OldLayout);
    };
    if !are_rows_whole(conn)? {
        return Err(OpenFault::Refused(Error::SqliteFailure(ErrorCode::DatabaseCorrupt)));
    }
    Ok(found)
}

/// Makes the tables, and notes the connection then.
fn start<S: Alter>(conn: &mut Connection<S>, version: u32) -> Result<Past<Connection<S>>, OpenFault>
    requires idle { conn.old.in_transaction ≡ false }
    requires nothing { (state S.Store conn.old).now.schema ≡ no_schema }
    requires settled { IsTrue (state S.Store conn.old).is_open → (state S.Store conn.old).now ≡ (state S.Store conn.old).committed }
    ensures mode { conn.new.in_transaction ≡ false }
    ensures once { IfOk result (λ p. p.items ≡ slice_index_or p.items 0 conn.new ∷ []) }
    ensures opened { HasCleanDisk (state S.Store conn.new) → IfOk result (λ p. HoldsAsOpened S.Store version version conn.old conn.new (slice_index_or p.items 0 conn.new)) }
    ensures honest { HasCleanDisk (state S.Store conn.new) → HasCleanDisk (state S.Store conn.old) }
    ensures spared { HasCleanDisk (state S.Store conn.new) → IfErr result (λ e. IsSpared version (state S.Store conn.old) (state S.Store conn.new)) }
    ensures fault { IfErr result (λ e. e ≢ OpenFault.OldLayout) }
{
    make_tables(conn, version)?;
    Ok(Past::new().note(conn))
}

/// Opens the store that the connection is over, and notes the connection once it has the texts and one of the two
/// versions, which is answered beside it. A new store gets the first.
pub(crate) fn open_tables<S: Alter>(
    alloc: Global,
    conn: &mut Connection<S>,
    version: u32,
    older: u32,
) -> Result<(Past<Connection<S>>, u32), OpenFault>
    requires { conn.old.in_transaction ≡ false }
    ensures mode { conn.new.in_transaction ≡ false }
    ensures once { IfOk result (λ p. p.0.items ≡ slice_index_or p.0.items 0 conn.new ∷ []) }
    ensures opened { HasCleanDisk (state S.Store conn.new) → IfOk result (λ p. HoldsAsOpened S.Store version p.1 conn.old conn.new (slice_index_or p.0.items 0 conn.new)) }
    ensures either { IfOk result (λ p. (p.1 ≡ version) ⊎ (p.1 ≡ older)) }
    ensures honest { HasCleanDisk (state S.Store conn.new) → HasCleanDisk (state S.Store conn.old) }
    ensures spared { HasCleanDisk (state S.Store conn.new) → IfErr result (λ e. IsSpared version (state S.Store conn.old) (state S.Store conn.new)) }
    ensures old { HasCleanDisk (state S.Store conn.new) → IfErr result (λ e. e ≡ OpenFault.OldLayout → IsOldLayout version older (state S.Store conn.old).now) }
{
    let _settled = conn.is_autocommit();
    if is_empty(conn.schema()) {
        let last = start(conn, version)?;
        return Ok((last, version));
    }
    let last = Past::new().note(conn);
    match check_tables(alloc, conn, version, older) {
        Ok(found) => Ok((last, found)),
        Err(fault) => Err(fault),
    }
}
