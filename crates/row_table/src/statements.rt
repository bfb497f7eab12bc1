//! The statements that change what a store holds.

ghost use Rattle.std.specs.Prelude.{◌≡◌, true, [], false, IsErr, IsTrue, IfOk, OnErr, OnOk};
ghost use Rattle.std.specs.FinMap.{insert, remove};
ghost use Rattle.sqlite.specs.State.{HasCleanDisk, KeepsCommit, Survives};
ghost use Rattle.sqlite.specs.Held.{state};
ghost use Rattle.row_table.specs.Layout.{both_tables};
ghost use Rattle.row_table.specs.Texts.{texts_of};
ghost use Rattle.row_table.specs.Contents.{at_version, content_of, with_texts};
ghost use Rattle.row_table.specs.Effects.{HadTables, HasMade, HasNoVersion, HasNumbered, IsNotMade, IsReplaced};

use sqlite::{Alter, Error, ErrorCode, Row, Transaction, params};

/// Takes the text of the kind and the name away, if there is one.
pub(crate) fn clear<S: Alter>(
    tx: &mut Transaction<'_, S>,
    kind: &str,
    name: &str,
) -> Result<usize, Error>
    ensures same_reference { tx.new.conn.ghost_name ≡ tx.old.conn.ghost_name }
    ensures kept { HasCleanDisk (state S.Store tx.new.conn.now) → KeepsCommit (state S.Store tx.old.conn.now) (state S.Store tx.new.conn.now) }
    ensures made { HasCleanDisk (state S.Store tx.new.conn.now) → HadTables (state S.Store tx.old.conn.now)
        → OnOk result (HasMade (state S.Store tx.old.conn.now) (state S.Store tx.new.conn.now) (with_texts (content_of (state S.Store tx.old.conn.now).now.trees) (remove (texts_of (state S.Store tx.old.conn.now).now.trees) (kind.now, name.now)))) }
    ensures survives { Survives (state S.Store tx.old.conn.now) (state S.Store tx.new.conn.now) (λ _. ⊥) }
    ensures ended { (state S.Store tx.old.conn.now).in_transaction ≡ false → IsErr result }
{
    tx.execute(
        "DELETE FROM row_text WHERE kind = ?1 AND name = ?2",
        params![kind, name],
    )
}

/// Puts the text under a kind and a name that have none: where they have one, it is refused.
fn add<S: Alter>(
    tx: &mut Transaction<'_, S>,
    kind: &str,
    name: &str,
    text: &str,
) -> Result<usize, Error>
    ensures same_reference { tx.new.conn.ghost_name ≡ tx.old.conn.ghost_name }
    ensures kept { HasCleanDisk (state S.Store tx.new.conn.now) → KeepsCommit (state S.Store tx.old.conn.now) (state S.Store tx.new.conn.now) }
    ensures made { HasCleanDisk (state S.Store tx.new.conn.now) → HadTables (state S.Store tx.old.conn.now)
        → OnOk result (HasMade (state S.Store tx.old.conn.now) (state S.Store tx.new.conn.now) (with_texts (content_of (state S.Store tx.old.conn.now).now.trees) (insert (texts_of (state S.Store tx.old.conn.now).now.trees) (kind.now, name.now) text.now))) }
    ensures survives { Survives (state S.Store tx.old.conn.now) (state S.Store tx.new.conn.now) (λ _. ⊥) }
    ensures failed { HasCleanDisk (state S.Store tx.new.conn.now) → OnErr result (IsNotMade (state S.Store tx.old.conn.now) (state S.Store tx.new.conn.now)) }
{
    tx.execute(
        "INSERT INTO row_text(kind, name, body) VALUES (?1, ?2, ?3)",
        params![kind, name, text],
    )
}

/// Puts the text in place of that under the kind and the name, and answers how many it replaced.
fn replace<S: Alter>(
    tx: &mut Transaction<'_, S>,
    kind: &str,
    name: &str,
    text: &str,
) -> Result<usize, Error>
    ensures same_reference { tx.new.conn.ghost_name ≡ tx.old.conn.ghost_name }
    ensures kept { HasCleanDisk (state S.Store tx.new.conn.now) → KeepsCommit (state S.Store tx.old.conn.now) (state S.Store tx.new.conn.now) }
    ensures made { HasCleanDisk (state S.Store tx.new.conn.now) → HadTables (state S.Store tx.old.conn.now)
        → IfOk result (IsReplaced kind.now name.now text.now (state S.Store tx.old.conn.now) (state S.Store tx.new.conn.now)) }
    ensures survives { Survives (state S.Store tx.old.conn.now) (state S.Store tx.new.conn.now) (λ _. ⊥) }
    ensures ended { (state S.Store tx.old.conn.now).in_transaction ≡ false → IsErr result }
{
    tx.execute(
        "UPDATE row_text SET body = ?3 WHERE kind = ?1 AND name = ?2",
        params![kind, name, text],
    )
}

/// Puts the text under the kind and the name, in place of any other.
pub(crate) fn put<S: Alter>(
    tx: &mut Transaction<'_, S>,
    kind: &str,
    name: &str,
    text: &str,
) -> Result<usize, Error>
    ensures same_reference { tx.new.conn.ghost_name ≡ tx.old.conn.ghost_name }
    ensures kept { HasCleanDisk (state S.Store tx.new.conn.now) → KeepsCommit (state S.Store tx.old.conn.now) (state S.Store tx.new.conn.now) }
    ensures made { HasCleanDisk (state S.Store tx.new.conn.now) → HadTables (state S.Store tx.old.conn.now)
        → OnOk result (HasMade (state S.Store tx.old.conn.now) (state S.Store tx.new.conn.now) (with_texts (content_of (state S.Store tx.old.conn.now).now.trees) (insert (texts_of (state S.Store tx.old.conn.now).now.trees) (kind.now, name.now) text.now))) }
    ensures survives { Survives (state S.Store tx.old.conn.now) (state S.Store tx.new.conn.now) (λ _. ⊥) }
    ensures ended { (state S.Store tx.old.conn.now).in_transaction ≡ false → IsErr result }
{
    let count = replace(tx, kind, name, text)?;
    if count == 0 {
        return add(tx, kind, name, text);
    }
    if count == 1 {
        Ok(count)
    } else {
        Err(Error::SqliteFailure(ErrorCode::DatabaseCorrupt))
    }
}

/// The same for a kind and a name that most likely have no text: one statement where they have none, else two.
pub(crate) fn put_new<S: Alter>(
    tx: &mut Transaction<'_, S>,
    kind: &str,
    name: &str,
    text: &str,
) -> Result<usize, Error>
    ensures same_reference { tx.new.conn.ghost_name ≡ tx.old.conn.ghost_name }
    ensures kept { HasCleanDisk (state S.Store tx.new.conn.now) → KeepsCommit (state S.Store tx.old.conn.now) (state S.Store tx.new.conn.now) }
    ensures made { HasCleanDisk (state S.Store tx.new.conn.now) → HadTables (state S.Store tx.old.conn.now)
        → OnOk result (HasMade (state S.Store tx.old.conn.now) (state S.Store tx.new.conn.now) (with_texts (content_of (state S.Store tx.old.conn.now).now.trees) (insert (texts_of (state S.Store tx.old.conn.now).now.trees) (kind.now, name.now) text.now))) }
    ensures survives { Survives (state S.Store tx.old.conn.now) (state S.Store tx.new.conn.now) (λ _. ⊥) }
{
    match add(tx, kind, name, text) {
        Err(Error::SqliteFailure(ErrorCode::ConstraintViolation(_))) => put(tx, kind, name, text),
        Err(error) => Err(error),
        Ok(count) => Ok(count),
    }
}

/// Takes the version away.
fn clear_version<S: Alter>(tx: &mut Transaction<'_, S>) -> Result<usize, Error>
    ensures same_reference { tx.new.conn.ghost_name ≡ tx.old.conn.ghost_name }
    ensures kept { HasCleanDisk (state S.Store tx.new.conn.now) → KeepsCommit (state S.Store tx.old.conn.now) (state S.Store tx.new.conn.now) }
    ensures made { HasCleanDisk (state S.Store tx.new.conn.now) → HadTables (state S.Store tx.old.conn.now)
        → OnOk result (HasNoVersion (state S.Store tx.old.conn.now) (state S.Store tx.new.conn.now)) }
    ensures survives { Survives (state S.Store tx.old.conn.now) (state S.Store tx.new.conn.now) (λ _. ⊥) }
{
    tx.execute("DELETE FROM layout", &[])
}

/// Writes the version where none stands.
pub(crate) fn add_version<S: Alter>(
    tx: &mut Transaction<'_, S>,
    version: u32,
) -> Result<usize, Error>
    ensures same_reference { tx.new.conn.ghost_name ≡ tx.old.conn.ghost_name }
    ensures kept { HasCleanDisk (state S.Store tx.new.conn.now) → KeepsCommit (state S.Store tx.old.conn.now) (state S.Store tx.new.conn.now) }
    ensures made { HasCleanDisk (state S.Store tx.new.conn.now) → (state S.Store tx.old.conn.now).now.schema ≡ both_tables → (state S.Store tx.old.conn.now).now.trees 0 ≡ []
        → OnOk result (HasNumbered version (state S.Store tx.old.conn.now) (state S.Store tx.new.conn.now)) }
    ensures survives { Survives (state S.Store tx.old.conn.now) (state S.Store tx.new.conn.now) (λ _. ⊥) }
{
    tx.execute("INSERT INTO layout(version) VALUES (?1)", params![version])
}

/// Writes the version in place of the one that stands.
pub(crate) fn put_version<S: Alter>(
    tx: &mut Transaction<'_, S>,
    version: u32,
) -> Result<usize, Error>
    ensures same_reference { tx.new.conn.ghost_name ≡ tx.old.conn.ghost_name }
    ensures kept { HasCleanDisk (state S.Store tx.new.conn.now) → KeepsCommit (state S.Store tx.old.conn.now) (state S.Store tx.new.conn.now) }
    ensures made { HasCleanDisk (state S.Store tx.new.conn.now) → HadTables (state S.Store tx.old.conn.now)
        → OnOk result (HasMade (state S.Store tx.old.conn.now) (state S.Store tx.new.conn.now) (at_version version (texts_of (state S.Store tx.old.conn.now).now.trees))) }
    ensures survives { Survives (state S.Store tx.old.conn.now) (state S.Store tx.new.conn.now) (λ _. ⊥) }
{
    clear_version(tx)?;
    add_version(tx, version)
}
