//! The two tables are made.

ghost use Rattle.std.specs.Prelude.{◌≡◌, false, [], OnOk, OnErr};
ghost use Rattle.sqlite.specs.State.{HasCleanDisk, KeepsCommit, Survives};
ghost use Rattle.sqlite.specs.Held.{state};
ghost use Rattle.row_table.specs.Layout.{no_schema, layout_alone};
ghost use Rattle.row_table.specs.Contents.{IsNewStore};
ghost use Rattle.row_table.specs.Effects.{HasUndone};
ghost use Rattle.row_table.specs.Opening.{HasLayout, HasBoth, HasNothing, HasFirst, IsMade};

use crate::statements::add_version;
use sqlite::{Alter, Connection, Error, Transaction};

fn make_layout<S: Alter>(tx: &mut Transaction<'_, S>) -> Result<usize, Error>
    ensures same_reference { tx.new.conn.ghost_name ≡ tx.old.conn.ghost_name }
    ensures kept { HasCleanDisk (state S.Store tx.new.conn.now) → KeepsCommit (state S.Store tx.old.conn.now) (state S.Store tx.new.conn.now) }
    ensures made { HasCleanDisk (state S.Store tx.new.conn.now) → (state S.Store tx.old.conn.now).now.schema ≡ no_schema
        → OnOk result (HasLayout (state S.Store tx.old.conn.now) (state S.Store tx.new.conn.now)) }
    ensures survives { Survives (state S.Store tx.old.conn.now) (state S.Store tx.new.conn.now) (λ _. ⊥) }
{
    tx.execute("CREATE TABLE layout(version INTEGER NOT NULL) STRICT", &[])
}

fn make_rows<S: Alter>(tx: &mut Transaction<'_, S>) -> Result<usize, Error>
    ensures same_reference { tx.new.conn.ghost_name ≡ tx.old.conn.ghost_name }
    ensures kept { HasCleanDisk (state S.Store tx.new.conn.now) → KeepsCommit (state S.Store tx.old.conn.now) (state S.Store tx.new.conn.now) }
    ensures made { HasCleanDisk (state S.Store tx.new.conn.now) → (state S.Store tx.old.conn.now).now.schema ≡ layout_alone → (state S.Store tx.old.conn.now).now.trees 0 ≡ []
        → OnOk result (HasBoth (state S.Store tx.old.conn.now) (state S.Store tx.new.conn.now)) }
    ensures survives { Survives (state S.Store tx.old.conn.now) (state S.Store tx.new.conn.now) (λ _. ⊥) }
{
    tx.execute(
        "CREATE TABLE row_text(kind TEXT NOT NULL, name TEXT NOT NULL, body TEXT NOT NULL, PRIMARY KEY(kind, name)) STRICT",
        &[],
    )
}

/// Writes the version into a `layout` that has no row.
fn write_version<S: Alter>(tx: &mut Transaction<'_, S>, version: u32) -> Result<usize, Error>
    ensures same_reference { tx.new.conn.ghost_name ≡ tx.old.conn.ghost_name }
    ensures kept { HasCleanDisk (state S.Store tx.new.conn.now) → KeepsCommit (state S.Store tx.old.conn.now) (state S.Store tx.new.conn.now) }
    ensures made { HasCleanDisk (state S.Store tx.new.conn.now) → HasNothing (state S.Store tx.old.conn.now)
        → OnOk result (HasFirst version (state S.Store tx.old.conn.now) (state S.Store tx.new.conn.now)) }
    ensures survives { Survives (state S.Store tx.old.conn.now) (state S.Store tx.new.conn.now) (λ _. ⊥) }
{
    add_version(tx, version)
}

fn make_all<S: Alter>(tx: &mut Transaction<'_, S>, version: u32) -> Result<usize, Error>
    ensures same_reference { tx.new.conn.ghost_name ≡ tx.old.conn.ghost_name }
    ensures kept { HasCleanDisk (state S.Store tx.new.conn.now) → KeepsCommit (state S.Store tx.old.conn.now) (state S.Store tx.new.conn.now) }
    ensures made { HasCleanDisk (state S.Store tx.new.conn.now) → (state S.Store tx.old.conn.now).now.schema ≡ no_schema
        → OnOk result (HasFirst version (state S.Store tx.old.conn.now) (state S.Store tx.new.conn.now)) }
    ensures survives { Survives (state S.Store tx.old.conn.now) (state S.Store tx.new.conn.now) (λ _. ⊥) }
{
    make_layout(tx)?;
    make_rows(tx)?;
    write_version(tx, version)
}

/// Makes both tables in one transaction, with the version and no text.
pub(crate) fn make_tables<S: Alter>(conn: &mut Connection<S>, version: u32) -> Result<(), Error>
    requires { conn.old.in_transaction ≡ false }
    ensures mode { conn.new.in_transaction ≡ false }
    ensures made { HasCleanDisk (state S.Store conn.new) → (state S.Store conn.old).now.schema ≡ no_schema
        → OnOk result (IsMade version (state S.Store conn.old) (state S.Store conn.new)) }
    ensures none { HasCleanDisk (state S.Store conn.new) → (state S.Store conn.old).now.schema ≡ no_schema
        → OnErr result (HasUndone (state S.Store conn.old) (state S.Store conn.new)) }
    ensures crash { Survives (state S.Store conn.old) (state S.Store conn.new) (λ trees. (state S.Store conn.old).now.schema ≡ no_schema → IsNewStore version trees) }
{
    let mut tx = conn.transaction();
    make_all(&mut tx, version)?;
    tx.commit()
}
