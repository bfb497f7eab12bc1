//! Texts that are to be put in their places, or taken away.

ghost use Rattle.std.specs.Prelude.{◌≡◌, ◌≢◌, true, IsTrue, OnOk, OnErr, false, [], Some, string_bytes, option_map};
ghost use Rattle.sqlite.specs.State.{HasCleanDisk, KeepsCommit, Survives};
ghost use Rattle.sqlite.specs.Held.{state};
ghost use Rattle.row_table.specs.Texts.{texts_of};
ghost use Rattle.row_table.specs.Contents.{at_version, content_of, with_texts};
ghost use Rattle.row_table.specs.Effects.{
  HadTables,
  HasMade,
  HasCommitted,
  HasUndone,
  MayCommit,
  set,
  set_all,
};

use crate::statements::{clear, put, put_new, put_version};
use sqlite::{Alter, Connection, Error, Transaction};
use std::marker::Model;

/// The text that is to stand under a kind and a name, or that none is to stand there.
#[derive(Drop)]
pub struct TextEdit {
    kind: String,
    name: String,
    text: Option<String>,
    /// Whether most likely nothing stands there. It says how the text is put, and changes nothing of what stands then.
    is_likely_new: bool,
}

impl Model for TextEdit {
    ghost use Rattle.std.specs.Prelude.{string_bytes, option_map};
    ghost use Rattle.std.specs.Coded.{coded×, coded_list, coded_option, coded_ℕ};
    ghost use Rattle.row_table.specs.Effects.{Edit};

    ghost Value = { Edit };

    ghost coded = { coded× (coded× (coded_list coded_ℕ) (coded_list coded_ℕ)) (coded_option (coded_list coded_ℕ)) };

    ghost view = { λ e. ((string_bytes e.kind, string_bytes e.name), option_map string_bytes e.text) };
}

impl TextEdit {
    /// The text that is to stand under the kind and the name, or that none is to stand there.
    pub fn new(kind: String, name: String, text: Option<String>) -> TextEdit
        ensures { result ≡ ((string_bytes kind, string_bytes name), option_map string_bytes text) }
    {
        TextEdit {
            kind,
            name,
            text,
            is_likely_new: false,
        }
    }

    /// The text that is to stand under a kind and a name that most likely have none.
    pub fn likely_new(kind: String, name: String, text: String) -> TextEdit
        ensures { result ≡ ((string_bytes kind, string_bytes name), Some (string_bytes text)) }
    {
        TextEdit {
            kind,
            name,
            text: Some(text),
            is_likely_new: true,
        }
    }

    fn make<S: Alter>(&self, tx: &mut Transaction<'_, S>) -> Result<usize, Error>
        ensures same_reference { tx.new.conn.ghost_name ≡ tx.old.conn.ghost_name }
        ensures kept { HasCleanDisk (state S.Store tx.new.conn.now) → KeepsCommit (state S.Store tx.old.conn.now) (state S.Store tx.new.conn.now) }
        ensures made { HasCleanDisk (state S.Store tx.new.conn.now) → HadTables (state S.Store tx.old.conn.now)
            → OnOk result (HasMade (state S.Store tx.old.conn.now) (state S.Store tx.new.conn.now) (with_texts (content_of (state S.Store tx.old.conn.now).now.trees) (set (texts_of (state S.Store tx.old.conn.now).now.trees) self.now))) }
        ensures survives { Survives (state S.Store tx.old.conn.now) (state S.Store tx.new.conn.now) (λ _. ⊥) }
    {
        match &self.text {
            Some(text) if self.is_likely_new => {
                put_new(tx, self.kind.as_str(), self.name.as_str(), text.as_str())
            }
            Some(text) => put(tx, self.kind.as_str(), self.name.as_str(), text.as_str()),
            None => clear(tx, self.kind.as_str(), self.name.as_str()),
        }
    }
}

/// Makes them in turn, up to the first that fails.
pub(crate) fn make_all<S: Alter>(
    tx: &mut Transaction<'_, S>,
    edits: &[TextEdit],
) -> Result<(), Error>
    ensures same_reference { tx.new.conn.ghost_name ≡ tx.old.conn.ghost_name }
    ensures kept { HasCleanDisk (state S.Store tx.new.conn.now) → KeepsCommit (state S.Store tx.old.conn.now) (state S.Store tx.new.conn.now) }
    ensures made { HasCleanDisk (state S.Store tx.new.conn.now) → HadTables (state S.Store tx.old.conn.now) → edits.now ≢ []
        → OnOk result (HasMade (state S.Store tx.old.conn.now) (state S.Store tx.new.conn.now) (with_texts (content_of (state S.Store tx.old.conn.now).now.trees) (set_all (texts_of (state S.Store tx.old.conn.now).now.trees) edits.now))) }
    ensures idle { edits.now ≡ [] → tx.new.conn.now ≡ tx.old.conn.now }
    ensures survives { Survives (state S.Store tx.old.conn.now) (state S.Store tx.new.conn.now) (λ _. ⊥) }
{
    for edit in edits {
        edit.make(tx)?;
    }
    Ok(())
}

/// Makes the edits in one transaction, all of them or none.
pub(crate) fn commit_all<S: Alter>(
    conn: &mut Connection<S>,
    edits: &[TextEdit],
) -> Result<(), Error>
    requires { conn.old.in_transaction ≡ false }
    ensures mode { conn.new.in_transaction ≡ false }
    ensures all { HasCleanDisk (state S.Store conn.new) → HadTables (state S.Store conn.old) → edits.now ≢ []
        → OnOk result (HasCommitted (state S.Store conn.old) (state S.Store conn.new) (with_texts (content_of (state S.Store conn.old).now.trees) (set_all (texts_of (state S.Store conn.old).now.trees) edits.now))) }
    ensures none { HasCleanDisk (state S.Store conn.new) → HadTables (state S.Store conn.old) → edits.now ≢ []
        → OnErr result (HasUndone (state S.Store conn.old) (state S.Store conn.new)) }
    ensures crash { Survives (state S.Store conn.old) (state S.Store conn.new)
        (λ trees. HadTables (state S.Store conn.old) → edits.now ≢ [] → MayCommit (state S.Store conn.old) (with_texts (content_of (state S.Store conn.old).now.trees) (set_all (texts_of (state S.Store conn.old).now.trees) edits.now)) trees) }
{
    let mut tx = conn.transaction();
    make_all(&mut tx, edits)?;
    tx.commit()
}

/// Writes the version, and makes the edits in turn, up to the first that fails.
fn make_to<S: Alter>(
    tx: &mut Transaction<'_, S>,
    version: u32,
    edits: &[TextEdit],
) -> Result<(), Error>
    ensures same_reference { tx.new.conn.ghost_name ≡ tx.old.conn.ghost_name }
    ensures kept { HasCleanDisk (state S.Store tx.new.conn.now) → KeepsCommit (state S.Store tx.old.conn.now) (state S.Store tx.new.conn.now) }
    ensures made { HasCleanDisk (state S.Store tx.new.conn.now) → HadTables (state S.Store tx.old.conn.now)
        → OnOk result (HasMade (state S.Store tx.old.conn.now) (state S.Store tx.new.conn.now) (at_version version (set_all (texts_of (state S.Store tx.old.conn.now).now.trees) edits.now))) }
    ensures survives { Survives (state S.Store tx.old.conn.now) (state S.Store tx.new.conn.now) (λ _. ⊥) }
{
    put_version(tx, version)?;
    make_all(tx, edits)
}

/// Writes the version and makes the edits in one transaction, all of it or nothing.
pub(crate) fn commit_to<S: Alter>(
    conn: &mut Connection<S>,
    version: u32,
    edits: &[TextEdit],
) -> Result<(), Error>
    requires { conn.old.in_transaction ≡ false }
    ensures mode { conn.new.in_transaction ≡ false }
    ensures all { HasCleanDisk (state S.Store conn.new) → HadTables (state S.Store conn.old)
        → OnOk result (HasCommitted (state S.Store conn.old) (state S.Store conn.new) (at_version version (set_all (texts_of (state S.Store conn.old).now.trees) edits.now))) }
    ensures none { HasCleanDisk (state S.Store conn.new) → HadTables (state S.Store conn.old) → OnErr result (HasUndone (state S.Store conn.old) (state S.Store conn.new)) }
    ensures crash { Survives (state S.Store conn.old) (state S.Store conn.new)
        (λ trees. HadTables (state S.Store conn.old) → MayCommit (state S.Store conn.old) (at_version version (set_all (texts_of (state S.Store conn.old).now.trees) edits.now)) trees) }
{
    let mut tx = conn.transaction();
    make_to(&mut tx, version, edits)?;
    tx.commit()
}
