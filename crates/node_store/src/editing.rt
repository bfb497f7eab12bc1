//! Changes of rows, and the number of their line, as edits of texts.

ghost use Rattle.std.specs.Prelude.{◌≡◌, ◌++◌, All, IfOk, IfSome, IsTrue, Some, map, string_bytes};
ghost use Rattle.ocpi_json.specs.RowKeys.{key_text, kind_of_key, row_kind_word};
ghost use Rattle.ocpi_json.specs.RowForms.{row_text};
ghost use Rattle.row_table.specs.Effects.{set_all};
ghost use Rattle.node_store.specs.Contents.{Content, IsReadAgain, changed_all, marked};
ghost use Rattle.node_store.specs.Editing.{counter_put, edit_of, is_put, is_put_later, puts, written};
ghost use Rattle.node_store.specs.Numbers.{line_edits};

use crate::line_number::{LineNumber, add_number};
use ocpi_json::{RowKind, write_key, write_row};
use ocpi_types::{Change, Counter, Row, RowKey, Word};
use row_table::TextEdit;
use row_texts::is_read_again;
use std::alloc::{AllocError, Global};

fn kind_of(alloc: Global, key: &RowKey) -> Result<String, AllocError>
    ensures { IfOk result (λ s. string_bytes s ≡ row_kind_word (kind_of_key key.now)) }
{
    String::from_str(alloc, RowKind::of_key(key).word())
}

/// Whether a row of this kind is put once, most likely: those that are put again and again are counters and sessions.
fn is_put_once(row: &Row) -> bool {
    !matches!(row, Row::Count { .. } | Row::Session { .. })
}

/// The edit that puts a text.
fn put_text(row: &Row, kind: String, name: String, text: String) -> TextEdit
    ensures { result ≡ ((string_bytes kind, string_bytes name), Some (string_bytes text)) }
{
    if is_put_once(row) {
        TextEdit::likely_new(kind, name, text)
    } else {
        TextEdit::new(kind, name, Some(text))
    }
}

/// The edit that a change is.
fn edit_of(alloc: Global, change: &Change) -> Result<TextEdit, AllocError>
    ensures edit { IfOk result (λ e. e ≡ edit_of change.now) }
    ensures again { IfOk result (λ e. IsReadAgain change.now) }
{
    match change {
        Change::Put(row) => {
            let key = row.key();
            let kind = kind_of(alloc, &key)?;
            let name = write_key(alloc, &key)?;
            let text = write_row(alloc, row)?;
            Ok(put_text(row, kind, name, text))
        }
        Change::Drop(key) => {
            let kind = kind_of(alloc, key)?;
            let name = write_key(alloc, key)?;
            Ok(TextEdit::new(kind, name, None))
        }
    }
}

/// The counter that a change puts.
fn counter_put(change: &Change) -> Option<Counter>
    ensures counter { result ≡ counter_put change.now }
    ensures again { IfSome result (λ c. IsReadAgain change.now) }
{
    let Change::Put(row) = change else {
        return None;
    };
    match row {
        Row::Count { counter, .. } => {
            is_read_again(row);
            Some(*counter)
        }
        _ => None,
    }
}

/// Whether a change puts a counter.
fn is_put(counter: Counter, change: &Change) -> bool
    ensures { result ≡ is_put counter change.now }
{
    match counter_put(change) {
        Some(other) => counter.name() == other.name(),
        None => false,
    }
}

/// Whether one of the changes puts a counter.
#[tactic(auto, using(crate::proofs::Written::put_here, crate::proofs::Written::put_further, crate::proofs::Written::never_put))]
fn puts(counter: Counter, changes: &[Change]) -> bool
    ensures { result ≡ puts counter changes.now }
{
    for change in changes {
        if is_put(counter, change) {
            return true;
        }
    }
    false
}

/// Whether a change puts a counter that a later one puts again.
fn is_put_later(change: &Change, later: &[Change]) -> bool
    ensures later { result ≡ is_put_later change.now later.now }
    ensures again { IsTrue result → IsReadAgain change.now }
{
    match counter_put(change) {
        Some(counter) => puts(counter, later),
        None => false,
    }
}

/// The edits that changes are, in turn. Of several of one counter it has the last alone, since nothing is seen of those
/// before it.
fn change_edits(alloc: Global, changes: &[Change]) -> Result<Vec<TextEdit>, AllocError>
    ensures edits { IfOk result (λ v. v.items ≡ map edit_of (written changes.now)) }
    ensures again { IfOk result (λ v. All IsReadAgain changes.now) }
{
    let mut edits = Vec::new(alloc);
    for i in 0..changes.len() {
        let change = &changes[i];
        if is_put_later(change, &changes[i + 1..]) {
            continue;
        }
        let next = edit_of(alloc, change)?;
        edits.push(next)?;
    }
    Ok(edits)
}

/// The edits that changes are, in turn, and behind them that of the number of their line, where there is one. They make
/// of a content what all changes make of it.
#[tactic(auto, using(crate::proofs::Edited::edits_make))]
pub(crate) fn edits_of(
    alloc: Global,
    changes: &[Change],
    line: Option<LineNumber>,
) -> Result<Vec<TextEdit>, AllocError>
    ensures edits { IfOk result (λ v. v.items ≡ map edit_of (written changes.now) ++ line_edits line) }
    ensures made { IfOk result (λ v. (c : Content) → set_all c v.items ≡ marked line (changed_all c changes.now)) }
    ensures again { IfOk result (λ v. All IsReadAgain changes.now) }
{
    let mut edits = change_edits(alloc, changes)?;
    add_number(alloc, line, &mut edits)?;
    Ok(edits)
}
