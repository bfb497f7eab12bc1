//! A store of layout 1 is moved to layout 2.

ghost use Rattle.std.specs.Prelude.{◌≡◌, ◌≢◌, ◌⊎◌, ◌++◌, true, false, All, IfErr, IfOk, OnErr, OnOk, Ok, flat_map};
ghost use Rattle.sqlite.specs.Held.{state};
ghost use Rattle.sqlite.specs.Tree.{Trees};
ghost use Rattle.ocpi_json.specs.RowForms.{row_in, row_in_1, row_text};
ghost use Rattle.ocpi_json.specs.RowKeys.{key_text, kind_of_key, row_kind_word};
ghost use Rattle.ocpi_types.specs.Rows.{key_of};
ghost use Rattle.row_table.specs.Contents.{IsWhole, content_of};
ghost use Rattle.row_table.specs.Kept.{IsClean, Leaves, LeavesWhole, content, texts};
ghost use Rattle.row_table.specs.Opening.{ShowsTheSame};
ghost use Rattle.node_store.specs.Contents.{is_row};
ghost use Rattle.node_store.specs.Faults.{IsListFault};
ghost use Rattle.node_store.specs.Moved.{HasBadText, IsMovedTo, is_cdr};
ghost use Rattle.node_store.specs.Moving.{HasBadEntry, IsBadEntry, IsMovable, MayMove, edits_of_read, text_edits};

use crate::fault::StoreFault;
use crate::line_number::is_line_place;
use crate::stored::row_of_1;
use crate::table_keep::fault_of;
use ocpi_json::{Scratch, write_row};
use ocpi_types::Row;
use row_table::{TextEdit, TextRow, TextTable};
use sqlite::Alter;
use std::alloc::{AllocError, Global};

/// The layout of the tables: the version that stands in them.
pub(crate) const LAYOUT: u32 = 2;

/// The layout before it. Its charge detail records do not always say whether they are credits.
pub(crate) const OLDER: u32 = 1;

fn is_cdr(row: &Row) -> bool
    ensures { result ≡ is_cdr row.now }
{
    matches!(row, Row::Cdr { .. })
}

/// Adds the edit that writes a charge detail record anew, where the row is one.
fn add_edit(
    alloc: Global,
    old: &TextRow,
    row: &Row,
    edits: &mut Vec<TextEdit>,
) -> Result<(), AllocError>
    ensures edits { OnOk result (edits.new.items ≡ edits.old.items ++ edits_of_read old.now.0 (Ok row.now)) }
    ensures again { OnOk result (is_cdr row.now ≡ true → row_in (row_kind_word (kind_of_key (key_of row.now))) (key_text (key_of row.now)) (row_text row.now) ≡ Ok row.now) }
{
    if !is_cdr(row) {
        return Ok(());
    }
    let kind = String::from_str(alloc, old.kind())?;
    let name = String::from_str(alloc, old.name())?;
    let text = write_row(alloc, row)?;
    edits.push(TextEdit::new(kind, name, Some(text)))?;
    Ok(())
}

/// Reads the text of a row, and adds the edit that it takes, if any.
fn add_edit_of_row(
    alloc: Global,
    scratch: &mut Scratch,
    text: &TextRow,
    edits: &mut Vec<TextEdit>,
) -> Result<(), StoreFault>
    ensures edits { OnOk result (edits.new.items ≡ edits.old.items ++ text_edits text.now) }
    ensures movable { OnOk result (IsMovable text.now) }
    ensures bad { IfErr result (λ e. e ≡ StoreFault.BadRow → is_row (row_in_1 text.now.0.0 text.now.0.1 text.now.1) ≡ false) }
    ensures fault { IfErr result IsListFault }
{
    let row = row_of_1(
        alloc,
        scratch,
        text.kind(),
        text.name(),
        text.text().as_bytes(),
    )?;
    add_edit(alloc, text, &row, edits)?;
    Ok(())
}

/// Adds the edit that a text takes, if any. What stands at the place of the number is no row, and is passed over.
fn add_edit_of(
    alloc: Global,
    scratch: &mut Scratch,
    text: &TextRow,
    edits: &mut Vec<TextEdit>,
) -> Result<(), StoreFault>
    ensures edits { OnOk result (edits.new.items ≡ edits.old.items ++ text_edits text.now) }
    ensures movable { OnOk result (MayMove text.now) }
    ensures bad { IfErr result (λ e. e ≡ StoreFault.BadRow → IsBadEntry text.now) }
    ensures fault { IfErr result IsListFault }
{
    if is_line_place(text.kind(), text.name()) {
        Ok(())
    } else {
        add_edit_of_row(alloc, scratch, text, edits)
    }
}

/// The edits that texts of layout 1 take: a charge detail record is written anew, and all others stay.
fn edits_of(alloc: Global, texts: &[TextRow]) -> Result<Vec<TextEdit>, StoreFault>
    ensures edits { IfOk result (λ v. v.items ≡ flat_map text_edits texts.now) }
    ensures movable { IfOk result (λ v. All MayMove texts.now) }
    ensures bad { IfErr result (λ e. e ≡ StoreFault.BadRow → HasBadEntry texts.now) }
    ensures fault { IfErr result IsListFault }
{
    let mut scratch = Scratch::new(alloc);
    let mut edits = Vec::new(alloc);
    for text in texts {
        add_edit_of(alloc, &mut scratch, text, &mut edits)?;
    }
    Ok(edits)
}

/// Writes the charge detail records of a store of layout 1 anew, and its version, in one transaction. `BadRow` where a
/// text is no row of its kind and key. After a refusal all is as it was.
#[tactic(auto, using(crate::proofs::MovedTexts::bad_found))]
pub(crate) fn move_texts<S: Alter>(
    alloc: Global,
    table: &mut TextTable<S>,
) -> Result<(), StoreFault>
    ensures moved { IsClean S.Store table.new → OnOk result (IsMovedTo (texts S.Store table.old) (content S.Store table.new)) }
    ensures bad { IsClean S.Store table.new → IfErr result (λ e. e ≡ StoreFault.BadRow → HasBadText (texts S.Store table.old)) }
    ensures fault { IfErr result (λ e. e ≢ StoreFault.OldLayout) }
    ensures honest { IsClean S.Store table.new → IsClean S.Store table.old }
    // Once it is moved a stop leaves just that, and before it what it left or the whole store that is moved.
    ensures settled { IsClean S.Store table.new → OnOk result ((trees : Trees) → Leaves S.Store table.new trees → content_of trees ≡ content S.Store table.new) }
    ensures whole { IsClean S.Store table.new → OnOk result (LeavesWhole S.Store table.new) }
    ensures stops { IsClean S.Store table.new → OnErr result ((trees : Trees) → Leaves S.Store table.new trees
        → Leaves S.Store table.old trees ⊎ (IsWhole trees × IsMovedTo (texts S.Store table.old) (content_of trees))) }
    ensures shown { IsClean S.Store table.new → OnErr result (ShowsTheSame (state S.Store table.old.conn) (state S.Store table.new.conn)) }
{
    let texts = match table.rows() {
        Ok(texts) => texts,
        Err(error) => return Err(fault_of(error)),
    };
    let edits = edits_of(alloc, texts.as_slice())?;
    match table.change_to(LAYOUT, edits.as_slice()) {
        Ok(()) => Ok(()),
        Err(error) => Err(fault_of(error)),
    }
}
