//! The places under which rows are kept, and their texts.

ghost use Rattle.std.specs.Prelude.{◌≡◌, Err, IfOk, Ok, string_bytes};
ghost use Rattle.json_text.specs.Fault.{Fails, Read};
ghost use Rattle.ocpi_json.specs.RowForms.{row_in, row_in_1, row_text};
ghost use Rattle.ocpi_json.specs.RowKeys.{KeyFits};
ghost use Rattle.ocpi_types.specs.Rows.{key_of};
ghost use Rattle.ocpi_types.specs.declared.rows.Row.{Row};
ghost use Rattle.node_store.specs.Contents.{AnswersRow, IsLineNumber, IsReadAgain, line_place, line_text, place_of};
ghost use Rattle.node_store.specs.Placing.{placed_of};

use crate::fault::StoreFault;
use crate::line_number::{LINE_NAME, LineNumber, line_row};
use ocpi_json::{JsonFault, RowKind, Scratch, read_row, read_row_1, write_key, write_row};
use ocpi_text::CiText;
use ocpi_types::{Change, Row, RowKey, Word};
use row_texts::is_read_again;
use std::alloc::{AllocError, Global};
use std::marker::Model;

/// The kind and the key under which a text is kept.
pub(crate) type Place = (CiText<16>, CiText<64>);

/// A row, which clauses see as its text.
#[derive(Drop)]
pub(crate) struct StoredRow {
    row: Row,
}

impl Model for StoredRow {
    ghost use Rattle.std.specs.Prelude.{List, ℕ};
    ghost use Rattle.ocpi_json.specs.RowForms.{row_text};

    ghost Value = { List ℕ };

    ghost view = { λ s. row_text s.row };
}

impl StoredRow {
    /// The text of the row.
    pub(crate) fn text(&self, alloc: Global) -> Result<String, AllocError>
        ensures { IfOk result (λ s. string_bytes s ≡ self.now) }
    {
        write_row(alloc, &self.row)
    }

    /// An equal row, to be kept.
    fn of_row(row: &Row) -> Result<StoredRow, AllocError>
        ensures { IfOk result (λ s. s ≡ row_text row.now) }
    {
        Ok(StoredRow { row: row.copy()? })
    }

    /// The number of a line, to be kept as the row of a counter, whose text it has.
    pub(crate) fn of_number(number: LineNumber) -> StoredRow
        ensures text { result ≡ line_text number }
        ensures fits { IsLineNumber number }
    {
        StoredRow {
            row: line_row(number),
        }
    }
}

/// A place with the row that is to stand there, or with none where none is.
#[derive(Drop)]
pub(crate) struct Placed {
    pub(crate) place: Place,
    pub(crate) row: Option<StoredRow>,
}

/// Where the row of a key is kept.
#[tactic(auto, using(crate::proofs::Places::key_fits, crate::proofs::Places::kind_fits))]
fn place_of(alloc: Global, key: &RowKey) -> Result<Place, AllocError>
    ensures place { IfOk result (λ p. p ≡ place_of key.now) }
    ensures fits { KeyFits key.now }
{
    let text = write_key(alloc, key)?;
    let Ok(kind) = CiText::new(RowKind::of_key(key).word()) else {
        unreachable!()
    };
    let Ok(name) = CiText::new(text.as_str()) else {
        unreachable!()
    };
    Ok((kind, name))
}

/// Where the number of the last line that took hold is kept.
#[tactic(auto, using(crate::proofs::Places::count_fits, crate::proofs::Places::line_fits))]
pub(crate) fn line_place() -> Place
    ensures { result ≡ line_place }
{
    let Ok(kind) = CiText::new(RowKind::Count.word()) else {
        unreachable!()
    };
    let Ok(name) = CiText::new(LINE_NAME) else {
        unreachable!()
    };
    (kind, name)
}

/// The place that a change is of, and the row that it puts there.
pub(crate) fn placed_of(alloc: Global, change: &Change) -> Result<Placed, AllocError>
    ensures placed { IfOk result (λ p. p ≡ placed_of change.now) }
    ensures again { IfOk result (λ p. IsReadAgain change.now) }
{
    match change {
        Change::Put(row) => {
            let place = place_of(alloc, &row.key())?;
            is_read_again(row);
            let row = StoredRow::of_row(row)?;
            Ok(Placed {
                place,
                row: Some(row),
            })
        }
        Change::Drop(key) => {
            let place = place_of(alloc, key)?;
            Ok(Placed { place, row: None })
        }
    }
}

/// What is told of a text that is no row.
fn text_fault(fault: JsonFault) -> StoreFault
    ensures { (read : Read Row) → Fails fault read → AnswersRow (Err result) read }
{
    match fault {
        JsonFault::Memory => StoreFault::Memory,
        _ => StoreFault::BadRow,
    }
}

/// The row of a text that is kept.
pub(crate) fn row_of(
    alloc: Global,
    scratch: &mut Scratch,
    kind: &str,
    name: &str,
    text: &[u8],
) -> Result<Row, StoreFault>
    ensures { AnswersRow result (row_in kind.now name.now text.now) }
{
    match read_row(alloc, scratch, kind, name, text) {
        Ok(row) => Ok(row),
        Err(fault) => Err(text_fault(fault)),
    }
}

/// The row of a text that was kept in layout 1.
pub(crate) fn row_of_1(
    alloc: Global,
    scratch: &mut Scratch,
    kind: &str,
    name: &str,
    text: &[u8],
) -> Result<Row, StoreFault>
    ensures row { AnswersRow result (row_in_1 kind.now name.now text.now) }
    ensures place { IfOk result (λ r. place_of (key_of r) ≡ (kind.now, name.now)) }
{
    match read_row_1(alloc, scratch, kind, name, text) {
        Ok(row) => Ok(row),
        Err(fault) => Err(text_fault(fault)),
    }
}
