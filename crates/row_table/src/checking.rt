//! Whether a store that has the two tables keeps what it should.

ghost use Rattle.std.specs.Prelude.{◌≡◌, ◌≢◌, ◌⊎◌, false, pos, [], ◌∷◌, IsTrue, IfOk, IfSome, None, OnOk, map};
ghost use Rattle.sqlite.specs.declared.types.Value.TheVariants.{Int};
ghost use Rattle.sqlite.specs.Order.{column};
ghost use Rattle.row_table.specs.Texts.{IsTextRow};
ghost use Rattle.row_table.specs.Contents.{IsNumbered};
ghost use Rattle.row_table.specs.Checking.{AreWhole, HasText, IsAbove};

use sqlite::types::{Type, ValueRef};
use sqlite::{Error, Row};
use std::cmp::Ordering;

/// Whether a column of a row has a text, which is not copied.
fn check_text(row: &Row, at: usize) -> Result<(), Error>
    ensures { OnOk result (HasText row.now at) }
{
    let value = row.get_ref(at)?;
    let ValueRef::Text(bytes) = value else {
        return Err(Error::InvalidColumnType(at, Type::of(value)));
    };
    match str::from_utf8(bytes) {
        Ok(_) => Ok(()),
        Err(_) => Err(Error::Utf8Error(at)),
    }
}

/// The rowid of a row that also has three texts.
fn read_id(row: &Row) -> Result<i64, Error>
    ensures whole { IfOk result (λ id. IsTextRow row.now) }
    ensures id { IfOk result (λ id. column row.now 0 ≡ Int id) }
{
    let id = row.get(0)?;
    check_text(row, 1)?;
    check_text(row, 2)?;
    check_text(row, 3)?;
    Ok(id)
}

fn is_above(last: Option<i64>, id: i64) -> bool
    ensures { IsTrue result → IsAbove last id }
{
    match last {
        Some(last) => last.cmp(&id) == Ordering::Less,
        None => true,
    }
}

/// Whether the rows have a rowid and three texts each, and the rowids rise.
pub(crate) fn are_whole(rows: &[Row]) -> Result<bool, Error>
    ensures { IfOk result (λ b. IsTrue b → AreWhole rows.now) }
{
    let mut last = None;
    for row in rows {
        let id = read_id(row)?;
        if !is_above(last, id) {
            return Ok(false);
        }
        last = Some(id);
    }
    Ok(true)
}

/// Whether there is one row, which has a rowid and that number.
fn is_numbered(rows: &[Row], version: u32) -> Result<bool, Error>
    ensures one { IfOk result (λ b. IsTrue b → IsNumbered version rows.now) }
    ensures all { IfOk result (λ b. map (λ r. column r 1) rows.now ≡ Int (pos version) ∷ [] → IsTrue b) }
{
    let [row] = rows else {
        return Ok(false);
    };
    let _id: i64 = row.get(0)?;
    let found: i64 = row.get(1)?;
    Ok(found == i64::from(version))
}

/// Which of the two numbers one row has, which is alone and has a rowid.
pub(crate) fn number_in(rows: &[Row], version: u32, older: u32) -> Result<Option<u32>, Error>
    ensures one { IfOk result (λ o. IfSome o (λ found. IsNumbered found rows.now)) }
    ensures either { IfOk result (λ o. IfSome o (λ found. (found ≡ version) ⊎ (found ≡ older))) }
    ensures none { IfOk result (λ o. o ≡ None → (map (λ r. column r 1) rows.now ≢ Int (pos version) ∷ []) × (map (λ r. column r 1) rows.now ≢ Int (pos older) ∷ [])) }
{
    if is_numbered(rows, version)? {
        return Ok(Some(version));
    }
    if is_numbered(rows, older)? {
        return Ok(Some(older));
    }
    Ok(None)
}
