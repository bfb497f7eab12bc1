//! Changes of a table of rows, made all together or not at all.

ghost use Rattle.std.specs.Prelude.{◌≡◌, ◌++◌, All, IfOk, IfSome, IsTrue, OnOk, map};
ghost use Rattle.std.specs.FinMap.{contains_key};
ghost use Rattle.node_store.specs.Contents.{IsLineNumber, IsReadAgain, RowPlace};
ghost use Rattle.node_store.specs.Numbers.{line_placed};
ghost use Rattle.node_store.specs.Placing.{HasRoom, kept, placed_all, placed_of, room, set_text};
ghost use Rattle.node_store.specs.declared.stored.Placed.{Placed as PlacedOf};

use crate::line_number::LineNumber;
use crate::stored::{Place, Placed, StoredRow, line_place, placed_of};
use ocpi_types::Change;
use std::alloc::{AllocError, Global};
use tables::Lookup;

/// The places and rows of changes, in turn.
pub(crate) fn placed_all(alloc: Global, changes: &[Change]) -> Result<Vec<Placed>, AllocError>
    ensures placed { IfOk result (λ v. v.items ≡ map placed_of changes.now) }
    ensures again { IfOk result (λ v. All IsReadAgain changes.now) }
{
    let mut placed = Vec::new(alloc);
    for change in changes {
        let next = placed_of(alloc, change)?;
        placed.push(next)?;
    }
    Ok(placed)
}

/// Adds the number of a line and its place, where there is one.
pub(crate) fn place_number(
    line: Option<LineNumber>,
    placed: &mut Vec<Placed>,
) -> Result<(), AllocError>
    ensures placed { OnOk result (placed.new.items ≡ placed.old.items ++ line_placed line) }
    ensures fits { OnOk result (IfSome line IsLineNumber) }
{
    let Some(number) = line else {
        return Ok(());
    };
    placed.push(Placed {
        place: line_place(),
        row: Some(StoredRow::of_number(number)),
    })?;
    Ok(())
}

/// Takes the room that a row needs, where it is not there.
fn reserve_row(stored: &mut Lookup<Place, StoredRow>, place: Place) -> Result<(), AllocError>
    ensures same { kept stored.new ≡ kept stored.old }
    ensures ready { OnOk result (IsTrue (contains_key (room stored.new) place)) }
    ensures stay { (p : RowPlace) → IsTrue (contains_key (room stored.old) p) → IsTrue (contains_key (room stored.new) p) }
{
    stored.reserve(place)
}

/// Takes the room that a row needs, or lists the place where none is to stand.
fn reserve_one(
    stored: &mut Lookup<Place, StoredRow>,
    next: &Placed,
    cleared: &mut Vec<Place>,
) -> Result<(), AllocError>
    ensures same { kept stored.new ≡ kept stored.old }
    ensures ready { OnOk result (HasRoom stored.new next.now) }
    ensures stay { (x : PlacedOf) → HasRoom stored.old x → HasRoom stored.new x }
{
    match &next.row {
        Some(_) => reserve_row(stored, next.place),
        None => {
            cleared.push(next.place)?;
            Ok(())
        }
    }
}

/// Takes the room that all of them need, and answers the places where no row is to stand. Where memory runs out, some
/// room may stay.
pub(crate) fn reserve_all(
    alloc: Global,
    stored: &mut Lookup<Place, StoredRow>,
    placed: &[Placed],
) -> Result<Vec<Place>, AllocError>
    ensures same { kept stored.new ≡ kept stored.old }
    ensures ready { IfOk result (λ _. All (HasRoom stored.new) placed.now) }
{
    let mut cleared = Vec::new(alloc);
    for next in placed {
        reserve_one(stored, next, &mut cleared)?;
    }
    Ok(cleared)
}

/// Puts one row in its place, or takes it away.
fn put_one(stored: &mut Lookup<Place, StoredRow>, placed: Placed)
    requires { HasRoom stored.old placed }
    ensures shown { kept stored.new ≡ set_text (kept stored.old) placed.place placed.row }
    ensures room { room stored.new ≡ room stored.old }
{
    let Placed { place, row } = placed;
    match row {
        Some(row) => stored.put(place, row),
        None => stored.clear(place),
    }
}

/// Puts all rows in their places, or takes them away. It takes no memory.
pub(crate) fn put_all(stored: &mut Lookup<Place, StoredRow>, placed: Vec<Placed>)
    requires { All (HasRoom stored.old) placed.items }
    ensures { kept stored.new ≡ placed_all (kept stored.old) placed.items }
{
    for next in placed {
        put_one(stored, next);
    }
}

/// Gives the room back of the places that hold no row.
pub(crate) fn release_all(stored: &mut Lookup<Place, StoredRow>, places: &[Place])
    ensures { kept stored.new ≡ kept stored.old }
{
    for place in places {
        stored.release(*place);
    }
}
