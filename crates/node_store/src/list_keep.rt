//! A keeper in memory.

ghost use Rattle.std.specs.Prelude.{◌≡◌, ◌≢◌, ◌≤◌, ◌⊎◌, All, List, ℕ, [], IfErr, IfOk, IfSome, OnErr, OnOk, IsSome, None, Some};
ghost use Rattle.std.specs.FinMap.{empty};
ghost use Rattle.node_store.specs.Contents.{AnswersNumber, Content, IsLineNumber, IsReadAgain, changed_all, line_of, marked, rows_after, rows_of};
ghost use Rattle.node_store.specs.Faults.{IsListFault, IsCommitFault, counted};
ghost use Rattle.node_store.specs.Numbers.{others};
ghost use Rattle.node_store.specs.Placing.{entries_at, kept, placed_of, places_of, set_text};
ghost use Rattle.node_store.specs.declared.fault.StoreFault.TheVariants.{BadRow};

use crate::changing::{place_number, placed_all, put_all, release_all, reserve_all};
use crate::fault::StoreFault;
use crate::keep::{Keep, Kept};
use crate::line_number::{LineNumber, first_number, is_line_place, number_of_text};
use crate::stored::{Place, Placed, StoredRow, line_place, placed_of, row_of};
use ocpi_json::Scratch;
use ocpi_text::Whole;
use ocpi_types::{Change, Row};
use std::alloc::{AllocError, Global};
use std::marker::Model;
use tables::{HashSeed, Lookup};

/// A keeper in memory, which nothing outlasts. It refuses for want of memory alone. It keeps rows, which clauses see as
/// their texts: a text is written only where rows are loaded.
#[derive(Drop)]
pub struct ListKeep {
    alloc: Global,
    stored: Lookup<Place, StoredRow>,
}

impl Model for ListKeep {
    ghost use Rattle.std.specs.Coded.{codes};
    ghost use Rattle.std.specs.FinMap as map;
    ghost use Rattle.std.specs.Prelude.{IsSome};
    ghost use Rattle.node_store.specs.Contents.{AreRows, Content, line_of};
    ghost use Rattle.node_store.specs.Placing.{kept};

    ghost Value = { Content };

    ghost coded = { Prim.hlevel (codes, map.code) };

    ghost view = { λ k. kept k.stored };

    ghost invariant = { λ k. AreRows (kept k.stored) × IsSome (line_of (kept k.stored)) };
}

impl ListKeep {
    /// A keeper of no rows, which finds them by hashes that begin with the seed.
    pub fn new(alloc: Global, seed: HashSeed) -> ListKeep
        ensures { result ≡ empty }
    {
        ListKeep {
            alloc,
            stored: Lookup::new(alloc, seed),
        }
    }

    /// Each text is a row of its kind and key, and that of the number is one, so that `load` never answers `BadRow`.
    #[tactic(auto, using(crate::proofs::KeptRows::rows_are))]
    pub fn has_rows(&self)
        ensures rows { IsSome (rows_of self.now) }
        ensures line { IsSome (line_of self.now) }
    {
        let _stored = &self.stored;
    }
}

/// The places at which something is kept, in order.
fn places_of(alloc: Global, stored: &Lookup<Place, StoredRow>) -> Result<Vec<Place>, AllocError>
    ensures { IfOk result (λ v. v.items ≡ places_of (kept stored.now)) }
{
    let mut places = Vec::new(alloc);
    for (place, _) in stored.iter() {
        places.push(*place)?;
    }
    places.sort_unstable();
    Ok(places)
}

/// The rows at places in turn, but that at the place of the number.
fn listed_rows(
    alloc: Global,
    stored: &Lookup<Place, StoredRow>,
    places: &[Place],
) -> Result<Vec<Row>, StoreFault>
    ensures rows { IfOk result (λ v. rows_after [] (others (entries_at (kept stored.now) places.now)) ≡ Some v.items) }
    ensures bad { IfErr result (λ e. e ≡ BadRow → rows_after [] (others (entries_at (kept stored.now) places.now)) ≡ None) }
    ensures fault { IfErr result IsListFault }
{
    let mut scratch = Scratch::new(alloc);
    let mut rows = Vec::new(alloc);
    for place in places {
        if is_line_place(place.0.as_str(), place.1.as_str()) {
            continue;
        }
        let Some(kept) = stored.get(*place) else {
            continue;
        };
        let text = kept.text(alloc)?;
        let row = row_of(
            alloc,
            &mut scratch,
            place.0.as_str(),
            place.1.as_str(),
            text.as_bytes(),
        )?;
        rows.push(row)?;
    }
    Ok(rows)
}

/// The rows that are kept, in the order of their places.
fn rows_of(alloc: Global, stored: &Lookup<Place, StoredRow>) -> Result<Vec<Row>, StoreFault>
    ensures rows { IfOk result (λ v. rows_of (kept stored.now) ≡ Some v.items) }
    ensures bad { IfErr result (λ e. e ≡ BadRow → rows_of (kept stored.now) ≡ None) }
    ensures fault { IfErr result IsListFault }
{
    let places = places_of(alloc, stored)?;
    listed_rows(alloc, stored, places.as_slice())
}

/// The number of the last line that took hold.
fn line_of(alloc: Global, stored: &Lookup<Place, StoredRow>) -> Result<Whole, StoreFault>
    ensures { AnswersNumber result (line_of (kept stored.now)) }
{
    let Some(number) = stored.get(line_place()) else {
        return Ok(first_number());
    };
    let text = number.text(alloc)?;
    number_of_text(alloc, &mut Scratch::new(alloc), text.as_bytes())
}

/// All that is kept.
#[tactic(auto, using(crate::proofs::Numbered::kept_least))]
fn load(alloc: Global, stored: &Lookup<Place, StoredRow>) -> Result<Kept, StoreFault>
    ensures rows { IfOk result (λ k. rows_of (kept stored.now) ≡ Some k.rows.items) }
    ensures first { IfOk result (λ k. 1 ≤ k.line) }
    ensures line { IfOk result (λ k. line_of (kept stored.now) ≡ Some k.line) }
    ensures bad { IfErr result (λ e. e ≡ BadRow → (rows_of (kept stored.now) ≡ None) ⊎ (line_of (kept stored.now) ≡ None)) }
    ensures fault { IfErr result IsListFault }
{
    let line = line_of(alloc, stored)?;
    let rows = rows_of(alloc, stored)?;
    Ok(Kept { rows, line })
}

/// Makes the one change of a commit, which needs no room ahead.
fn change_one(
    alloc: Global,
    stored: &mut Lookup<Place, StoredRow>,
    change: &Change,
) -> Result<(), AllocError>
    ensures all { OnOk result (kept stored.new ≡ set_text (kept stored.old) (placed_of change.now).place (placed_of change.now).row) }
    ensures none { OnErr result (kept stored.new ≡ kept stored.old) }
    ensures again { OnOk result (IsReadAgain change.now) }
{
    let Placed { place, row } = placed_of(alloc, change)?;
    match row {
        Some(row) => stored.insert(place, row),
        None => {
            drop(stored.remove(place));
            Ok(())
        }
    }
}

/// Makes changes, which may be of one place again and again, and keeps the number of their line: room first, for all
/// of them.
fn change_several(
    alloc: Global,
    stored: &mut Lookup<Place, StoredRow>,
    changes: &[Change],
    line: Option<LineNumber>,
) -> Result<(), AllocError>
    ensures all { OnOk result (kept stored.new ≡ marked line (changed_all (kept stored.old) changes.now)) }
    ensures none { OnErr result (kept stored.new ≡ kept stored.old) }
    ensures again { OnOk result (All IsReadAgain changes.now) }
    ensures fits { OnOk result (IfSome line IsLineNumber) }
{
    let mut placed = placed_all(alloc, changes)?;
    place_number(line, &mut placed)?;
    let cleared = reserve_all(alloc, stored, placed.as_slice())?;
    put_all(stored, placed);
    release_all(stored, cleared.as_slice());
    Ok(())
}

/// Makes changes and keeps the number of their line, all of it or nothing.
fn change_all(
    alloc: Global,
    stored: &mut Lookup<Place, StoredRow>,
    changes: &[Change],
    line: Option<LineNumber>,
) -> Result<(), AllocError>
    ensures all { OnOk result (kept stored.new ≡ marked line (changed_all (kept stored.old) changes.now)) }
    ensures none { OnErr result (kept stored.new ≡ kept stored.old) }
    ensures again { OnOk result (All IsReadAgain changes.now) }
    ensures fits { OnOk result (IfSome line IsLineNumber) }
{
    match (changes, line) {
        ([change], None) => change_one(alloc, stored, change),
        _ => change_several(alloc, stored, changes, line),
    }
}

impl Keep for ListKeep {
    ghost use Rattle.node_store.specs.Contents.{Content};
    ghost use Rattle.std.specs.Prelude.{◌≡◌};

    ghost content = { λ k. k };

    ghost is_honest = { λ k. Unit {0} };

    ghost refusals = { λ k. 0 };

    ghost may_leave = { λ k c. c ≡ k };

    fn load(&mut self) -> Result<Kept, StoreFault> {
        load(self.alloc, &self.stored)
    }

    fn commit(&mut self, changes: &[Change], line: Option<LineNumber>) -> Result<(), StoreFault> {
        match change_all(self.alloc, &mut self.stored, changes, line) {
            Ok(()) => Ok(()),
            Err(_) => Err(StoreFault::Memory),
        }
    }
}
