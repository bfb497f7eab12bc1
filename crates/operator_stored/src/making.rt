//! Books that are made of rows.

ghost use Rattle.std.specs.Prelude.{◌≡◌, IfErr, IfOk, OnOk, List, ℕ, Contains};
ghost use Rattle.std.specs.List.Sorted.{IsNonDecreasingBy, IsPermutation};
ghost use Rattle.ocpi_types.specs.declared.rows.Row.{Row};
ghost use Rattle.ocpi_types.specs.declared.site.SiteLine.{SiteLine};
ghost use Rattle.stored_rows.specs.Faults.{IfBadRows};
ghost use Rattle.operator_rows.specs.Sound.{IsConsistent};
ghost use Rattle.operator_rows.specs.State.{State, opening};
ghost use Rattle.operator_rows.specs.Steps.{restarted};
ghost use Rattle.operator_stored.specs.Bad.{IsBad};
ghost use Rattle.operator_stored.specs.Making.{IsMadeOf, StartsAgain};
ghost use Rattle.operator_stored.specs.Placing.{ArePut};
ghost use Rattle.stored_rows.specs.Turns.{turn_of};

use crate::adding::add_row;
use crate::bills::check_bills;
use ocpi_types::{Row, SiteLine};
use operator_rows::Books;
use std::alloc::Global;
use stored_rows::{BadReason, BadRow, RowsFault, in_turn};
use tables::HashSeed;

/// Puts rows that come in turn, one by one, each where it may be. Where one may not the rows are bad, which it shows,
/// and it is refused.
fn put_all(books: &mut Books, rows: Vec<Row>) -> Result<(), RowsFault>
    requires sorted { IsNonDecreasingBy turn_of rows.items }
    requires first { (line : SiteLine) × (books.old.state ≡ opening line) }
    ensures put { (line : SiteLine) → books.old.state ≡ opening line → OnOk result (ArePut line rows.items books.new.state) }
    ensures bad { (line : SiteLine) (all : List Row) → books.old.state ≡ opening line → IsPermutation all rows.items → IfErr result (IfBadRows (IsBad line all)) }
{
    for row in rows {
        books.consistency();
        let repeated = BadRow {
            key: row.key(),
            reason: BadReason::Repeated,
        };
        add_row(books, row, repeated)?;
    }
    Ok(())
}

/// The books of an operator of a site that has just these rows, in whatever order they come: each push is due at once,
/// and no authorization is awaited. So of all that an operator stored the very same books are made, as it starts
/// again. Refused (`BadRows`) where no operator of that site has just these rows: with the key of a row that shows it,
/// and with the reason. `IsBad` lists the reasons.
pub fn books_of_rows(
    alloc: Global,
    seed: HashSeed,
    line: SiteLine,
    rows: Vec<Row>,
) -> Result<Books, RowsFault>
    ensures made { IfOk result (λ b. IsMadeOf line rows.items b.state) }
    ensures bad { IfErr result (IfBadRows (IsBad line rows.items)) }
    ensures again { (s : State) → IsConsistent s → StartsAgain line rows.items s → IfOk result (λ b. b.state ≡ restarted s) }
    ensures good { (s : State) → IsConsistent s → StartsAgain line rows.items s → IfErr result (λ e. e ≡ RowsFault.Memory) }
{
    check_bills(alloc, rows.as_slice())?;
    let mut books = Books::new(alloc, seed, line)?;
    put_all(&mut books, in_turn(rows))?;
    books.consistency();
    Ok(books)
}
