//! Books that are made of rows.

ghost use Rattle.std.specs.Prelude.{◌≡◌, ◌∷◌, ◌++◌, [], List, IfErr, IfNone, IfOk, IfSome, OnOk};
ghost use Rattle.std.specs.List.Sorted.{IsNonDecreasingBy};
ghost use Rattle.ocpi_types.specs.Rows.{key_of};
ghost use Rattle.ocpi_types.specs.declared.rows.Row as types;
ghost use Rattle.provider_rows.specs.Rows.{AreKeyed};
ghost use Rattle.provider_rows.specs.Sound.{IsConsistent};
ghost use Rattle.provider_rows.specs.State.{Peering, State, opening};
ghost use Rattle.provider_rows.specs.Steps.{restarted};
ghost use Rattle.provider_stored.specs.Bad.{IsBad};
ghost use Rattle.provider_stored.specs.Fitting.{IsNext};
ghost use Rattle.provider_stored.specs.Making.{IsMadeOf, StartsAgain};
ghost use Rattle.stored_rows.specs.Faults.{IfBadRows};
ghost use Rattle.stored_rows.specs.Turns.{turn_of};

use crate::fitting::row_fault;
use ocpi_types::Row;
use provider_rows::{Books, Peers};
use std::alloc::{AllocError, Global};
use stored_rows::{BadReason, BadRow, RowsFault, in_turn};
use tables::HashSeed;

/// Puts a row beside those that stand, or tells what is wrong with it.
fn add(books: &mut Books, row: Row) -> Result<Option<BadReason>, AllocError>
    requires { IsNext books.old.state row }
    ensures fits { (peers : Peering) (before : List types.Row) → IsMadeOf peers before books.old.state → IfOk result (λ fault. IfNone fault (IsMadeOf peers (before ++ row ∷ []) books.new.state)) }
    ensures bad { (peers : Peering) (before rest : List types.Row) → IsMadeOf peers before books.old.state → IsNonDecreasingBy turn_of (before ++ row ∷ rest) → IfOk result (λ fault. IfSome fault (IsBad peers (before ++ row ∷ rest) (key_of row))) }
{
    if let Some(reason) = row_fault(books, &row) {
        return Ok(Some(reason));
    }
    books.add_row(row)?;
    Ok(None)
}

/// Puts rows that come in turn into books without rows.
fn add_all(books: &mut Books, rows: Vec<Row>) -> Result<(), RowsFault>
    requires order { IsNonDecreasingBy turn_of rows.items }
    requires peers { (peers : Peering) × (books.old.state ≡ opening peers) }
    ensures ok { (peers : Peering) → books.old.state ≡ opening peers → OnOk result (IsMadeOf peers rows.items books.new.state) }
    ensures bad { (peers : Peering) → books.old.state ≡ opening peers → IfErr result (IfBadRows (IsBad peers rows.items)) }
{
    for row in rows {
        let key = row.key();
        if let Some(reason) = add(books, row)? {
            return Err(RowsFault::BadRows(BadRow { key, reason }));
        }
    }
    Ok(())
}

/// The books of a provider with these peers that has just these rows, in whatever order they come: each request that
/// waits is due at once. So of all that a provider stored the very same books are made, as it starts again. Refused
/// (`BadRows`) where no provider with these peers has just these rows: the fault tells which row shows it, and for what
/// reason (`IsBad`).
pub fn books_of_rows(
    alloc: Global,
    seed: HashSeed,
    peers: Peers,
    rows: Vec<Row>,
) -> Result<Books, RowsFault>
    ensures made { IfOk result (λ b. IsMadeOf peers rows.items b.state) }
    ensures bad { IfErr result (IfBadRows (IsBad peers rows.items)) }
    ensures again { (s : State) → IsConsistent s → AreKeyed s.rows → StartsAgain peers rows.items s → IfOk result (λ b. b.state ≡ restarted s) }
    ensures good { (s : State) → IsConsistent s → AreKeyed s.rows → StartsAgain peers rows.items s → IfErr result (λ e. e ≡ RowsFault.Memory) }
{
    let mut books = Books::new(alloc, seed, peers);
    add_all(&mut books, in_turn(rows))?;
    books.keys_are_own();
    Ok(books)
}
