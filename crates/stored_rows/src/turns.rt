//! The order in which rows are put when a node is made of them.

ghost use Rattle.std.specs.Prelude.{◌≡◌};
ghost use Rattle.std.specs.List.Sorted.{IsNonDecreasingBy, IsPermutation};
ghost use Rattle.stored_rows.specs.Turns.{rank_of, turn_of};

use ocpi_types::Row;

/// The rank of a row among those that are put: what is less is put first.
fn rank_of(row: &Row) -> u64
    ensures { result ≡ rank_of row.now }
{
    match row {
        Row::Count { .. } => 0,
        Row::Reply { .. } => 1,
        Row::Push { number, .. } | Row::Command { number, .. } => 2 + number.value(),
        Row::Token { .. }
        | Row::Service { .. }
        | Row::Spent { .. }
        | Row::Mark { .. }
        | Row::Reservation { .. }
        | Row::Pending { .. }
        | Row::Result { .. }
        | Row::Session { .. }
        | Row::Cdr { .. } => 2,
    }
}

/// The rows in the order in which they are put: counters first, then replies, and then all others. Pushes and commands
/// rise by number, so that each is put behind those that stand. It takes no memory.
pub fn in_turn(rows: Vec<Row>) -> Vec<Row>
    ensures same { IsPermutation rows.items result.items }
    ensures order { IsNonDecreasingBy turn_of result.items }
    ensures by_rank { IsNonDecreasingBy rank_of result.items }
{
    let mut sorted = rows;
    sorted.sort_unstable_by_key(|row| rank_of(row));
    sorted
}
