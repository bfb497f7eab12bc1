//! The laws of a command book. The calls in them are those of `CommandBook::keep_reply`, `open` and `settle`.

ghost use Rattle.command_book.specs.Calls.{RepliesStay, ResultsStay, StaysConsistent};
ghost use Rattle.command_book.specs.Listing.{RowsAreAll};

/// A reply that is kept stays as it is, over every list of calls.
pub fn replies_stay()
    ensures { RepliesStay }
{}

/// A result stays as it is, over every list of calls.
pub fn results_stay()
    ensures { ResultsStay }
{}

/// An open command has no result, and an open start has its place, over every list of calls from an empty book.
pub fn stays_consistent()
    ensures { StaysConsistent }
{}

/// Two command books with the same rows are equal in all that is stored.
pub fn same_rows()
    ensures { RowsAreAll }
{}
