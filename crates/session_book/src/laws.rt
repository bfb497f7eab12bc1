//! Laws of the definitions, for all values: the function's contract is the law, and its body does nothing.

ghost use Rattle.session_book.specs.Numbers.{IdsDiffer, NextIsNew};
ghost use Rattle.session_book.specs.Stored.{ListingsAreRows};

/// Where all that is stored has numbers that were given, the ids of the next numbers are new.
pub fn next_is_new()
    ensures { NextIsNew }
{}

/// The ids of different numbers of a party differ, also without case.
pub fn ids_differ()
    ensures { IdsDiffer }
{}

/// The rows of a book as a list are exactly those that stand, each once.
pub fn listings_are_rows()
    ensures { ListingsAreRows }
{}
