//! The laws of what is awaited. The changes in them are those of `AuthorizationBook::change` and `change_all`.

ghost use Rattle.authorization_book.specs.Laws.{OneEachStays, WaitsChange};

/// Once changes are made, that is awaited which was before or began by one of them, and which none of them ends, over
/// every list of changes that may be made.
pub fn waits_change()
    ensures { WaitsChange }
{}

/// At an EVSE at most one authorization is awaited, over every list of changes that may be made.
pub fn one_each_stays()
    ensures { OneEachStays }
{}
