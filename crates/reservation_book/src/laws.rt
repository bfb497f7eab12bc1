//! What holds over any list of calls, and of the rows. The calls are those of `ReservationBook`.

ghost use Rattle.reservation_book.specs.Rows.{RowsAreAll};
ghost use Rattle.reservation_book.specs.Calls.{MarksNeverFall, NewReservationsAreNewer};

/// No mark ever falls.
pub fn marks_never_fall()
    ensures { MarksNeverFall }
{}

/// A reservation that is new was made by a request whose number is not below the mark that stood before, so not below
/// that of any cancel that was taken.
pub fn new_reservations_are_newer()
    ensures { NewReservationsAreNewer }
{}

/// Two reservation books with the same rows are equal in all that is stored.
pub fn rows_are_all()
    ensures { RowsAreAll }
{}
