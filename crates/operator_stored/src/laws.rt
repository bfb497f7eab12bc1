//! The laws of rows that an operator is made of.

ghost use Rattle.operator_stored.specs.Making.{BadRowsAreOfNone, OtherRowsAreBad, RowsMakeAgain, RowsTellAll};

/// Rows that are bad are those of no operator of the site.
pub fn bad_rows_are_of_none()
    ensures { BadRowsAreOfNone }
{}

/// And rows that are those of no operator of the site are bad: no reason is missing.
pub fn other_rows_are_bad()
    ensures { OtherRowsAreBad }
{}

/// The rows of an operator tell all that it stores.
pub fn rows_tell_all()
    ensures { RowsTellAll }
{}

/// Of the rows of an operator the very same is made, as it starts again.
pub fn rows_make_again()
    ensures { RowsMakeAgain }
{}
