//! The laws of rows that a provider is made of.

ghost use Rattle.provider_stored.specs.Making.{BadRowsAreOfNone, RowsMakeAgain, RowsTellAll};

/// Rows of which one is bad for some reason are those of no provider with these peers.
pub fn bad_rows_are_of_none()
    ensures { BadRowsAreOfNone }
{}

/// The rows of a provider tell all that it stores.
pub fn rows_tell_all()
    ensures { RowsTellAll }
{}

/// Of the rows of a provider the very same is made, as it starts again.
pub fn rows_make_again()
    ensures { RowsMakeAgain }
{}
