//! The law of what a stop leaves. The calls in it are those of `TextTable`.

ghost use Rattle.row_table.specs.History.{StopsAreFound};

use sqlite::Alter;

/// Over any list of openings, changes and stops, from a store with nothing on, each opening finds what the stop before
/// it left: the version and the texts as they were opened or changed last, or as a change that was refused would have
/// made them. So a stop never leaves a store that the same version refuses as an old layout.
pub fn stops_are_found<S: Alter>()
    ensures { StopsAreFound S.Store }
{}
