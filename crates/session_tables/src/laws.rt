//! Laws of the definitions, for all values: each function's contract is one, and its body does nothing.

ghost use Rattle.session_tables.specs.Laws.{BeginningsAreOfSite, MovesAreOne, MovesMayFollow};

/// What a report makes of a version that was not updated at the last moment may follow it.
pub fn moves_may_follow()
    ensures { MovesMayFollow }
{}

/// A report makes one version of a version.
pub fn moves_are_one()
    ensures { MovesAreOne }
{}

/// What begins is at a connector of the site, whether by an answer, without one, or by a start.
pub fn beginnings_are_of_site()
    ensures { BeginningsAreOfSite }
{}
