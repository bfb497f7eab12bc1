//! The laws of an operator's sessions and charge detail records: their ids, their references, and what is pushed of
//! them, over every list of events from its opening, and from any state to any later one where they speak of two.

ghost use Rattle.operator_laws.specs.Sessions.{
  AcceptedStartsHaveSessions,
  IdsAreGiven,
  NumbersNeverFall,
  ReferencesAreSpentOnce,
  SessionBodiesArePast,
  SessionsStay,
  VersionsArePushed,
};

/// The id of each session and of each charge detail record is that of a number that its counter gave; that of a credit
/// is followed by -C. Different numbers have different ids.
pub fn ids_are_given()
    ensures { IdsAreGiven }
{}

/// The counters of sessions and of charge detail records never fall.
pub fn numbers_never_fall()
    ensures { NumbersNeverFall }
{}

/// A session stands for good, with its id, its token, its reference and its place.
pub fn sessions_stay()
    ensures { SessionsStay }
{}

/// Each authorization reference of a provider is carried by at most one of its open starts and its sessions, may not
/// be used again, and came from the provider, in a start or in an answer whether a token may be used.
pub fn references_are_spent_once()
    ensures { ReferencesAreSpentOnce }
{}

/// Each session that is sent, or waits to be, is a version that was stored, to the provider of its token; and each
/// charge detail record is one that stands.
pub fn session_bodies_are_past()
    ensures { SessionBodiesArePast }
{}

/// The newest version of each session, and each charge detail record, is pushed to the provider of its token until it
/// acknowledges it.
pub fn versions_are_pushed()
    ensures { VersionsArePushed }
{}

/// A start whose result is ACCEPTED began a session for its provider, with its token and its reference.
pub fn accepted_starts_have_sessions()
    ensures { AcceptedStartsHaveSessions }
{}
