//! How many rows the parts of a step change at most, beside the counters of packets and requests. For so many a draft
//! takes room at once (`Needs`); no clause rests on them.

/// A decision on a command: a reply, a mark, a reservation, a push and a result; or a reply, a reservation, an open
/// command and a reference.
pub(crate) const CHANGES_OF_A_DECISION: usize = 5;

/// A token that a provider sends: its reply, and the token.
pub(crate) const CHANGES_OF_A_TOKEN: usize = 2;

/// The end of a command: the open command, its push and its result.
pub(crate) const CHANGES_OF_AN_END: usize = 3;

/// A version of a session: the push of an older version, its own push, and itself.
pub(crate) const CHANGES_OF_A_VERSION: usize = 3;

/// The beginning of a session: a reservation, and its first version.
pub(crate) const CHANGES_OF_A_BEGINNING: usize = 4;

/// What a beginning that a command or an answer asks for changes more: the end of the command, a reference, and the
/// counter of sessions.
pub(crate) const CHANGES_BEFORE_A_BEGINNING: usize = 5;

/// A charge detail record: its counter, its push, and itself.
pub(crate) const CHANGES_OF_A_BILL: usize = 3;

/// A credit: its push, and itself.
pub(crate) const CHANGES_OF_A_CREDIT: usize = 2;
