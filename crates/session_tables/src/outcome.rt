//! What comes of a report about a session.

use ocpi_types::Session as Version;
use session_state::CdrDraft;

/// What a report makes of a session. The draft of a charge detail record cannot be dropped: the receiver issues it
/// (`CdrDraft::issue`), or gives it up (`CdrDraft::give_up`).
pub enum Moved {
    /// The report makes nothing of any session.
    Nothing,
    /// It would make a version of a session whose newest version was updated at the last moment, so that none can be
    /// later.
    Refused,
    /// The session's next version, which is ACTIVE or INVALID.
    To { version: Version },
    /// The session's last version, which is COMPLETED, and the draft of its charge detail record.
    Completed { version: Version, draft: CdrDraft },
}
