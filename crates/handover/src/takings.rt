//! What becomes of what was handed over.

/// What became of a version of a session.
#[derive(Clone, Copy, Debug, PartialEq, Eq)]
pub enum SessionTaking {
    /// It is held from now on.
    Taken,
    /// What was held before stays: it is final, or not older.
    Kept,
}

/// What became of a charge detail record.
#[derive(Clone, Copy, Debug, PartialEq, Eq)]
pub enum CdrTaking {
    /// It is held from now on.
    Taken,
    /// An equal one was held before.
    Kept,
    /// One of that operator is held that differs, of the same id, or of the same session and as well a bill or a
    /// credit. What was held before stays.
    Conflict,
}
