//! The laws of an outbox.

ghost use Rattle.outbox.specs.OutboxListing.{DropsEnd, PutsStand, RowsAreAll};

/// Two outboxes with the same rows are equal in all that is stored.
pub fn same_outbox_rows()
    ensures { RowsAreAll }
{}

/// After a push or the counter of requests is put, it stands, and so does what stood under other keys.
pub fn outbox_puts()
    ensures { PutsStand }
{}

/// After a row is dropped, what stood under other keys stands.
pub fn outbox_drops()
    ensures { DropsEnd }
{}
