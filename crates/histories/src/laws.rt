//! Where histories cannot be interleaved. Each law is the contract of a function that does nothing.

ghost use Rattle.histories.specs.Laws.{BlocksExclude, DifferentExcludes, NeverSentExcludes};

/// Where each next entry waits for what was sent behind the front.
pub fn blocks_exclude()
    ensures { BlocksExclude }
{}

/// Where a packet came that was never sent.
pub fn never_sent_excludes()
    ensures { NeverSentExcludes }
{}

/// Where one came that differs from the one that was sent.
pub fn different_excludes()
    ensures { DifferentExcludes }
{}
