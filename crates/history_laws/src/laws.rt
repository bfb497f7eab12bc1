//! The laws of histories of the nodes of a setup. Each is the contract of a function that does nothing.

ghost use Rattle.history_laws.specs.Laws.{InterleavingsAreRuns, ReplaysAreNumbered};

/// An interleaving of the histories of nodes of a setup is a legal run of its world from its opening, which ends with
/// each node as its history left it, and with all that this sent. So what is promised of every world holds of these
/// nodes: they are safe, what is acknowledged is held, and answers agree.
pub fn interleavings_are_runs()
    ensures { InterleavingsAreRuns }
{}

/// The packets of a node are numbered from 1, whatever happened to it.
pub fn replays_are_numbered()
    ensures { ReplaysAreNumbered }
{}
