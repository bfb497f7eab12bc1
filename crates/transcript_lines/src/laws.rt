//! What event lines of one node are in a run of all nodes. A law is the contract of a function that does nothing.

ghost use Rattle.transcript_lines.specs.EventLines.{NodeLinesAreLines};

/// A line that one node reads as an event is read by a run of all nodes as the same event of that node, where it is no
/// delivery.
pub fn node_lines_are_lines()
    ensures { NodeLinesAreLines }
{}
