//! What holds of lines behind the setup, whatever they hold. Each law is the contract of a function that does nothing.

ghost use Rattle.node_lines.specs.Laws.{
  EventsAreLines,
  OthersAreRefusedAlike,
  LinesAreCut,
  ListLinesAreCut,
  SeveralAreFew,
  SeveralAreListLines,
};

/// A line holds one event just where [`read_node_event`](ocpi_json::read_node_event) reads that event from it. A line
/// whose tree is no array is refused as it refuses.
pub fn events_are_read_as_lines_of_their_own()
    ensures events { EventsAreLines }
    ensures others { OthersAreRefusedAlike }
{}

/// A line is read as its first [`KEPT_BYTES`](line_runs::KEPT_BYTES) bytes are, and begins as they do.
pub fn long_lines_are_read_as_their_first_bytes()
    ensures read { LinesAreCut }
    ensures begun { ListLinesAreCut }
{}

/// A line of several events has at most 256.
pub fn lines_of_several_have_at_most_256()
    ensures { SeveralAreFew }
{}

/// The first byte of a line of several events that is no JSON space is `[`.
pub fn lines_of_several_begin_with_a_bracket()
    ensures { SeveralAreListLines }
{}
