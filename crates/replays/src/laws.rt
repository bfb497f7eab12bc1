//! What is so of every transcript. Each law is the contract of a function that does nothing.

ghost use Rattle.node_keepers.specs.Opening.{source_of};
ghost use Rattle.replays.specs.Laws.{EventsGiveOneValue, PrintedIsOne};
ghost use Rattle.replays.specs.Outputs.{OutputsArePrinted, RunsArePrinted};
ghost use Rattle.stored_nodes.specs.Keepers.{keeper_of};

use node_keepers::Keeps;
use node_rows::laws::changes_are_held;
use stored_laws::laws::nodes_can_start_again;

/// What a node prints for an event is one value, and so is the node behind it, and whether a row changed.
pub fn events_give_one_value()
    ensures { EventsGiveOneValue }
{}

/// What a run prints is one value, and so is the node that it leaves, given what its store had and the lines up to its end.
pub fn printed_is_one()
    ensures { PrintedIsOne }
{}

/// What a run of the program `node` writes with an echo is what a run prints over what its keeper had, wherever it ended
/// or was stopped, and whatever was fed. What it leaves is what such a run leaves.
pub fn outputs_are_printed<S: Keeps>()
    ensures { OutputsArePrinted (keeper_of S.Kept.content S.Kept.is_honest S.Kept.refusals S.Kept.may_leave) (source_of S.may_refuse S.found) }
{
    changes_are_held();
    nodes_can_start_again();
}

/// Such runs over one store, each over what the one before left, print one behind the other what a transcript is of.
pub fn runs_are_printed()
    ensures { RunsArePrinted }
{}
