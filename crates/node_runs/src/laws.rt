//! What a run makes of its node.

ghost use Rattle.stored_nodes.specs.Keepers.{keeper_of};
ghost use Rattle.node_keepers.specs.Opening.{source_of};
ghost use Rattle.node_runs.specs.NodeHistories.{LostLinesGoOn, RunsAreHistories, TwoRunsAreOne};

use node_keepers::Keeps;
use node_rows::laws::{alike_are_classes, changes_are_held, restarts_are_held};
use node_store::Keep;
use stored_laws::laws::{nodes_can_start_again, nodes_keep_openings};

/// A run is a chain of steps of its node from what that was opened with, whatever the lines are. A line of several
/// events is as many steps as the node did for it, in their order.
pub fn runs_are_histories<S: Keeps>()
    ensures { RunsAreHistories (keeper_of S.Kept.content S.Kept.is_honest S.Kept.refusals S.Kept.may_leave) (source_of S.may_refuse S.found) }
{}

/// Two runs of one node of a setup, one after the other over one store, are one run with a restart between, wherever a
/// stop came between two lines of the first. The second is told the number of the last line that took hold.
pub fn two_runs_are_one<K: Keep>()
    ensures { TwoRunsAreOne (keeper_of K.content K.is_honest K.refusals K.may_leave) }
{
    nodes_keep_openings();
    changes_are_held();
    nodes_can_start_again();
    restarts_are_held();
    alike_are_classes();
}

/// A run over what was left of one that ended at a line goes on as before that line, or as behind the whole of it, and
/// is told which; never as behind a part of it.
pub fn lost_lines_go_on<K: Keep>()
    ensures { LostLinesGoOn (keeper_of K.content K.is_honest K.refusals K.may_leave) }
{
    nodes_keep_openings();
    changes_are_held();
    nodes_can_start_again();
    restarts_are_held();
    alike_are_classes();
}
