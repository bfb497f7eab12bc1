//! The laws of a node that is fed lines by their numbers.

ghost use Rattle.stored_nodes.specs.Keepers.{keeper_of};
ghost use Rattle.node_keepers.specs.Opening.{source_of};
ghost use Rattle.feeding_laws.specs.Fed.{FedRunsAreExact, FedRunsAreTold, RunsAreFed};
ghost use Rattle.feeding_laws.specs.Feeding.{FeedingIsExact};

use node_keepers::Keeps;
use node_rows::laws::{alike_are_classes, changes_are_held, restarts_are_held};
use stored_laws::laws::nodes_can_start_again;

/// Runs of a node over one store, each under a setup of its own, fed the lines behind the one whose number it is told, and
/// stopped anywhere: each line takes hold once, and in order.
pub fn feeding_is_exact()
    ensures { FeedingIsExact }
{
    restarts_are_held();
    alike_are_classes();
}

/// Each run of `run_node` that is fed so is such a run, wherever it ended: by the end of its input, by a stop of the
/// node, by a commit that was refused, by want of memory, by a failed read or write. What it wrote tells what became
/// of no line behind those that it answered.
pub fn runs_are_fed<S: Keeps>()
    ensures { RunsAreFed (keeper_of S.Kept.content S.Kept.is_honest S.Kept.refusals S.Kept.may_leave) (source_of S.may_refuse S.found) }
{
    changes_are_held();
    nodes_can_start_again();
}

/// So runs of `run_node` over one store, each under a setup of its own, and fed so over what the one before left or a stop
/// left of that, leave what each line made that came once and in order.
pub fn fed_runs_are_exact<S: Keeps>()
    ensures { FedRunsAreExact (keeper_of S.Kept.content S.Kept.is_honest S.Kept.refusals S.Kept.may_leave) (source_of S.may_refuse S.found) }
{
    restarts_are_held();
    alike_are_classes();
}

/// They are runs of one node, and what it did in them for the lines that were answered is that of which alone they wrote. A
/// line that changed no row may have come again, and then it is among what the node did each time.
pub fn fed_runs_are_told<S: Keeps>()
    ensures { FedRunsAreTold (keeper_of S.Kept.content S.Kept.is_honest S.Kept.refusals S.Kept.may_leave) (source_of S.may_refuse S.found) }
{}
