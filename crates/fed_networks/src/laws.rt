//! The laws of nodes that are fed lines.

ghost use Rattle.stored_nodes.specs.Keepers.{keeper_of};
ghost use Rattle.node_keepers.specs.Opening.{source_of};
ghost use Rattle.fed_networks.specs.Fed.{FedNodesAreTold, FedNodesFormNetworks};
ghost use Rattle.fed_networks.specs.Laws.{NodesFormNetworks};

use feeding_laws::laws::{fed_runs_are_exact, fed_runs_are_told};
use node_keepers::Keeps;
use node_rows::laws::empty_is_held;
use stored_laws::laws::{nodes_can_start_again, openings_can_start_again};

/// Whatever happened at nodes that were fed lines by their numbers, over links that invent nothing between them, is a run
/// of the network of these nodes. So all is right, whatever anybody else sent.
pub fn nodes_form_networks()
    ensures { NodesFormNetworks }
{
    nodes_can_start_again();
    openings_can_start_again();
}

/// And so of nodes that run by `run_node`, each over a store of its own that was empty at first, fed by the number of the
/// last line that was answered, stopped anywhere, and started again under one setup or another: what their stores have is
/// what such a run of their network left.
pub fn fed_nodes_form_networks<S: Keeps>()
    ensures { FedNodesFormNetworks (keeper_of S.Kept.content S.Kept.is_honest S.Kept.refusals S.Kept.may_leave) (source_of S.may_refuse S.found) }
{
    nodes_can_start_again();
    openings_can_start_again();
    empty_is_held();
    fed_runs_are_exact::<S>();
}

/// All that happened at such nodes in all their runs, in which a line that changed no row may have come again, is a run of
/// their network too, where links carry nothing but what was sent. And whatever these runs answer, whole or in part, tells
/// of that alone. So each packet that they print is one that the node sent.
pub fn fed_nodes_are_told<S: Keeps>()
    ensures { FedNodesAreTold (keeper_of S.Kept.content S.Kept.is_honest S.Kept.refusals S.Kept.may_leave) (source_of S.may_refuse S.found) }
{
    nodes_can_start_again();
    openings_can_start_again();
    empty_is_held();
    fed_runs_are_told::<S>();
}
