//! What a commit that was refused leaves of several events.

ghost use Rattle.stored_nodes.specs.Keepers.{keeper_of};
ghost use Rattle.stored_nodes.specs.Transactions.{LeavesAllOrNothing, LeavesTheseEvents};

use node_rows::laws::changes_are_held;
use node_store::Keep;
use stored_laws::laws::nodes_can_start_again;

/// Where a keeper did not take the changes of several events, it keeps the rows of the node before them. A stop leaves
/// that, or what one event that was refused earlier would have made of it, or the rows of the node after all of them.
pub fn refused_commits_leave_all_or_nothing<K: Keep>()
    ensures { LeavesAllOrNothing (keeper_of K.content K.is_honest K.refusals K.may_leave) }
{
    changes_are_held();
    nodes_can_start_again();
}

/// Where the commit before was taken, or the keeper was just opened, a stop leaves what is kept, or what these very events
/// make of it, with the number of their line.
pub fn refused_commits_leave_their_events<K: Keep>()
    ensures { LeavesTheseEvents (keeper_of K.content K.is_honest K.refusals K.may_leave) }
{
    changes_are_held();
    nodes_can_start_again();
}
