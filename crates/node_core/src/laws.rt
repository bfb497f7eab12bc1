//! The laws of a node's work.

ghost use Rattle.node_core.specs.Laws.{MembersStay, WorkChangesRows, WorkIsAStep};

/// Work that was planned may be done, and is a step of the node by the definition: its packets and its changes are
/// those of the step.
pub fn work_is_a_step()
    ensures { WorkIsAStep }
{}

/// No two changes of work are of one row, and they lead from the rows of the node before it to those after it.
pub fn work_changes_rows()
    ensures { WorkChangesRows }
{}

/// The node of a member of a setup is opened with what the member has, and keeps it whatever it does.
pub fn members_stay()
    ensures { MembersStay }
{}
