//! What comes of a plan.

ghost use Rattle.std.specs.Prelude.{◌≡◌};
ghost use Rattle.node_core.specs.Works.{changes_by, packets_by};

use node_steps::{NodeFault, Plan};
use ocpi_types::{Change, Packet};
use operator_rows::FullPlan;

/// What a node is to do: what an operator or a provider planned, or to start again.
#[derive(Drop)]
pub enum NodeWork {
    Operator(FullPlan),
    Provider(Plan),
    Restart,
}

impl NodeWork {
    /// The rows that it changes, in order. A restart changes none.
    pub fn changes(&self) -> &[Change]
        ensures { result.now ≡ changes_by self.now }
    {
        match self {
            NodeWork::Operator(full) => full.plan.changes.as_slice(),
            NodeWork::Provider(plan) => plan.changes.as_slice(),
            NodeWork::Restart => &[],
        }
    }

    /// The packets that it sends, in order. A restart sends none.
    pub fn packets(&self) -> &[Packet]
        ensures { result.now ≡ packets_by self.now }
    {
        match self {
            NodeWork::Operator(full) => full.plan.packets.as_slice(),
            NodeWork::Provider(plan) => plan.packets.as_slice(),
            NodeWork::Restart => &[],
        }
    }
}

/// What comes of what reaches a node.
#[derive(Drop)]
pub enum NodePlan {
    /// It is not for a node of this role.
    Skipped,
    /// The node refuses it, for a reason that is not want of memory.
    Refused(NodeFault),
    /// The node is to do this.
    Acts(NodeWork),
}
