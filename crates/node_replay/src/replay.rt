//! A node that is made of rows, and carried through events.

ghost use Rattle.std.specs.Prelude.{◌≡◌, Contains, IfErr, IfOk, OnErr};
ghost use Rattle.node_core.specs.Members.{IsBadFor, IsMadeOfRows, StartsAgainFrom};
ghost use Rattle.node_core.specs.States.{state_of};
ghost use Rattle.node_replay.specs.Replayed.{Adds, Fails};
ghost use Rattle.stored_laws.specs.Nodes.{AreNodeRows, CanStartAgain, last_serial, restarted};
ghost use Rattle.stored_rows.specs.Faults.{IfBadRows};
ghost use Rattle.world_laws.specs.Laws.{IsSetup};
ghost use Rattle.world_steps.specs.World.{NodeState};

use crate::outcome::{ReplayFault, Replayed};
use crate::stepping::enter;
use histories::Entry;
use node_core::Node;
use ocpi_text::Whole;
use ocpi_types::{Node as SetupNode, NodeEventKind, Row};
use std::alloc::{AllocError, Global};
use std::marker::Model;
use stored_laws::laws::nodes_can_start_again;
use stored_rows::RowsFault;
use tables::HashSeed;

/// A node of a setup that was made of rows, and carried through events since. Nothing keeps its rows.
pub struct NodeReplay {
    alloc: Global,
    node: Node,
}

/// What a derive would do, in a function of its own: so it is proved once, and not in each function that drops one.
impl Drop for NodeReplay {
    fn drop(self) {
        let NodeReplay { alloc: _, node } = self;
        drop(node);
    }
}

impl Model for NodeReplay {
    ghost use Rattle.std.specs.Coded.{codes};
    ghost use Rattle.std.specs.FinMap as map;
    ghost use Rattle.node_core.specs.States.{state_of};
    ghost use Rattle.stored_laws.specs.Nodes.{CanStartAgain};
    ghost use Rattle.world_steps.specs.World.{NodeState};

    ghost Value = { NodeState };

    ghost coded = { Prim.hlevel (codes, map.code) };

    ghost view = { λ r. state_of r.node };

    ghost invariant = { λ r. CanStartAgain (state_of r.node) };
}

impl NodeReplay {
    /// The node of a setup that has just these rows, in whatever order they come, as it starts again. Refused as
    /// `Node::from_rows` is.
    pub fn from_rows(
        alloc: Global,
        seed: HashSeed,
        nodes: &[SetupNode],
        member: &SetupNode,
        rows: Vec<Row>,
    ) -> Result<NodeReplay, RowsFault>
        requires setup { IsSetup nodes.now }
        requires member { Contains nodes.now member.now }
        ensures made { IfOk result (λ r. IsMadeOfRows nodes.now member.now rows.items r) }
        ensures bad { IfErr result (IfBadRows (IsBadFor nodes.now member.now rows.items)) }
        ensures again { (s : NodeState) → CanStartAgain s → StartsAgainFrom nodes.now member.now rows.items s → IfOk result (λ r. r ≡ restarted s) }
        ensures good { (s : NodeState) → CanStartAgain s → StartsAgainFrom nodes.now member.now rows.items s → IfErr result (λ e. e ≡ RowsFault.Memory) }
    {
        match Node::from_rows(alloc, seed, nodes, member, rows) {
            Ok(node) => {
                node.is_sound();
                Ok(NodeReplay { alloc, node })
            }
            Err(fault) => Err(fault),
        }
    }

    /// What holds of each at any time, which its type keeps. It does nothing.
    pub fn can_start_again(&self)
        ensures { CanStartAgain self.now }
    {
        let _node = &self.node;
    }

    /// All rows that it stores now, each once. An error is want of memory.
    pub fn stored(&self) -> Result<Vec<Row>, AllocError>
        ensures { IfOk result (λ rows. AreNodeRows rows.items self.now) }
    {
        self.node.stored()
    }

    /// The serial of the last packet that it sent, 0 where it sent none. It takes no memory.
    pub fn last_serial(&self) -> Whole
        ensures { result ≡ last_serial self.now }
    {
        self.node.last_serial()
    }

    /// Something happens at the node, and is entered behind `entries`, with the packets that it sends. An event whose
    /// storing was refused elsewhere changes nothing, and is entered too. One that is none of the node's role is
    /// skipped: nothing is entered.
    ///
    /// Refused (`Core`) where the node refuses it, and (`Memory`) for want of memory. A refusal enters nothing, and
    /// changes nothing.
    pub fn apply(
        &mut self,
        event: NodeEventKind,
        entries: &mut Vec<Entry>,
    ) -> Result<Replayed, ReplayFault>
        ensures ok { IfOk result (λ r. Adds self.old entries.old.items event r self.new entries.new.items) }
        ensures err { IfErr result (Fails self.old event) }
        ensures state { OnErr result (self.new ≡ self.old) }
        ensures entries { OnErr result (entries.new.items ≡ entries.old.items) }
    {
        nodes_can_start_again();
        enter(self.alloc, &mut self.node, entries, event)
    }
}
