//! A node over its keeper, with the history of all that happened at it.

ghost use Rattle.std.specs.Prelude.{◌≡◌, [], Contains, IfErr, IfOk, true};
ghost use Rattle.std.specs.FinMap.{empty};
ghost use Rattle.stored_nodes.specs.Keepers.{IsSettled, KeepsOn, keeper_of};
ghost use Rattle.stored_nodes.specs.Stored.{IsKeptFor, IsNotBad, IsReopenFault};
ghost use Rattle.node_core.specs.States.{state_of};
ghost use Rattle.node_cells.specs.Cells.{Enters, IsCell, IsNotEntered, OpensAgain};
ghost use Rattle.ocpi_types.specs.Setups.{party_of};
ghost use Rattle.stored_laws.specs.Nodes.{restarted};
ghost use Rattle.world_laws.specs.Laws.{IsSetup};
ghost use Rattle.world_steps.specs.World.{NodeState, opening_of};

use crate::fault::CellFault;
use crate::stepping::enter;
use histories::{Entry, Packets};
use node_core::Node;
use node_rows::laws::changes_are_held;
use node_store::Keep;
use ocpi_text::Party;
use ocpi_types::{Node as SetupNode, NodeEventKind};
use row_table::Past;
use std::alloc::Global;
use std::marker::Model;
use stored_laws::laws::nodes_can_start_again;
use stored_nodes::{Reopened, StoredNode, Unopened};
use tables::HashSeed;

/// A node whose rows are kept, with all that happened at it since it was opened, up to 100,000 events.
///
/// At any time the node is what its history made of it, entry by entry, each by a step of its own; its keeper has just
/// its rows; and a stop leaves the rows that the history made, or that a beginning of it made behind which no row
/// changed, or, where a commit was refused since, what one event more would have made of these.
pub struct NodeCell<K: Keep> {
    alloc: Global,
    party: Party,
    stored: StoredNode<K>,
    history: Vec<Entry>,
    is_fresh: bool,
    first: Past<StoredNode<K>>,
}

/// What a derive would do, in a function of its own: so it is proved once, and not in each function that drops one.
impl<K: Keep + Drop> Drop for NodeCell<K> {
    fn drop(self) {
        let NodeCell {
            alloc: _,
            party: _,
            stored,
            history,
            is_fresh: _,
            first: _,
        } = self;
        drop(stored);
        drop(history);
    }
}

impl<K: Keep> Model for NodeCell<K> {
    ghost use Rattle.std.specs.Coded.{codes};
    ghost use Rattle.std.specs.FinMap as map;
    ghost use Rattle.std.specs.Prelude.{◌≡◌, length};
    ghost use Rattle.stored_nodes.specs.Keepers.{keeper_of};
    ghost use Rattle.node_cells.specs.Cells.{Cell, IsCell, cell_of};

    ghost Value = { Cell K };

    ghost coded = { Prim.hlevel (codes, map.code, K.code) };

    ghost view = { λ c. cell_of c.party c.first.items c.history.items c.is_fresh c.stored };

    ghost invariant = { λ c. IsCell
        (keeper_of K.content K.is_honest K.refusals K.may_leave)
        (cell_of c.party c.first.items c.history.items c.is_fresh c.stored)
        × (length c.first.items ≡ 1) };
}

impl<K: Keep> NodeCell<K> {
    /// A node of a setup before its first event, over a keeper that keeps nothing and of which a stop leaves nothing.
    /// An error is want of memory, and hands the keeper back.
    pub fn open(
        alloc: Global,
        seed: HashSeed,
        nodes: &[SetupNode],
        member: &SetupNode,
        keep: K,
    ) -> Result<NodeCell<K>, K>
        requires setup { IsSetup nodes.now }
        requires member { Contains nodes.now member.now }
        requires empty { K.is_honest keep → K.content keep ≡ empty }
        requires settled { IsSettled (keeper_of K.content K.is_honest K.refusals K.may_leave) keep }
        ensures ok { IfOk result (λ c. c ≡ record {
          party = party_of member.now;
          first = opening_of nodes.now member.now;
          state = opening_of nodes.now member.now;
          keep = keep;
          history = [];
          is_fresh = true;
        }) }
        ensures err { IfErr result (λ k. k ≡ keep) }
    {
        match StoredNode::open(alloc, seed, nodes, member, keep) {
            Ok(stored) => {
                stored.is_stored();
                let first = Past::new().note(&stored);
                Ok(NodeCell {
                    alloc,
                    party: *member.party(),
                    stored,
                    history: Vec::new(alloc),
                    is_fresh: true,
                    first,
                })
            }
            Err(keep) => Err(keep),
        }
    }

    /// A node of a setup that has the rows that are kept, as it starts again, over a keeper of which a stop leaves just
    /// what it keeps, as of one that was just opened. It is not fresh: what happened before is in no history. A refusal
    /// hands the keeper back, which keeps what it kept.
    pub fn reopen(
        alloc: Global,
        seed: HashSeed,
        nodes: &[SetupNode],
        member: &SetupNode,
        keep: K,
    ) -> Result<NodeCell<K>, Unopened<K>>
        requires setup { IsSetup nodes.now }
        requires member { Contains nodes.now member.now }
        requires settled { IsSettled (keeper_of K.content K.is_honest K.refusals K.may_leave) keep }
        ensures ok { IfOk result (λ c. OpensAgain (keeper_of K.content K.is_honest K.refusals K.may_leave) nodes.now member.now keep c) }
        // Where the rows that are kept are those of a node of the setup, that node starts again.
        ensures again { IfOk result (λ c. K.is_honest c.keep → (s : NodeState)
            → IsKeptFor nodes.now member.now (K.content keep) s → c.state ≡ restarted s) }
        ensures good { IfErr result (λ e. K.is_honest e.keep → (s : NodeState)
            → IsKeptFor nodes.now member.now (K.content keep) s → IsNotBad e.fault) }
        ensures err { IfErr result (λ e. IsReopenFault (keeper_of K.content K.is_honest K.refusals K.may_leave) nodes.now member.now keep e.fault e.keep) }
        ensures kept { IfErr result (λ e. KeepsOn (keeper_of K.content K.is_honest K.refusals K.may_leave) keep e.keep) }
    {
        match StoredNode::reopen(alloc, seed, nodes, member, keep) {
            Ok(reopened) => {
                let Reopened {
                    node,
                    rows: _,
                    line: _,
                } = reopened;
                node.is_stored();
                let first = Past::new().note(&node);
                Ok(NodeCell {
                    alloc,
                    party: *member.party(),
                    stored: node,
                    history: Vec::new(alloc),
                    is_fresh: false,
                    first,
                })
            }
            Err(unopened) => Err(unopened),
        }
    }

    /// What holds of every cell at any time, which its type keeps. It does nothing.
    pub fn is_replay(&self)
        ensures { IsCell (keeper_of K.content K.is_honest K.refusals K.may_leave) self.now }
    {
        let _is_fresh = &self.is_fresh;
    }

    /// Whose node it is, as its setup spells it. It takes no memory.
    pub fn party(&self) -> &Party
        ensures { result.now ≡ self.now.party }
    {
        &self.party
    }

    /// Whether it was opened before any event, so that its history is all that ever happened at the node. It takes no
    /// memory.
    pub fn is_fresh(&self) -> bool
        ensures { result ≡ self.now.is_fresh }
    {
        self.is_fresh
    }

    /// What happened since it was opened, oldest first: at most 100,000 entries. It takes no memory.
    pub fn history(&self) -> &[Entry]
        ensures { result.now ≡ self.now.history }
    {
        self.history.as_slice()
    }

    /// The node, as the last event left it.
    pub fn node(&self) -> &Node
        ensures { state_of result.now ≡ self.now.state }
    {
        self.stored.node()
    }

    /// Something happens at the node, and is entered with the packets that it sends, which are answered. What comes of
    /// it is planned; all memory for it, and for its entry, is taken; its changes are committed; and then it is carried
    /// out, which cannot fail. An event that is none of the node's role, and one whose storing was refused elsewhere,
    /// change nothing, and are entered.
    ///
    /// Refused (`TraceFull`) where the history has 100,000 entries, (`Core`) where the node refuses it, (`Store`) where
    /// the keeper refuses its changes, and (`Memory`) for want of memory. A refusal enters nothing. The node is as it
    /// was, and what is kept too; only a stop may, after `Store` or where the keeper ran out of memory, leave what the
    /// event would have made of it.
    pub fn apply(&mut self, event: NodeEventKind) -> Result<Packets, CellFault>
        ensures ok { IfOk result (λ packets. Enters (keeper_of K.content K.is_honest K.refusals K.may_leave)
            self.old (record { event = event; packets = packets }) self.new) }
        ensures err { IfErr result (λ fault. IsNotEntered (keeper_of K.content K.is_honest K.refusals K.may_leave) self.old event fault self.new) }
    {
        changes_are_held();
        nodes_can_start_again();
        let entered = enter(self.alloc, &mut self.stored, &mut self.history, event);
        self.stored.is_stored();
        entered
    }

    /// Its keeper. The node and its history end.
    pub fn into_keep(self) -> K
        ensures { result ≡ self.keep }
    {
        let NodeCell {
            alloc: _,
            party: _,
            stored,
            history,
            is_fresh: _,
            first: _,
        } = self;
        drop(history);
        stored.into_keep()
    }
}
