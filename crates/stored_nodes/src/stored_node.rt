//! A node, and the keeper of its rows.

ghost use Rattle.std.specs.Prelude.{◌≡◌, ◌↔◌, ◌≢◌, List, ℕ, Contains, IfErr, IfOk, IsTrue, OnErr, OnOk, []};
ghost use Rattle.std.specs.FinMap.{empty};
ghost use Rattle.stored_nodes.specs.Keepers.{Commits, Declines, IsLine, IsSettled, KeepsOn, keeper_of};
ghost use Rattle.stored_nodes.specs.Stored.{
  Applies,
  Fails,
  IsCarriedOut,
  IsKeptFor,
  IsNotBad,
  IsNotCarriedOut,
  IsReopenFault,
  IsStored,
  Reopens,
  unloaded,
  unmade,
};
ghost use Rattle.node_core.specs.States.{state_of};
ghost use Rattle.node_core.specs.Works.{IsPlanned, IsWork, MayDo, changes_by, node_after};
ghost use Rattle.node_core.specs.declared.input.NodeInput.{NodeInput as NodeInputOf};
ghost use Rattle.node_rows.specs.Holds.{HoldsRows};
ghost use Rattle.node_store.specs.Faults.{IsCommitFault, counted_fault};
ghost use Rattle.stored_laws.specs.Nodes.{restarted};
ghost use Rattle.world_laws.specs.Laws.{IsSetup};
ghost use Rattle.world_steps.specs.World.{NodeState, opening_of};

use crate::fault::{ApplyFault, ReopenFault};
use crate::transaction::Transaction;
use node_core::{Node, NodeInput, NodePlan, NodeWork};
use node_inputs::input_of;
use node_rows::laws::{alike_are_classes, changes_are_held, restarts_are_held};
use node_store::{Keep, Kept, LineNumber, StoreFault};
use ocpi_text::Whole;
use ocpi_types::{Change, Node as SetupNode, NodeEventKind, Packet};
use std::alloc::{AllocError, Global};
use std::marker::Model;
use stored_laws::laws::nodes_can_start_again;
use stored_rows::RowsFault;
use tables::HashSeed;

/// A node whose rows are kept.
///
/// At any time its keeper has just the node's rows. A stop leaves these, or, where a commit was refused since the last
/// one with changes, what one event more would have made of them. It keeps no history, so that it may run for years.
pub struct StoredNode<K: Keep> {
    pub(crate) alloc: Global,
    pub(crate) node: Node,
    pub(crate) keep: K,
}

/// What a derive would do, in a function of its own: so it is proved once, and not in each function that drops one.
impl<K: Keep + Drop> Drop for StoredNode<K> {
    fn drop(self) {
        let StoredNode {
            alloc: _,
            node: ended,
            keep,
        } = self;
        drop(ended);
        drop(keep);
    }
}

impl<K: Keep> Model for StoredNode<K> {
    ghost use Rattle.std.specs.Coded.{codes};
    ghost use Rattle.std.specs.FinMap as map;
    ghost use Rattle.stored_nodes.specs.Keepers.{keeper_of};
    ghost use Rattle.stored_nodes.specs.Stored.{IsStored, Stored};
    ghost use Rattle.node_core.specs.States.{state_of};
    ghost use Rattle.node_core.specs.Works.{IsPlanned, IsWork, MayDo, changes_by, node_after};
    ghost use Rattle.node_core.specs.declared.input.NodeInput.{NodeInput as NodeInputOf};

    ghost Value = { Stored K };

    ghost coded = { Prim.hlevel (codes, map.code, K.code) };

    ghost view = { λ n. record { state = state_of n.node; keep = n.keep } };

    ghost invariant = { λ n. IsStored (keeper_of K.content K.is_honest K.refusals K.may_leave) (record { state = state_of n.node; keep = n.keep }) };
}

/// What became of an event.
#[derive(Drop)]
pub enum Applied {
    /// It is no event of this node's role. Nothing changed.
    Skipped,
    /// The node did it.
    Stepped {
        /// What is to be sent, in order.
        packets: Vec<Packet>,
        /// Whether rows changed. They were committed before; those of a transaction are at its end.
        changed: bool,
    },
}

/// A node that was made of what is kept.
#[derive(Drop)]
pub struct Reopened<K: Keep> {
    pub node: StoredNode<K>,
    /// The number of rows that were kept.
    pub rows: usize,
    /// The number of the last line that took hold, 1 where none did.
    pub line: Whole,
}

/// A keeper of which no node was made, and why.
#[derive(Drop)]
pub struct Unopened<K> {
    pub keep: K,
    pub fault: ReopenFault,
}

/// What holds of the number of a line, which its type keeps. It does nothing.
fn is_line(line: &Option<LineNumber>)
    ensures { IsLine line.now }
{
    if let Some(number) = line {
        let _number = number.value();
    }
}

/// Commits changes with the number of their line, where there are changes, and says whether there are. A refusal
/// changes nothing.
pub(crate) fn commit<K: Keep>(
    keep: &mut K,
    changes: &[Change],
    line: Option<LineNumber>,
) -> Result<bool, StoreFault>
    ensures ok { IfOk result (λ changed. (IsTrue changed ↔ (changes.now ≢ []))
        × Commits (keeper_of K.content K.is_honest K.refusals K.may_leave) line changes.now keep.old keep.new) }
    ensures err { IfErr result (λ f. IsCommitFault f × (changes.now ≢ [])
        × Declines (keeper_of K.content K.is_honest K.refusals K.may_leave) line changes.now (counted_fault f) keep.old keep.new) }
{
    if changes.is_empty() {
        return Ok(false);
    }
    is_line(&line);
    match keep.commit(changes, line) {
        Ok(()) => Ok(true),
        Err(fault) => Err(fault),
    }
}

/// The node does its work, once its changes are committed.
fn carry_out<K: Keep>(
    node: &mut Node,
    keep: &mut K,
    work: NodeWork,
    line: Option<LineNumber>,
) -> Result<Applied, ApplyFault>
    requires { MayDo (state_of node.old) work }
    ensures state { OnOk result (state_of node.new ≡ node_after work (state_of node.old)) }
    ensures ok { IfOk result (λ a. IsCarriedOut (keeper_of K.content K.is_honest K.refusals K.may_leave) line work keep.old a keep.new) }
    ensures same { OnErr result (state_of node.new ≡ state_of node.old) }
    ensures err { IfErr result (λ f. IsNotCarriedOut (keeper_of K.content K.is_honest K.refusals K.may_leave) line work keep.old f keep.new) }
{
    match node.make_room(&work) {
        Ok(()) => {}
        Err(_) => {
            drop(work);
            return Err(ApplyFault::Memory);
        }
    }
    match commit(keep, work.changes(), line) {
        Ok(changed) => {
            let packets = node.apply(work);
            Ok(Applied::Stepped { packets, changed })
        }
        Err(fault) => {
            drop(work);
            Err(ApplyFault::Store(fault))
        }
    }
}

/// Why no node is made where a keeper did not tell its rows.
fn unloaded(fault: StoreFault) -> ReopenFault
    ensures { result ≡ unloaded fault }
{
    match fault {
        StoreFault::Memory => ReopenFault::Memory,
        StoreFault::Refused(cause) => ReopenFault::Store(StoreFault::Refused(cause)),
        StoreFault::BadRow => ReopenFault::Store(StoreFault::BadRow),
        StoreFault::OldLayout => ReopenFault::Store(StoreFault::OldLayout),
    }
}

/// Why none is made of the rows that it told.
fn unmade(fault: RowsFault) -> ReopenFault
    ensures { result ≡ unmade fault }
{
    match fault {
        RowsFault::BadRows(bad) => ReopenFault::BadRows(bad),
        RowsFault::Memory => ReopenFault::Memory,
    }
}

impl<K: Keep> StoredNode<K> {
    /// A node of a setup before its first event, over a keeper that keeps nothing and of which a stop leaves nothing.
    /// An error is want of memory, and hands the keeper back.
    pub fn open(
        alloc: Global,
        seed: HashSeed,
        nodes: &[SetupNode],
        member: &SetupNode,
        keep: K,
    ) -> Result<StoredNode<K>, K>
        requires setup { IsSetup nodes.now }
        requires member { Contains nodes.now member.now }
        requires empty { K.is_honest keep → K.content keep ≡ empty }
        requires settled { IsSettled (keeper_of K.content K.is_honest K.refusals K.may_leave) keep }
        ensures ok { IfOk result (λ n. n ≡ record { state = opening_of nodes.now member.now; keep = keep }) }
        ensures err { IfErr result (λ k. k ≡ keep) }
    {
        match Node::open(alloc, seed, nodes, member) {
            Ok(node) => Ok(StoredNode { alloc, node, keep }),
            Err(_) => Err(keep),
        }
    }

    /// A node of a setup that has the rows that are kept, as it starts again, over a keeper of which a stop leaves just
    /// what it keeps, as of one that was just opened. A refusal hands the keeper back, which keeps what it kept.
    pub fn reopen(
        alloc: Global,
        seed: HashSeed,
        nodes: &[SetupNode],
        member: &SetupNode,
        mut keep: K,
    ) -> Result<Reopened<K>, Unopened<K>>
        requires setup { IsSetup nodes.now }
        requires member { Contains nodes.now member.now }
        requires settled { IsSettled (keeper_of K.content K.is_honest K.refusals K.may_leave) keep }
        ensures ok { IfOk result (λ r. Reopens (keeper_of K.content K.is_honest K.refusals K.may_leave) nodes.now member.now keep r.rows r.line r.node) }
        // Where the rows that are kept are those of a node of the setup, that node starts again.
        ensures again { IfOk result (λ r. K.is_honest r.node.keep → (s : NodeState)
            → IsKeptFor nodes.now member.now (K.content keep) s → r.node.state ≡ restarted s) }
        ensures good { IfErr result (λ e. K.is_honest e.keep → (s : NodeState)
            → IsKeptFor nodes.now member.now (K.content keep) s → IsNotBad e.fault) }
        ensures err { IfErr result (λ e. IsReopenFault (keeper_of K.content K.is_honest K.refusals K.may_leave) nodes.now member.now keep e.fault e.keep) }
        ensures kept { IfErr result (λ e. KeepsOn (keeper_of K.content K.is_honest K.refusals K.may_leave) keep e.keep) }
    {
        let Kept { rows, line } = match keep.load() {
            Ok(kept) => kept,
            Err(fault) => {
                return Err(Unopened {
                    keep,
                    fault: unloaded(fault),
                });
            }
        };
        let count = rows.len();
        match Node::from_rows(alloc, seed, nodes, member, rows) {
            Ok(node) => {
                node.is_sound();
                Ok(Reopened {
                    node: StoredNode { alloc, node, keep },
                    rows: count,
                    line,
                })
            }
            Err(fault) => Err(Unopened {
                keep,
                fault: unmade(fault),
            }),
        }
    }

    /// Something happens at the node: what comes of it is planned, all memory for it is taken, its changes are
    /// committed, with the number of their line where one is told, and then it is carried out, which cannot fail.
    ///
    /// Refused (`Core`) where the node refuses it, (`Memory`) for want of memory in the node, before the keeper is
    /// asked, and (`Store`) where the keeper does not take its changes, also for want of memory. After `Core` and
    /// `Memory` all is as it was, the keeper too. After `Store` the node is, and the keeper keeps what it kept; only a
    /// stop may then leave what the event would have made of it.
    pub fn apply(
        &mut self,
        kind: &NodeEventKind,
        line: Option<LineNumber>,
    ) -> Result<Applied, ApplyFault>
        ensures ok { IfOk result (λ a. Applies (keeper_of K.content K.is_honest K.refusals K.may_leave) line self.old kind.now a self.new) }
        ensures err { IfErr result (λ f. Fails (keeper_of K.content K.is_honest K.refusals K.may_leave) line self.old kind.now f self.new) }
    {
        let Some(input) = input_of(kind) else {
            return Ok(Applied::Stepped {
                packets: Vec::new(self.alloc),
                changed: false,
            });
        };
        match self.plan(&input) {
            Ok(NodePlan::Skipped) => Ok(Applied::Skipped),
            Ok(NodePlan::Refused(fault)) => Err(ApplyFault::Core(fault)),
            Ok(NodePlan::Acts(work)) => self.carry_out(work, line),
            Err(_) => Err(ApplyFault::Memory),
        }
    }

    /// What comes of what reaches the node, before anything changes. An error is want of memory.
    pub fn plan(&self, input: &NodeInput<'_>) -> Result<NodePlan, AllocError>
        ensures { IfOk result (λ x. IsPlanned self.now.state input.now x) }
    {
        self.node.plan(input)
    }

    /// The node does its work, once its changes are committed, with the number of their line where one is told. A
    /// refusal changes nothing.
    pub fn carry_out(
        &mut self,
        work: NodeWork,
        line: Option<LineNumber>,
    ) -> Result<Applied, ApplyFault>
        requires { (i : NodeInputOf) × IsWork self.old.state i work }
        ensures state { OnOk result (self.new.state ≡ node_after work self.old.state) }
        ensures ok { IfOk result (λ a. IsCarriedOut (keeper_of K.content K.is_honest K.refusals K.may_leave) line work self.old.keep a self.new.keep) }
        ensures same { OnErr result (self.new.state ≡ self.old.state) }
        ensures err { IfErr result (λ f. IsNotCarriedOut (keeper_of K.content K.is_honest K.refusals K.may_leave) line work self.old.keep f self.new.keep) }
    {
        changes_are_held();
        nodes_can_start_again();
        restarts_are_held();
        alike_are_classes();
        carry_out(&mut self.node, &mut self.keep, work, line)
    }

    /// What holds of every node over its keeper at any time, which its type keeps. It does nothing.
    pub fn is_stored(&self)
        ensures { IsStored (keeper_of K.content K.is_honest K.refusals K.may_leave) self.now }
    {
        let _keep = &self.keep;
    }

    /// The node in a transaction, before its first event. The keeper is not asked, and no memory is taken.
    pub fn begin(self) -> Transaction<K>
        ensures { result ≡ record { state = self.state; keep = self.keep; changes = [] } }
    {
        let StoredNode { alloc, node, keep } = self;
        Transaction {
            alloc,
            node,
            keep,
            changes: Vec::new(alloc),
        }
    }

    /// The node, as the last event left it.
    pub fn node(&self) -> &Node
        ensures { state_of result.now ≡ self.now.state }
    {
        &self.node
    }

    /// Its keeper. The node ends.
    pub fn into_keep(self) -> K
        ensures { result ≡ self.keep }
    {
        let StoredNode {
            alloc: _,
            node,
            keep,
        } = self;
        drop(node);
        keep
    }
}
