//! Several events that a node does in memory, one after another, and whose changes are committed together.

ghost use Rattle.std.specs.Prelude.{◌≡◌, ◌≢◌, ◌++◌, [], IfErr, IfOk, OnErr, OnOk};
ghost use Rattle.stored_nodes.specs.Keepers.{Commits, Declines, keeper_of};
ghost use Rattle.stored_nodes.specs.Transactions.{AppliesInMemory, FailsInMemory, IsCarriedOutInMemory, IsPending};
ghost use Rattle.node_core.specs.States.{state_of};
ghost use Rattle.node_core.specs.Works.{IsPlanned, IsWork, MayDo, node_after};
ghost use Rattle.node_core.specs.declared.input.NodeInput.{NodeInput as NodeInputOf};
ghost use Rattle.node_store.specs.Faults.{IsCommitFault, counted_fault};

use crate::fault::StepFault;
use crate::stored_node::{Applied, StoredNode, commit};
use node_core::{Node, NodeInput, NodePlan, NodeWork};
use node_inputs::input_of;
use node_rows::laws::{alike_are_classes, changes_are_held, restarts_are_held};
use node_steps::copies;
use node_store::{Keep, LineNumber, StoreFault};
use ocpi_types::{Change, NodeEventKind};
use std::alloc::{AllocError, Global};
use std::marker::Model;
use stored_laws::laws::nodes_can_start_again;

/// A node that does events in memory, one after another, with its keeper, which is asked once, at the commit.
///
/// At any time the keeper has the rows of the node before the first event, and the changes are those of all events that
/// the node did since, in order. A stop leaves what it left before the first event.
pub struct Transaction<K: Keep> {
    pub(crate) alloc: Global,
    pub(crate) node: Node,
    pub(crate) keep: K,
    pub(crate) changes: Vec<Change>,
}

/// What a derive would do, in a function of its own: so it is proved once, and not in each function that drops one.
impl<K: Keep + Drop> Drop for Transaction<K> {
    fn drop(self) {
        let Transaction {
            alloc: _,
            node,
            keep,
            changes,
        } = self;
        drop(node);
        drop(keep);
        drop(changes);
    }
}

impl<K: Keep> Model for Transaction<K> {
    ghost use Rattle.std.specs.Coded.{codes};
    ghost use Rattle.std.specs.FinMap as map;
    ghost use Rattle.stored_nodes.specs.Keepers.{keeper_of};
    ghost use Rattle.stored_nodes.specs.Transactions.{IsPending, Pending};
    ghost use Rattle.node_core.specs.States.{state_of};

    ghost Value = { Pending K };

    ghost coded = { Prim.hlevel (codes, map.code, K.code) };

    ghost view = { λ t. record { state = state_of t.node; keep = t.keep; changes = t.changes.items } };

    ghost invariant = { λ t. IsPending
        (keeper_of K.content K.is_honest K.refusals K.may_leave)
        (record { state = state_of t.node; keep = t.keep; changes = t.changes.items }) };
}

/// A keeper that did not take the changes of a transaction, and why. The node has ended.
#[derive(Drop)]
pub struct Uncommitted<K> {
    pub keep: K,
    pub fault: StoreFault,
}

/// Puts equal changes behind those that are there. An error is want of memory, and leaves just those.
fn gather(alloc: Global, changes: &mut Vec<Change>, more: &[Change]) -> Result<(), AllocError>
    ensures gathers { OnOk result (changes.new.items ≡ changes.old.items ++ more.now) }
    ensures same { OnErr result (changes.new.items ≡ changes.old.items) }
{
    match copies(alloc, more) {
        Ok(mut copied) => {
            let added = changes.append(&mut copied);
            drop(copied);
            added
        }
        Err(_) => Err(AllocError),
    }
}

/// The node does its work in memory, once its changes are gathered. An error is want of memory, and changes nothing.
fn carry_out(
    alloc: Global,
    node: &mut Node,
    changes: &mut Vec<Change>,
    work: NodeWork,
) -> Result<Applied, AllocError>
    requires { MayDo (state_of node.old) work }
    ensures state { OnOk result (state_of node.new ≡ node_after work (state_of node.old)) }
    ensures ok { IfOk result (λ a. IsCarriedOutInMemory work changes.old.items a changes.new.items) }
    ensures same { OnErr result (state_of node.new ≡ state_of node.old) }
    ensures kept { OnErr result (changes.new.items ≡ changes.old.items) }
{
    match node.make_room(&work) {
        Ok(()) => {}
        Err(_) => {
            drop(work);
            return Err(AllocError);
        }
    }
    match gather(alloc, changes, work.changes()) {
        Ok(()) => {
            let changed = !work.changes().is_empty();
            let packets = node.apply(work);
            Ok(Applied::Stepped { packets, changed })
        }
        Err(_) => {
            drop(work);
            Err(AllocError)
        }
    }
}

impl<K: Keep> Transaction<K> {
    /// Something happens at the node: what comes of it is planned, all memory for it is taken, its changes are put
    /// behind those of the events before, and then it is carried out, which cannot fail. The keeper is not asked.
    ///
    /// Refused (`Core`) where the node refuses it, and (`Memory`) for want of memory. Then all is as it was, with what
    /// the events before have done.
    pub fn apply(&mut self, kind: &NodeEventKind) -> Result<Applied, StepFault>
        ensures ok { IfOk result (λ a. AppliesInMemory self.old kind.now a self.new) }
        ensures err { IfErr result (λ f. FailsInMemory self.old kind.now f self.new) }
    {
        let Some(input) = input_of(kind) else {
            return Ok(Applied::Stepped {
                packets: Vec::new(self.alloc),
                changed: false,
            });
        };
        match self.plan(&input) {
            Ok(NodePlan::Skipped) => Ok(Applied::Skipped),
            Ok(NodePlan::Refused(fault)) => Err(StepFault::Core(fault)),
            Ok(NodePlan::Acts(work)) => self.step(work),
            Err(_) => Err(StepFault::Memory),
        }
    }

    /// What comes of what reaches the node, before anything changes. An error is want of memory.
    fn plan(&self, input: &NodeInput<'_>) -> Result<NodePlan, AllocError>
        ensures { IfOk result (λ x. IsPlanned self.now.state input.now x) }
    {
        self.node.plan(input)
    }

    /// The node does its work in memory. The only refusal is want of memory, and changes nothing.
    fn step(&mut self, work: NodeWork) -> Result<Applied, StepFault>
        requires { (i : NodeInputOf) × IsWork self.old.state i work }
        ensures state { OnOk result (self.new.state ≡ node_after work self.old.state) }
        ensures ok { IfOk result (λ a. IsCarriedOutInMemory work self.old.changes a self.new.changes) }
        ensures keep { self.new.keep ≡ self.old.keep }
        ensures err { IfErr result (λ f. (f ≡ StepFault.Memory) × (self.new ≡ self.old)) }
    {
        match carry_out(self.alloc, &mut self.node, &mut self.changes, work) {
            Ok(applied) => Ok(applied),
            Err(_) => Err(StepFault::Memory),
        }
    }

    /// What holds of every transaction at any time, which its type keeps. It does nothing.
    pub fn is_pending(&self)
        ensures { IsPending (keeper_of K.content K.is_honest K.refusals K.may_leave) self.now }
    {
        let _changes = &self.changes;
    }

    /// Commits the changes of all events, in turn, with the number of their line where one is told: all of it or
    /// nothing. Where one key stands in several of them, the last one counts. Where there are no changes the keeper is not asked.
    ///
    /// Refused where the keeper does not take them, also for want of memory. Then the node has ended, and the keeper
    /// keeps what it kept. A stop leaves what it left before, or what all the changes make of it.
    pub fn commit(self, line: Option<LineNumber>) -> Result<StoredNode<K>, Uncommitted<K>>
        ensures ok { IfOk result (λ n. (n.state ≡ self.state)
            × Commits (keeper_of K.content K.is_honest K.refusals K.may_leave) line self.changes self.keep n.keep) }
        ensures err { IfErr result (λ u. IsCommitFault u.fault × (self.changes ≢ [])
            × Declines (keeper_of K.content K.is_honest K.refusals K.may_leave) line self.changes (counted_fault u.fault) self.keep u.keep) }
    {
        changes_are_held();
        nodes_can_start_again();
        restarts_are_held();
        alike_are_classes();
        let Transaction {
            alloc,
            node,
            mut keep,
            changes,
        } = self;
        let committed = commit(&mut keep, changes.as_slice(), line);
        drop(changes);
        match committed {
            Ok(_) => Ok(StoredNode { alloc, node, keep }),
            Err(fault) => {
                drop(node);
                Err(Uncommitted { keep, fault })
            }
        }
    }

    /// Its keeper, which keeps what it kept before the first event. The node ends, and nothing of the events is kept.
    pub fn abandon(self) -> K
        ensures { result ≡ self.keep }
    {
        let Transaction {
            alloc: _,
            node,
            keep,
            changes: unkept,
        } = self;
        drop(unkept);
        drop(node);
        keep
    }
}
