//! What an event makes of a node over its keeper, with all memory for its entry taken before.

ghost use Rattle.std.specs.Prelude.{◌≡◌, ◌<◌, ◌≤◌, ◌+◌, ◌++◌, ◌∷◌, [], IfErr, IfOk, None, OnErr, OnOk, length, vec_capacity};
ghost use Rattle.stored_nodes.specs.Keepers.{Commits, keeper_of};
ghost use Rattle.stored_nodes.specs.Stored.{Fails, IsNotCarriedOut};
ghost use Rattle.node_core.specs.Works.{IsWork, changes_by, node_after, packets_by};
ghost use Rattle.node_core.specs.declared.input.NodeInput.{NodeInput as NodeInputOf};
ghost use Rattle.node_cells.specs.Cells.{Adds, IsNoRoom, IsNotDone, StoredStep, most_entries};

use crate::fault::{CellFault, cell_fault};
use histories::{Entry, Packets, copies};
use node_core::{NodePlan, NodeWork};
use node_inputs::input_of;
use node_store::Keep;
use ocpi_types::NodeEventKind;
use std::alloc::Global;
use stored_nodes::{Applied, ApplyFault, StoredNode};

/// The most entries of a history.
pub const MOST_ENTRIES: usize = 100_000;

/// What a node sent, once to be answered and once to be entered.
#[derive(Drop)]
struct Sent {
    packets: Packets,
    entered: Packets,
}

/// Nothing was sent.
fn nothing_sent(alloc: Global) -> Sent
    ensures packets { result.packets ≡ [] }
    ensures entered { result.entered ≡ [] }
{
    Sent {
        packets: Packets::new(Vec::new(alloc)),
        entered: Packets::new(Vec::new(alloc)),
    }
}

/// The node does its work, once its packets are copied and its changes are committed. A refusal changes nothing.
fn carry_out<K: Keep>(
    alloc: Global,
    stored: &mut StoredNode<K>,
    work: NodeWork,
) -> Result<Sent, ApplyFault>
    requires { (i : NodeInputOf) × IsWork stored.old.state i work }
    ensures state { OnOk result (stored.new.state ≡ node_after work stored.old.state) }
    ensures packets { IfOk result (λ x. x.packets ≡ packets_by work) }
    ensures entered { IfOk result (λ x. x.entered ≡ packets_by work) }
    ensures commits { OnOk result (Commits (keeper_of K.content K.is_honest K.refusals K.may_leave) None (changes_by work) stored.old.keep stored.new.keep) }
    ensures same { OnErr result (stored.new.state ≡ stored.old.state) }
    ensures err { IfErr result (λ f. IsNotCarriedOut (keeper_of K.content K.is_honest K.refusals K.may_leave) None work stored.old.keep f stored.new.keep) }
{
    let Ok(entered) = copies(alloc, work.packets()) else {
        return Err(ApplyFault::Memory);
    };
    match stored.carry_out(work, None) {
        Ok(Applied::Stepped { packets, .. }) => Ok(Sent {
            packets: Packets::new(packets),
            entered: Packets::new(entered),
        }),
        Ok(Applied::Skipped) => unreachable!(),
        Err(fault) => Err(fault),
    }
}

/// What comes of an event at a node, which is done where the node does it. A refusal changes nothing.
fn step<K: Keep>(
    alloc: Global,
    stored: &mut StoredNode<K>,
    event: &NodeEventKind,
) -> Result<Sent, ApplyFault>
    ensures ok { IfOk result (λ x. StoredStep (keeper_of K.content K.is_honest K.refusals K.may_leave) stored.old (record { event = event.now; packets = x.entered }) stored.new) }
    ensures alike { IfOk result (λ x. x.packets ≡ x.entered) }
    ensures err { IfErr result (λ f. Fails (keeper_of K.content K.is_honest K.refusals K.may_leave) None stored.old event.now f stored.new) }
{
    let Some(input) = input_of(event) else {
        return Ok(nothing_sent(alloc));
    };
    match stored.plan(&input) {
        Ok(NodePlan::Skipped) => Ok(nothing_sent(alloc)),
        Ok(NodePlan::Refused(fault)) => Err(ApplyFault::Core(fault)),
        Ok(NodePlan::Acts(work)) => carry_out(alloc, stored, work),
        Err(_) => Err(ApplyFault::Memory),
    }
}

/// Room for one entry more.
fn make_room(history: &mut Vec<Entry>) -> Result<(), CellFault>
    ensures same { history.new.items ≡ history.old.items }
    ensures few { OnOk result (length history.new.items < most_entries) }
    ensures room { OnOk result (length history.new.items + 1 ≤ vec_capacity history.new) }
    ensures err { IfErr result (IsNoRoom history.old.items) }
{
    if history.len() >= MOST_ENTRIES {
        return Err(CellFault::TraceFull);
    }
    match history.reserve(1) {
        Ok(()) => Ok(()),
        Err(_) => Err(CellFault::Memory),
    }
}

/// Adds an entry to a history that has room for it.
fn push_entry(history: &mut Vec<Entry>, event: NodeEventKind, packets: Packets)
    requires { length history.old.items + 1 ≤ vec_capacity history.old }
    ensures { history.new.items ≡ history.old.items ++ record { event = event; packets = packets } ∷ [] }
{
    match history.push(Entry { event, packets }) {
        Ok(()) => {}
        Err(_) => unreachable!(),
    }
}

/// Something happens at a node over its keeper, and is entered with what the node sends, which is answered. A refusal
/// enters nothing.
pub(crate) fn enter<K: Keep>(
    alloc: Global,
    stored: &mut StoredNode<K>,
    history: &mut Vec<Entry>,
    event: NodeEventKind,
) -> Result<Packets, CellFault>
    ensures ok { IfOk result (λ p. Adds (keeper_of K.content K.is_honest K.refusals K.may_leave)
        stored.old history.old.items (record { event = event; packets = p }) stored.new history.new.items) }
    ensures err { IfErr result (λ f. IsNotDone (keeper_of K.content K.is_honest K.refusals K.may_leave) stored.old history.old.items event f stored.new) }
    ensures same { OnErr result (history.new.items ≡ history.old.items) }
{
    if let Err(fault) = make_room(history) {
        return Err(fault);
    }
    match step(alloc, stored, &event) {
        Ok(sent) => {
            let Sent { packets, entered } = sent;
            push_entry(history, event, entered);
            Ok(packets)
        }
        Err(fault) => Err(cell_fault(fault)),
    }
}
