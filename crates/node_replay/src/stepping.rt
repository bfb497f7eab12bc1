//! What an event makes of a node, with all memory for its entry taken before.

ghost use Rattle.std.specs.Prelude.{◌≡◌, ◌≢◌, ◌≤◌, ◌+◌, ◌++◌, ◌∷◌, ◌↔◌, [], IfErr, IfOk, IsTrue, OnErr, OnOk, length, vec_capacity};
ghost use Rattle.node_core.specs.States.{state_of};
ghost use Rattle.node_core.specs.Works.{IsWork, changes_by, node_after, packets_by};
ghost use Rattle.node_core.specs.declared.input.NodeInput.{NodeInput as NodeInputOf};
ghost use Rattle.node_replay.specs.Replayed.{Adds, Fails, IsStep};

use crate::outcome::{ReplayFault, Replayed};
use histories::{Entry, Packets};
use node_core::{Node, NodePlan, NodeWork};
use node_inputs::input_of;
use ocpi_types::NodeEventKind;
use std::alloc::{AllocError, Global};

/// What a node did: what it sent, and whether rows changed.
#[derive(Drop)]
pub(crate) struct Done {
    packets: Packets,
    changed: bool,
}

/// Whether work changes a row.
fn changes_rows(work: &NodeWork) -> bool
    ensures { IsTrue result ↔ (changes_by work.now ≢ []) }
{
    !work.changes().is_empty()
}

/// The node does its work. An error is want of memory, and changes nothing.
fn carry_out(node: &mut Node, work: NodeWork) -> Result<Done, AllocError>
    requires { (i : NodeInputOf) × IsWork (state_of node.old) i work }
    ensures state { OnOk result (state_of node.new ≡ node_after work (state_of node.old)) }
    ensures packets { IfOk result (λ d. d.packets ≡ packets_by work) }
    ensures changed { IfOk result (λ d. IsTrue d.changed ↔ (changes_by work ≢ [])) }
    ensures same { OnErr result (state_of node.new ≡ state_of node.old) }
{
    match node.make_room(&work) {
        Ok(()) => {}
        Err(_) => {
            drop(work);
            return Err(AllocError);
        }
    }
    let changed = changes_rows(&work);
    Ok(Done {
        packets: Packets::new(node.apply(work)),
        changed,
    })
}

/// What comes of an event at a node, which is done where the node does it; nothing of one that is none of its role. A
/// refusal changes nothing.
fn step(alloc: Global, node: &mut Node, event: &NodeEventKind) -> Result<Option<Done>, ReplayFault>
    ensures ok { IfOk result (λ d. IsStep (state_of node.old) event.now d (state_of node.new)) }
    ensures err { IfErr result (Fails (state_of node.old) event.now) }
    ensures same { OnErr result (state_of node.new ≡ state_of node.old) }
{
    let Some(input) = input_of(event) else {
        return Ok(Some(Done {
            packets: Packets::new(Vec::new(alloc)),
            changed: false,
        }));
    };
    match node.plan(&input) {
        Ok(NodePlan::Skipped) => Ok(None),
        Ok(NodePlan::Refused(fault)) => Err(ReplayFault::Core(fault)),
        Ok(NodePlan::Acts(work)) => match carry_out(node, work) {
            Ok(done) => Ok(Some(done)),
            Err(_) => Err(ReplayFault::Memory),
        },
        Err(_) => Err(ReplayFault::Memory),
    }
}

/// Adds an entry to entries that have room for it.
fn push_entry(entries: &mut Vec<Entry>, event: NodeEventKind, packets: Packets)
    requires { length entries.old.items + 1 ≤ vec_capacity entries.old }
    ensures { entries.new.items ≡ entries.old.items ++ record { event = event; packets = packets } ∷ [] }
{
    match entries.push(Entry { event, packets }) {
        Ok(()) => {}
        Err(_) => unreachable!(),
    }
}

/// Something happens at a node, and is entered with what the node sends, unless it is none of its role. A refusal
/// enters nothing, and changes nothing.
pub(crate) fn enter(
    alloc: Global,
    node: &mut Node,
    entries: &mut Vec<Entry>,
    event: NodeEventKind,
) -> Result<Replayed, ReplayFault>
    ensures ok { IfOk result (λ r. Adds (state_of node.old) entries.old.items event r (state_of node.new) entries.new.items) }
    ensures err { IfErr result (Fails (state_of node.old) event) }
    ensures state { OnErr result (state_of node.new ≡ state_of node.old) }
    ensures entries { OnErr result (entries.new.items ≡ entries.old.items) }
{
    match entries.reserve(1) {
        Ok(()) => {}
        Err(_) => {
            drop(event);
            return Err(ReplayFault::Memory);
        }
    }
    match step(alloc, node, &event) {
        Ok(None) => {
            drop(event);
            Ok(Replayed::Skipped)
        }
        Ok(Some(done)) => {
            let Done { packets, changed } = done;
            push_entry(entries, event, packets);
            Ok(Replayed::Stepped { changed })
        }
        Err(fault) => {
            drop(event);
            Err(fault)
        }
    }
}
