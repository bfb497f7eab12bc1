//! Whether what came of a node is what was asked of it.

ghost use Rattle.std.specs.Prelude.{◌≡◌, ◌+◌, ◌↔◌, IfSome, IsTrue, OnOk, Some, drop, slice_get, true, ℕ};
ghost use Rattle.node_harness.specs.Settled.{IsInOrder, IsSettled, is_own, own_events};
ghost use Rattle.ocpi_text.specs.Text.{key};

use crate::fault::RunFault;
use histories::Entry;
use node_cells::NodeCell;
use node_store::ListKeep;
use ocpi_text::Party;
use ocpi_types::NodeEventKind;
use packet_equality::is_equal_node_event_kind;
use receipts::{AuditFault, Receipt, audit};
use std::alloc::Global;

/// What a run made of a node.
#[derive(Drop)]
pub struct NodeRan {
    pub cell: NodeCell<ListKeep>,
    pub receipts: Vec<Receipt>,
}

/// Whether it is no delivery.
fn is_own(event: &NodeEventKind) -> bool
    ensures { result ≡ is_own event.now }
{
    match event {
        NodeEventKind::Deliver { .. } => false,
        NodeEventKind::Submit { .. }
        | NodeEventKind::Token { .. }
        | NodeEventKind::Service { .. }
        | NodeEventKind::Charger { .. }
        | NodeEventKind::Credit { .. }
        | NodeEventKind::Tick { .. }
        | NodeEventKind::Restart
        | NodeEventKind::Refused => true,
    }
}

/// What stands behind the first such event of a script.
fn behind<'a>(script: &'a [NodeEventKind], event: &NodeEventKind) -> Option<&'a [NodeEventKind]>
    ensures { IfSome result (λ rest. (k : ℕ) × (slice_get script.now k ≡ Some event.now) × (rest.now ≡ drop (k + 1) script.now)) }
{
    for (k, own) in script.iter().enumerate() {
        if is_equal_node_event_kind(own, event) {
            return Some(&script[k + 1..]);
        }
    }
    None
}

/// Whether the entries that are no deliveries are events of the script, in its order.
#[tactic(auto, using(crate::proofs::InOrder::found_own, crate::proofs::InOrder::found_none, crate::proofs::InOrder::found_all))]
fn are_in_order(history: &[Entry], script: &[NodeEventKind]) -> bool
    ensures { result ≡ true → IsInOrder (own_events history.now) script.now }
{
    let mut rest = script;
    for entry in history {
        if is_own(&entry.event) {
            match behind(rest, &entry.event) {
                Some(later) => rest = later,
                None => return false,
            }
        }
    }
    true
}

impl NodeRan {
    /// Refuses (`Stopped`) where the node is another's or was not opened before any event; where a receipt is of no
    /// entry, two are of one, or an entry has none; or where the entries that are no deliveries are no events of the
    /// script, in its order.
    pub(crate) fn settle(
        &self,
        alloc: Global,
        party: &Party,
        script: &[NodeEventKind],
    ) -> Result<(), RunFault>
        ensures { OnOk result (IsSettled party.now script.now self.now) }
    {
        let history = self.cell.history();
        if !self.cell.party().is_same(party) || !self.cell.is_fresh() {
            return Err(RunFault::Stopped);
        }
        if self.receipts.len() != history.len() || !are_in_order(history, script) {
            return Err(RunFault::Stopped);
        }
        match audit(alloc, history, self.receipts.as_slice()) {
            Ok(()) => Ok(()),
            Err(AuditFault::Memory) => Err(RunFault::Memory),
            Err(AuditFault::Missing(_) | AuditFault::Differs(_)) => Err(RunFault::Stopped),
        }
    }
}
