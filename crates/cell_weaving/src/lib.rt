//! The histories of nodes that ran by themselves, each over its keeper, made into one run of their world, or refused.
//! So what is promised of every world holds of running nodes.
//!
//! # Promises
//!
//! The same of running nodes, of which nothing need be known but that their cells are of one setup, fresh, and no two
//! of one party.
//!
//! - What happened at the cells is one legal run of the setup's world from its opening. It ends with each cell's node
//!   and all that this sent, and each other node as it was opened. So the cells are safe, what is acknowledged is held,
//!   and answers agree. By `weave_cells`: `run` (`IsRunOfCells` of `specs/Cells`).
//! - They are refused as their histories are, and but for want of memory only where these have no interleaving. By
//!   `weave_cells`: `err` (`IsNotWoven`).
#![tactic(auto)]

ghost use Rattle.std.specs.Prelude.{◌≡◌, List, All, IfErr, IfOk, OnOk};
ghost use Rattle.cell_weaving.specs.Cells.{AreCellsOf, AreTold, IsNotWoven, IsRunOfCells, told_of, told_of_cell};
ghost use Rattle.stored_nodes.specs.Keepers.{keeper_of};
ghost use Rattle.node_cells.specs.Cells.{IsCell};
ghost use Rattle.ocpi_types.specs.declared.setup.Node.{Node as NodeOf};
ghost use Rattle.weave.specs.declared.fault.WeaveFault.TheVariants.{Memory as OfMemory};

use histories::NodeHistory;
use history_laws::laws::{interleavings_are_runs, replays_are_numbered};
use node_cells::NodeCell;
use node_store::Keep;
use ocpi_types::Event;
use std::alloc::Global;
use weave::{WeaveFault, weave};

/// The history of a cell, of which all holds that its type keeps.
fn history_of<K: Keep>(cell: &NodeCell<K>) -> NodeHistory<'_>
    ensures told { told_of result ≡ told_of_cell cell.now }
    ensures kept { IsCell (keeper_of K.content K.is_honest K.refusals K.may_leave) cell.now }
{
    cell.is_replay();
    NodeHistory::new(*cell.party(), cell.history())
}

/// The histories of cells, in their order. An error is want of memory.
fn histories_of<'a, K: Keep>(
    alloc: Global,
    cells: &'a [NodeCell<K>],
) -> Result<Vec<NodeHistory<'a>>, WeaveFault>
    ensures told { IfOk result (λ hs. AreTold hs.items cells.now) }
    ensures kept { OnOk result (All (IsCell (keeper_of K.content K.is_honest K.refusals K.may_leave)) cells.now) }
    ensures err { IfErr result (λ f. f ≡ OfMemory) }
{
    let mut histories = Vec::new(alloc);
    for cell in cells {
        let history = history_of(cell);
        match histories.push(history) {
            Ok(()) => {}
            Err(_) => return Err(WeaveFault::Memory),
        }
    }
    Ok(histories)
}

/// One run of the world of a setup out of what happened at some of its nodes, each of which has a cell that was opened
/// before its first event. No cells give no events. They are asked to be of one setup, and no two of one party.
///
/// The events are an interleaving of the histories of the cells, and a legal run of the setup's world from its opening,
/// which ends with each node as its cell has it and with all that it sent, and with each other node as it was opened.
/// So the cells are safe, what is acknowledged is held, and answers agree.
///
/// Refused (`NeverSent`, `Differs`) with the first packet that came, in the order of the cells and of their entries,
/// and was not sent so; (`NoOrder`) where each next entry, from these places on, waits for what is sent behind them;
/// and (`Memory`) for want of memory. With any refusal but the last these histories have no interleaving.
pub fn weave_cells<K: Keep>(alloc: Global, cells: &[NodeCell<K>]) -> Result<Vec<Event>, WeaveFault>
    requires cells { (setup : List NodeOf) × AreCellsOf setup cells.now }
    ensures run { IfOk result (λ events. (setup : List NodeOf) → AreCellsOf setup cells.now → IsRunOfCells setup cells.now events.items) }
    ensures err { IfErr result (IsNotWoven cells.now) }
{
    let histories = histories_of(alloc, cells)?;
    interleavings_are_runs();
    replays_are_numbered();
    weave(alloc, &histories)
}
