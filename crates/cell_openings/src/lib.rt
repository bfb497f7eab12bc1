//! The cell of a node of a setup before any event, over a list of no rows.
//!
//! # Promises
//!
//! `open_cell`, such a cell. A run of nodes on threads begins with one for each node.
//!
//! - It is of a node of the setup, and began as the setup opens that node. By `open_cell`: `of_setup` (`IsOfSetup` of
//!   `specs/Opened`).
//! - That node is the one that was asked for, as the setup spells its party. By `open_cell`: `opened` (`IsOpenedAs`).
//! - An error is want of memory. By the type of `open_cell`.
#![tactic(auto)]

ghost use Rattle.std.specs.Prelude.{Contains, IfOk};
ghost use Rattle.cell_openings.specs.Opened.{IsOfSetup, IsOpenedAs};
ghost use Rattle.world_laws.specs.Laws.{IsSetup};

use node_cells::NodeCell;
use node_store::ListKeep;
use ocpi_types::Node;
use std::alloc::{AllocError, Global};
use tables::HashSeed;

/// A cell before any event, over a list of no rows. An error is want of memory.
#[tactic(auto, using(crate::proofs::Openings::opened_as, crate::proofs::Openings::opened_there))]
pub fn open_cell(
    alloc: Global,
    nodes: &[Node],
    member: &Node,
) -> Result<NodeCell<ListKeep>, AllocError>
    requires setup { IsSetup nodes.now }
    requires member { Contains nodes.now member.now }
    ensures of_setup { IfOk result (IsOfSetup nodes.now) }
    ensures opened { IfOk result (IsOpenedAs nodes.now member.now) }
{
    let seed = HashSeed::fixed();
    match NodeCell::open(alloc, seed, nodes, member, ListKeep::new(alloc, seed)) {
        Ok(cell) => Ok(cell),
        Err(_) => Err(AllocError),
    }
}
