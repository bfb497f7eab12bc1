//! What stands behind a desk's lock.

ghost use Rattle.std.specs.Prelude.{◌≡◌, ◌+◌, ◌<◌, ◌≤◌, ℕ, IfErr, IfOk, OnErr, OnOk, length};
ghost use Rattle.node_cells.specs.Cells.{Enters, IsNotEntered, most_entries};
ghost use Rattle.stored_nodes.specs.Keepers.{keeper_of};
ghost use Rattle.node_desk.specs.Faults.{IsNotCalled, of_cell};
ghost use Rattle.node_desk.specs.declared.fault.DeskFault.TheVariants.{Rewound};
ghost use Rattle.node_cells.specs.declared.fault.CellFault.{CellFault as CellFaultOf};
ghost use Rattle.node_desk.specs.Calls.{WasEntered, WasRefused};
ghost use Rattle.node_desk.specs.Logs.{GoesOn, log_of};
ghost use Rattle.receipts.specs.Audits.{entry_of};

use crate::fault::{DeskFault, Refusal, of_cell};
use crate::gate::Gate;
use crate::naming::Naming;
use crate::pass::Pass;
use node_cells::{MOST_ENTRIES, NodeCell};
use node_store::Keep;
use ocpi_types::NodeEventKind;
use receipts::Receipt;
use std::marker::Model;
use std::sync::ledger::{Book, Share};

/// A cell, and how many entries all passes made.
pub(crate) struct Locked<J: Naming, K: Keep> {
    cell: NodeCell<K>,
    made: Book<J>,
}

/// What a derive would do, in a function of its own: so it is proved once, and not in each function that drops one.
impl<J: Naming, K: Keep + Drop> Drop for Locked<J, K> {
    fn drop(self) {
        let Locked { cell, made: _ } = self;
        drop(cell);
    }
}

impl<J: Naming, K: Keep> Model for Locked<J, K> {
    ghost use Rattle.std.specs.Coded.{codes};
    ghost use Rattle.std.specs.FinMap as map;
    ghost use Rattle.node_desk.specs.Guarded.{Guarded};
    ghost use Rattle.node_desk.specs.Logs.{GoesOn, log_of};

    ghost Value = { Guarded K };

    ghost coded = { Prim.hlevel (codes, map.code, K.code) };

    ghost view = { λ l. record { cell = l.cell; made = l.made.total } };

    ghost invariant = { λ l. GoesOn J.before (log_of l.cell) l.made.total };
}

/// The event is entered, under the place that comes next. A refusal hands the event back.
#[tactic(auto, using(crate::proofs::Going::entered_as, crate::proofs::Going::no_copy))]
fn enter<K: Keep>(cell: &mut NodeCell<K>, event: NodeEventKind) -> Result<Receipt, Refusal>
    ensures entered { IfOk result (λ r. Enters (keeper_of K.content K.is_honest K.refusals K.may_leave) cell.old (entry_of r) cell.new) }
    ensures place { IfOk result (λ r. r.place ≡ length cell.old.history) }
    ensures event { IfOk result (λ r. r.event ≡ event) }
    ensures refused { IfErr result (λ e. (f : CellFaultOf) × (e.fault ≡ of_cell f)
        × IsNotEntered (keeper_of K.content K.is_honest K.refusals K.may_leave) cell.old event f cell.new) }
    ensures back { IfErr result (λ e. e.event ≡ event) }
{
    let place = cell.history().len();
    let Ok(entered) = event.copy() else {
        return Err(Refusal {
            event,
            fault: DeskFault::Memory,
        });
    };
    match cell.apply(entered) {
        Ok(packets) => Ok(Receipt {
            place,
            event,
            packets,
        }),
        Err(fault) => Err(Refusal {
            event,
            fault: of_cell(fault),
        }),
    }
}

/// A call by one who has seen so many entries.
#[tactic(auto, using(crate::proofs::Going::not_entered, crate::proofs::Going::only_behind))]
fn call<K: Keep, G: Gate>(
    cell: &mut NodeCell<K>,
    gate: &G,
    seen: usize,
    event: NodeEventKind,
) -> Result<Receipt, Refusal>
    ensures entered { IfOk result (λ r. Enters (keeper_of K.content K.is_honest K.refusals K.may_leave) cell.old (entry_of r) cell.new) }
    ensures place { IfOk result (λ r. r.place ≡ length cell.old.history) }
    ensures few { IfOk result (λ r. r.place < most_entries) }
    ensures event { IfOk result (λ r. r.event ≡ event) }
    ensures before { IfOk result (λ r. seen ≤ r.place) }
    ensures refused { IfErr result (λ e. IsNotCalled (keeper_of K.content K.is_honest K.refusals K.may_leave) cell.old seen event e.fault cell.new) }
    ensures rewound { IfErr result (λ e. (k : ℕ) → e.fault ≡ Rewound k → k < seen) }
    ensures back { IfErr result (λ e. e.event ≡ event) }
{
    let place = cell.history().len();
    if place >= MOST_ENTRIES {
        return Err(Refusal {
            event,
            fault: DeskFault::TraceFull,
        });
    }
    if place < seen {
        return Err(Refusal {
            event,
            fault: DeskFault::Rewound(place),
        });
    }
    gate.inside(cell.party(), place);
    enter(cell, event)
}

impl<J: Naming, K: Keep> Locked<J, K> {
    /// A cell, of which no pass made an entry yet.
    pub(crate) fn new(cell: NodeCell<K>, made: Book<J>) -> Locked<J, K>
        requires none { made.total ≡ 0 }
        requires before { log_of cell ≡ J.before }
        ensures { result ≡ record { cell = cell; made = made.total } }
    {
        Locked { cell, made }
    }

    /// The cell, once all shares are one.
    pub(crate) fn into_cell(self, all: Share<J>) -> NodeCell<K>
        requires { all.parts ≡ J.parts }
        ensures cell { result ≡ self.cell }
        ensures goes_on { GoesOn J.before (log_of result) all.amount }
    {
        let Locked { cell, mut made } = self;
        let mut all = all;
        made.audit(&mut all);
        cell
    }

    /// A call of a pass.
    #[tactic(auto, using(crate::proofs::Going::goes_on, crate::proofs::Going::still, crate::proofs::Going::entered_at, crate::proofs::Going::refused_at))]
    pub(crate) fn call<G: Gate>(
        &mut self,
        gate: &G,
        pass: &mut Pass<J>,
        event: NodeEventKind,
    ) -> Result<Receipt, Refusal>
        ensures entered { IfOk result (λ r. Enters (keeper_of K.content K.is_honest K.refusals K.may_leave) self.old.cell (entry_of r) self.new.cell) }
        ensures place { IfOk result (λ r. r.place ≡ length self.old.cell.history) }
        ensures event { IfOk result (λ r. r.event ≡ event) }
        ensures was_entered { IfOk result (WasEntered (keeper_of K.content K.is_honest K.refusals K.may_leave) J.before) }
        ensures before { IfOk result (λ r. pass.old.seen ≤ r.place) }
        ensures seen { IfOk result (λ r. pass.new.seen ≡ r.place + 1) }
        ensures counted { OnOk result (pass.new.count ≡ pass.old.count + 1) }
        ensures refused { IfErr result (λ e. IsNotCalled (keeper_of K.content K.is_honest K.refusals K.may_leave)
            self.old.cell pass.old.seen event e.fault self.new.cell) }
        ensures was_refused { IfErr result (λ e. WasRefused (keeper_of K.content K.is_honest K.refusals K.may_leave)
            J.before pass.old.seen event e.fault) }
        ensures rewound { IfErr result (λ e. (k : ℕ) → e.fault ≡ Rewound k → k < pass.old.seen) }
        ensures back { IfErr result (λ e. e.event ≡ event) }
        ensures kept { OnErr result (pass.new ≡ pass.old) }
    {
        let Locked { cell, made } = self;
        cell.is_replay();
        match call(cell, gate, pass.seen, event) {
            Ok(receipt) => {
                made.add(&mut pass.share, 1);
                pass.seen = receipt.place + 1;
                Ok(receipt)
            }
            Err(refusal) => Err(refusal),
        }
    }
}
