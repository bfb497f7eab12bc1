//! A desk.

ghost use Rattle.std.specs.Prelude.{◌≡◌, ◌+◌, ◌<◌, ◌≤◌, ◌↔◌, ℕ, All, IfErr, IfOk, IsOk, OnErr, OnOk, length, sum_by, vec_len};
ghost use Rattle.stored_nodes.specs.Keepers.{keeper_of};
ghost use Rattle.node_cells.specs.Cells.{IsCell};
ghost use Rattle.history_laws.specs.Replays.{Replays};
ghost use Rattle.node_rows.specs.Holds.{HoldsRows};
ghost use Rattle.node_desk.specs.Calls.{WasEntered, WasRefused};
ghost use Rattle.node_desk.specs.Logs.{GoesOn, log_of};
ghost use Rattle.node_desk.specs.Passes.{IsUnused, PassOf};
ghost use Rattle.node_desk.specs.declared.fault.DeskFault.TheVariants.{Rewound};

use crate::fault::Refusal;
use crate::gate::Gate;
use crate::locked::Locked;
use crate::naming::Naming;
use crate::pass::{Pass, join_all};
use node_cells::NodeCell;
use node_store::Keep;
use ocpi_types::NodeEventKind;
use receipts::Receipt;
use std::alloc::Global;
use std::marker::PhantomData;
use std::sync::ledger::Blank;
use std::sync::{Mutex, Wait};

/// How many passes a desk has, which is the number of parts of its ledger. A field beside a token could not say so.
#[derive(Drop)]
struct Passes<J: Naming> {
    number: usize,
    of: PhantomData<J>,
    ghost parts: { number ≡ J.parts },
    ghost some: { 0 < number },
}

impl<J: Naming> Passes<J> {
    fn new(number: usize) -> Passes<J>
        requires parts { number ≡ J.parts }
        requires some { 0 < number }
    {
        Passes {
            number,
            of: PhantomData,
        }
    }

    fn number(&self) -> usize
        ensures parts { result ≡ J.parts }
        ensures some { 0 < result }
    {
        self.number
    }
}

/// A cell behind a lock. Who has a pass may call it, from any thread.
#[derive(Drop)]
pub struct Desk<J: Naming, K: Keep, G: Gate> {
    passes: Passes<J>,
    gate: G,
    cell: Mutex<Locked<J, K>>,
}

/// A desk that is not closed, and the passes that were handed in.
#[derive(Drop)]
pub struct PassesMissing<J: Naming, K: Keep, G: Gate> {
    pub desk: Desk<J, K, G>,
    pub passes: Vec<Pass<J>>,
}

impl<J: Naming, K: Keep + Drop, G: Gate + Drop> Desk<J, K, G> {
    /// A desk of a cell, and its passes: one for each part of the blank. An error is want of memory, and hands the cell
    /// back.
    pub fn new(
        alloc: Global,
        blank: Blank,
        cell: NodeCell<K>,
        gate: G,
        passes: usize,
    ) -> Result<(Desk<J, K, G>, Vec<Pass<J>>), NodeCell<K>>
        requires name { blank.name ≡ J.name }
        requires parts { blank.parts ≡ J.parts }
        requires part_each { blank.parts ≡ passes }
        requires some { 0 < passes }
        requires before { log_of cell ≡ J.before }
        ensures number { IfOk result (λ r. vec_len r.1 ≡ passes) }
        ensures unused { IfOk result (λ r. All IsUnused r.1.items) }
        ensures seen { IfOk result (λ r. All (λ (p : PassOf). p.seen ≡ length cell.history) r.1.items) }
        ensures back { IfErr result (λ c. c ≡ cell) }
    {
        let seen = cell.history().len();
        let (made, mut rest) = blank.open::<J>();
        let mut all = Vec::new(alloc);
        for _i in 0..passes {
            let share = rest.split_off(1, 0);
            if all.push(Pass { seen, share }).is_err() {
                return Err(cell);
            }
        }
        let desk = Desk {
            passes: Passes::new(passes),
            gate,
            cell: Mutex::new(Locked::new(cell, made)),
        };
        Ok((desk, all))
    }

    /// Brings an event to the node, and waits for its lock. Where it is entered, the receipt has its place in the
    /// history and the packets that the node sends; the pass has then seen that entry, and counts one more.
    ///
    /// Refused, in this order: where the history has 100,000 entries (`TraceFull`); where it has fewer than the pass
    /// has seen (`Rewound`); where the node refuses the event (`Core`) or the keeper its changes (`Store`); and for
    /// want of memory. A refusal hands the event back. It enters nothing, and the pass is as it was.
    pub fn call<R: Wait>(
        &self,
        rt: &R,
        pass: &mut Pass<J>,
        event: NodeEventKind,
    ) -> Result<Receipt, Refusal>
        ensures entered { IfOk result (WasEntered (keeper_of K.content K.is_honest K.refusals K.may_leave) J.before) }
        ensures event { IfOk result (λ r. r.event ≡ event) }
        ensures place { IfOk result (λ r. pass.old.seen ≤ r.place) }
        ensures seen { IfOk result (λ r. pass.new.seen ≡ r.place + 1) }
        ensures counted { OnOk result (pass.new.count ≡ pass.old.count + 1) }
        ensures refused { IfErr result (λ e. WasRefused (keeper_of K.content K.is_honest K.refusals K.may_leave)
            J.before pass.old.seen event e.fault) }
        ensures back { IfErr result (λ e. e.event ≡ event) }
        ensures kept { OnErr result (pass.new ≡ pass.old) }
        ensures rewound { IfErr result (λ e. (k : ℕ) → e.fault ≡ Rewound k → k < pass.old.seen) }
    {
        self.cell.lock(rt).call(&self.gate, pass, event)
    }

    /// Takes the cell out, where all passes are handed in. Else it hands the desk and the passes back.
    pub fn close(self, passes: Vec<Pass<J>>) -> Result<NodeCell<K>, PassesMissing<J, K, G>>
        ensures goes_on { IfOk result (λ c. GoesOn J.before (log_of c) (sum_by (λ (p : PassOf). p.count) passes.items)) }
        ensures entries { IfOk result (λ c. length c.history ≡ length J.before.history + sum_by (λ (p : PassOf). p.count) passes.items) }
        ensures cell { IfOk result (IsCell (keeper_of K.content K.is_honest K.refusals K.may_leave)) }
        ensures replays { IfOk result (λ c. Replays c.first c.history c.state) }
        ensures holds { IfOk result (λ c. K.is_honest c.keep → HoldsRows (K.content c.keep) c.state) }
        ensures all { IsOk result ↔ (vec_len passes ≡ J.parts) }
        ensures back { IfErr result (λ m. (m.desk ≡ self) × (m.passes ≡ passes)) }
    {
        if passes.len() != self.passes.number() {
            return Err(PassesMissing { desk: self, passes });
        }
        let shares = join_all(passes);
        let cell = self.cell.into_inner().into_cell(shares);
        cell.is_replay();
        Ok(cell)
    }
}
