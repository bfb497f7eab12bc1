//! Where the keepers of a world's nodes come from, and what ends them.

ghost use Rattle.std.specs.FinMap.{empty};
ghost use Rattle.std.specs.Prelude.{◌≡◌, ◌++◌, ◌∷◌, [], ℕ, IfErr, IfOk, List, ⊤};
ghost use Rattle.node_store.specs.Faults.{IsCommitFault};
ghost use Rattle.node_keepers.specs.Opening.{IsSettled};
ghost use Rattle.node_store.specs.declared.fault.StoreFault.{StoreFault as StoreFaultOf};

use node_store::{Keep, ListKeep, StoreFault};
use row_table::Past;
use std::alloc::Global;
use tables::HashSeed;

/// What opens a keeper for each node of a world, and closes it.
pub trait Keeps {
    /// The keeper of a node's rows.
    type Kept: Keep + Drop;

    /// What stands once a keeper was ended: of one in files these, which are locked until they are dropped; of one in
    /// memory nothing.
    type Closed: Drop;

    /// `may_refuse place fault`: no keeper of the node at that place may be had for this fault.
    ghost may_refuse: { ℕ → StoreFaultOf → Type 0 };

    /// `found place keep`: what was found for the node at that place is such that this keeper is made of it.
    ghost found: { ℕ → Self.Kept → Type 0 };

    /// `is_closed keep closed`: what stands is such as this keeper leaves when it is ended.
    ghost is_closed: { Self.Kept → Self.Closed → Type 0 };

    /// The places whose keepers were to be opened, in turn, those too that were refused.
    ghost opened: { Self → List ℕ };

    /// Opens the keeper of the node at that place of the setup, the first of which is 1. It is made of what was found
    /// for that node, and a stop leaves just what it keeps then.
    fn open(&mut self, place: usize) -> Result<Self::Kept, StoreFault>
        ensures found { IfOk result (found place) }
        ensures settled { IfOk result (IsSettled Self.Kept.content Self.Kept.is_honest Self.Kept.may_leave) }
        ensures fault { IfErr result (λ fault. may_refuse place fault) }
        ensures opened { opened self.new ≡ opened self.old ++ place ∷ [] };

    /// Ends the keeper of the node at that place, which was opened here, and hands out what it leaves.
    fn close(&mut self, place: usize, keep: Self::Kept) -> Result<Self::Closed, StoreFault>
        ensures closed { IfOk result (is_closed keep) }
        ensures fault { IfErr result IsCommitFault }
        ensures opened { opened self.new ≡ opened self.old };
}

/// What is lent opens and closes the keepers that its owner would, and the owner has it again afterwards.
impl<S: Keeps> Keeps for &mut S {
    type Kept = S::Kept;

    type Closed = S::Closed;

    ghost may_refuse = { S.may_refuse };

    ghost found = { S.found };

    ghost is_closed = { S.is_closed };

    ghost opened = { λ keeps. S.opened keeps.now };

    fn open(&mut self, place: usize) -> Result<S::Kept, StoreFault> {
        Keeps::open(&mut **self, place)
    }

    fn close(&mut self, place: usize, keep: S::Kept) -> Result<S::Closed, StoreFault> {
        Keeps::close(&mut **self, place, keep)
    }
}

/// Keepers in memory, which end with the run.
#[derive(Drop)]
pub struct ListKeeps {
    alloc: Global,
    seed: HashSeed,
    opened: Past<usize>,
}

impl ListKeeps {
    /// Keepers that take their memory from there, and find rows by hashes that begin with the seed.
    pub fn new(alloc: Global, seed: HashSeed) -> ListKeeps
        ensures { result.opened.items ≡ [] }
    {
        ListKeeps {
            alloc,
            seed,
            opened: Past::new(),
        }
    }
}

impl Keeps for ListKeeps {
    type Kept = ListKeep;

    type Closed = ();

    ghost may_refuse = { λ place fault. ⊥ };

    // It begins with no rows.
    ghost found = { λ place keep. keep ≡ empty };

    ghost is_closed = { λ keep closed. ⊤ };

    ghost opened = { λ keeps. keeps.opened.items };

    fn open(&mut self, place: usize) -> Result<ListKeep, StoreFault> {
        self.opened = self.opened.note(&place);
        Ok(ListKeep::new(self.alloc, self.seed))
    }

    /// There is nothing to do, and no refusal.
    fn close(&mut self, _place: usize, keep: ListKeep) -> Result<(), StoreFault> {
        drop(keep);
        Ok(())
    }
}
