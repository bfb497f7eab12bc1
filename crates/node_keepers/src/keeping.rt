//! The keepers of a world's nodes: they are opened, given what each event changes, and closed.

ghost use Rattle.std.specs.Prelude.{◌≡◌, ◌≢◌, ◌⊎◌, ℕ, [], false, true, IfErr, IfNone, IfOk, IfSome, OnOk};
ghost use Rattle.node_keepers.specs.Keeping.{
  AreOpened,
  AreUnopened,
  CannotLoad,
  IsEmpty,
  IsKeeperOf,
  IsUnopened,
  KeeperRefuses,
  KeeperTakes,
  KeepsSomething,
  keeping_of,
};
ghost use Rattle.node_keepers.specs.declared.keeping.KeptNode.{KeptNode as KeptNodeOf};
ghost use Rattle.node_store.specs.Faults.{IsCommitFault};
ghost use Rattle.node_store.specs.declared.fault.Cause.TheVariants.{NotEmpty};
ghost use Rattle.node_store.specs.declared.fault.StoreFault.TheVariants.{Refused};
ghost use Rattle.ocpi_types.specs.Setups.{party_of};

use crate::keeps::Keeps;
use node_store::{Cause, Keep, Kept, StoreFault};
use ocpi_text::{Party, PartyKey};
use ocpi_types::{Change, Node};
use std::alloc::Global;

/// The key of a node's party, and the keeper of its rows.
#[derive(Drop)]
pub struct KeptNode<K> {
    party: PartyKey,
    keep: K,
}

/// Whether no row is kept, and no line took hold.
fn is_new(kept: &Kept) -> bool
    ensures new { result ≡ true → (kept.now.rows.items ≡ []) × (kept.now.line ≡ 1) }
    ensures used { result ≡ false → (kept.now.rows.items ≢ []) ⊎ (kept.now.line ≢ 1) }
{
    kept.rows.is_empty() && kept.line.value() == 1
}

/// Refuses a keeper that keeps a row already, or in which a line took hold, as `NotEmpty`.
fn try_empty<K: Keep>(keep: &mut K) -> Result<(), StoreFault>
    ensures ok { OnOk result (IsEmpty (keeping_of K.content K.is_honest K.refusals) keep.new) }
    ensures err { IfErr result (λ fault. CannotLoad (keeping_of K.content K.is_honest K.refusals) fault keep.old keep.new
        ⊎ (KeepsSomething (keeping_of K.content K.is_honest K.refusals) keep.new × (fault ≡ Refused NotEmpty))) }
{
    let kept = keep.load()?;
    if is_new(&kept) {
        Ok(())
    } else {
        Err(StoreFault::Refused(Cause::NotEmpty))
    }
}

/// Opens the keeper of the node at a place of the setup. One that keeps a row already, or the number of a line, is
/// refused as `NotEmpty`. A keeper that is refused once it was opened is closed.
fn open_one<S: Keeps>(keeps: &mut S, place: usize) -> Result<S::Kept, StoreFault>
    ensures ok { IfOk result (IsEmpty (keeping_of S.Kept.content S.Kept.is_honest S.Kept.refusals)) }
    ensures err { IfErr result (IsUnopened (keeping_of S.Kept.content S.Kept.is_honest S.Kept.refusals) S.may_refuse place) }
{
    let mut keep = keeps.open(place)?;
    match try_empty(&mut keep) {
        Ok(()) => Ok(keep),
        Err(fault) => {
            let _ = keeps.close(place, keep);
            Err(fault)
        }
    }
}

/// Adds the keeper of each node of a setup, in its order, where there are none. Where one is refused, those before it
/// were added.
fn open_each<S: Keeps>(
    keeps: &mut S,
    setup: &[Node],
    kept: &mut Vec<KeptNode<S::Kept>>,
) -> Result<(), StoreFault>
    requires { kept.old.items ≡ [] }
    ensures ok { OnOk result (AreOpened (keeping_of S.Kept.content S.Kept.is_honest S.Kept.refusals) setup.now kept.new.items) }
    ensures err { IfErr result (AreUnopened (keeping_of S.Kept.content S.Kept.is_honest S.Kept.refusals) S.may_refuse setup.now) }
{
    for node in setup {
        let keep = open_one(keeps, kept.len() + 1)?;
        kept.push(KeptNode {
            party: node.party().key(),
            keep,
        })?;
    }
    Ok(())
}

/// Closes a keeper, and lets go what it leaves.
fn close_one<S: Keeps>(keeps: &mut S, place: usize, keep: S::Kept) -> Result<(), StoreFault>
    ensures { IfErr result IsCommitFault }
{
    match keeps.close(place, keep) {
        Ok(_) => Ok(()),
        Err(fault) => Err(fault),
    }
}

/// Closes keepers that were opened in this order, all of them. Where one is refused, the fault of the first is told.
pub fn close_all<S: Keeps>(keeps: &mut S, kept: Vec<KeptNode<S::Kept>>) -> Result<(), StoreFault>
    ensures { IfErr result IsCommitFault }
{
    let mut closed = Ok(());
    let mut place = 0usize;
    for node in kept {
        place = place.saturating_add(1);
        let KeptNode { party: _, keep } = node;
        closed = closed.and(close_one(keeps, place, keep));
    }
    closed
}

/// Opens the keeper of each node of a setup, in its order. Where one is refused, those before it are closed.
pub fn open_all<S: Keeps>(
    alloc: Global,
    keeps: &mut S,
    setup: &[Node],
) -> Result<Vec<KeptNode<S::Kept>>, StoreFault>
    ensures ok { IfOk result (λ v. AreOpened (keeping_of S.Kept.content S.Kept.is_honest S.Kept.refusals) setup.now v.items) }
    ensures err { IfErr result (AreUnopened (keeping_of S.Kept.content S.Kept.is_honest S.Kept.refusals) S.may_refuse setup.now) }
{
    // Room is taken first, so that memory does not run out for a keeper that was opened.
    let mut kept = Vec::with_capacity(alloc, setup.len())?;
    match open_each(keeps, setup, &mut kept) {
        Ok(()) => Ok(kept),
        Err(fault) => {
            let _ = close_all(keeps, kept);
            Err(fault)
        }
    }
}

/// The place of a party's keeper. Parties are compared without case.
fn find<K>(kept: &[KeptNode<K>], party: &Party) -> Option<usize>
    ensures found { IfSome result (λ i. (n : KeptNodeOf K) × IsKeeperOf kept.now party.now i n) }
    ensures none { IfNone result ((i : ℕ) (n : KeptNodeOf K) → IsKeeperOf kept.now party.now i n → ⊥) }
{
    let name = party.key();
    for i in 0..kept.len() {
        if kept[i].party == name {
            return Some(i);
        }
    }
    None
}

/// Gives the changes of an event, which is of no numbered line, to the keeper of that party's node, where there are any.
/// A refusal is that of the keeper, and changes nothing; `NoKeeper` comes where there are changes and no keeper for
/// them.
pub fn commit<K: Keep>(
    kept: &mut Vec<KeptNode<K>>,
    party: &Party,
    changes: &[Change],
) -> Result<(), StoreFault>
    ensures ok { OnOk result (KeeperTakes (keeping_of K.content K.is_honest K.refusals) party.now changes.now kept.old.items kept.new.items) }
    ensures some { IfErr result (λ fault. changes.now ≢ []) }
    ensures err { IfErr result (λ fault. KeeperRefuses (keeping_of K.content K.is_honest K.refusals) party.now fault kept.old.items kept.new.items) }
{
    if changes.is_empty() {
        return Ok(());
    }
    let Some(i) = find(kept.as_slice(), party) else {
        return Err(StoreFault::Refused(Cause::NoKeeper));
    };
    match kept.get_mut(i) {
        Some(node) => node.keep.commit(changes, None),
        None => Err(StoreFault::Refused(Cause::NoKeeper)),
    }
}
