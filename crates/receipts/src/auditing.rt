//! Whether receipts are those of a history.

ghost use Rattle.std.specs.Prelude.{IfErr, OnOk};
ghost use Rattle.receipts.specs.Audits.{AreReceiptsOf, IsAuditFault};

use crate::fault::AuditFault;
use crate::receipt::Receipt;
use histories::Entry;
use std::alloc::Global;

/// Whether each receipt has the event and the packets of the entry of its place, and no two have one place. So receipts
/// that are as many as the entries are the whole history, each entry once.
///
/// Else it names the place of the first receipt that fails: `Missing` where there is no such entry, `Differs` where the
/// entry is another or an earlier receipt has that place. `Memory` is want of memory for a mark at each entry.
#[tactic(auto, using(crate::proofs::Marking::marks_on))]
pub fn audit(alloc: Global, history: &[Entry], receipts: &[Receipt]) -> Result<(), AuditFault>
    ensures ok { OnOk result (AreReceiptsOf history.now receipts.now) }
    ensures fault { IfErr result (IsAuditFault history.now receipts.now) }
{
    let mut taken: Vec<bool> = Vec::new(alloc);
    taken.resize(history.len(), false)?;
    for receipt in receipts {
        let place = receipt.place;
        if place >= history.len() {
            return Err(AuditFault::Missing(place));
        }
        if taken[place] || !receipt.is_of(&history[place]) {
            return Err(AuditFault::Differs(place));
        }
        taken[place] = true;
    }
    Ok(())
}
