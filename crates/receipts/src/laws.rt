//! The laws of audits. Each is the contract of a function that does nothing.

ghost use Rattle.receipts.specs.Audits.{EachEntryHasOneReceipt, FaultsExclude};

/// Where the receipts of a history are as many as its entries, each entry has just one of them: the history is these
/// receipts, each once.
pub fn each_entry_has_one_receipt()
    ensures { EachEntryHasOneReceipt }
{}

/// Where an audit tells of a receipt that fails, the receipts are not those of the history. So it accepts all others.
pub fn faults_exclude()
    ensures { FaultsExclude }
{}
