//! Laws of the definitions, for all values: the function's contract is the law, and its body does nothing.

ghost use Rattle.handover.specs.Inbox.{BillsStandBesideCredits};

/// A bill is in no conflict where no record of its id and of its session none but credits are held, and a credit is in
/// none where its session has none but bills. So the two of one session may be held, in either order.
pub fn bills_stand_beside_credits()
    ensures { BillsStandBesideCredits }
{}
