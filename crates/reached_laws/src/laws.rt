//! The laws of the worlds that a run reaches.

ghost use Rattle.reached_laws.specs.Records.{
  CreditIdsDiffer,
  CreditsAreOfBills,
  OrdersTakeAnyBillBack,
  RecordsAreToPeers,
};
ghost use Rattle.reached_laws.specs.Refused.{RefusedIsNotCarriedOut};

/// Each charge detail record of an operator is for a token of a provider that the operator deals with.
pub fn records_are_to_peers()
    ensures { RecordsAreToPeers }
{}

/// So an operator that carries out an order to take back the bill of a COMPLETED session without a credit makes the
/// credit, stores it, and sends it to the provider of the bill's token (OCPI 2.2.1, CDRs: CDR object, members `credit`
/// and `credit_reference_id`). Nothing is asked of that provider.
pub fn orders_take_any_bill_back()
    ensures { OrdersTakeAnyBillBack }
{}

/// Each record that names another is its credit: the other stands and is a bill. The credit has the bill's id followed
/// by `-C`, its cost negated, a later `last_updated`, and all else as the bill has it.
pub fn credits_are_of_bills()
    ensures { CreditsAreOfBills }
{}

/// The credit of the bill of a number has the id of that number, followed by `-C`. Those of different numbers differ,
/// also without case, and none is the id of a bill.
pub fn credit_ids_differ()
    ensures { CreditIdsDiffer }
{}

/// An event that a world refuses for a reason, which is never want of memory, is neither carried out there nor passed
/// over, in whatever way. Of each site it is asked that its locations have different ids, which the type `Locations`
/// keeps.
pub fn refused_is_not_carried_out()
    ensures { RefusedIsNotCarriedOut }
{}
