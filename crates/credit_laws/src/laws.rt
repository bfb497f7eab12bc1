//! The law of orders to take a bill back.

ghost use Rattle.credit_laws.specs.Laws.{OrdersTakeBillsBack};

/// An operator that can start again, and carries out an order to take back the bill of a COMPLETED session without a
/// credit, makes the credit. It is updated at the moment of the order, or 1 ms after the bill where this is later. It
/// is stored, and pushed to the provider of the bill's token as the site spells it (OCPI 2.2.1, CDRs: CDR object,
/// members `credit` and `credit_reference_id`). A bill of the last moment has no later credit: no order for it is
/// carried out.
pub fn orders_take_bills_back()
    ensures { OrdersTakeBillsBack }
{}
