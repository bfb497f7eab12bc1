//! What holds of the nodes of a world that a run reaches, beside what `world_laws` says: for whom a charge detail
//! record is, what a credit has of its bill, that an order takes a bill back whoever its provider is, and that what
//! is refused for a reason is carried out in no way.
//!
//! # Promises
//!
//! - Each charge detail record of an operator of a reached world is for a token of a provider that the operator deals
//!   with. So there an order takes a bill back whoever its provider is. By laws `records_are_to_peers`,
//!   `orders_take_any_bill_back` (`specs/Records`).
//! - There each record that names another is its credit. The other stands and is a bill; the credit is later, has its
//!   id followed by `-C` and its cost negated, and else is as it is. By law `credits_are_of_bills`.
//! - The credit of the bill of a number has the id of that number, followed by `-C`. Those of different numbers differ,
//!   also without case, and none is the id of a bill. By law `credit_ids_differ`.
//! - What a reached world refuses for a reason it neither carries out nor passes over, in whatever way, where the
//!   locations of each site have different ids. By law `refused_is_not_carried_out` (`specs/Refused`).
#![tactic(auto)]

pub mod laws;
