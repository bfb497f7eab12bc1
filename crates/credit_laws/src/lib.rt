//! What an order to take a bill back comes to. Where a COMPLETED session has a bill and no credit, an order that an
//! operator carries out makes the credit, stores it and sends it to the provider of the bill's token.
//!
//! # Promises
//!
//! - An order that such an operator carries out takes the bill of a COMPLETED session back that has no credit, where
//!   the provider is of the site. The credit is updated at the moment of the order, or 1 ms after the bill if that is
//!   later. By law `orders_take_bills_back` (`specs/Laws`).
//! - It is stored, and the one packet that is sent brings it to the provider of the bill's token, as the site spells
//!   it. By law `orders_take_bills_back`.
#![tactic(auto)]

pub mod laws;
