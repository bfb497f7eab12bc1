//! What is owed in each currency, where the setup of a site may have another one at each start.
//!
//! # Promises
//!
//! - Each bill and each credit is in the currency of its session, whatever setups the operator was started under. Each
//!   COMPLETED session has one bill, and at most one credit. By law `currencies_stay` (`specs/Currencies`).
//! - So what a provider owes such an operator in a currency is told by the sessions in that currency: the sum of the
//!   costs of those whose bills it holds, less that of those whose credits it holds. By law `owed_in_each_currency`
//!   (`specs/Owing`).
#![tactic(auto)]

pub mod laws;
