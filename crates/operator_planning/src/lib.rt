//! What an operator does at an event, planned over its books (OCPI 2.2.1, Commands, Sessions, CDRs, Tokens). Nothing is
//! changed here.
//!
//! ```
//! let plan = Planner::new(alloc, &books).plan_tick(at)?;
//! books.make_full_room(&plan)?;
//! let packets = books.apply_full(plan);
//! ```
//!
//! # Promises
//!
//! `Planner`. Its clauses name definitions of `operator_steps`, where no other crate is named.
//!
//! - A plan is what a line of the definition asks for (`PlannedBy`). By `plan_packet`, `plan_charger`, `plan_credit`,
//!   `plan_tick`, `plan_service`: `step`.
//! - What is planned may be carried out, as the books stand. By `follows` of these.
//! - Each refusal comes only where it is due. By `fault` of the first four (`specs/Faults`: `IsDue`, `IsReportFault`,
//!   `IsCreditFault`, `IsOwnFault`). An EVSE goes out of service or comes back without one, but for want of memory.
//! - The books are read and stay as they are, since only a `&` of them is taken. By `Planner::new`.
//!
//! Which steps these are, and when each refusal is due, `operator_core` says promise by promise.
//!
//! # How it is built
//!
//! A plan is a draft of acts (`Draft` of `node_steps`), for which all is read before the first act is added. So what a
//! plan does is a list of acts, and that it does what the line asks for is an equation of two lists. How many packets
//! and requests the acts take is counted first (`Needs`), and refused where a counter would pass its last number.
//!
//! That each plan may be carried out is one fact for all lines (`MayFollow`), by induction over acts: their changes are
//! of different rows (`AreOrderly`), each fits the rows that the ones before left (`AreFit`), and what they send
//! stands (`ActsAreSent`).
//!
//! No row is made into books here, so that this crate, which is dear to prove, need not wait for `operator_stored`.
//! That a session has a credit is told by `session_book`, and a body that never finds one is tried there. That alone
//! makes no second credit, since the first one has its id. The body that makes one asks for neither; it is among those
//! in `wrong`.
#![tactic(auto)]

mod changes;
mod command_ends;
mod credits;
mod packets;
mod planner;
mod plans;
mod reports;
mod service;
mod sessions;
mod ticks;

pub use planner::Planner;
