//! The operator: it owns charge points at a site, answers the commands of the site's providers, and lets their drivers
//! charge (OCPI 2.2.1, Commands, Sessions, CDRs, Tokens).
//!
//! ```
//! let mut operator = Operator::new(alloc, seed, site_line)?;
//! let stepped = operator.on_packet(at, &packet)?;
//!
//! let plan = operator.plan_tick(at)?;
//! operator.make_room(&plan)?;
//! store(plan.changes.as_slice())?;
//! let packets = operator.apply(plan);
//! operator.restart();
//! ```
//!
//! A step may be taken in one call, as that of the packet here, or in three. Then a keeper of the rows stores their
//! changes before the last, which cannot fail.
//!
//! # Promises
//!
//! `Operator`. Its clauses name definitions of `operator_steps`, where no other crate is named.
//!
//! Want of memory may come at any time of a report, a credit or a tick: no clause says that they tell `NumbersUsedUp`
//! first. A report that moves a session makes its push before it counts, an order to take a bill back makes the
//! credit before it counts, and a tick lists what is due.
//!
//! - A new operator has the opening state of the site line, or there is an `AllocError`. By `new`.
//! - A packet is answered by the step of the definition. It gives the first line of the command's table that applies,
//!   or the kept reply where the request came before. Or it gives the stored token, the push that is ended, or the
//!   waiting that is ended, with its session. By `on_packet`: `step` (`specs/Steps`).
//! - Each refusal of a packet comes only where it is due. `NotForMe` and `NumbersUsedUp` are never told as Memory,
//!   which comes only where the packet asks for a step that the counters allow. By `on_packet`: `fault`
//!   (`specs/Faults`: `IsDue`).
//! - A refusal leaves the operator as it was. By `err` of each call that may be refused.
//! - A report ends the open command that it is about, by its provider and number or as the start that took the EVSE.
//!   The result that it means is kept, pushed and sent to that provider as the site spells it. By `on_charger`: `step`
//!   (`specs/Charger`).
//! - With a start that is carried out a session begins. The session at an EVSE goes on or ends, its version is pushed
//!   in place of an older one, and a completed one's record is made. By `on_charger`: `step`.
//! - A token that is shown begins a session, or its provider is asked. A report about nothing of these does nothing. By
//!   `on_charger`: `step`.
//! - The bill of a session is taken back where the session is COMPLETED, has one bill and no credit, and the bill's
//!   token is of a provider of the site. The credit is stored, and pushed to that provider as the site spells it. Else
//!   nothing happens, nor where the bill's id has more than 37 characters, or a record has the id of the credit. By
//!   `on_credit`: `step` (`specs/Credits`).
//! - A tick ends exactly the open commands whose deadline is at or before the moment, by TIMEOUT, by provider and
//!   number. By `on_tick`: `step` (`specs/Tick`).
//! - Then exactly the reservations whose expiry is at or before it end. By `on_tick`: `step`.
//! - Then exactly the authorizations whose deadline is at or before it are awaited no more. Sessions begin for those
//!   tokens that may go without an answer. By `on_tick`: `step`.
//! - Then exactly the pushes that are due, and that this tick has neither made nor replaced, are sent again by number.
//!   Each has the body, number and addressee that it is stored with. By `on_tick`: `step`.
//! - `StampEnd` comes, of a report, only where it would make a version of a session that was last updated at the last
//!   moment. By `on_charger`: `fault`.
//! - `StampEnd` comes, of a credit, only where there is a bill to take back that was last updated at the last moment.
//!   By `on_credit`: `fault`.
//! - Of a report, a credit and a tick `NumbersUsedUp` comes only where what the event comes to would take a counter
//!   past its last number. By `on_charger`, `on_credit`, `on_tick`: `fault`.
//! - Of a report and a credit no other refusal comes but these two and Memory, of a tick none but `NumbersUsedUp` and
//!   Memory. By `on_charger`, `on_credit`, `on_tick`: `fault`.
//! - What is sent at a moment, if it is a push, is due again ten seconds later. By `node_steps/specs/Timing`: `timed`,
//!   in `apply`.
//! - After a restart no push has a resend time, no authorization is awaited, and nothing else changed. It takes no
//!   memory and cannot fail. By `restart`.
//! - An EVSE goes out of service or comes back, and nothing else changes. By `on_service`: `step`.
//! - The row changes lead from the rows of the state before to those of the state after, and touch no other key. By
//!   `rows` of the five.
//! - The rows that stand are listed, each once. By `stored`.
//! - Planning changes nothing, and gives what a line of the definition asks for (`PlannedBy`), or the refusal that is
//!   due. By `plan_packet`, `plan_charger`, `plan_credit`, `plan_tick`, `plan_service`: `step`, `fault`.
//! - What is planned may be carried out. So a keeper of rows calls the three itself, with its commit between the last
//!   two. By `follows` of these.
//! - The memory for a plan is taken, and the state stays. A step that has room already is never refused. By
//!   `make_room`: `state`, `room`, `again`.
//! - A plan that has room and may follow is carried out. It takes no memory, cannot fail, and answers its packets. By
//!   `apply`: `state`, `packets`.
//! - All that `Books` keeps holds of every operator. By `consistency`.
//! - What is made of rows is of that site, has just these rows, wherever in the list they stood, and nothing else: no
//!   resend times, no authorizations that are awaited. By `books_of_rows`, `Operator::from_rows`: `made`.
//!
//! # How it is built
//!
//! What is planned stands in `operator_planning`, over the books; an operator is its books, and where it takes its
//! memory from. The gate tries wrong bodies of `node_steps`, `operator_tables` and `session_tables`, so that the
//! dearest, `operator_rows`, `operator_stored` and `operator_planning`, are proved once.
//!
//! `on_packet` and its kin plan, make room and apply, and answer a copy of the row changes (`copies`). The contract
//! of planning is that the plan is what a line of the definition asks for (`PlannedBy`); the contract of applying is
//! that the plan is what stands (`after`).
#![tactic(auto)]

mod from_rows;
mod operator;
mod planning;

pub use operator::Operator;
