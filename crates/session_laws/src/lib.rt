//! What holds of an operator's sessions and charge detail records over all events (`laws`).
//!
//! # How a law is used
//!
//! A driver unplugs, and the session of some id is COMPLETED. By `records_are_of_completed_sessions` that very event
//! stores one bill, with the energy and the cost of that version; by `final_versions_are_last` no event from then on
//! puts another version of the session, whatever comes, however often. A law names states, events and runs, and never
//! what the operator computes; who uses it need know no table and no act.
//!
//! # Promises
//!
//! Of sessions and charge detail records over every list of events, and from any state to a later one where a law
//! speaks of two.
//!
//! - The versions that events put of a session are orderly. The first is PENDING, statuses follow one another, each is
//!   later than the one before, and energy never falls. By `pasts_are_orderly`.
//! - Cost is that of the energy at a price that the site had for the start, under one of its setups. Any two versions
//!   that follow one another have their costs at one such price. By `pasts_are_orderly`.
//! - What a session is of stays, and what is stored is the last version. By `pasts_are_orderly`.
//! - The same from any state to a later one. By `pasts_go_on`.
//! - Nothing follows a COMPLETED or INVALID version. By `final_versions_are_last`.
//! - An event puts a bill exactly where it puts a COMPLETED version, and it is the record of that version. A credit
//!   that it puts takes back a bill that stands, of a COMPLETED session without a credit, and is later than the bill.
//!   The event is an order to take that session's bill back. By `records_are_of_completed_sessions`.
//! - Each COMPLETED session has one bill, with its energy and cost, and there is no other bill. Each credit takes back
//!   a bill that stands, and no session has two credits. A record stays for good, unchanged. By
//!   `sessions_are_billed_once`, `records_stay`.
//! - Each version of a session that was sent, or is to be sent again, is of the session's past. By
//!   `sent_versions_are_past`.
//! - Each session and each record is in the currency of the site, where all setups have one. By
//!   `currencies_are_of_site`.
//! - Each session begins PENDING by one of four ways. These are an open start that a charge point carried out, and a
//!   valid token that needs no question. By `sessions_begin_as_asked`, `sessions_began`.
//! - The others are an answer of its provider that allows it by a reference that was not used before, and the deadline
//!   of such a question for a valid token that may go without an answer. By `sessions_begin_as_asked`,
//!   `sessions_began`.
#![tactic(auto)]

pub mod laws;
