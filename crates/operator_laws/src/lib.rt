//! What holds of an operator at any time, and over all events from its opening (`laws`).
//!
//! # How a law is used
//!
//! A provider cancels a reservation under its number 7, and the packet overtakes the one that asks for the reservation
//! under its number 6. The event that answers the cancellation leaves the reservation's mark at 7 or more, whether or
//! not the operator knew the reservation, and so does each run from then on: this is `cancellations_are_marked`, given
//! that event and that run. When number 6 comes it makes no reservation: by `reservations_are_made`, given the run up
//! to the cancellation's answer and beyond it and the run after that, a reservation that stands now and did not stand
//! then was made by a RESERVE_NOW above each cancellation about it that was answered before, so above 7. A law names
//! states, events and runs, and never what the operator computes; who uses it need know no table and no act.
//!
//! A proof takes a law by its lemma: `use Rattle.operator_laws.proofs.reservations.Making.{reservations_are_made}`,
//! and the other by `use Rattle.operator_laws.proofs.reservations.Marks.{cancellations_are_marked}`.
//!
//! # Promises
//!
//! Over every list of events from the opening on: packets, reports, credits, ticks, changes of service and restarts,
//! also under another setup, at moments that may go back, refused ones among them. The steps are those that `Operator` is proved to take
//! (`operator_steps/specs/Events`: `Happens`).
//!
//! - All that `consistency` says holds, so no EVSE is ever held twice; and the next two rows. As some others, it is
//!   said of a site line whose operator is a party by its form (`IsOfParty`), which the type `Party` keeps. By
//!   `always_consistent`.
//! - Each authorization reference of a provider is carried by at most one of its open starts, and may not be used
//!   again. By `references_have_one_carrier`, `carried_references_are_spent`.
//! - Each authorization reference of a provider opens at most one start. By `one_start`.
//! - Each response is the reply that is kept for its request, for good. By `sent_replies_are_kept`, `replies_stay`.
//! - Each kept reply was given by one event, in which the command or token came that it answers, and up to which none
//!   was kept for it. So all answers to one request are alike. By `replies_were_given`.
//! - The same of results. By `sent_results_are_kept`, `results_stay`.
//! - Packets are numbered from 1, each by the next number. By `numbered`.
//! - Each request of the operator's own, of every kind, has one number, one body and one addressee, however often it is
//!   sent. By `requests_agree`.
//! - Each packet is to a provider of the site, as that spells it when the packet is sent. By `packets_are_spelled`.
//! - A result that was sent is pushed until its addressee acknowledges its number. By `pushes_stand`.
//! - A result that was sent answers a command that came from its addressee, is posted where that command says, and is
//!   the one that is kept for it. By `results_are_posted`.
//! - A command whose response was ACCEPTED is open or has its result, and never both. By `accepted_is_open_or_settled`.
//! - A reference that is spent stays spent. By `spent_stays`.
//! - From any state to a later one, a reservation that stands and did not stand so before was made by a RESERVE_NOW in
//!   between. That one asked for this very reservation and got the result ACCEPTED. Its number is above that of every
//!   CANCEL_RESERVATION about it that was answered before. By `reservations_are_made`.
//! - Such a reservation was asked for by a RESERVE_NOW of its provider that came in between. By
//!   `reservations_are_asked_for`.
//! - Each packet that is sent is from this operator to a provider that it was ever set up with, and a push that stands
//!   was sent under its number. By `packets_are_addressed`, `pushes_were_sent`.
//! - The laws of nodes hold of an operator. By `steps_are_node_steps`, `runs_are_node_runs`.
//! - An open command is the one that came under its number, or was open before. So is each command that an event
//!   opened, whether or not it is open still. By `open_commands_came`, `opened_commands_came`.
//! - Once a CANCEL_RESERVATION was answered, however it was, or a RESERVE_NOW by ACCEPTED, the mark of its reservation
//!   is at least its number, for good. By `cancellations_are_marked`, `reservations_are_marked`.
//! - A reservation is made only by a request that sets its mark, under a number above that of every request that set it
//!   before. So a cancellation that overtakes its reservation holds. By `marks_never_fall`, `reservations_are_newer`.
//! - Each authorization reference is carried by at most one of the provider's open starts and its sessions, may not be
//!   used again, and came from the provider, in a start or an answer. By `references_are_spent_once`.
//! - Each session that was sent or stands as a push is a version that was stored, to the provider of its token, and
//!   each record one that stands. By `session_bodies_are_past`.
//! - The newest version of each session, and each record, is pushed to the provider of its token until it acknowledges
//!   it. By `versions_are_pushed`.
//! - A start whose result is ACCEPTED began a session for its provider, with its token and its reference. By
//!   `accepted_starts_have_sessions`.
//! - A session stands for good, with its id, its token, its reference and its place. By `sessions_stay`.
//! - Ids of sessions and records are those of numbers that their counters gave, from 1 on; that of a credit is followed
//!   by `-C`. Different numbers have different ids, also without case (of credits `credit_ids_differ` of `reached_laws`
//!   says so). By `ids_are_given`, `numbers_never_fall`.
//!
//! # How it is built
//!
//! The laws stand in a crate of their own, `operator_laws` (`laws.rt`, `specs/Laws`, `specs/References`,
//! `specs/Replied`, `specs/Made`, `specs/AsNode`), since no must-fail edit breaks them. They speak of every list of
//! events from the opening: packets in any order and any number of times, reports, credits, ticks, changes of service
//! and restarts, also under another setup, at moments that may go back, refused events among them
//! (`operator_steps/specs/Events`: `Happens`). A run is `node_laws`' `Run` over that one relation.
//!
//! `operator_laws` and `session_laws` stand on `operator_steps` and `node_laws`, and not on `operator_core`: the laws
//! speak of the definition of the steps and of no body. `session_laws` takes its runs from `operator_laws`. So a
//! definition can be tried without its code: `tools/try_definitions` changes one and checks the laws alone.
#![tactic(auto)]

pub mod laws;
pub mod session_runs;
