//! What holds of a provider at any time, and over all events from its opening (`laws`).
//!
//! # How a law is used
//!
//! An operator sends a session as ACTIVE under its number 8, and then as COMPLETED under its number 9, and the second
//! packet overtakes the first. The event that answers number 9 leaves a final version held, and so does each run from
//! then on: this is `acknowledged_sessions_are_held`, given that event and that run. When number 8 comes it changes
//! nothing: by `held_sessions_rise`, given the run from then on, nothing follows a final version. A law names states,
//! events and runs, and never what the provider computes; who uses it need know no act.
//!
//! # Promises
//!
//! Over every list of events from the opening on, restarts among other operators too (`provider_steps/specs/Events`:
//! `Happens`), and from any state to a later one where a law speaks of two.
//!
//! - All that `consistency` says holds. By `always_consistent`.
//! - What is held was held before, or came in a packet of its own operator, for a token of this provider. By
//!   `held_sessions_came`, `held_cdrs_came`.
//! - A held session is followed only by one with a later `last_updated`, and nothing follows a final one. By
//!   `held_sessions_rise`.
//! - A held record stays, just as it is. No two bills of one operator are of one session, and no two credits. By
//!   `held_cdrs_stay`, `one_cdr_per_session`.
//! - Once a session was acknowledged by 1000, what is held is at least as new, or final. Once a record was, just it is
//!   held. By `acknowledged_sessions_are_held`, `acknowledged_cdrs_are_held`, `sent_acknowledgements_hold`.
//! - What is owed changes by the records that are taken, each once, and by nothing else. By `settlements_are_taken`,
//!   `taken_cdrs_are_held`, `cdrs_are_taken_once`.
//! - Each authorization reference is that of a number which the counter gave, and goes, also without case, to one
//!   command or one kept authorization, also across restarts. By `references_never_fall`, `references_are_own`,
//!   `references_have_one_carrier`.
//! - Each packet is to an operator, as the provider spells it when the packet is sent. By `packets_are_spelled`.
//! - A sent command stands with its addressee. By `commands_stay`, `sent_commands_stand`.
//! - A response or a result that is kept came from that addressee, under its number or posted to its url, and never
//!   changes. By `answers_came`, `results_came`, `commands_stay`.
//! - A url belongs to one number. By `urls_are_own`, `urls_have_one_number`.
//! - A provider is a node as `node_laws` has it; each of its request numbers has one body and one addressee, commands
//!   and tokens together. By `steps_are_node_steps`, `runs_are_node_runs`, `numbered`, `packets_are_addressed`,
//!   `requests_agree`, `replies_stay`, `replies_answer`, `sent_replies_are_kept`.
#![tactic(auto)]

pub mod laws;
