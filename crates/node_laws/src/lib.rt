//! What every node keeps to, operator or provider, over all that it takes and sends (`laws`).
//!
//! A proof takes a law by its lemma, as `use Rattle.node_laws.proofs.NodeRuns.{numbered}`: `numbered s t es run` says
//! of a run from the node `s` to `t` by the exchanges `es` that its packets leave under the next numbers. The role of
//! a node is shown once to be such a node, event by event (`steps_are_node_steps` of `operator_laws`).
//!
//! # Promises
//!
//! - A run of a node is one step by all that came and was sent. By law `runs_are_steps`.
//! - Packets are numbered and go to peers. By laws `numbered`, `sent_to_peers`.
//! - Kept replies are those that were sent, stay, and answer what came. By laws `sent_replies_are_kept`,
//!   `replies_stay`, `replies_answer`, `stay_given`.
//! - Requests agree and stand until they are settled: by an acknowledgement, by a newer one about the same, or, of a
//!   command, by its response or result. By laws `requests_agree`, `requests_stand`, `requests_were_sent`.
#![tactic(auto)]

pub mod laws;
