//! What holds of each world of each legal run: it is safe (`specs/Safe`), what is acknowledged is held and answers
//! agree (`specs/Agree`), its nodes are linked (`specs/Linked`), and each world to which the run goes on is later
//! (`specs/Later`).
//!
//! # Promises
//!
//! - Each world of each legal run is safe, for any setup of one to 64 nodes. Each EVSE has one claim, each reference
//!   one session over all operators, and pasts are orderly. By law `worlds_are_right` (`specs/Safe`).
//! - Held versions are of them, a completed session has one bill and at most one credit, and held records are the
//!   operator's. What is owed follows: each held bill counts its session's cost once, and each held credit takes it off
//!   once. By law `worlds_are_right`.
//! - What is acknowledged is held, and answers agree. By law `worlds_are_right` (`specs/Agree`).
//! - Each node deals with all of the other role, and a delivery brings the packet that it names. By law
//!   `worlds_are_right` (`specs/Linked`).
//! - Each world to which the run goes on is right too, and later. By law `worlds_go_on` (`specs/Later`).
//!
//! # How it is built
//!
//! What holds of all runs is not shown of this code but of the definition of a step (`world_steps/specs/Steps`),
//! which the code meets. The one induction over runs of worlds (`world_steps/proofs/Tracing`) gives each node a run
//! of its own and says who sent what came to it; it knows nothing of what nodes do. Each part of the promise is then
//! a chain of laws of one node: from what a provider holds to the packet that brought it, to the operator that sent
//! it, to the version that it stored (`world_laws/proofs`). A new rule of a node adds laws beside its table, and a
//! step to such a chain.
#![tactic(auto)]

pub mod laws;
