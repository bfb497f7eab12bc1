//! What an operator does: the definition of its steps, and what follows from it for each step (OCPI 2.2.1, Commands,
//! Sessions, CDRs, Tokens).
//!
//! A proof takes a fact by its lemma, as `use Rattle.operator_steps.proofs.PacketSteps.{packets}`: `packets at q s
//! work fine line in_range` says that the work which a line asks of the packet `q` may be carried out
//! (`MayFollowFull`), where `fine` is what `Operator::consistency` ensures of the state `s`, and no counter passes its
//! last number.
//!
//! # Promises
//!
//! The definition of an operator's steps as lists of acts.
//!
//! - What a packet, a report, a credit, a moment or a change of service asks for may be carried out wherever what holds
//!   at all times holds. Its changes are of different rows, each keeps what holds, and what it sends stands. By laws
//!   `packets_may_follow`, `reports_may_follow`, `credits_may_follow`, `ticks_may_follow`, `service_may_follow`.
//! - The stages of a moment, each of which sees what the ones before it left, come to what is read from the state
//!   before the moment. By law `stages_see_start`.
//! - Each command that is due is of a provider of the site. By law `due_have_providers`.
//!
//! # How it is built
//!
//! A line of a table asks for `Work` (`specs/Moves`): acts, and changes of what is awaited. A question is an act
//! (`asked`) that takes a request number and is sent once, beside a change of what is awaited (`Waiting`). A step
//! with both is a `FullStep`, and its plan a `FullPlan` (`operator_rows`).
//!
//! Which acts a step has is said by cases, and from the list everything else follows (`step_by`). For packets there
//! is a table for each command (`operator_tables/specs/Start`, `Reserve`, `Cancel`, `Stop`, `Unlock`), a type with a
//! constructor for each line, in the table's order, each later line denying the earlier ones; a line gives a
//! `Decision`, `decided_acts` says what each decision does, and one lemma a table (`specs/Outcomes`: `Tells`) says
//! what a decision tells of the state, so that nothing above goes through the lines again. A report ends a command,
//! begins a session with it, moves the session at an EVSE, shows a token, or is idle (`specs/Charger`). How a session
//! begins and goes on is read in `session_tables`: a `Beginning` for each of four ways (a start that is carried out,
//! a token that is shown, an answer, none by the deadline), and the version that a report makes, by `session_state`.
//! A tick is a chain of stages, each of which sees what the ones before it left (`specs/Tick`): commands time out,
//! reservations expire, authorizations reach their deadline, pushes are sent again.
#![tactic(auto)]

mod ending;
pub mod facts;
pub mod tick_facts;

pub use ending::Ending;
