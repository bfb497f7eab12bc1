//! What a step of an operator is decided to be.

use authorization_book::Waiting;
use node_steps::Plan;

/// What a step of an operator is decided to be: a plan, and what the step does to the authorizations that are awaited,
/// in order. Nothing is changed and nothing is sent before it is carried out.
#[derive(Drop)]
pub struct FullPlan {
    pub plan: Plan,
    pub waits: Vec<Waiting>,
}
