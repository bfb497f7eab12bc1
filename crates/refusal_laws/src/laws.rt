//! The law of refusals.

ghost use Rattle.refusal_laws.specs.Refusals.{RefusalsExcludeSteps};

/// What a node refuses for any reason but want of memory, no step of it does: a packet that is not for it, an order to
/// an operator that it does not know or about a token that it does not hold, what has no later moment, and what would
/// take a counter past its last number. Of an operator's site it is asked that its locations have different ids.
pub fn refusals_exclude_steps()
    ensures { RefusalsExcludeSteps }
{}
