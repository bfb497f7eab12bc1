//! What a moment of an operator comes to, read from the state before it.

ghost use Rattle.operator_steps.specs.TickFacts.{DueHaveProviders, StagesSeeStart};

/// What times out, has expired, is awaited no more and is due at a moment may all be read from the state before it,
/// though each stage of the moment sees what the ones before it left.
pub fn stages_see_start()
    ensures { StagesSeeStart }
{}

/// Each command that is due is of a provider of the site, so that its timeout can be told.
pub fn due_have_providers()
    ensures { DueHaveProviders }
{}
