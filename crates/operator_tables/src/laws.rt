//! What the decisions tell, whatever line of a table gave them.

ghost use Rattle.operator_tables.specs.Outcomes.{DecisionsTell};

/// A start that is accepted takes a connector of the site that is free, or held for it; a reservation is made only
/// where nothing else claims the EVSE; what is noted of a reservation is noted in time; and so on, a fact for each
/// decision.
pub fn decisions_tell()
    ensures { DecisionsTell }
{}
