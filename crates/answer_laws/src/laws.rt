//! The laws of answers.

ghost use Rattle.answer_laws.specs.Answers.{OperatorsHaveOneStep, ProvidersHaveOneStep, RefusalsHaveOneReason};
ghost use Rattle.answer_laws.specs.Decisions.{CommandsHaveOneDecision};

/// What a provider does by an input is one thing: the rows that it changes, the packets that it sends, and the provider
/// behind it.
pub fn providers_have_one_step()
    ensures { ProvidersHaveOneStep }
{}

/// So is what an operator does.
pub fn operators_have_one_step()
    ensures { OperatorsHaveOneStep }
{}

/// Why a node refuses what reaches it is one thing, but for want of memory.
pub fn refusals_have_one_reason()
    ensures { RefusalsHaveOneReason }
{}

/// A command is decided in one way, also which of several EVSEs a START_SESSION or a RESERVE_NOW takes that names none
/// (OCPI 2.2.1, Commands: StartSession, ReserveNow). A start that names no connector takes the first of its EVSE.
pub fn commands_have_one_decision()
    ensures { CommandsHaveOneDecision }
{}
