//! The laws of a provider, over every list of events from its opening, and from any state to any later one where they
//! speak of two. An event is what `provider_steps` says of it (`Happens`), which is what the calls of a provider do.

ghost use Rattle.provider_laws.specs.Laws.{
  AlwaysConsistent,
  RepliesStay,
  RepliesAnswer,
  Numbered,
  PacketsAreAddressed,
  SentRepliesAreKept,
  RequestsAgree,
};
ghost use Rattle.provider_laws.specs.Held.{
  HeldSessionsCame,
  HeldSessionsRise,
  AcknowledgedSessionsAreHeld,
  HeldCdrsCame,
  HeldCdrsStay,
  OneCdrPerSession,
  AcknowledgedCdrsAreHeld,
  SettlementsAreTaken,
  TakenCdrsAreHeld,
  CdrsAreTakenOnce,
  SentAcknowledgementsHold,
};
ghost use Rattle.provider_laws.specs.Commands.{
  CommandsStay,
  SentCommandsStand,
  AnswersCame,
  ResultsCame,
  UrlsAreOwn,
  UrlsHaveOneNumber,
};
ghost use Rattle.provider_laws.specs.References.{ReferencesNeverFall, ReferencesHaveOneCarrier, ReferencesAreOwn};
ghost use Rattle.provider_laws.specs.AsNode.{PacketsAreSpelled, StepsAreNodeSteps, RunsAreNodeRuns};

use provider_rows::stays_consistent;
use provider_steps::facts;

/// What holds of a provider at all times (`IsConsistent`) holds from its opening on, after each event.
pub fn always_consistent()
    ensures { AlwaysConsistent }
{
    stays_consistent();
    facts::packets_may_follow();
    facts::orders_may_follow();
    facts::tokens_may_follow();
    facts::ticks_may_follow();
}

/// A reply of any kind is kept for good.
pub fn replies_stay()
    ensures { RepliesStay }
{}

/// Each reply that is kept was kept before, or answers a request that came.
pub fn replies_answer()
    ensures { RepliesAnswer }
{}

/// Each session that is held was held before, or came from its operator, for a token of this party.
pub fn held_sessions_came()
    ensures { HeldSessionsCame }
{}

/// A session that is held stays, or a later version replaced it; nothing follows a final version.
pub fn held_sessions_rise()
    ensures { HeldSessionsRise }
{}

/// Once a session is acknowledged, what is held from then on is at least as new, or final.
pub fn acknowledged_sessions_are_held()
    ensures { AcknowledgedSessionsAreHeld }
{}

/// Each charge detail record that is held was held before, or came from its operator, for a token of this party.
pub fn held_cdrs_came()
    ensures { HeldCdrsCame }
{}

/// A charge detail record that is held is held for good.
pub fn held_cdrs_stay()
    ensures { HeldCdrsStay }
{}

/// No two charge detail records of an operator are of one session, but a bill and a credit of it may be.
pub fn one_cdr_per_session()
    ensures { OneCdrPerSession }
{}

/// Once a charge detail record is acknowledged, just it is held from then on.
pub fn acknowledged_cdrs_are_held()
    ensures { AcknowledgedCdrsAreHeld }
{}

/// What is owed changes by the charge detail records that are taken.
pub fn settlements_are_taken()
    ensures { SettlementsAreTaken }
{}

/// A charge detail record that is taken was not held before, and is held from then on.
pub fn taken_cdrs_are_held()
    ensures { TakenCdrsAreHeld }
{}

/// Each charge detail record is taken once.
pub fn cdrs_are_taken_once()
    ensures { CdrsAreTakenOnce }
{}

/// A command that was sent stands for good, and neither its response nor its result changes once it is stored.
pub fn commands_stay()
    ensures { CommandsStay }
{}

/// A command that was sent stands under its number, with its addressee.
pub fn sent_commands_stand()
    ensures { SentCommandsStand }
{}

/// A response that is stored was stored before, or came from the command's addressee under its number.
pub fn answers_came()
    ensures { AnswersCame }
{}

/// A result that is stored was stored before, or came from the command's addressee, posted to where the command says.
pub fn results_came()
    ensures { ResultsCame }
{}

/// The result of each command is posted to the url of its number.
pub fn urls_are_own()
    ensures { UrlsAreOwn }
{}

/// No two commands have one url.
pub fn urls_have_one_number()
    ensures { UrlsHaveOneNumber }
{}

/// The counter of references never falls, over restarts too.
pub fn references_never_fall()
    ensures { ReferencesNeverFall }
{}

/// Each reference belongs to one command or to one kept authorization, and so to one operator, also without case.
pub fn references_have_one_carrier()
    ensures { ReferencesHaveOneCarrier }
{}

/// Each reference that a command or a kept authorization carries is that of a number which the counter of references
/// gave.
pub fn references_are_own()
    ensures { ReferencesAreOwn }
{}

/// Each event of a provider is a step of a node, whose peers are all operators that the provider was ever set up with.
pub fn steps_are_node_steps()
    ensures { StepsAreNodeSteps }
{}

/// Each run of a provider is a run of a node, and keeps to the laws of nodes (`node_laws`).
pub fn runs_are_node_runs()
    ensures { RunsAreNodeRuns }
{}

/// The packets of a provider are numbered from 1, each by the next number.
pub fn numbered()
    ensures { Numbered }
{}

/// Each packet is from this provider, to an operator that it was ever set up with.
pub fn packets_are_addressed()
    ensures { PacketsAreAddressed }
{}

/// Each packet is to an operator that the provider deals with at that time, as it spells it then.
pub fn packets_are_spelled()
    ensures { PacketsAreSpelled }
{}

/// Each reply that was sent is the one that is kept for its request.
pub fn sent_replies_are_kept()
    ensures { SentRepliesAreKept }
{}

/// Each of the provider's own requests has one number, one body and one addressee, however often it is sent.
pub fn requests_agree()
    ensures { RequestsAgree }
{}

/// What each acknowledgement with status 1000 that was sent acknowledged is held.
pub fn sent_acknowledgements_hold()
    ensures { SentAcknowledgementsHold }
{}
