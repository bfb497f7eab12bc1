//! The laws of an operator, over every list of events from its opening. An event is what `operator_steps` says of it
//! (`Happens`), which is what `Operator::on_packet`, `on_charger`, `on_credit`, `on_tick`, `on_service` and `restart`
//! do.

ghost use Rattle.operator_laws.specs.AsNode.{StepsAreNodeSteps, RunsAreNodeRuns, PacketsAreAddressed, PacketsAreSpelled, PushesWereSent};
ghost use Rattle.operator_laws.specs.Made.{OpenCommandsCame, OpenedCommandsCame, RepliesWereGiven, ReservationsAreMade};
ghost use Rattle.operator_laws.specs.Replied.{
  AcceptedIsOpenOrSettled,
  CancellationsAreMarked,
  ReservationsAreAskedFor,
  ReservationsAreMarked,
  ResultsArePosted,
  SpentStays,
};
ghost use Rattle.operator_laws.specs.Laws.{
  AlwaysConsistent,
  OneStart,
  SentRepliesAreKept,
  RepliesStay,
  ResultsStay,
  Numbered,
  RequestsAgree,
  PushesStand,
  SentResultsAreKept,
  MarksNeverFall,
  ReservationsAreNewer,
  ReferencesHaveOneCarrier,
  CarriedReferencesAreSpent,
};

/// Each EVSE has at most one claim, among open starts, sessions and reservations; each open command is of a provider
/// of the site, and has a reply and no result; each command that has a result has a reply; what claims an EVSE names
/// one of the site; each push is to a provider of the site and has a number that was given, and only a push that
/// stands has a resend time; each session is of this operator, and may go on if it has not ended; at each EVSE at most
/// one authorization is awaited; each reference is carried by at most one open start, and may not be used again. The
/// operator is a party by its form.
pub fn always_consistent()
    ensures { AlwaysConsistent }
{}

/// Each authorization reference of a provider is carried by at most one of its open starts.
pub fn references_have_one_carrier()
    ensures { ReferencesHaveOneCarrier }
{}

/// The authorization reference of an open start may not be used again.
pub fn carried_references_are_spent()
    ensures { CarriedReferencesAreSpent }
{}

/// Each authorization reference of a provider opens at most one start.
pub fn one_start()
    ensures { OneStart }
{}

/// Each reply that was sent, a response or an acknowledgement, is the one that is kept for its request: all answers to
/// one request have one body.
pub fn sent_replies_are_kept()
    ensures { SentRepliesAreKept }
{}

/// A reply is kept for good.
pub fn replies_stay()
    ensures { RepliesStay }
{}

/// Each kept reply was given by one event, to a request that came in that event and that it answers: a response to a
/// command, and an acknowledgement to a token. Up to that event no reply was kept for the request.
pub fn replies_were_given()
    ensures { RepliesWereGiven }
{}

/// A result is kept for good.
pub fn results_stay()
    ensures { ResultsStay }
{}

/// The packets of an operator are numbered from 1, each by the next number.
pub fn numbered()
    ensures { Numbered }
{}

/// Each request of an operator, be it a result, a session, a charge detail record or a question about a token, has one
/// number, one body and one addressee, however often it is sent.
pub fn requests_agree()
    ensures { RequestsAgree }
{}

/// A result, or a charge detail record, that was sent is pushed until its addressee acknowledges it.
pub fn pushes_stand()
    ensures { PushesStand }
{}

/// A result that was sent is the one that is kept.
pub fn sent_results_are_kept()
    ensures { SentResultsAreKept }
{}

/// No mark falls, and none goes.
pub fn marks_never_fall()
    ensures { MarksNeverFall }
{}

/// A reservation is made only by a request that sets its mark, under a number above that of every request that set the
/// mark before: each CANCEL_RESERVATION and each accepted RESERVE_NOW about it that was not overtaken.
pub fn reservations_are_newer()
    ensures { ReservationsAreNewer }
{}

/// A cancellation that was answered, however it was, holds from then on against older requests about its reservation.
pub fn cancellations_are_marked()
    ensures { CancellationsAreMarked }
{}

/// A request to reserve that was accepted holds from then on against older requests about its reservation.
pub fn reservations_are_marked()
    ensures { ReservationsAreMarked }
{}

/// An authorization reference that is spent stays spent.
pub fn spent_stays()
    ensures { SpentStays }
{}

/// A reservation that stands, and did not stand so before, was asked for by its provider in between.
pub fn reservations_are_asked_for()
    ensures { ReservationsAreAskedFor }
{}

/// A command whose response was ACCEPTED is open or has its result, and never both.
pub fn accepted_is_open_or_settled()
    ensures { AcceptedIsOpenOrSettled }
{}

/// A result that was sent answers a command that came from its addressee: it is posted where that command says, and is
/// the result that is kept for it.
pub fn results_are_posted()
    ensures { ResultsArePosted }
{}

/// A reservation that stands, and did not stand so at an earlier state, was made in between by a RESERVE_NOW that came,
/// asked for this very reservation and has the result ACCEPTED, under a number above that of every CANCEL_RESERVATION
/// about it that was answered before.
pub fn reservations_are_made()
    ensures { ReservationsAreMade }
{}

/// An open command was open before, or is the command that came under its number.
pub fn open_commands_came()
    ensures { OpenCommandsCame }
{}

/// A command that an event opens, whether or not it is open still, came in that event under its number, and was
/// answered.
pub fn opened_commands_came()
    ensures { OpenedCommandsCame }
{}

/// Each event of an operator is a step of a node, whose peers are all providers that the operator was ever set up with.
pub fn steps_are_node_steps()
    ensures { StepsAreNodeSteps }
{}

/// Each run of an operator is a run of a node, and keeps to the laws of nodes (`node_laws`).
pub fn runs_are_node_runs()
    ensures { RunsAreNodeRuns }
{}

/// Each packet is from this operator, and to a provider that it was ever set up with.
pub fn packets_are_addressed()
    ensures { PacketsAreAddressed }
{}

/// Each packet is to a provider of the site at that time, as it spells it then.
pub fn packets_are_spelled()
    ensures { PacketsAreSpelled }
{}

/// A push that stands was sent under its number.
pub fn pushes_were_sent()
    ensures { PushesWereSent }
{}
