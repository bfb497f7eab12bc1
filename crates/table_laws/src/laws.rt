//! The laws of the tables.

ghost use Rattle.table_laws.specs.Acknowledging.{AcknowledgedPushesEnd};
ghost use Rattle.table_laws.specs.Answering.{AnswersAreAboutTokens};
ghost use Rattle.table_laws.specs.Holding.{ReservationsAreUsed, ReservedStartsAreOpened};
ghost use Rattle.table_laws.specs.Moving.{OwnSessionsAreStopped, ReadingsAreKept, StopsEndSessions};
ghost use Rattle.table_laws.specs.Replacing.{TokensAreReplacedByLater, TokensNeverFall};
ghost use Rattle.table_laws.specs.Taking.{ConflictsAreRefused, RecordsAreTaken, ResultsAreTaken, VersionsAreTaken};
ghost use Rattle.table_laws.specs.Unlocking.{UnlocksAreOfNoOther};

/// A token that an operator holds stays, or a PUT of its provider brings one that was updated later (OCPI 2.2.1,
/// Tokens: Receiver interface, PUT; Token object, `last_updated`).
pub fn tokens_are_replaced_by_later()
    ensures { TokensAreReplacedByLater }
{}

/// So over any events the token in a place never gives way to an older one.
pub fn tokens_never_fall()
    ensures { TokensNeverFall }
{}

/// An UNLOCK_CONNECTOR is opened where no other provider has an open start, a session that goes on, or a reservation at
/// its EVSE (OCPI 2.2.1, Commands: UnlockConnector).
pub fn unlocks_are_of_no_other()
    ensures { UnlocksAreOfNoOther }
{}

/// A charge detail record from the right parties, which was not answered before, is stored by the step that takes it,
/// where each record of its operator that shares an id or a session with it is that very record (OCPI 2.2.1, CDRs:
/// Receiver interface, POST).
pub fn records_are_taken()
    ensures { RecordsAreTaken }
{}

/// Where one that differs shares an id or a session with it, nothing that is held changes, and it is refused by 2001.
pub fn conflicts_are_refused()
    ensures { ConflictsAreRefused }
{}

/// A version of a session from the right parties, which was not answered before, is stored by the step that takes it,
/// where none is held, or an older one that is not final (OCPI 2.2.1, Sessions: Receiver interface, PUT).
pub fn versions_are_taken()
    ensures { VersionsAreTaken }
{}

/// A result is stored with the command that it is for, where that has none yet: the one that was sent to the result's
/// sender, and that names the address to which the result is posted (OCPI 2.2.1, Commands: Sender interface, POST).
pub fn results_are_taken()
    ensures { ResultsAreTaken }
{}

/// Where a provider has a reservation for the token of its start, on an EVSE in service that the start may be about,
/// the start uses one as it is opened, and takes no EVSE that is free (OCPI 2.2.1, Commands: StartSession, ReserveNow).
pub fn reservations_are_used()
    ensures { ReservationsAreUsed }
{}

/// And such a start is opened, where it comes for the first time, its token is valid and its reference was not used
/// before: it is not told that each EVSE is occupied.
pub fn reserved_starts_are_opened()
    ensures { ReservedStartsAreOpened }
{}

/// A reading at an EVSE makes the next version of the ACTIVE session there, unless it is below the last or too high
/// (OCPI 2.2.1, Sessions: Session object, `kwh`).
pub fn readings_are_kept()
    ensures { ReadingsAreKept }
{}

/// The end of the charging at an EVSE makes the session there COMPLETED if it was ACTIVE, and INVALID if it was PENDING
/// (OCPI 2.2.1, Sessions: SessionStatus).
pub fn stops_end_sessions()
    ensures { StopsEndSessions }
{}

/// A STOP_SESSION about a session of its sender's that goes on is answered ACCEPTED, and so not UNKNOWN_SESSION, and is
/// open until its result (OCPI 2.2.1, Commands: StopSession, CommandResponse).
pub fn own_sessions_are_stopped()
    ensures { OwnSessionsAreStopped }
{}

/// A push that its addressee acknowledges with status 1000 is sent no more (OCPI 2.2.1, Transport and format: Response
/// format).
pub fn acknowledged_pushes_end()
    ensures { AcknowledgedPushesEnd }
{}

/// An answer by which a session begins is ALLOWED, and about the very token that its sender was asked about, which is
/// the session's (OCPI 2.2.1, Tokens: Real-time authorization, AuthorizationInfo).
pub fn answers_are_about_tokens()
    ensures { AnswersAreAboutTokens }
{}
