//! The laws of an operator's sessions and charge detail records, over every list of events from its opening, and from
//! any state to any later one where they speak of two. An event is what `operator_steps` says of it (`Happens`), which
//! is what the calls of an operator do.

ghost use Rattle.session_laws.specs.Begun.{SessionsBegan, SessionsBeginAsAsked};
ghost use Rattle.session_laws.specs.Bills.{
  CurrenciesAreOfSite,
  RecordsAreOfCompletedSessions,
  RecordsStay,
  SessionsAreBilledOnce,
};
ghost use Rattle.session_laws.specs.Sent.{SentVersionsArePast};
ghost use Rattle.session_laws.specs.Pasts.{FinalVersionsAreLast, PastsAreOrderly, PastsGoOn};

/// The past of each session is orderly: it begins PENDING, its statuses follow one another, each version is later than
/// the one before it, its energy never falls, its cost is that of its energy at a price that the site had for its start,
/// under one of its setups, and what it is of stays. Any two that follow one another have their costs at one such price.
/// What is stored of a session is its last version. A first version that is ACTIVE, two versions of one moment, or a
/// reading below the last would break this.
pub fn pasts_are_orderly()
    ensures { PastsAreOrderly }
{}

/// From any state to any later one, what events put of a session may follow the version that is stored, and the last
/// of them is stored then. A version that is sent but not stored, or one that is lost by a restart, would break this.
pub fn pasts_go_on()
    ensures { PastsGoOn }
{}

/// A version that is COMPLETED or INVALID is the last of its session, and is stored for good. A meter value that
/// reopens a session which ended would break this.
pub fn final_versions_are_last()
    ensures { FinalVersionsAreLast }
{}

/// An event puts a bill exactly where it puts a COMPLETED version of a session, and it is the record of that version:
/// its energy and its cost are the version's, and its id is that of the next number. A credit that an event puts takes
/// back a bill that stands, of a COMPLETED session without a credit: it names the bill, its cost is the bill's negated,
/// its id is new, and it is later than the bill. The event is an order to take the bill of that session back. A bill
/// for a session that goes on, a completed session without one, a second credit, one that nobody ordered, or one of a
/// cost that is not the bill's, would break this.
pub fn records_are_of_completed_sessions()
    ensures { RecordsAreOfCompletedSessions }
{}

/// From the opening on, each session that is COMPLETED has one bill, with the energy and the cost of that version, and
/// there is no other bill. Each credit takes back a bill that stands, and no session has two. A second bill where a
/// report is repeated, one for a session that was INVALID, or a second credit where the order is repeated, would break
/// this.
pub fn sessions_are_billed_once()
    ensures { SessionsAreBilledOnce }
{}

/// From the opening on, each session and each charge detail record is in the currency of the site, where all setups
/// have one. A bill in a currency of its token's provider would break this.
pub fn currencies_are_of_site()
    ensures { CurrenciesAreOfSite }
{}

/// A charge detail record stays for good, unchanged, a bill also where it is taken back. A record that a later one
/// replaces would break this.
pub fn records_stay()
    ensures { RecordsStay }
{}

/// The first version of a session is PENDING, and is put by an event that carries out an open start, shows a token
/// that its provider lets in, allows a token that its provider was asked about, or comes at the deadline of such a
/// question. A session that a token begins which its provider blocked, or an answer from another provider, would break
/// this.
pub fn sessions_begin_as_asked()
    ensures { SessionsBeginAsAsked }
{}

/// From the opening on, each session that is stored began by such an event. A session that is made of nothing would
/// break this.
pub fn sessions_began()
    ensures { SessionsBegan }
{}

/// From the opening on, each version of a session that was sent, or is to be sent again, is of the session's past. A
/// version that is sent and not stored would break this.
pub fn sent_versions_are_past()
    ensures { SentVersionsArePast }
{}
