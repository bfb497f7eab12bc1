//! The laws of a node of either role, over every list of exchanges, from any state to any later one. An operator and a
//! provider keep to them, since each of their steps is a `NodeStep`.

ghost use Rattle.node_laws.specs.Laws.{
  RunsAreSteps,
  Numbered,
  SentToPeers,
  SentRepliesAreKept,
  RepliesStay,
  RepliesAnswer,
  RequestsAgree,
  RequestsStand,
  RequestsWereSent,
  StayGiven,
};

/// A run is one step, by all that came and all that was sent.
pub fn runs_are_steps()
    ensures { RunsAreSteps }
{}

/// Packets leave under the next numbers, from this party.
pub fn numbered()
    ensures { Numbered }
{}

/// Each packet is to a peer.
pub fn sent_to_peers()
    ensures { SentToPeers }
{}

/// Each reply that was sent, of whatever kind, is the one that is kept for its request.
pub fn sent_replies_are_kept()
    ensures { SentRepliesAreKept }
{}

/// A reply is kept for good.
pub fn replies_stay()
    ensures { RepliesStay }
{}

/// Each reply that is kept was kept before, or answers a request that came.
pub fn replies_answer()
    ensures { RepliesAnswer }
{}

/// Each number of an own request has one body and one addressee, however often it is sent.
pub fn requests_agree()
    ensures { RequestsAgree }
{}

/// A request that was sent, and is repeated until it is settled, stands until then.
pub fn requests_stand()
    ensures { RequestsStand }
{}

/// A request that stands stood before, or was sent under its number.
pub fn requests_were_sent()
    ensures { RequestsWereSent }
{}

/// The requests that stand stay given.
pub fn stay_given()
    ensures { StayGiven }
{}
