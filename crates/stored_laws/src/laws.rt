//! The laws of what the nodes of a world store.

ghost use Rattle.stored_laws.specs.Laws.{OperatorsAreWhole, ProvidersAreWhole};
ghost use Rattle.stored_laws.specs.Nodes.{
  BillsMayBeTakenBack,
  NodesCanStartAgain,
  NodesKeepOpenings,
  OpeningsCanStartAgain,
  ReopeningsCanStartAgain,
  RestartsCanStartAgain,
};

/// Each operator of each world of each legal run is whole: its sessions and its charge detail records have ids of its
/// own, each session can go on from its newest version, and each session that is COMPLETED is billed once, and no
/// other. Each credit takes a bill back, and no session has two credits.
pub fn operators_are_whole()
    ensures { OperatorsAreWhole }
{}

/// And each provider: the authorization references of its commands are its own, its tokens and those of its sessions
/// and charge detail records are of its own drivers, and it holds no two bills of one session of an operator, nor two
/// credits.
pub fn providers_are_whole()
    ensures { ProvidersAreWhole }
{}

/// Each node of a setup can start again before its first event.
pub fn openings_can_start_again()
    ensures { OpeningsCanStartAgain }
{}

/// And so can each node that did something, wherever it came from.
pub fn nodes_can_start_again()
    ensures { NodesCanStartAgain }
{}

/// A node that can start again still can once it has.
pub fn restarts_can_start_again()
    ensures { RestartsCanStartAgain }
{}

/// And so can one that starts again under another setup, under which no row that it stored is bad.
pub fn reopenings_can_start_again()
    ensures { ReopeningsCanStartAgain }
{}

/// A node is of its opening from there on.
pub fn nodes_keep_openings()
    ensures { NodesKeepOpenings }
{}

/// An operator that can start again has, of each COMPLETED session that no credit is of, a bill that may be taken back.
/// Of what is asked of such a bill (`IsToCredit`) only that the session is COMPLETED and has no credit can fail: its id
/// is short enough, no record has the id of its credit, and the session has no other bill.
pub fn bills_may_be_taken_back()
    ensures { BillsMayBeTakenBack }
{}
