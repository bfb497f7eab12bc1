//! The laws of replayed nodes.

ghost use Rattle.replay_laws.specs.Answers.{NodesHaveOneAnswer};
ghost use Rattle.replay_laws.specs.Setups.{SetupsHavePlaces};

/// A node has at most one answer to an event: the packets that it sends, whether rows change, and the node behind it;
/// that the event is none of its role; or why it refuses it.
pub fn nodes_have_one_answer()
    ensures { NodesHaveOneAnswer }
{}

/// The ids of its places differ in each setup that a line spells.
pub fn setups_have_places()
    ensures { SetupsHavePlaces }
{}
