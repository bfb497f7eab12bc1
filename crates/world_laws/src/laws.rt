//! The laws of a world, over every list of events from its opening, and from any world of a run to any later one.

ghost use Rattle.world_laws.specs.Laws.{WorldsAreRight, WorldsGoOn};

/// After any list of requests, deliveries, losses, repeats, reorderings, timeouts, refused commits and restarts a
/// world is safe, what is acknowledged is held, answers agree, and its nodes are linked.
pub fn worlds_are_right()
    ensures { WorldsAreRight }
{}

/// Each world to which a run goes on is right too, and later than the one before.
pub fn worlds_go_on()
    ensures { WorldsGoOn }
{}
