//! The runs of the nodes in a run of their world.

ghost use Rattle.world_steps.specs.Laws.{Traced, TracedOn};

/// Each world that is run from the opening has traces: a run of each node, linked by the packets.
pub fn traced()
    ensures { Traced }
{}

/// Where a world runs on, each node goes on from the very state that it had.
pub fn traced_on()
    ensures { TracedOn }
{}
