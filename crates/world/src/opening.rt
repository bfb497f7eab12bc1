//! The places of a setup, before the first event.

ghost use Rattle.std.specs.Prelude.{◌≡◌, Contains, IfOk};
ghost use Rattle.world.specs.Seen.{place_seen, places_seen};
ghost use Rattle.world.specs.State.{names_of};
ghost use Rattle.world_laws.specs.Laws.{IsSetup};
ghost use Rattle.world_steps.specs.World.{opened, place_of};

use crate::place::Place;
use node_core::Node;
use ocpi_text::PartyKey;
use ocpi_types::Node as SetupNode;
use std::alloc::{AllocError, Global};
use tables::HashSeed;

impl Place {
    /// The place of a node among the nodes, before the first event. An error is want of memory.
    fn open(
        alloc: Global,
        seed: HashSeed,
        nodes: &[SetupNode],
        member: &SetupNode,
    ) -> Result<Place, AllocError>
        requires setup { IsSetup nodes.now }
        requires member { Contains nodes.now member.now }
        ensures { IfOk result (λ p. place_seen p ≡ place_of nodes.now member.now) }
    {
        let node = Node::open(alloc, seed, nodes, member)?;
        Ok(Place {
            party: *member.party(),
            node,
            sent: Vec::new(alloc),
            versions: Vec::new(alloc),
        })
    }
}

/// A place for each node, in order, before the first event. An error is want of memory.
pub(crate) fn open_all(
    alloc: Global,
    seed: HashSeed,
    nodes: &[SetupNode],
) -> Result<Vec<Place>, AllocError>
    requires { IsSetup nodes.now }
    ensures { IfOk result (λ v. places_seen v.items ≡ opened nodes.now) }
{
    let mut places = Vec::new(alloc);
    for member in nodes {
        let place = Place::open(alloc, seed, nodes, member)?;
        places.push(place)?;
    }
    Ok(places)
}

/// The keys of the parties of places, in order. An error is want of memory.
pub(crate) fn keys_of(alloc: Global, places: &[Place]) -> Result<Vec<PartyKey>, AllocError>
    ensures { IfOk result (λ v. v.items ≡ names_of (places_seen places.now)) }
{
    let mut names = Vec::new(alloc);
    for place in places {
        names.push(place.party.key())?;
    }
    Ok(names)
}
