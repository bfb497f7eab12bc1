//! The node of a party, and the packets that may be delivered to it.

ghost use Rattle.std.specs.Prelude.{◌≡◌, ℕ, IfNone, IfSome, None, Some, slice_get};
ghost use Rattle.ocpi_text.specs.Text.{key};
ghost use Rattle.ocpi_types.specs.declared.packet.Packet.{Packet as PacketOf};
ghost use Rattle.world.specs.Deliveries.{first_of};
ghost use Rattle.world.specs.Seen.{places_seen};
ghost use Rattle.world.specs.State.{names_of};
ghost use Rattle.world_steps.specs.Network.{MayArrive};

use crate::place::Place;
use ocpi_text::{Party, PartyKey, Whole};
use ocpi_types::Packet;
use world_steps::delivering::sent_to;

/// Where the key of a party stands among keys.
pub(crate) fn find(names: &[PartyKey], party: &Party) -> Option<usize>
    ensures found { IfSome result (λ i. slice_get names.now i ≡ Some (key party.now)) }
    ensures none { IfNone result ((i : ℕ) → slice_get names.now i ≡ Some (key party.now) → ⊥) }
{
    let name = party.key();
    for i in 0..names.len() {
        if names[i] == name {
            return Some(i);
        }
    }
    None
}

/// The first place of a party, which is compared without case.
pub(crate) fn of_party<'w>(places: &'w [Place], party: &Party) -> Option<&'w Place>
    ensures found { IfSome result (λ p. first_of places.now party.now ≡ Some p.now) }
    ensures none { IfNone result (first_of places.now party.now ≡ None) }
{
    for place in places {
        if place.party.is_same(party) {
            return Some(place);
        }
    }
    None
}

/// The packet of that serial that a party sent to the other.
pub(crate) fn delivered<'w>(
    names: &[PartyKey],
    places: &'w [Place],
    to: &Party,
    from: &Party,
    serial: Whole,
) -> Option<&'w Packet>
    requires { names.now ≡ names_of (places_seen places.now) }
    ensures found { IfSome result (λ q. MayArrive (places_seen places.now) to.now from.now serial q.now) }
    ensures none { IfNone result ((q : PacketOf) → MayArrive (places_seen places.now) to.now from.now serial q → ⊥) }
{
    let name = from.key();
    for i in 0..names.len() {
        if names[i] == name {
            if let Some(packet) = sent_to(places[i].sent.as_slice(), to, serial) {
                return Some(packet);
            }
        }
    }
    None
}
