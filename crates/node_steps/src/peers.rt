//! The peers of a node, found without case.

ghost use Rattle.std.specs.Prelude.{◌≡◌, IfSome, IfNone, List, ℕ, Contains};
ghost use Rattle.ocpi_text.specs.Text.{key};
ghost use Rattle.node_steps.specs.Peers.{IsPeer, spelled};

use ocpi_text::{Party, PartyKey};

/// The peer that is this party, as the list spells it. Nearly each party spells itself as the list does, so such a
/// peer is looked for first. None, where no peer is this party.
pub fn find_peer<'a>(peers: &'a [Party], party: &Party) -> Option<&'a Party>
    ensures found { IfSome result (λ p. IsPeer peers.now party.now p.now) }
    ensures none { IfNone result ((p : List ℕ) → IsPeer peers.now party.now p → ⊥) }
{
    match peers.iter().find(|p| *p == party) {
        Some(found) => Some(found),
        None => peers.iter().find(|p| p.is_same(party)),
    }
}

/// The peer that has a key, as the list spells it. None, where no peer has it.
pub fn peer_of(peers: &[Party], party: PartyKey) -> Option<&Party>
    ensures listed { IfSome result (λ p. Contains peers.now p.now) }
    ensures same { IfSome result (λ p. key p.now ≡ party) }
    ensures none { IfNone result ((p : List ℕ) → Contains peers.now p → key p ≡ party → ⊥) }
{
    peers.iter().find(|p| p.key() == party)
}

/// A party as the list spells it; or as it is, where no peer is this party.
pub(crate) fn spelling(peers: &[Party], party: Party) -> Party
    ensures { result ≡ spelled peers.now party }
{
    for peer in peers {
        if peer.is_same(&party) {
            return *peer;
        }
    }
    party
}
