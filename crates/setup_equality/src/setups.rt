//! Whether setups are equal.

ghost use Rattle.std.specs.Prelude.{◌≡◌, ◌↔◌, IsTrue};

use crate::lists::{Compared, are_equal_items};
use crate::sites::is_equal_site;
use ocpi_text::Party;
use ocpi_types::{Node, Setup};

fn is_equal_party(party: &Party, other: &Party) -> bool
    ensures { IsTrue result ↔ (party.now ≡ other.now) }
{
    party.as_str() == other.as_str()
}

impl Compared for Node {
    fn is_equal(&self, other: &Node) -> bool {
        match (self, other) {
            (
                Node::Operator { party, site },
                Node::Operator {
                    party: other_party,
                    site: other_site,
                },
            ) => is_equal_party(party, other_party) && is_equal_site(site, other_site),
            (Node::Provider { party }, Node::Provider { party: other_party }) => {
                is_equal_party(party, other_party)
            }
            _ => false,
        }
    }
}

/// Whether two setups are equal: the same nodes in one order, with equal sites, in every field as spelled. It takes no
/// memory.
pub fn are_equal(setup: &Setup, other: &Setup) -> bool
    ensures { IsTrue result ↔ (setup.now ≡ other.now) }
{
    are_equal_items(setup.as_slice(), other.as_slice())
}
