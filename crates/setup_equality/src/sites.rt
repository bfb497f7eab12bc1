//! Whether sites, and what is in them, are equal.

ghost use Rattle.std.specs.Prelude.{◌≡◌, ◌↔◌, IsTrue};
ghost use Rattle.setup_equality.specs.Addresses.{IsSameAddress};

use crate::lists::{Compared, are_equal_items};
use ocpi_text::{CiText, FreeText};
use ocpi_types::{Connector, Evse, Location, PriceFrom, Site};

fn is_equal_ci<const MAX: usize>(text: &CiText<MAX>, other: &CiText<MAX>) -> bool
    ensures { IsTrue result ↔ (text.now ≡ other.now) }
{
    text.as_str() == other.as_str()
}

fn is_equal_free<const MAX: usize>(text: &FreeText<MAX>, other: &FreeText<MAX>) -> bool
    ensures { IsTrue result ↔ (text.now ≡ other.now) }
{
    text.as_str() == other.as_str()
}

impl Compared for Connector {
    #[tactic(auto, using(crate::proofs::Records::connectors_are))]
    fn is_equal(&self, other: &Connector) -> bool {
        is_equal_ci(&self.id, &other.id)
            && is_equal_free(&self.standard, &other.standard)
            && is_equal_free(&self.format, &other.format)
            && is_equal_free(&self.power_type, &other.power_type)
    }
}

impl Compared for Evse {
    #[tactic(auto, using(crate::proofs::Records::evses_are))]
    fn is_equal(&self, other: &Evse) -> bool {
        is_equal_ci(&self.uid, &other.uid)
            && is_equal_ci(&self.evse_id, &other.evse_id)
            && are_equal_items(self.connectors.as_slice(), other.connectors.as_slice())
    }
}

/// Whether the address, city, country and coordinates are equal.
fn is_equal_address(location: &Location, other: &Location) -> bool
    ensures { IsTrue result ↔ IsSameAddress location.now other.now }
{
    is_equal_free(&location.address, &other.address)
        && is_equal_free(&location.city, &other.city)
        && is_equal_free(&location.country, &other.country)
        && is_equal_free(&location.latitude, &other.latitude)
        && is_equal_free(&location.longitude, &other.longitude)
}

impl Compared for Location {
    #[tactic(auto, using(crate::proofs::Records::locations_are, crate::proofs::Records::same_address))]
    fn is_equal(&self, other: &Location) -> bool {
        is_equal_ci(&self.id, &other.id)
            && is_equal_address(self, other)
            && are_equal_items(self.evses.as_slice(), other.evses.as_slice())
    }
}

impl Compared for PriceFrom {
    #[tactic(auto, using(crate::proofs::Records::prices_are))]
    fn is_equal(&self, other: &PriceFrom) -> bool {
        self.start_date_time == other.start_date_time
            && self.price.value().units() == other.price.value().units()
    }
}

/// Whether two sites are equal.
#[tactic(auto, using(crate::proofs::Records::sites_are))]
pub fn is_equal_site(site: &Site, other: &Site) -> bool
    ensures { IsTrue result ↔ (site.now ≡ other.now) }
{
    is_equal_free(&site.currency, &other.currency)
        && site.price.value().units() == other.price.value().units()
        && are_equal_items(site.prices.as_slice(), other.prices.as_slice())
        && are_equal_items(site.locations.as_slice(), other.locations.as_slice())
}
