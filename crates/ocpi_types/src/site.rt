//! The sites that operators configure: their locations, EVSEs and connectors (OCPI 2.2.1, Locations: Location, EVSE and
//! Connector objects, as far as a session and its CDR name them).

ghost use Rattle.std.specs.Prelude.{◌≡◌, ◌↔◌, ◌++◌, List, ℕ, IfOk, IsTrue, OnErr, SomeIff, length};
ghost use Rattle.std.specs.FinSet as set;
ghost use Rattle.ocpi_text.specs.Text.{key};
ghost use Rattle.ocpi_types.specs.Apart.{AllDiffer, DifferFrom};
ghost use Rattle.ocpi_types.specs.Limits.{IsCount};
ghost use Rattle.ocpi_types.specs.Locations.{AreLocations, evse_keys, location_keys, site_evse_keys};
ghost use Rattle.ocpi_types.specs.Prices.{price_at};

use crate::apart::{Identified, differ_from};
use crate::copies::{ListItem, copy_all};
use crate::id_set::IdSet;
use crate::parties::Parties;
use crate::price::PricePerKwh;
use crate::price_lists::Prices;
use ocpi_text::{CiText, FreeText, Moment};
use std::alloc::{AllocError, Global};
use std::marker::Model;

/// A connector of an EVSE.
#[derive(Drop)]
pub struct Connector {
    pub id: CiText<36>,
    pub standard: FreeText<64>,
    pub format: FreeText<64>,
    pub power_type: FreeText<64>,
}

impl ListItem for Connector {
    fn item_copy(&self) -> Result<Connector, AllocError> {
        self.copy()
    }
}

impl Identified for Connector {
    ghost id_key = { λ c. key c.id };

    fn is_same(&self, other: &Connector) -> bool {
        self.id.is_same(&other.id)
    }
}

impl Connector {
    /// An equal connector.
    pub fn copy(&self) -> Result<Connector, AllocError>
        ensures { IfOk result (λ t. t ≡ self.now) }
    {
        Ok(Connector {
            id: self.id,
            standard: self.standard.copy()?,
            format: self.format.copy()?,
            power_type: self.power_type.copy()?,
        })
    }
}

/// One to ten connectors, whose ids differ but for case.
#[derive(Drop)]
pub struct Connectors {
    connectors: Vec<Connector>,
}

impl Model for Connectors {
    ghost use Rattle.std.specs.Prelude.{List};
    ghost use Rattle.ocpi_types.specs.declared.site.Connector.{Connector};
    ghost use Rattle.ocpi_types.specs.Connectors.{AreConnectors};

    ghost Value = { List Connector };

    ghost view = { λ c. c.connectors.items };

    ghost invariant = { λ c. AreConnectors c.connectors.items };
}

impl Connectors {
    ghost use Rattle.ocpi_types.specs.Connectors.{AreConnectors};

    /// The connectors of a list. None, where they are none or more than ten, or two ids are the same but for case.
    pub fn new(connectors: Vec<Connector>) -> Option<Connectors>
        ensures { SomeIff result (AreConnectors connectors.items) connectors.items }
    {
        let count = connectors.len();
        if 1 <= count && count <= 10 && differ_from(&[], connectors.as_slice()) {
            Some(Connectors { connectors })
        } else {
            None
        }
    }

    /// The connectors, in order.
    pub fn as_slice(&self) -> &[Connector]
        ensures value { result.now ≡ self.now }
        ensures are { AreConnectors self.now }
    {
        self.connectors.as_slice()
    }

    /// Equal connectors.
    pub fn copy(&self) -> Result<Connectors, AllocError>
        ensures { IfOk result (λ t. t ≡ self.now) }
    {
        let connectors = copy_all(*self.connectors.allocator(), self.connectors.as_slice())?;
        Ok(Connectors { connectors })
    }
}

/// An EVSE: what serves one session at a time.
#[derive(Drop)]
pub struct Evse {
    pub uid: CiText<36>,
    pub evse_id: CiText<48>,
    pub connectors: Connectors,
}

impl ListItem for Evse {
    fn item_copy(&self) -> Result<Evse, AllocError> {
        self.copy()
    }
}

impl Evse {
    /// An equal EVSE.
    pub fn copy(&self) -> Result<Evse, AllocError>
        ensures { IfOk result (λ t. t ≡ self.now) }
    {
        Ok(Evse {
            uid: self.uid,
            evse_id: self.evse_id,
            connectors: self.connectors.copy()?,
        })
    }
}

/// One to a thousand EVSEs.
#[derive(Drop)]
pub struct Evses {
    evses: Vec<Evse>,
}

impl Model for Evses {
    ghost use Rattle.std.specs.Prelude.{List, length};
    ghost use Rattle.ocpi_types.specs.declared.site.Evse.{Evse};
    ghost use Rattle.ocpi_types.specs.Limits.{IsCount};

    ghost Value = { List Evse };

    ghost view = { λ e. e.evses.items };

    ghost invariant = { λ e. IsCount 1000 (length e.evses.items) };
}

impl Evses {
    ghost use Rattle.ocpi_types.specs.Limits.{IsCount};

    /// The EVSEs of a list. None, where they are none or more than a thousand. Whether their uids differ is a matter of
    /// the whole site.
    pub fn new(evses: Vec<Evse>) -> Option<Evses>
        ensures { SomeIff result (IsCount 1000 (length evses.items)) evses.items }
    {
        let count = evses.len();
        if 1 <= count && count <= 1000 {
            Some(Evses { evses })
        } else {
            None
        }
    }

    /// The EVSEs, in order.
    pub fn as_slice(&self) -> &[Evse]
        ensures value { result.now ≡ self.now }
        ensures count { IsCount 1000 (length self.now) }
    {
        self.evses.as_slice()
    }

    /// Equal EVSEs.
    pub fn copy(&self) -> Result<Evses, AllocError>
        ensures { IfOk result (λ t. t ≡ self.now) }
    {
        let evses = copy_all(*self.evses.allocator(), self.evses.as_slice())?;
        Ok(Evses { evses })
    }
}

/// A location: EVSEs at one address.
#[derive(Drop)]
pub struct Location {
    pub id: CiText<36>,
    pub address: FreeText<45>,
    pub city: FreeText<45>,
    pub country: FreeText<3>,
    pub latitude: FreeText<10>,
    pub longitude: FreeText<11>,
    pub evses: Evses,
}

impl ListItem for Location {
    fn item_copy(&self) -> Result<Location, AllocError> {
        self.copy()
    }
}

impl Location {
    /// An equal location.
    pub fn copy(&self) -> Result<Location, AllocError>
        ensures { IfOk result (λ t. t ≡ self.now) }
    {
        let evses = self.evses.copy()?;
        let (address, city, country) = self.copy_address()?;
        let (latitude, longitude) = self.copy_coordinates()?;
        Ok(Location {
            id: self.id,
            address,
            city,
            country,
            latitude,
            longitude,
            evses,
        })
    }

    /// An equal address, with its city and country.
    fn copy_address(&self) -> Result<(FreeText<45>, FreeText<45>, FreeText<3>), AllocError>
        ensures { IfOk result (λ t. t ≡ (self.now.address, self.now.city, self.now.country)) }
    {
        Ok((
            self.address.copy()?,
            self.city.copy()?,
            self.country.copy()?,
        ))
    }

    /// An equal latitude and longitude.
    fn copy_coordinates(&self) -> Result<(FreeText<10>, FreeText<11>), AllocError>
        ensures { IfOk result (λ t. t ≡ (self.now.latitude, self.now.longitude)) }
    {
        Ok((self.latitude.copy()?, self.longitude.copy()?))
    }
}

/// One to a thousand locations, whose ids differ but for case, as do the uids of all their EVSEs.
#[derive(Drop)]
pub struct Locations {
    locations: Vec<Location>,
}

impl Model for Locations {
    ghost use Rattle.std.specs.Prelude.{List};
    ghost use Rattle.ocpi_types.specs.declared.site.Location.{Location};
    ghost use Rattle.ocpi_types.specs.Locations.{AreLocations};

    ghost Value = { List Location };

    ghost view = { λ l. l.locations.items };

    ghost invariant = { λ l. AreLocations l.locations.items };
}

/// Whether the ids of the locations differ.
fn ids_differ(alloc: Global, locations: &[Location]) -> Result<bool, AllocError>
    ensures { IfOk result (λ differ. IsTrue differ ↔ AllDiffer (location_keys locations.now)) }
{
    let mut ids = IdSet::new(alloc);
    for location in locations {
        if !ids.insert(&location.id)? {
            return Ok(false);
        }
    }
    Ok(true)
}

/// Adds the uids of EVSEs to a set, and answers whether they differ from one another and from those in the set. Where
/// they do not, only some are added.
fn insert_uids(uids: &mut IdSet, evses: &[Evse]) -> Result<bool, AllocError>
    ensures new { (earlier : List (List ℕ)) → uids.old ≡ set.from_list earlier → IfOk result (λ new. IsTrue new ↔ DifferFrom earlier (evse_keys evses.now)) }
    ensures after { (earlier : List (List ℕ)) → uids.old ≡ set.from_list earlier → IfOk result (λ new. IsTrue new → uids.new ≡ set.from_list (earlier ++ evse_keys evses.now)) }
{
    for evse in evses {
        if !uids.insert(&evse.uid)? {
            return Ok(false);
        }
    }
    Ok(true)
}

/// Whether the uids of all EVSEs of the locations differ.
fn uids_differ(alloc: Global, locations: &[Location]) -> Result<bool, AllocError>
    ensures { IfOk result (λ differ. IsTrue differ ↔ AllDiffer (site_evse_keys locations.now)) }
{
    let mut uids = IdSet::new(alloc);
    for location in locations {
        if !insert_uids(&mut uids, location.evses.as_slice())? {
            return Ok(false);
        }
    }
    Ok(true)
}

/// Whether they are the locations of a site.
fn are_locations(alloc: Global, locations: &[Location]) -> Result<bool, AllocError>
    ensures made { IfOk result (λ are. IsTrue are ↔ AreLocations locations.now) }
    ensures err { OnErr result (IsCount 1000 (length locations.now)) }
{
    if locations.is_empty() || locations.len() > 1000 {
        return Ok(false);
    }
    let ids = ids_differ(alloc, locations)?;
    let uids = uids_differ(alloc, locations)?;
    Ok(ids && uids)
}

impl Locations {
    /// The locations of a list. None, where they are none or more than a thousand, or two ids, or two uids of EVSEs,
    /// are the same but for case. An error is want of memory to compare them.
    pub fn new(locations: Vec<Location>) -> Result<Option<Locations>, AllocError>
        ensures made { IfOk result (λ made. SomeIff made (AreLocations locations.items) locations.items) }
        ensures err { OnErr result (IsCount 1000 (length locations.items)) }
    {
        if are_locations(*locations.allocator(), locations.as_slice())? {
            Ok(Some(Locations { locations }))
        } else {
            Ok(None)
        }
    }

    /// The locations, in order.
    pub fn as_slice(&self) -> &[Location]
        ensures value { result.now ≡ self.now }
        ensures are { AreLocations self.now }
    {
        self.locations.as_slice()
    }

    /// Equal locations.
    pub fn copy(&self) -> Result<Locations, AllocError>
        ensures { IfOk result (λ t. t ≡ self.now) }
    {
        let locations = copy_all(*self.locations.allocator(), self.locations.as_slice())?;
        Ok(Locations { locations })
    }
}

/// What an operator configures: the currency of its sessions, their price per kWh, those that take its place from
/// moments on, and its locations.
#[derive(Drop)]
pub struct Site {
    pub currency: FreeText<3>,
    pub price: PricePerKwh,
    pub prices: Prices,
    pub locations: Locations,
}

impl Site {
    /// An equal site.
    pub fn copy(&self) -> Result<Site, AllocError>
        ensures { IfOk result (λ t. t ≡ self.now) }
    {
        Ok(Site {
            currency: self.currency.copy()?,
            price: self.price,
            prices: self.prices.copy()?,
            locations: self.locations.copy()?,
        })
    }

    /// The price per kWh at a moment: that of the last entry of `prices` that begins by it, and the site's own where
    /// there is none. A thousand entries take some ten comparisons.
    #[tactic(auto, unfolding(crate::specs::Prices::price_at))]
    pub fn price_at(&self, at: Moment) -> PricePerKwh
        ensures { result ≡ price_at self.now at }
    {
        match self.prices.last_begun(at) {
            Some(entry) => entry.price,
            None => self.price,
        }
    }
}

/// The first line of the program `answer`: the moment of all its events, the parties and the site.
#[derive(Drop)]
pub struct SiteLine {
    pub at: Moment,
    pub parties: Parties,
    pub site: Site,
}

impl SiteLine {
    /// An equal site line.
    pub fn copy(&self) -> Result<SiteLine, AllocError>
        ensures { IfOk result (λ t. t ≡ self.now) }
    {
        Ok(SiteLine {
            at: self.at,
            parties: self.parties.copy()?,
            site: self.site.copy()?,
        })
    }
}
