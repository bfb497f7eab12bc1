//! The site line, member by member. Each reader gives the first fault in the order of the members.

ghost use Rattle.std.specs.Prelude.{◌≡◌, ℕ, List, [], ◌∷◌, ◌++◌, length, map, IfOk, Ok};
ghost use Rattle.std.specs.FinSet as set;
ghost use Rattle.std.specs.Str.{bytes_eq};
ghost use Rattle.json_text.specs.Trees.{view, items_view};
ghost use Rattle.ocpi_text.specs.Text.{key};
ghost use Rattle.ocpi_types.specs.Connectors.{connector_keys};
ghost use Rattle.ocpi_types.specs.Locations.{evse_keys, site_evse_keys};
ghost use Rattle.ocpi_types.specs.declared.site.Evse.{Evse};
ghost use Rattle.ocpi_types.specs.declared.site.Location.{Location};
ghost use Rattle.json_text.specs.Fault.{Gives, GivesBy};
ghost use Rattle.json_text.specs.Fields.{each_after};
ghost use Rattle.ocpi_forms.specs.SeenIds.{HasIds};
ghost use Rattle.ocpi_forms.specs.SiteForm.{IsSiteLineTree};
ghost use Rattle.json_text.specs.Lists.{is_among, new_ci_in};
ghost use Rattle.ocpi_forms.specs.Sites.{
  connector_at,
  connector_element,
  connectors_in,
  evse_at,
  evse_element,
  evses_in,
  location_place_at,
  location_at,
  location_element,
  locations_in,
  site_at,
  provider_at,
  providers_in,
  parties_at,
  site_line_at,
  site_of_line,
};

use crate::site_prices::{price_of, prices_of};
use json_text::fields::{as_record, as_text, ci_in, free_in, moment_in, party_in, record_in};
use json_text::lists::{ElementReader, counted_in, elements};
use json_text::{JsonFault, Tree, is_same_id, is_same_party};
use ocpi_text::{CiText, FreeText, Party};
use ocpi_types::{
    Connector, Connectors, Evse, Evses, Field, IdSet, Location, Locations, Parties, Site, SiteLine,
};
use std::alloc::Global;

/// Whether one of the connectors has that id.
fn has_connector(before: &[Connector], id: &CiText<36>) -> bool
    ensures { result ≡ is_among (connector_keys before.now) (key id.now) }
{
    before.iter().any(|c| is_same_id(id, &c.id))
}

/// Whether it is one of the parties.
fn has_party(before: &[Party], party: &Party) -> bool
    ensures { result ≡ is_among (map key before.now) (key party.now) }
{
    before.iter().any(|p| is_same_party(party, p))
}

/// How the connectors of an EVSE are read.
#[derive(Drop)]
struct ConnectorReader;

impl ElementReader<Connector> for ConnectorReader {
    ghost at = { λ _. connector_element };

    fn element(
        &self,
        alloc: Global,
        before: &[Connector],
        value: &Tree<'_>,
    ) -> Result<Connector, JsonFault> {
        connector_of(alloc, before, as_record(value, Field::Connectors)?)
    }
}

#[tactic(auto, unfolding(crate::specs::Sites::connector_at, json_text::specs::Lists::new_ci_in))]
fn connector_of(
    alloc: Global,
    before: &[Connector],
    object: &Tree<'_>,
) -> Result<Connector, JsonFault>
    ensures { Gives result (connector_at before.now (view object.now)) }
{
    let id = ci_in(object, Field::Id)?;
    if has_connector(before, &id) {
        return Err(JsonFault::WrongForm(Field::Id));
    }
    let standard = free_in(alloc, object, Field::Standard)?;
    let format = free_in(alloc, object, Field::Format)?;
    let power_type = free_in(alloc, object, Field::PowerType)?;
    Ok(Connector {
        id,
        standard,
        format,
        power_type,
    })
}

/// The connectors of an EVSE, one to ten, whose ids differ.
#[tactic(auto, using(crate::proofs::SiteForm::connectors_are), unfolding(crate::specs::Sites::connectors_in))]
fn connectors_of(alloc: Global, object: &Tree<'_>) -> Result<Connectors, JsonFault>
    ensures { Gives result (connectors_in (view object.now)) }
{
    let values = counted_in(object, Field::Connectors, 1, 10)?;
    let connectors = elements(alloc, &ConnectorReader, values)?;
    match Connectors::new(connectors) {
        Some(connectors) => Ok(connectors),
        None => unreachable!(),
    }
}

/// An id that is the same as none of the set, but for case; the set has it then.
#[tactic(auto, unfolding(json_text::specs::Lists::new_ci_in))]
fn new_id_in(seen: &mut IdSet, object: &Tree<'_>, field: Field) -> Result<CiText<36>, JsonFault>
    ensures read { (keys : List (List ℕ)) → seen.old ≡ set.from_list keys → Gives result (new_ci_in 36 field keys (view object.now)) }
    ensures seen { IfOk result (λ id. seen.new ≡ set.insert seen.old (key id)) }
{
    let id = ci_in(object, field)?;
    if seen.insert(&id)? {
        Ok(id)
    } else {
        Err(JsonFault::WrongForm(field))
    }
}

/// An EVSE, whose uid is the same as none of the set, but for case; the set has it then.
#[tactic(auto, unfolding(crate::specs::Sites::evse_at))]
fn evse_of(alloc: Global, uids: &mut IdSet, object: &Tree<'_>) -> Result<Evse, JsonFault>
    ensures read { (earlier : List Location) (before : List Evse) → uids.old ≡ set.from_list (site_evse_keys earlier ++ evse_keys before) → Gives result (evse_at earlier before (view object.now)) }
    ensures seen { IfOk result (λ e. uids.new ≡ set.insert uids.old (key e.uid)) }
{
    let uid = new_id_in(uids, object, Field::Uid)?;
    let evse_id = ci_in(object, Field::EvseId)?;
    let connectors = connectors_of(alloc, object)?;
    Ok(Evse {
        uid,
        evse_id,
        connectors,
    })
}

/// Each EVSE in turn, beside those whose uids the set has; it has theirs then.
fn evse_elements(
    alloc: Global,
    uids: &mut IdSet,
    values: &[Tree<'_>],
) -> Result<Vec<Evse>, JsonFault>
    ensures read { (earlier : List Location) → uids.old ≡ set.from_list (site_evse_keys earlier) → GivesBy (λ v. v.items) result (each_after (evse_element earlier) [] (items_view values.now)) }
    ensures seen { (earlier : List Location) → uids.old ≡ set.from_list (site_evse_keys earlier) → IfOk result (λ v. uids.new ≡ set.from_list (site_evse_keys earlier ++ evse_keys v.items)) }
    ensures count { IfOk result (λ v. length v.items ≡ length values.now) }
{
    let mut evses = Vec::new(alloc);
    for value in values {
        let object = as_record(value, Field::Evses)?;
        let evse = evse_of(alloc, uids, object)?;
        evses.push(evse)?;
    }
    Ok(evses)
}

/// The EVSEs of a location, one to a thousand, beside those whose uids the set has; it has theirs then.
#[tactic(auto, unfolding(crate::specs::Sites::evses_in))]
fn evses_of(alloc: Global, uids: &mut IdSet, object: &Tree<'_>) -> Result<Evses, JsonFault>
    ensures read { (earlier : List Location) → uids.old ≡ set.from_list (site_evse_keys earlier) → Gives result (evses_in earlier (view object.now)) }
    ensures seen { (earlier : List Location) → uids.old ≡ set.from_list (site_evse_keys earlier) → IfOk result (λ evses. uids.new ≡ set.from_list (site_evse_keys earlier ++ evse_keys evses)) }
{
    let values = counted_in(object, Field::Evses, 1, 1000)?;
    let evses = evse_elements(alloc, uids, values)?;
    match Evses::new(evses) {
        Some(evses) => Ok(evses),
        None => unreachable!(),
    }
}

/// Where a location is.
#[derive(Drop)]
struct LocationPlace {
    address: FreeText<45>,
    city: FreeText<45>,
    country: FreeText<3>,
    latitude: FreeText<10>,
    longitude: FreeText<11>,
}

#[tactic(auto, unfolding(crate::specs::Sites::location_place_at))]
fn location_place_of(alloc: Global, object: &Tree<'_>) -> Result<LocationPlace, JsonFault>
    ensures { Gives result (location_place_at (view object.now)) }
{
    let address = free_in(alloc, object, Field::Address)?;
    let city = free_in(alloc, object, Field::City)?;
    let country = free_in(alloc, object, Field::Country)?;
    let latitude = free_in(alloc, object, Field::Latitude)?;
    let longitude = free_in(alloc, object, Field::Longitude)?;
    Ok(LocationPlace {
        address,
        city,
        country,
        latitude,
        longitude,
    })
}

/// The ids of locations, and the uids of their EVSEs.
#[derive(Drop)]
struct SiteIds {
    locations: IdSet,
    evses: IdSet,
}

/// A location, beside those whose ids and uids are seen; its own are seen then.
#[tactic(auto, unfolding(crate::specs::Sites::location_at))]
fn location_of(alloc: Global, seen: &mut SiteIds, object: &Tree<'_>) -> Result<Location, JsonFault>
    ensures read { (before : List Location) → HasIds seen.old before → Gives result (location_at before (view object.now)) }
    ensures seen { (before : List Location) → HasIds seen.old before → IfOk result (λ l. HasIds seen.new (before ++ l ∷ [])) }
{
    let id = new_id_in(&mut seen.locations, object, Field::Id)?;
    let place = location_place_of(alloc, object)?;
    let evses = evses_of(alloc, &mut seen.evses, object)?;
    Ok(Location {
        id,
        address: place.address,
        city: place.city,
        country: place.country,
        latitude: place.latitude,
        longitude: place.longitude,
        evses,
    })
}

/// Each location in turn.
fn location_elements(alloc: Global, values: &[Tree<'_>]) -> Result<Vec<Location>, JsonFault>
    ensures { GivesBy (λ v. v.items) result (each_after location_element [] (items_view values.now)) }
{
    let mut seen = SiteIds {
        locations: IdSet::new(alloc),
        evses: IdSet::new(alloc),
    };
    let mut locations = Vec::new(alloc);
    for value in values {
        let object = as_record(value, Field::Locations)?;
        let location = location_of(alloc, &mut seen, object)?;
        locations.push(location)?;
    }
    Ok(locations)
}

/// The locations of a site, one to a thousand, whose ids differ, as do the uids of all their EVSEs.
#[tactic(auto, using(crate::proofs::SiteForm::locations_are), unfolding(crate::specs::Sites::locations_in))]
fn locations_of(alloc: Global, object: &Tree<'_>) -> Result<Locations, JsonFault>
    ensures { Gives result (locations_in (view object.now)) }
{
    let values = counted_in(object, Field::Locations, 1, 1000)?;
    let locations = location_elements(alloc, values)?;
    match Locations::new(locations)? {
        Some(locations) => Ok(locations),
        None => unreachable!(),
    }
}

/// The site of an operator: its currency, its price, those that take its place from moments on, and its locations.
#[tactic(auto, unfolding(crate::specs::Sites::site_at))]
pub fn site_of(alloc: Global, object: &Tree<'_>) -> Result<Site, JsonFault>
    ensures { Gives result (site_at (view object.now)) }
{
    let currency = free_in(alloc, object, Field::Currency)?;
    let price = price_of(object)?;
    let prices = prices_of(alloc, object)?;
    let locations = locations_of(alloc, object)?;
    Ok(Site {
        currency,
        price,
        prices,
        locations,
    })
}

/// How the providers of a site line are read, beside its operator.
#[derive(Drop)]
struct ProviderReader {
    operator: Party,
}

impl ElementReader<Party> for ProviderReader {
    ghost at = { λ r. provider_at r.operator };

    fn element(
        &self,
        _alloc: Global,
        before: &[Party],
        value: &Tree<'_>,
    ) -> Result<Party, JsonFault> {
        provider_of(self.operator, before, value)
    }
}

#[tactic(auto, unfolding(crate::specs::Sites::provider_at))]
fn provider_of(operator: Party, before: &[Party], value: &Tree<'_>) -> Result<Party, JsonFault>
    ensures { result ≡ provider_at operator before.now (view value.now) }
{
    match Party::read(as_text(value, Field::Providers)?) {
        Ok(party) if is_same_party(&party, &operator) || has_party(before, &party) => {
            Err(JsonFault::WrongForm(Field::Providers))
        }
        Ok(party) => Ok(party),
        Err(_) => Err(JsonFault::WrongForm(Field::Providers)),
    }
}

/// The operator of a site line and its providers, at most 63, all of them different parties.
#[tactic(auto, unfolding(crate::specs::Sites::parties_at, crate::specs::Sites::providers_in))]
fn parties_of(alloc: Global, object: &Tree<'_>) -> Result<Parties, JsonFault>
    ensures { Gives result (parties_at (view object.now)) }
{
    let operator = party_in(object, Field::Party)?;
    let values = counted_in(object, Field::Providers, 0, 63)?;
    let providers = elements(alloc, &ProviderReader { operator }, values)?;
    match Parties::new(operator, providers) {
        Some(parties) => Ok(parties),
        None => unreachable!(),
    }
}

#[tactic(auto, unfolding(crate::specs::Sites::site_line_at))]
fn site_line_of(alloc: Global, object: &Tree<'_>) -> Result<SiteLine, JsonFault>
    ensures { Gives result (site_line_at (view object.now)) }
{
    let at = moment_in(object, Field::At)?;
    let parties = parties_of(alloc, object)?;
    let site = site_of(alloc, record_in(object, Field::Site)?)?;
    Ok(SiteLine { at, parties, site })
}

#[tactic(auto, unfolding(crate::specs::Sites::site_of_line))]
fn line_site(alloc: Global, tree: &Tree<'_>) -> Result<SiteLine, JsonFault>
    ensures { Gives result (site_of_line (view tree.now)) }
{
    site_line_of(alloc, as_record(tree, Field::Line)?)
}

/// The site line that the tree of a line spells. A line that is no object is told as such.
pub fn site_of_line(alloc: Global, tree: &Tree<'_>) -> Result<SiteLine, JsonFault>
    // What is read has the form of a site line.
    ensures found { IfOk result (λ l. IsSiteLineTree (view tree.now) l) }
    // What has the form of a site line is read, unless memory runs out.
    ensures only { (l : _) → IsSiteLineTree (view tree.now) l → Gives result (Ok l) }
    // Which fault it is.
    ensures exact { Gives result (site_of_line (view tree.now)) }
{
    line_site(alloc, tree)
}
