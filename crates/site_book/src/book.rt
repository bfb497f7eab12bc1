//! A site whose locations, EVSEs and connectors are found by their ids, the claims on its EVSEs, and which are out of
//! service.

ghost use Rattle.std.specs.Prelude.{
  ◌≡◌,
  ◌↔◌,
  IfOk,
  IfErr,
  OnOk,
  OnErr,
  IfSome,
  IfNone,
  IsSome,
  IsNone,
  IsTrue,
  List,
  ℕ,
  slice_get,
};
ghost use Rattle.std.specs.FinMap as map;
ghost use Rattle.ocpi_text.specs.Text.{key};
ghost use Rattle.ocpi_types.specs.declared.site.Location.{Location};
ghost use Rattle.ocpi_types.specs.declared.site.Evse.{Evse};
ghost use Rattle.ocpi_types.specs.declared.site.Connector.{Connector};
ghost use Rattle.site_book.specs.Sites.{
  IsLocation,
  IsFoundIn,
  location_of,
  IsEvse,
  IsEvseFor,
  IsEvseOf,
  IsConnectorOf,
  IsSiteOf,
  Fits,
  IsFirst,
  IsFreeFor,
  IsFreePlace,
  IsPlaceOf,
  IsRefused,
};
ghost use Rattle.site_book.specs.Positions.{HasEvse, OneEvseEach};
ghost use Rattle.site_book.specs.Sites.{is_claimed, is_free, works, with_service, IsWorkingEvse, IsFreeEvse};

use crate::claim::{Claim, SiteFault};
use crate::evses::{evse_at, has_connector, place_of};
use crate::found::FoundLocation;
use crate::id_key::IdKey;
use crate::indexes::{Indexes, find_flag, flag_at};
use ocpi_text::{CiKey, CiText};
use ocpi_types::{Evse, Location, Place, Site};
use std::alloc::{AllocError, Global};
use std::marker::Model;
use tables::Visits;

/// A site whose locations and EVSEs are found by their ids, without case, the claims on its EVSEs, and which of these
/// are out of service. A location and an EVSE are found by the hashes of their ids, and whether an EVSE is in service or
/// free by flags at its place. A change costs the logarithm of the number of EVSEs. No call but `new` takes memory.
#[derive(Drop)]
pub struct SiteBook {
    site: Site,
    indexes: Indexes,
}

impl Model for SiteBook {
    ghost use Rattle.std.specs.FinMap as map;
    ghost use Rattle.std.specs.Coded.{codes};
    ghost use Rattle.tables.specs.Keys.{text_cmp};
    ghost use Rattle.tables.specs.Tables.{shown_of};
    ghost use Rattle.site_book.specs.Sites.{SiteState};
    ghost use Rattle.site_book.specs.Positions.{OneEvseEach, OneLocationEach};
    ghost use Rattle.site_book.specs.Indexes.{AreIndexes};

    ghost Value = { SiteState };

    ghost coded = { Prim.hlevel (codes, map.code) };

    ghost view = { λ p. record {
      site = p.site;
      claims = shown_of text_cmp p.indexes.claims;
      out_of_service = shown_of text_cmp p.indexes.out_of_service;
    } };

    ghost invariant = { λ p. OneLocationEach p.site.locations × OneEvseEach p.site.locations × AreIndexes p.site.locations p.indexes };
}

impl SiteBook {
    /// The site, with every EVSE in service and none claimed. An error is want of memory.
    pub fn new(alloc: Global, site: Site) -> Result<SiteBook, AllocError>
        ensures { IfOk result (λ b. b ≡ record { site = site; claims = map.empty; out_of_service = map.empty }) }
    {
        let indexes = Indexes::new(alloc, site.locations.as_slice())?;
        Ok(SiteBook { site, indexes })
    }

    /// The site that the book was made with: its locations, its price and its currency.
    pub fn site(&self) -> &Site
        ensures { result.now ≡ self.now.site }
    {
        &self.site
    }

    /// The location that stands at a position.
    fn location_at(&self, position: usize) -> Option<FoundLocation<'_>>
        ensures found { IfSome result (λ f. IsFoundIn self.now.site f) }
        ensures stands { IfSome result (λ f. slice_get self.now.site.locations position ≡ Some (location_of f)) }
        ensures none { IfNone result ((l : Location) → slice_get self.now.site.locations position ≡ Some l → ⊥) }
    {
        let location = self.site.locations.as_slice().get(position)?;
        Some(FoundLocation { position, location })
    }

    /// The location of an id. None, where the site has no such location.
    pub fn find_location(&self, id: &CiText<36>) -> Option<FoundLocation<'_>>
        ensures found { IfSome result (λ f. IsFoundIn self.now.site f) }
        ensures named { IfSome result (λ f. IsLocation self.now.site.locations id.now (location_of f)) }
        ensures sole { IfSome result (λ f. (l : Location) → IsLocation self.now.site.locations id.now l → l ≡ location_of f) }
        ensures none { IfNone result ((l : Location) → IsLocation self.now.site.locations id.now l → ⊥) }
    {
        let key = IdKey::of(id);
        let position = self.indexes.ids.get_index_of(&key)?;
        self.location_at(position)
    }

    /// The location of an id itself. It is refused (`UnknownLocation`) where the site has no such location.
    pub fn location(&self, id: &CiText<36>) -> Result<&Location, SiteFault>
        ensures found { IfOk result (λ l. IsLocation self.now.site.locations id.now l.now) }
        ensures sole { IfOk result (λ l. (m : Location) → IsLocation self.now.site.locations id.now m → m ≡ l.now) }
        ensures refusal { IfErr result (λ e. (e ≡ SiteFault.UnknownLocation) × ((l : Location) → IsLocation self.now.site.locations id.now l → ⊥)) }
    {
        let Some(found) = self.find_location(id) else {
            return Err(SiteFault::UnknownLocation);
        };
        Ok(found.location())
    }

    /// Where the EVSE of a key stands. None, where the site has no such EVSE.
    fn position_of(&self, evse: CiKey<36>) -> Option<(usize, usize)>
        ensures found { IfSome result (λ p. HasEvse self.now.site.locations p evse) }
        ensures none { IfNone result (¬ IsEvse self.now.site.locations evse) }
    {
        self.indexes.position(evse)
    }

    /// Whether the EVSE that stands there is in service.
    fn works_at(&self, position: (usize, usize)) -> bool
        requires { (uid : List ℕ) × HasEvse self.now.site.locations position uid }
        ensures { (uid : List ℕ) → HasEvse self.now.site.locations position uid → result ≡ works self.now.out_of_service uid }
    {
        flag_at(self.indexes.working.as_slice(), position)
    }

    /// Whether the EVSE that stands there is in service and not claimed.
    fn is_free_at(&self, position: (usize, usize)) -> bool
        requires { (uid : List ℕ) × HasEvse self.now.site.locations position uid }
        ensures { (uid : List ℕ) → HasEvse self.now.site.locations position uid → result ≡ is_free self.now.claims self.now.out_of_service uid }
    {
        flag_at(self.indexes.free.as_slice(), position)
    }

    /// Where the EVSE of a uid stands, where it is one of the location.
    fn named_position(&self, at: &FoundLocation<'_>, uid: &CiText<36>) -> Option<(usize, usize)>
        requires { IsFoundIn self.now.site at.now }
        ensures found { IfSome result (λ p. HasEvse self.now.site.locations p (key uid.now)) }
        ensures there { IfSome result (λ p. p.0 ≡ at.now.position) }
        ensures none { IfNone result ((e : Evse) → IsEvseFor (location_of at.now) (Some uid.now) e → ⊥) }
    {
        self.evses_differ();
        let position = self.position_of(uid.key())?;
        if position.0 != at.position {
            return None;
        }
        Some(position)
    }

    /// The EVSE of a uid, where it is one of the location.
    fn named_evse(&self, at: &FoundLocation<'_>, uid: &CiText<36>) -> Option<&Evse>
        requires { IsFoundIn self.now.site at.now }
        ensures found { IfSome result (λ e. IsEvseFor (location_of at.now) (Some uid.now) e.now) }
        ensures sole { IfSome result (λ e. (f : Evse) → IsEvseFor (location_of at.now) (Some uid.now) f → f ≡ e.now) }
        ensures none { IfNone result ((e : Evse) → IsEvseFor (location_of at.now) (Some uid.now) e → ⊥) }
    {
        let position = self.named_position(at, uid)?;
        evse_at(self.site.locations.as_slice(), position)
    }

    /// An EVSE of the location: the one of the uid, or one of them where none is named. None, where the location has
    /// no EVSE of that uid.
    pub fn find_evse(&self, at: &FoundLocation<'_>, uid: &Option<CiText<36>>) -> Option<&Evse>
        requires { IsFoundIn self.now.site at.now }
        ensures found { IfSome result (λ e. IsEvseFor (location_of at.now) uid.now e.now) }
        ensures sole { IfSome result (λ e. IsSome uid.now → (f : Evse) → IsEvseFor (location_of at.now) uid.now f → f ≡ e.now) }
        ensures none { IfNone result ((e : Evse) → IsEvseFor (location_of at.now) uid.now e → ⊥) }
    {
        match uid {
            None => evse_at(self.site.locations.as_slice(), (at.position, 0)),
            Some(uid) => self.named_evse(at, uid),
        }
    }

    /// An EVSE of the location, and a connector of it: those that are named. Where no connector is named it is the
    /// EVSE's first, and where no EVSE is named it is one of the location's. None, where the location has no such EVSE
    /// and connector.
    pub fn find_place(
        &self,
        at: &FoundLocation<'_>,
        evse_uid: &Option<CiText<36>>,
        connector_id: &Option<CiText<36>>,
    ) -> Option<Place>
        requires found { IsFoundIn self.now.site at.now }
        requires named { IsSome connector_id.now × IsNone evse_uid.now → ⊥ }
        ensures found { IfSome result (λ p. (e : Evse) × (k : Connector) × Fits (location_of at.now).evses evse_uid.now connector_id.now e k × IsPlaceOf e k p) }
        ensures none { IfNone result ((e : Evse) (k : Connector) → Fits (location_of at.now).evses evse_uid.now connector_id.now e k → ⊥) }
    {
        let evse = self.find_evse(at, evse_uid)?;
        place_of(evse, connector_id)
    }

    /// The first EVSE of the location that is in service.
    fn first_working_evse(&self, at: &FoundLocation<'_>) -> Option<&Evse>
        requires { IsFoundIn self.now.site at.now }
        ensures found { IfSome result (λ e. IsEvseFor (location_of at.now) None e.now) }
        ensures works { IfSome result (λ e. IsWorkingEvse self.now e.now) }
        ensures first { IfSome result (λ e. IsFirst (location_of at.now) (IsWorkingEvse self.now) e.now) }
        ensures none { IfNone result ((e : Evse) → IsEvseFor (location_of at.now) None e → IsWorkingEvse self.now e → ⊥) }
    {
        let place = find_flag(self.indexes.working.as_slice(), at.position)?;
        evse_at(self.site.locations.as_slice(), (at.position, place))
    }

    /// Whether an EVSE of the location is in service: the one of the uid, or one of them where none is named.
    pub fn has_service(&self, at: &FoundLocation<'_>, evse_uid: &Option<CiText<36>>) -> bool
        requires { IsFoundIn self.now.site at.now }
        ensures { IsTrue result ↔ ((e : Evse) × IsEvseFor (location_of at.now) evse_uid.now e × IsWorkingEvse self.now e) }
    {
        match evse_uid {
            None => self.first_working_evse(at).is_some(),
            Some(uid) => match self.named_position(at, uid) {
                None => false,
                Some(position) => self.works_at(position),
            },
        }
    }

    /// The first EVSE of the location that is in service and not claimed, in the order of the site line. None, where there
    /// is none.
    pub fn free_at(&self, at: &FoundLocation<'_>) -> Option<&Evse>
        requires { IsFoundIn self.now.site at.now }
        ensures found { IfSome result (λ e. IsEvseFor (location_of at.now) None e.now) }
        ensures free { IfSome result (λ e. IsFreeEvse self.now e.now) }
        ensures first { IfSome result (λ e. IsFirst (location_of at.now) (IsFreeEvse self.now) e.now) }
        ensures none { IfNone result ((e : Evse) → IsEvseFor (location_of at.now) None e → IsFreeEvse self.now e → ⊥) }
    {
        let place = find_flag(self.indexes.free.as_slice(), at.position)?;
        evse_at(self.site.locations.as_slice(), (at.position, place))
    }

    /// The EVSE of the uid, or the first of the location where none is named, of those that are in service and not
    /// claimed. None, where there is none.
    pub fn free_evse(&self, at: &FoundLocation<'_>, uid: &Option<CiText<36>>) -> Option<&Evse>
        requires { IsFoundIn self.now.site at.now }
        ensures found { IfSome result (λ e. IsEvseFor (location_of at.now) uid.now e.now) }
        ensures free { IfSome result (λ e. IsFreeEvse self.now e.now) }
        ensures first { IfSome result (λ e. IsFirst (location_of at.now) (IsFreeFor self.now uid.now) e.now) }
        ensures sole { IfSome result (λ e. IsSome uid.now → (f : Evse) → IsEvseFor (location_of at.now) uid.now f → f ≡ e.now) }
        ensures none { IfNone result ((e : Evse) → IsEvseFor (location_of at.now) uid.now e → IsFreeEvse self.now e → ⊥) }
    {
        match uid {
            None => self.free_at(at),
            Some(uid) => {
                let position = self.named_position(at, uid)?;
                if !self.is_free_at(position) {
                    return None;
                }
                evse_at(self.site.locations.as_slice(), position)
            }
        }
    }

    /// As `find_place`, of the EVSEs that are in service and not claimed: of the first of them where none is named. None,
    /// where the location has no such EVSE and connector.
    pub fn free_place(
        &self,
        at: &FoundLocation<'_>,
        evse_uid: &Option<CiText<36>>,
        connector_id: &Option<CiText<36>>,
    ) -> Option<Place>
        requires found { IsFoundIn self.now.site at.now }
        requires named { IsSome connector_id.now × IsNone evse_uid.now → ⊥ }
        ensures found { IfSome result (λ p. IsFreePlace self.now (location_of at.now) evse_uid.now connector_id.now p) }
        ensures none { IfNone result ((e : Evse) (k : Connector) → Fits (location_of at.now).evses evse_uid.now connector_id.now e k → IsFreeEvse self.now e → ⊥) }
    {
        let evse = self.free_evse(at, evse_uid)?;
        place_of(evse, connector_id)
    }

    /// The EVSE of a key, with the location that has it. None, where the site has no such EVSE.
    pub fn find_of(&self, evse: CiKey<36>) -> Option<(FoundLocation<'_>, &Evse)>
        ensures found { IfSome result (λ r. IsFoundIn self.now.site r.0) }
        ensures named { IfSome result (λ r. IsEvseOf self.now.site.locations evse (location_of r.0) r.1.now) }
        ensures sole { IfSome result (λ r. (l : Location) (e : Evse) → IsEvseOf self.now.site.locations evse l e → (l ≡ location_of r.0) × (e ≡ r.1.now)) }
        ensures none { IfNone result (¬ IsEvse self.now.site.locations evse) }
    {
        let position = self.position_of(evse)?;
        let found = evse_at(self.site.locations.as_slice(), position)?;
        let location = self.location_at(position.0)?;
        Some((location, found))
    }

    /// Whether an EVSE of that key is of the site.
    pub fn has_evse(&self, evse: CiKey<36>) -> bool
        ensures { IsTrue result ↔ IsEvse self.now.site.locations evse }
    {
        self.indexes.evses.contains(evse)
    }

    /// Whether the EVSE of that key is of the site and has a connector of that id.
    pub fn has_connector(&self, evse: CiKey<36>, connector: &CiText<36>) -> bool
        ensures { IsTrue result ↔ IsConnectorOf self.now.site.locations evse (key connector.now) }
    {
        match self.find_of(evse) {
            None => false,
            Some((_location, found)) => has_connector(found, connector),
        }
    }

    /// Whether the EVSE of that key is one of the location of that id.
    pub fn is_at(&self, evse: CiKey<36>, location: &CiText<36>) -> bool
        ensures { IsTrue result ↔ IsSiteOf self.now.site.locations evse (key location.now) }
    {
        match self.find_of(evse) {
            None => false,
            Some((found, _evse)) => found.location.id.is_same(location),
        }
    }

    /// The claim on an EVSE. None, where it is not claimed, or not of the site.
    pub fn claim_of(&self, evse: CiKey<36>) -> Option<Claim>
        ensures { result ≡ map.get self.now.claims evse }
    {
        self.indexes.claims.get(evse).copied()
    }

    /// Whether an EVSE is not out of service.
    pub fn works(&self, evse: CiKey<36>) -> bool
        ensures { result ≡ works self.now.out_of_service evse }
    {
        match self.position_of(evse) {
            None => self.indexes.works(evse),
            Some(position) => self.works_at(position),
        }
    }

    /// Whether an EVSE is of the site and in service.
    pub fn in_service(&self, evse: CiKey<36>) -> bool
        ensures { IsTrue result ↔ (IsEvse self.now.site.locations evse × IsTrue (works self.now.out_of_service evse)) }
    {
        match self.position_of(evse) {
            None => false,
            Some(position) => self.works_at(position),
        }
    }

    /// Whether an EVSE is of the site, in service and not claimed.
    pub fn is_free(&self, evse: CiKey<36>) -> bool
        ensures { IsTrue result ↔ (IsEvse self.now.site.locations evse × IsTrue (is_free self.now.claims self.now.out_of_service evse)) }
    {
        match self.position_of(evse) {
            None => false,
            Some(position) => self.is_free_at(position),
        }
    }

    /// The EVSEs that are out of service, in the order of their keys.
    pub fn out_of_service(&self) -> Visits<'_, CiKey<36>, ()>
        ensures { result ≡ map.entries self.now.out_of_service }
    {
        self.indexes.out_of_service.iter()
    }

    /// That only EVSEs of the site are claimed, which the type keeps.
    pub fn claims_are_of_site(&self)
        ensures { (uid : List ℕ) → IsTrue (is_claimed self.now.claims uid) → IsEvse self.now.site.locations uid }
    {
        // The invariant is known once a field is looked at.
        let _indexes = &self.indexes;
    }

    /// That no two EVSEs of the site have one uid, which the type keeps.
    pub fn evses_differ(&self)
        ensures { OneEvseEach self.now.site.locations }
    {
        // The invariant is known once a field is looked at.
        let _indexes = &self.indexes;
    }

    /// Whether an EVSE may be claimed. It may not where the site has none of that uid (`UnknownEvse`), else where it
    /// is claimed (`Claimed`), and else where it is out of service (`OutOfService`).
    pub fn may_claim(&self, evse: CiKey<36>) -> Result<(), SiteFault>
        ensures ok { OnOk result (IsEvse self.now.site.locations evse × IsTrue (is_free self.now.claims self.now.out_of_service evse)) }
        ensures refusal { IfErr result (λ e. IsRefused self.now evse e) }
    {
        let Some(position) = self.position_of(evse) else {
            return Err(SiteFault::UnknownEvse);
        };
        if self.is_free_at(position) {
            return Ok(());
        }
        if self.indexes.claims.contains(evse) {
            return Err(SiteFault::Claimed);
        }
        Err(SiteFault::OutOfService)
    }

    /// Puts a claim on an EVSE, in place of the one that stands, if there is one, in service or not: as a stored row
    /// says it.
    pub fn put_claim(&mut self, evse: CiKey<36>, claim: Claim)
        requires { IsEvse self.old.site.locations evse }
        ensures { self.new ≡ record self.old { claims = map.insert self.old.claims evse claim } }
    {
        let position = self.indexes.position(evse).unwrap();
        self.indexes.put_claim(evse, position, claim);
    }

    /// Claims an EVSE that is in service and not claimed. It is refused as `may_claim` says, and then nothing changes.
    pub fn claim(&mut self, evse: CiKey<36>, claim: Claim) -> Result<(), SiteFault>
        ensures free { OnOk result (IsEvse self.old.site.locations evse × IsTrue (is_free self.old.claims self.old.out_of_service evse)) }
        ensures claims { OnOk result (self.new ≡ record self.old { claims = map.insert self.old.claims evse claim }) }
        ensures refusal { IfErr result (λ e. IsRefused self.old evse e) }
        ensures err { OnErr result (self.new ≡ self.old) }
    {
        self.may_claim(evse)?;
        self.put_claim(evse, claim);
        Ok(())
    }

    /// Puts a claim in place of the one that stands on an EVSE, in service or not.
    pub fn change(&mut self, evse: CiKey<36>, claim: Claim)
        requires { IsTrue (is_claimed self.old.claims evse) }
        ensures { self.new ≡ record self.old { claims = map.insert self.old.claims evse claim } }
    {
        self.claims_are_of_site();
        self.put_claim(evse, claim);
    }

    /// Ends the claim on an EVSE, if there is one.
    pub fn release(&mut self, evse: CiKey<36>)
        ensures { self.new ≡ record self.old { claims = map.remove self.old.claims evse } }
    {
        let Some(position) = self.indexes.position(evse) else {
            return;
        };
        self.indexes.take_claim(evse, position);
    }

    /// Puts an EVSE in service, or out of it; a claim on it stays. It is refused (`UnknownEvse`) where the site has no
    /// EVSE of that uid, and then nothing changes.
    pub fn set_service(&mut self, evse: CiKey<36>, in_service: bool) -> Result<(), SiteFault>
        ensures service { OnOk result (self.new ≡ record self.old { out_of_service = with_service in_service evse self.old.out_of_service }) }
        ensures known { OnOk result (IsEvse self.old.site.locations evse) }
        ensures refusal { IfErr result (λ e. (e ≡ SiteFault.UnknownEvse) × ¬ IsEvse self.old.site.locations evse) }
        ensures err { OnErr result (self.new ≡ self.old) }
    {
        let Some(position) = self.indexes.position(evse) else {
            return Err(SiteFault::UnknownEvse);
        };
        self.indexes.put_service(evse, position, in_service);
        Ok(())
    }
}
