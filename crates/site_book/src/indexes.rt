//! What finds the locations and EVSEs of a site.

ghost use Rattle.std.specs.Prelude.{◌≡◌, ◌+◌, ◌<◌, ℕ, Bool, true, length, IfOk, IfSome, IfNone, OnOk, IsTrue};
ghost use Rattle.std.specs.FinMap as map;
ghost use Rattle.ocpi_text.specs.Text.{key};
ghost use Rattle.ocpi_types.specs.Apart.{AllDiffer};
ghost use Rattle.ocpi_types.specs.Locations.{location_keys};
ghost use Rattle.tables.specs.Keys.{text_cmp};
ghost use Rattle.tables.specs.Tables.{shown_of, rooms_of};
ghost use Rattle.site_book.specs.Indexes.{HaveEvses, HasFlags, AreIndexes, AreAllSet, AddsEvse, Remarks};
ghost use Rattle.site_book.specs.Sites.{works, is_free, with_service};
ghost use Rattle.site_book.specs.Positions.{IsBefore, IsFlag, with_flag};

use crate::claim::Claim;
use crate::flags::Flags;
use crate::id_key::IdKey;
use indexmap::IndexSet;
use ocpi_text::{CiKey, CiText};
use ocpi_types::Location;
use std::alloc::{AllocError, Global};
use tables::{HashSeed, Lookup, Table};

/// What finds the locations and EVSEs of a site, the claims on its EVSEs and which of these are out of service. The
/// position of an EVSE is that of its location in the site's list, and its own in the location's list.
#[derive(Drop)]
pub(crate) struct Indexes {
    /// The ids of the locations, in the order of the site's list.
    pub(crate) ids: IndexSet<IdKey>,
    /// The position of each EVSE, by its uid.
    pub(crate) evses: Lookup<CiKey<36>, (usize, usize)>,
    /// The claim on each EVSE that is claimed, by its uid. Each EVSE has room.
    pub(crate) claims: Table<CiKey<36>, Claim>,
    /// The uids of the EVSEs that are out of service. Each EVSE has room.
    pub(crate) out_of_service: Table<CiKey<36>, ()>,
    /// For each location, which of its EVSEs are in service.
    pub(crate) working: Vec<Flags>,
    /// For each location, which of its EVSEs are in service and not claimed.
    pub(crate) free: Vec<Flags>,
}

impl Indexes {
    /// Adds an EVSE, which is not claimed, and in service.
    fn add_evse(&mut self, uid: &CiText<36>, position: (usize, usize)) -> Result<(), AllocError>
        ensures { OnOk result (AddsEvse (key uid.now) position self.old self.new) }
    {
        let uid = uid.key();
        self.evses.insert(uid, position)?;
        self.claims.reserve(uid)?;
        self.out_of_service.reserve(uid)?;
        Ok(())
    }

    /// Adds the EVSEs of the location that stands at `i`, where those of the locations before it are added.
    fn add_evses(&mut self, locations: &[Location], i: usize) -> Result<(), AllocError>
        requires within { i < length locations.now }
        requires before { HaveEvses locations.now (IsBefore i 0) self.old }
        ensures found { OnOk result (HaveEvses locations.now (IsBefore (i + 1) 0) self.new) }
        ensures unclaimed { OnOk result (shown_of text_cmp self.new.claims ≡ shown_of text_cmp self.old.claims) }
        ensures in_service { OnOk result (shown_of text_cmp self.new.out_of_service ≡ shown_of text_cmp self.old.out_of_service) }
        ensures ids_stay { OnOk result (self.new.ids ≡ self.old.ids) }
        ensures working_stay { OnOk result (self.new.working.items ≡ self.old.working.items) }
        ensures free_stay { OnOk result (self.new.free.items ≡ self.old.free.items) }
    {
        for (j, evse) in locations[i].evses.as_slice().iter().enumerate() {
            self.add_evse(&evse.uid, (i, j))?;
        }
        Ok(())
    }

    /// The position of an EVSE.
    pub(crate) fn position(&self, evse: CiKey<36>) -> Option<(usize, usize)>
        ensures { result ≡ map.get (shown_of text_cmp self.now.evses) evse }
    {
        self.evses.get(evse).copied()
    }

    /// Whether an EVSE is not out of service.
    pub(crate) fn works(&self, evse: CiKey<36>) -> bool
        ensures { result ≡ works (shown_of text_cmp self.now.out_of_service) evse }
    {
        !self.out_of_service.contains(evse)
    }

    /// Whether an EVSE is neither claimed nor out of service.
    pub(crate) fn is_free(&self, evse: CiKey<36>) -> bool
        ensures { result ≡ is_free (shown_of text_cmp self.now.claims) (shown_of text_cmp self.now.out_of_service) evse }
    {
        !self.claims.contains(evse) && !self.out_of_service.contains(evse)
    }

    /// Sets the flags of the EVSE that stands there as its claim and its service are.
    fn mark(&mut self, evse: CiKey<36>, position: (usize, usize))
        requires { HasFlags position self.old }
        ensures marks { Remarks evse position self.old self.new }
        ensures claims_stay { self.new.claims ≡ self.old.claims }
        ensures out_of_service_stay { self.new.out_of_service ≡ self.old.out_of_service }
    {
        let (works, free) = (self.works(evse), self.is_free(evse));
        set_flag(self.working.as_mut_slice(), position, works);
        set_flag(self.free.as_mut_slice(), position, free);
    }

    /// Puts a claim on the EVSE that stands there. It takes no memory.
    pub(crate) fn put_claim(&mut self, evse: CiKey<36>, position: (usize, usize), claim: Claim)
        requires room { IsTrue (map.contains_key (rooms_of text_cmp self.old.claims) evse) }
        requires flags { HasFlags position self.old }
        ensures marks { Remarks evse position self.old self.new }
        ensures claims { shown_of text_cmp self.new.claims ≡ map.insert (shown_of text_cmp self.old.claims) evse claim }
        ensures out_of_service { shown_of text_cmp self.new.out_of_service ≡ shown_of text_cmp self.old.out_of_service }
    {
        self.claims.put(evse, claim);
        self.mark(evse, position);
    }

    /// Takes the claim on the EVSE that stands there away, if there is one. It takes no memory.
    pub(crate) fn take_claim(&mut self, evse: CiKey<36>, position: (usize, usize))
        requires { HasFlags position self.old }
        ensures marks { Remarks evse position self.old self.new }
        ensures claims { shown_of text_cmp self.new.claims ≡ map.remove (shown_of text_cmp self.old.claims) evse }
        ensures out_of_service { shown_of text_cmp self.new.out_of_service ≡ shown_of text_cmp self.old.out_of_service }
    {
        self.claims.clear(evse);
        self.mark(evse, position);
    }

    /// Puts the EVSE that stands there in service, or out of it. It takes no memory.
    pub(crate) fn put_service(
        &mut self,
        evse: CiKey<36>,
        position: (usize, usize),
        in_service: bool,
    )
        requires room { IsTrue (map.contains_key (rooms_of text_cmp self.old.out_of_service) evse) }
        requires flags { HasFlags position self.old }
        ensures marks { Remarks evse position self.old self.new }
        ensures claims { shown_of text_cmp self.new.claims ≡ shown_of text_cmp self.old.claims }
        ensures out_of_service { shown_of text_cmp self.new.out_of_service ≡ with_service in_service evse (shown_of text_cmp self.old.out_of_service) }
    {
        put_in_or_out(&mut self.out_of_service, evse, in_service);
        self.mark(evse, position);
    }

    /// The indexes of the locations, where no EVSE is claimed or out of service. An error is want of memory.
    pub(crate) fn new(alloc: Global, locations: &[Location]) -> Result<Indexes, AllocError>
        requires { AllDiffer (location_keys locations.now) }
        ensures found { IfOk result (λ t. AreIndexes locations.now t) }
        ensures unclaimed { IfOk result (λ t. shown_of text_cmp t.claims ≡ map.empty) }
        ensures in_service { IfOk result (λ t. shown_of text_cmp t.out_of_service ≡ map.empty) }
    {
        let mut indexes = Indexes {
            ids: ids_of(alloc, locations)?,
            evses: Lookup::new(alloc, HashSeed::fixed()),
            claims: Table::new(alloc),
            out_of_service: Table::new(alloc),
            working: all_set(alloc, locations)?,
            free: all_set(alloc, locations)?,
        };
        for i in 0..locations.len() {
            indexes.add_evses(locations, i)?;
        }
        Ok(indexes)
    }
}

/// The ids of the locations, in their order. An error is want of memory.
fn ids_of(alloc: Global, locations: &[Location]) -> Result<IndexSet<IdKey>, AllocError>
    requires { AllDiffer (location_keys locations.now) }
    ensures { IfOk result (λ ids. ids.keys ≡ location_keys locations.now) }
{
    let mut ids = IndexSet::with_capacity(alloc, locations.len())?;
    for location in locations {
        ids.insert(IdKey::of(&location.id))?;
    }
    Ok(ids)
}

/// The flag of a position.
pub(crate) fn flag_at(flags: &[Flags], position: (usize, usize)) -> bool
    requires { (b : Bool) × IsFlag flags.now position b }
    ensures { IsFlag flags.now position result }
{
    flags[position.0].get(position.1)
}

/// Sets the flag of a position, or clears it. It takes no memory.
fn set_flag(flags: &mut [Flags], position: (usize, usize), value: bool)
    requires { (b : Bool) × IsFlag flags.old position b }
    ensures { flags.new ≡ with_flag flags.old position value }
{
    flags[position.0].set(position.1, value);
}

/// The least second part of a position whose flag is set, of those with this first part.
pub(crate) fn find_flag(flags: &[Flags], at: usize) -> Option<usize>
    ensures some { IfSome result (λ j. IsFlag flags.now (at, j) true) }
    ensures first { IfSome result (λ j. (i : ℕ) → i < j → IsFlag flags.now (at, i) true → ⊥) }
    ensures none { IfNone result ((j : ℕ) → IsFlag flags.now (at, j) true → ⊥) }
{
    match flags.get(at) {
        None => None,
        Some(of_location) => of_location.find(),
    }
}

/// Takes an EVSE from those that are out of service, or adds it to them. It takes no memory.
fn put_in_or_out(out_of_service: &mut Table<CiKey<36>, ()>, evse: CiKey<36>, in_service: bool)
    requires { IsTrue (map.contains_key (rooms_of text_cmp out_of_service.old) evse) }
    ensures shown { shown_of text_cmp out_of_service.new ≡ with_service in_service evse (shown_of text_cmp out_of_service.old) }
    ensures room { rooms_of text_cmp out_of_service.new ≡ rooms_of text_cmp out_of_service.old }
{
    if in_service {
        out_of_service.clear(evse);
    } else {
        out_of_service.put(evse, ());
    }
}

/// For each location the flags of its EVSEs, all of them set.
fn all_set(alloc: Global, locations: &[Location]) -> Result<Vec<Flags>, AllocError>
    ensures { IfOk result (λ v. AreAllSet locations.now (length locations.now) v.items) }
{
    let mut flags = Vec::with_capacity(alloc, locations.len())?;
    for location in locations {
        let count = location.evses.as_slice().len();
        flags.push(Flags::first(alloc, count)?)?;
    }
    Ok(flags)
}
