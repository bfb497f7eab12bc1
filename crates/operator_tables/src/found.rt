//! What is asked of the EVSEs that a command may be about, once one was found: one that is named is looked up by its
//! key alone.

ghost use Rattle.std.specs.Prelude.{◌≡◌, ◌↔◌, IsTrue, IfSome, IfNone};
ghost use Rattle.ocpi_types.specs.declared.site.Evse.{Evse};
ghost use Rattle.site_book.specs.Sites.{IsEvseFor, IsFoundIn, IsFirstFree, IsFreeEvse, IsWorkingEvse, location_of};

use ocpi_text::CiText;
use site_book::{FoundLocation, SiteBook};

/// As `SiteBook::has_service`, where the uid of an EVSE that was found is given: where one is named, it is that one.
pub fn serves(
    site: &SiteBook,
    at: &FoundLocation<'_>,
    name: &Option<CiText<36>>,
    evse_uid: &CiText<36>,
) -> bool
    requires found { IsFoundIn site.now.site at.now }
    requires evse { (e : Evse) × IsEvseFor (location_of at.now) name.now e × (evse_uid.now ≡ e.uid) }
    ensures { IsTrue result ↔ ((e : Evse) × IsEvseFor (location_of at.now) name.now e × IsWorkingEvse site.now e) }
{
    match name {
        None => site.has_service(at, name),
        Some(_name) => site.works(evse_uid.key()),
    }
}

/// As `SiteBook::free_evse`, where the uid of an EVSE that was found is given, and one is in service: where one is
/// named, both are that one.
pub fn free_evse(
    site: &SiteBook,
    at: &FoundLocation<'_>,
    name: &Option<CiText<36>>,
    evse_uid: &CiText<36>,
) -> Option<CiText<36>>
    requires found { IsFoundIn site.now.site at.now }
    requires evse { (e : Evse) × IsEvseFor (location_of at.now) name.now e × (evse_uid.now ≡ e.uid) }
    requires service { (e : Evse) × IsEvseFor (location_of at.now) name.now e × IsWorkingEvse site.now e }
    ensures found { IfSome result (λ uid. (e : Evse) × IsFirstFree site.now (location_of at.now) name.now e × (uid ≡ e.uid)) }
    ensures none { IfNone result ((e : Evse) → IsEvseFor (location_of at.now) name.now e → IsFreeEvse site.now e → ⊥) }
{
    match name {
        None => {
            let evse = site.free_evse(at, name)?;
            Some(evse.uid)
        }
        Some(_name) => {
            if !site.is_free(evse_uid.key()) {
                return None;
            }
            site.evses_differ();
            Some(*evse_uid)
        }
    }
}
