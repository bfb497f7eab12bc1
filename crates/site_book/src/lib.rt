//! The site of an operator: its locations, EVSEs and connectors, each found by its id without a walk (OCPI 2.2.1,
//! Locations: Location, EVSE and Connector object), the claims on its EVSEs, and which of these are out of service.
//!
//! ```
//! let mut book = SiteBook::new(alloc, site)?;
//! let location = book.find_location(&command.location_id)?;
//! let evse = book.free_evse(&location, &command.evse_uid)?.uid.key();
//! book.claim(evse, claim)?;
//! book.release(evse);
//! ```
//!
//! A `FoundLocation` goes to the calls that look for an EVSE there, which ask that this very site has it. While it is
//! kept the book cannot change.
//!
//! # Promises
//!
//! The site of an operator, the claims on its EVSEs, and which are out of service.
//!
//! - A `FoundLocation` stands for a location of that very site. Each call that looks for an EVSE of it asks for this,
//!   so a position past the list, or of another site, cannot be. By `find_location`: `found`, `named`, `sole`, `none`;
//!   `requires` of the others.
//! - The location of an id is the only one of it; `1 UnknownLocation` comes exactly where the site has none. By
//!   `location`: `found`, `sole`, `refusal`.
//! - What is asked for is found, or there is none. An EVSE that is named is the only one. By `find_evse`, `find_place`,
//!   `free_at`, `free_evse`, `free_place`: `found`, `free`, `sole`, `none`.
//! - Any EVSE of a location that is in service and not claimed is found, if there is one. By `free_at`.
//! - An EVSE is found by its key, with its location. By `find_of`.
//! - Whether there is such an EVSE, connector or location is answered exactly. By `has_evse`, `has_connector`, `is_at`,
//!   `has_service`, `in_service`, `is_free`.
//! - A claim succeeds exactly on an EVSE of the site that is in service and not claimed. Else the first refusal is
//!   told, and nothing changes. By `claim`: `free`, `claims`, `refusal`, `err`.
//! - Other changes are of that EVSE alone. By `put_claim`, `change`, `release`, `set_service`.
//! - Only EVSEs of the site are claimed. None of these takes memory but `new`. By `claims_are_of_site`.
//!
//! # How it is built
//!
//! A `SiteBook` is no book of rows: it is made with its site, gives each EVSE room for a claim and for its service
//! then, and takes no memory after. Its locations and EVSEs are found by the hashes of their ids, and an EVSE that is
//! free, or in service, by a tree of flags for each location.
#![tactic(auto)]

mod book;
mod claim;
mod evses;
mod flags;
mod found;
mod id_key;
mod indexes;

pub use book::SiteBook;
pub use claim::{Claim, SiteFault};
pub use found::FoundLocation;
