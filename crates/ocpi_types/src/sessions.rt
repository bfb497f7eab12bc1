//! Charging sessions (OCPI 2.2.1, Sessions: Session object).

use crate::price::PricePerKwh;
use crate::token::CdrToken;
use crate::words::{AuthMethod, SessionStatus};
use ocpi_text::{CiText, E4, Moment, Party, Quantity, ShortText};
use std::alloc::AllocError;

/// An amount of money in the currency of what it stands in (OCPI 2.2.1, Types: Price class). It may be negative.
#[derive(Clone, Copy, PartialEq)]
pub struct Price {
    /// Without tax.
    pub excl_vat: E4,
}

/// A version of a charging session.
#[derive(Clone, Copy, PartialEq)]
pub struct Session {
    /// The operator: `country_code` and `party_id`.
    pub party: Party,
    pub id: CiText<36>,
    pub start_date_time: Moment,
    pub end_date_time: Option<Moment>,
    /// The energy charged so far, in kilowatt-hours.
    pub kwh: Quantity,
    pub cdr_token: CdrToken,
    pub auth_method: AuthMethod,
    pub authorization_reference: Option<CiText<36>>,
    pub location_id: CiText<36>,
    pub evse_uid: CiText<36>,
    pub connector_id: CiText<36>,
    /// By ISO 4217.
    pub currency: ShortText<3, 12>,
    pub total_cost: Option<Price>,
    pub status: SessionStatus,
    /// Later in each new version.
    pub last_updated: Moment,
}

/// What stays the same of a session from its first version to its last.
#[derive(Clone, Copy)]
pub struct Opening {
    /// The operator: `country_code` and `party_id`.
    pub party: Party,
    pub id: CiText<36>,
    pub cdr_token: CdrToken,
    pub auth_method: AuthMethod,
    pub authorization_reference: Option<CiText<36>>,
    pub location_id: CiText<36>,
    pub evse_uid: CiText<36>,
    pub connector_id: CiText<36>,
    /// An ISO 4217 code, in which its cost is.
    pub currency: ShortText<3, 12>,
}
