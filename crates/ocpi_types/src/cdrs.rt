//! Charge detail records: what a completed session is billed by (OCPI 2.2.1, CDRs: CDR object).

ghost use Rattle.std.specs.Prelude.{◌≡◌, IfOk};
ghost use Rattle.ocpi_types.specs.Credits.{is_credit};

use crate::copies::ListItem;
use crate::lists::NonEmpty;
use crate::sessions::Price;
use crate::token::CdrToken;
use crate::words::AuthMethod;
use ocpi_text::{CiText, E4, FreeText, Moment, Party, Quantity, ShortText};
use std::alloc::AllocError;

/// Where a place is on the earth, in decimal degrees (OCPI 2.2.1, Locations: GeoLocation class).
#[derive(PartialEq, Drop)]
pub struct GeoLocation {
    pub latitude: FreeText<10>,
    pub longitude: FreeText<11>,
}

impl GeoLocation {
    /// An equal place.
    pub fn copy(&self) -> Result<GeoLocation, AllocError>
        ensures { IfOk result (λ t. t ≡ self.now) }
    {
        Ok(GeoLocation {
            latitude: self.latitude.copy()?,
            longitude: self.longitude.copy()?,
        })
    }
}

/// The location, EVSE and connector of a session, as they were then (OCPI 2.2.1, CDRs: CdrLocation class).
#[derive(PartialEq, Drop)]
pub struct CdrLocation {
    pub id: CiText<36>,
    pub address: FreeText<45>,
    pub city: FreeText<45>,
    /// By ISO 3166-1, alpha-3.
    pub country: FreeText<3>,
    pub coordinates: GeoLocation,
    pub evse_uid: CiText<36>,
    pub evse_id: CiText<48>,
    pub connector_id: CiText<36>,
    pub connector_standard: FreeText<64>,
    pub connector_format: FreeText<64>,
    pub connector_power_type: FreeText<64>,
}

impl CdrLocation {
    /// An equal place.
    pub fn copy(&self) -> Result<CdrLocation, AllocError>
        ensures { IfOk result (λ t. t ≡ self.now) }
    {
        let (address, city, country) = self.copy_address()?;
        let (connector_standard, connector_format, connector_power_type) = self.copy_connector()?;
        let coordinates = self.coordinates.copy()?;
        Ok(CdrLocation {
            id: self.id,
            address,
            city,
            country,
            coordinates,
            evse_uid: self.evse_uid,
            evse_id: self.evse_id,
            connector_id: self.connector_id,
            connector_standard,
            connector_format,
            connector_power_type,
        })
    }

    fn copy_address(&self) -> Result<(FreeText<45>, FreeText<45>, FreeText<3>), AllocError>
        ensures { IfOk result (λ t. t ≡ (self.now.address, self.now.city, self.now.country)) }
    {
        let address = self.address.copy()?;
        let city = self.city.copy()?;
        let country = self.country.copy()?;
        Ok((address, city, country))
    }

    fn copy_connector(&self) -> Result<(FreeText<64>, FreeText<64>, FreeText<64>), AllocError>
        ensures { IfOk result (λ t. t ≡ (self.now.connector_standard, self.now.connector_format, self.now.connector_power_type)) }
    {
        let standard = self.connector_standard.copy()?;
        let format = self.connector_format.copy()?;
        let power_type = self.connector_power_type.copy()?;
        Ok((standard, format, power_type))
    }
}

/// What was used in a charging period (OCPI 2.2.1, CDRs: CdrDimension class).
#[derive(Clone, Copy, PartialEq)]
pub struct CdrDimension {
    /// The member `type`: of an energy in kilowatt-hours it is `ENERGY`.
    pub dimension_type: ShortText<64, 256>,
    /// It may be negative.
    pub volume: E4,
}

impl ListItem for CdrDimension {
    fn item_copy(&self) -> Result<CdrDimension, AllocError> {
        Ok(*self)
    }
}

/// A part of a session, from its moment to that of the next part or to the end (OCPI 2.2.1, CDRs: ChargingPeriod
/// class).
#[derive(PartialEq, Drop)]
pub struct ChargingPeriod {
    pub start_date_time: Moment,
    pub dimensions: NonEmpty<CdrDimension>,
}

impl ListItem for ChargingPeriod {
    fn item_copy(&self) -> Result<ChargingPeriod, AllocError> {
        self.copy()
    }
}

impl ChargingPeriod {
    /// An equal period.
    pub fn copy(&self) -> Result<ChargingPeriod, AllocError>
        ensures { IfOk result (λ t. t ≡ self.now) }
    {
        Ok(ChargingPeriod {
            start_date_time: self.start_date_time,
            dimensions: self.dimensions.copy()?,
        })
    }
}

/// A charge detail record (OCPI 2.2.1, CDRs: CDR object): a bill, of one session that ended, or a credit, which takes a
/// bill back.
#[derive(PartialEq, Drop)]
pub struct Cdr {
    /// The operator: `country_code` and `party_id`.
    pub party: Party,
    pub id: CiText<39>,
    pub start_date_time: Moment,
    pub end_date_time: Moment,
    pub session_id: CiText<36>,
    pub cdr_token: CdrToken,
    pub auth_method: AuthMethod,
    pub authorization_reference: Option<CiText<36>>,
    pub cdr_location: CdrLocation,
    /// By ISO 4217.
    pub currency: ShortText<3, 12>,
    pub charging_periods: NonEmpty<ChargingPeriod>,
    pub total_cost: Price,
    /// Kilowatt-hours.
    pub total_energy: Quantity,
    /// Hours.
    pub total_time: Quantity,
    pub last_updated: Moment,
    /// Of a credit, the id of the record that it takes back; of a bill, none. A credit has the members `credit`, which
    /// is true, and `credit_reference_id`.
    pub credit_reference_id: Option<CiText<39>>,
}

impl Cdr {
    /// Whether it takes a bill back.
    pub fn is_credit(&self) -> bool
        ensures { result ≡ is_credit self.now }
    {
        self.credit_reference_id.is_some()
    }

    /// An equal record.
    pub fn copy(&self) -> Result<Cdr, AllocError>
        ensures { IfOk result (λ t. t ≡ self.now) }
    {
        let cdr_location = self.cdr_location.copy()?;
        let charging_periods = self.charging_periods.copy()?;
        Ok(Cdr {
            party: self.party,
            id: self.id,
            start_date_time: self.start_date_time,
            end_date_time: self.end_date_time,
            session_id: self.session_id,
            cdr_token: self.cdr_token,
            auth_method: self.auth_method,
            authorization_reference: self.authorization_reference,
            cdr_location,
            currency: self.currency,
            charging_periods,
            total_cost: self.total_cost,
            total_energy: self.total_energy,
            total_time: self.total_time,
            last_updated: self.last_updated,
            credit_reference_id: self.credit_reference_id,
        })
    }
}
