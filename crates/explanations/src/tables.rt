//! The members of each object, in the order in which their faults are told.

use crate::forms::{ANY_NUMBER, Form, Scope};
use crate::shapes::Member::{self, Maybe, Needed};
use crate::shapes::{Choice, Shape};
use crate::word_lists::WordList;
use ocpi_types::Field;

const LONG_ID: Form = Form::CiString(39);

const ID: Form = Form::CiString(36);

const TOKEN_TYPE: Form = Form::Word(WordList::TokenTypes);

pub(crate) const SITE_LINE: [Member; 4] = [
    Needed(Field::At, Form::Moment),
    Needed(Field::Party, Form::Party),
    Needed(Field::Providers, Form::Providers),
    Needed(Field::Site, Form::Object(Shape::Site)),
];

/// (`line` is read by `node` alone.)
pub(crate) const SETUP: [Member; 2] = [
    Needed(Field::Nodes, Form::Objects(Shape::Node, 1, 64)),
    Maybe(Field::Line, Form::LineNumber),
];

pub(crate) const NODE: [Member; 2] = [
    Needed(Field::Party, Form::NewId(Scope::Nodes)),
    Maybe(Field::Site, Form::Object(Shape::Site)),
];

pub(crate) const SITE: [Member; 4] = [
    Needed(Field::Currency, Form::FreeText(3)),
    Needed(Field::Price, Form::Price),
    Maybe(Field::Prices, Form::Objects(Shape::PriceFrom, 0, 1000)),
    Needed(Field::Locations, Form::Objects(Shape::Location, 1, 1000)),
];

pub(crate) const PRICE_FROM: [Member; 2] = [
    Needed(Field::StartDateTime, Form::LaterMoment),
    Needed(Field::Price, Form::Price),
];

pub(crate) const LOCATION: [Member; 7] = [
    Needed(Field::Id, Form::NewId(Scope::Locations)),
    Needed(Field::Address, Form::FreeText(45)),
    Needed(Field::City, Form::FreeText(45)),
    Needed(Field::Country, Form::FreeText(3)),
    Needed(Field::Latitude, Form::FreeText(10)),
    Needed(Field::Longitude, Form::FreeText(11)),
    Needed(Field::Evses, Form::Objects(Shape::Evse, 1, 1000)),
];

pub(crate) const EVSE: [Member; 3] = [
    Needed(Field::Uid, Form::NewId(Scope::Evses)),
    Needed(Field::EvseId, Form::CiString(48)),
    Needed(Field::Connectors, Form::Objects(Shape::Connector, 1, 10)),
];

pub(crate) const CONNECTOR: [Member; 4] = [
    Needed(Field::Id, Form::NewId(Scope::Connectors)),
    Needed(Field::Standard, Form::FreeText(64)),
    Needed(Field::Format, Form::FreeText(64)),
    Needed(Field::PowerType, Form::FreeText(64)),
];

pub(crate) const PACKET: [Member; 6] = [
    Needed(Field::From, Form::Party),
    Needed(Field::To, Form::Party),
    Needed(Field::Serial, Form::Whole),
    Needed(Field::Request, Form::Whole),
    Needed(Field::Kind, Form::Name(WordList::Kinds)),
    Needed(Field::Body, Form::Body),
];

pub(crate) const START_SESSION: [Member; 6] = [
    Needed(Field::ResponseUrl, Form::FreeText(255)),
    Needed(Field::Token, Form::Object(Shape::Token)),
    Needed(Field::LocationId, ID),
    Maybe(Field::EvseUid, ID),
    Maybe(Field::ConnectorId, ID),
    Maybe(Field::AuthorizationReference, ID),
];

pub(crate) const STOP_SESSION: [Member; 2] = [
    Needed(Field::ResponseUrl, Form::FreeText(255)),
    Needed(Field::SessionId, ID),
];

pub(crate) const RESERVE_NOW: [Member; 6] = [
    Needed(Field::ResponseUrl, Form::FreeText(255)),
    Needed(Field::Token, Form::Object(Shape::Token)),
    Needed(Field::ExpiryDate, Form::Moment),
    Needed(Field::ReservationId, ID),
    Needed(Field::LocationId, ID),
    Maybe(Field::EvseUid, ID),
];

pub(crate) const CANCEL_RESERVATION: [Member; 2] = [
    Needed(Field::ResponseUrl, Form::FreeText(255)),
    Needed(Field::ReservationId, ID),
];

pub(crate) const UNLOCK_CONNECTOR: [Member; 4] = [
    Needed(Field::ResponseUrl, Form::FreeText(255)),
    Needed(Field::LocationId, ID),
    Needed(Field::EvseUid, ID),
    Needed(Field::ConnectorId, ID),
];

pub(crate) const COMMAND_RESPONSE: [Member; 3] = [
    Needed(Field::StatusCode, Form::StatusCode),
    Needed(Field::Timestamp, Form::Moment),
    Needed(Field::Data, Form::Data(Shape::ResponseData)),
];

pub(crate) const RESPONSE_DATA: [Member; 2] = [
    Needed(Field::Result, Form::Word(WordList::CommandResponses)),
    Needed(Field::Timeout, Form::Whole),
];

pub(crate) const COMMAND_RESULT: [Member; 2] = [
    Needed(Field::ResponseUrl, Form::FreeText(255)),
    Needed(Field::Result, Form::Word(WordList::CommandResults)),
];

pub(crate) const TOKEN: [Member; 9] = [
    Needed(Field::CountryCode, Form::Exactly(2)),
    Needed(Field::PartyId, Form::Exactly(3)),
    Needed(Field::Uid, ID),
    Needed(Field::TypeOf, TOKEN_TYPE),
    Needed(Field::ContractId, ID),
    Needed(Field::Issuer, Form::FreeText(64)),
    Needed(Field::Valid, Form::Truth),
    Needed(Field::Whitelist, Form::Word(WordList::Whitelists)),
    Needed(Field::LastUpdated, Form::Moment),
];

pub(crate) const AUTHORIZE: [Member; 3] = [
    Needed(Field::TokenUid, ID),
    Maybe(Field::TypeOf, TOKEN_TYPE),
    Maybe(Field::Location, Form::Object(Shape::LocationReferences)),
];

pub(crate) const LOCATION_REFERENCES: [Member; 2] = [
    Needed(Field::LocationId, ID),
    Maybe(Field::EvseUids, Form::Uids),
];

pub(crate) const AUTHORIZATION: [Member; 3] = [
    Needed(Field::StatusCode, Form::StatusCode),
    Needed(Field::Timestamp, Form::Moment),
    Needed(Field::Data, Form::Data(Shape::AuthorizationInfo)),
];

pub(crate) const AUTHORIZATION_INFO: [Member; 3] = [
    Needed(Field::Allowed, Form::Word(WordList::Allowed)),
    Needed(Field::Token, Form::Object(Shape::Token)),
    Maybe(Field::AuthorizationReference, ID),
];

pub(crate) const SESSION: [Member; 16] = [
    Needed(Field::CountryCode, Form::Exactly(2)),
    Needed(Field::PartyId, Form::Exactly(3)),
    Needed(Field::Id, ID),
    Needed(Field::StartDateTime, Form::Moment),
    Maybe(Field::EndDateTime, Form::Moment),
    Needed(Field::Kwh, Form::Quantity),
    Needed(Field::CdrToken, Form::Object(Shape::CdrToken)),
    Needed(Field::AuthMethod, Form::Word(WordList::AuthMethods)),
    Maybe(Field::AuthorizationReference, ID),
    Needed(Field::LocationId, ID),
    Needed(Field::EvseUid, ID),
    Needed(Field::ConnectorId, ID),
    Needed(Field::Currency, Form::FreeText(3)),
    Maybe(Field::TotalCost, Form::Object(Shape::TotalCost)),
    Needed(Field::Status, Form::Word(WordList::Statuses)),
    Needed(Field::LastUpdated, Form::Moment),
];

pub(crate) const CDR_TOKEN: [Member; 5] = [
    Needed(Field::CountryCode, Form::Exactly(2)),
    Needed(Field::PartyId, Form::Exactly(3)),
    Needed(Field::Uid, ID),
    Needed(Field::TypeOf, TOKEN_TYPE),
    Needed(Field::ContractId, ID),
];

pub(crate) const TOTAL_COST: [Member; 1] = [Needed(Field::ExclVat, Form::Decimal)];

pub(crate) const CDR: [Member; 18] = [
    Needed(Field::CountryCode, Form::Exactly(2)),
    Needed(Field::PartyId, Form::Exactly(3)),
    Needed(Field::Id, LONG_ID),
    Needed(Field::StartDateTime, Form::Moment),
    Needed(Field::EndDateTime, Form::Moment),
    Needed(Field::SessionId, ID),
    Needed(Field::CdrToken, Form::Object(Shape::CdrToken)),
    Needed(Field::AuthMethod, Form::Word(WordList::AuthMethods)),
    Maybe(Field::AuthorizationReference, ID),
    Needed(Field::CdrLocation, Form::Object(Shape::CdrLocation)),
    Needed(Field::Currency, Form::FreeText(3)),
    Needed(
        Field::ChargingPeriods,
        Form::Objects(Shape::ChargingPeriod, 1, ANY_NUMBER),
    ),
    Needed(Field::TotalCost, Form::Object(Shape::TotalCost)),
    Needed(Field::TotalEnergy, Form::Quantity),
    Needed(Field::TotalTime, Form::Quantity),
    Needed(Field::LastUpdated, Form::Moment),
    Maybe(Field::Credit, Form::Truth),
    Member::Others(Choice::Credit),
];

pub(crate) const CREDIT: [Member; 1] = [Needed(Field::CreditReferenceId, LONG_ID)];

pub(crate) const CDR_LOCATION: [Member; 11] = [
    Needed(Field::Id, ID),
    Needed(Field::Address, Form::FreeText(45)),
    Needed(Field::City, Form::FreeText(45)),
    Needed(Field::Country, Form::FreeText(3)),
    Needed(Field::Coordinates, Form::Object(Shape::Coordinates)),
    Needed(Field::EvseUid, ID),
    Needed(Field::EvseId, Form::CiString(48)),
    Needed(Field::ConnectorId, ID),
    Needed(Field::ConnectorStandard, Form::FreeText(64)),
    Needed(Field::ConnectorFormat, Form::FreeText(64)),
    Needed(Field::ConnectorPowerType, Form::FreeText(64)),
];

pub(crate) const COORDINATES: [Member; 2] = [
    Needed(Field::Latitude, Form::FreeText(10)),
    Needed(Field::Longitude, Form::FreeText(11)),
];

pub(crate) const CHARGING_PERIOD: [Member; 2] = [
    Needed(Field::StartDateTime, Form::Moment),
    Needed(
        Field::Dimensions,
        Form::Objects(Shape::Dimension, 1, ANY_NUMBER),
    ),
];

pub(crate) const DIMENSION: [Member; 2] = [
    Needed(Field::TypeOf, Form::FreeText(64)),
    Needed(Field::Volume, Form::Decimal),
];

pub(crate) const ACK: [Member; 2] = [
    Needed(Field::StatusCode, Form::StatusCode),
    Needed(Field::Timestamp, Form::Moment),
];

pub(crate) const EVENT: [Member; 3] = [
    Needed(Field::Event, Form::Name(WordList::Events)),
    Needed(Field::Node, Form::Party),
    Member::Others(Choice::Event),
];

pub(crate) const NODE_EVENT: [Member; 3] = [
    Needed(Field::Event, Form::Name(WordList::Events)),
    Needed(Field::Node, Form::Party),
    Member::Others(Choice::NodeEvent),
];

pub(crate) const SUBMIT: [Member; 4] = [
    Needed(Field::At, Form::Moment),
    Needed(Field::Operator, Form::Party),
    Needed(Field::Order, Form::Name(WordList::Orders)),
    Member::Others(Choice::Order),
];

pub(crate) const TOKEN_EVENT: [Member; 2] = [
    Needed(Field::At, Form::Moment),
    Needed(Field::Token, Form::Object(Shape::Token)),
];

pub(crate) const SERVICE: [Member; 2] = [
    Needed(Field::EvseUid, ID),
    Needed(Field::InService, Form::Truth),
];

pub(crate) const SWIPE: [Member; 5] = [
    Needed(Field::At, Form::Moment),
    Needed(Field::EvseUid, ID),
    Needed(Field::ConnectorId, ID),
    Needed(Field::TokenUid, ID),
    Needed(Field::TokenType, TOKEN_TYPE),
];

pub(crate) const COMMAND_REPORT: [Member; 3] = [
    Needed(Field::At, Form::Moment),
    Needed(Field::Provider, Form::Party),
    Needed(Field::Number, Form::Whole),
];

pub(crate) const EVSE_REPORT: [Member; 2] = [
    Needed(Field::At, Form::Moment),
    Needed(Field::EvseUid, ID),
];

pub(crate) const METER: [Member; 3] = [
    Needed(Field::At, Form::Moment),
    Needed(Field::EvseUid, ID),
    Needed(Field::Kwh, Form::Quantity),
];

pub(crate) const CREDIT_EVENT: [Member; 2] = [
    Needed(Field::At, Form::Moment),
    Needed(Field::SessionId, ID),
];

pub(crate) const DELIVER: [Member; 3] = [
    Needed(Field::At, Form::Moment),
    Needed(Field::From, Form::Party),
    Needed(Field::Serial, Form::Whole),
];

pub(crate) const DELIVER_PACKET: [Member; 2] = [
    Needed(Field::At, Form::Moment),
    Needed(Field::Packet, Form::Object(Shape::Packet)),
];

pub(crate) const TICK: [Member; 1] = [Needed(Field::At, Form::Moment)];

pub(crate) const START_ORDER: [Member; 5] = [
    Needed(Field::TokenUid, ID),
    Needed(Field::TokenType, TOKEN_TYPE),
    Needed(Field::LocationId, ID),
    Maybe(Field::EvseUid, ID),
    Maybe(Field::ConnectorId, ID),
];

pub(crate) const STOP_ORDER: [Member; 1] = [Needed(Field::SessionId, ID)];

pub(crate) const RESERVE_ORDER: [Member; 6] = [
    Needed(Field::TokenUid, ID),
    Needed(Field::TokenType, TOKEN_TYPE),
    Needed(Field::ExpiryDate, Form::Moment),
    Needed(Field::ReservationId, ID),
    Needed(Field::LocationId, ID),
    Maybe(Field::EvseUid, ID),
];

pub(crate) const CANCEL_ORDER: [Member; 1] = [Needed(Field::ReservationId, ID)];

pub(crate) const UNLOCK_ORDER: [Member; 3] = [
    Needed(Field::LocationId, ID),
    Needed(Field::EvseUid, ID),
    Needed(Field::ConnectorId, ID),
];
