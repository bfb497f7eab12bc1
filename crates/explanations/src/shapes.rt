//! The objects that are read, and what chooses among them.

use crate::forms::Form;
use crate::tables::{
    ACK, AUTHORIZATION, AUTHORIZATION_INFO, AUTHORIZE, CANCEL_ORDER, CANCEL_RESERVATION, CDR,
    CDR_LOCATION, CDR_TOKEN, CHARGING_PERIOD, COMMAND_REPORT, COMMAND_RESPONSE, COMMAND_RESULT,
    CONNECTOR, COORDINATES, CREDIT, CREDIT_EVENT, DELIVER, DELIVER_PACKET, DIMENSION, EVENT, EVSE,
    EVSE_REPORT, LOCATION, LOCATION_REFERENCES, METER, NODE, NODE_EVENT, PACKET, PRICE_FROM,
    RESERVE_NOW, RESERVE_ORDER, RESPONSE_DATA, SERVICE, SESSION, SETUP, SITE, SITE_LINE,
    START_ORDER, START_SESSION, STOP_ORDER, STOP_SESSION, SUBMIT, SWIPE, TICK, TOKEN, TOKEN_EVENT,
    TOTAL_COST, UNLOCK_CONNECTOR, UNLOCK_ORDER,
};
use json::Value;
use ocpi_text::Whole;
use ocpi_types::Field;

/// An object that is read.
#[derive(Clone, Copy)]
pub enum Shape {
    SiteLine,
    Setup,
    Node,
    Site,
    /// A price of a site from a moment on.
    PriceFrom,
    Location,
    Evse,
    Connector,
    Packet,
    StartSession,
    StopSession,
    ReserveNow,
    CancelReservation,
    UnlockConnector,
    CommandResponse,
    ResponseData,
    CommandResult,
    Token,
    Authorize,
    LocationReferences,
    Authorization,
    AuthorizationInfo,
    Session,
    CdrToken,
    TotalCost,
    Cdr,
    Credit,
    CdrLocation,
    Coordinates,
    ChargingPeriod,
    Dimension,
    Ack,
    /// An event of `play`.
    Event,
    /// An event of `node`.
    NodeEvent,
    Submit,
    TokenEvent,
    Service,
    Swipe,
    CommandReport,
    EvseReport,
    Meter,
    CreditEvent,
    Deliver,
    DeliverPacket,
    Tick,
    StartOrder,
    StopOrder,
    ReserveOrder,
    CancelOrder,
    UnlockOrder,
}

/// A member of an object.
#[derive(Clone, Copy)]
pub enum Member {
    /// One that is neither absent nor null.
    Needed(Field, Form),
    /// One that may be absent or null.
    Maybe(Field, Form),
    /// Those of the shape that another member of this object chooses.
    Others(Choice),
}

/// What chooses a shape.
#[derive(Clone, Copy)]
pub enum Choice {
    /// The word under `event`, in a line of `play`.
    Event,
    /// The same in a line of `node`.
    NodeEvent,
    /// The word under `order`.
    Order,
    /// That `credit` is true.
    Credit,
}

impl Shape {
    /// The members, in the order in which their faults are told.
    pub fn members(self) -> &'static [Member] {
        match self {
            Shape::SiteLine => &SITE_LINE,
            Shape::Setup => &SETUP,
            Shape::Node => &NODE,
            Shape::Site => &SITE,
            Shape::PriceFrom => &PRICE_FROM,
            Shape::Location => &LOCATION,
            Shape::Evse => &EVSE,
            Shape::Connector => &CONNECTOR,
            Shape::Packet => &PACKET,
            Shape::StartSession => &START_SESSION,
            Shape::StopSession => &STOP_SESSION,
            Shape::ReserveNow => &RESERVE_NOW,
            Shape::CancelReservation => &CANCEL_RESERVATION,
            Shape::UnlockConnector => &UNLOCK_CONNECTOR,
            Shape::CommandResponse => &COMMAND_RESPONSE,
            Shape::ResponseData => &RESPONSE_DATA,
            Shape::CommandResult => &COMMAND_RESULT,
            Shape::Token => &TOKEN,
            Shape::Authorize => &AUTHORIZE,
            Shape::LocationReferences => &LOCATION_REFERENCES,
            Shape::Authorization => &AUTHORIZATION,
            Shape::AuthorizationInfo => &AUTHORIZATION_INFO,
            Shape::Session => &SESSION,
            Shape::CdrToken => &CDR_TOKEN,
            Shape::TotalCost => &TOTAL_COST,
            Shape::Cdr => &CDR,
            Shape::Credit => &CREDIT,
            Shape::CdrLocation => &CDR_LOCATION,
            Shape::Coordinates => &COORDINATES,
            Shape::ChargingPeriod => &CHARGING_PERIOD,
            Shape::Dimension => &DIMENSION,
            Shape::Ack => &ACK,
            _ => self.event_members(),
        }
    }

    /// Those of what belongs to an event.
    fn event_members(self) -> &'static [Member] {
        match self {
            Shape::Event => &EVENT,
            Shape::NodeEvent => &NODE_EVENT,
            Shape::Submit => &SUBMIT,
            Shape::TokenEvent => &TOKEN_EVENT,
            Shape::Service => &SERVICE,
            Shape::Swipe => &SWIPE,
            Shape::CommandReport => &COMMAND_REPORT,
            Shape::EvseReport => &EVSE_REPORT,
            Shape::Meter => &METER,
            Shape::CreditEvent => &CREDIT_EVENT,
            Shape::Deliver => &DELIVER,
            Shape::DeliverPacket => &DELIVER_PACKET,
            Shape::Tick => &TICK,
            Shape::StartOrder => &START_ORDER,
            Shape::StopOrder => &STOP_ORDER,
            Shape::ReserveOrder => &RESERVE_ORDER,
            Shape::CancelOrder => &CANCEL_ORDER,
            Shape::UnlockOrder => &UNLOCK_ORDER,
            _ => &[],
        }
    }
}

/// The text of a member, where it is one.
fn text_of<'a>(object: &Value<'a>, field: Field) -> Option<&'a str> {
    object.get(field.name()).and_then(Value::as_str)
}

/// What an event of that word has beside the word and the node.
fn event_of(word: &str, delivery: Shape) -> Option<Shape> {
    match word {
        "submit" => Some(Shape::Submit),
        "token" => Some(Shape::TokenEvent),
        "service" => Some(Shape::Service),
        "swipe" => Some(Shape::Swipe),
        "accepts" | "refuses" | "unlocked" => Some(Shape::CommandReport),
        "starts" | "stops" | "fault" => Some(Shape::EvseReport),
        "meter" => Some(Shape::Meter),
        "credit" => Some(Shape::CreditEvent),
        "deliver" => Some(delivery),
        "tick" => Some(Shape::Tick),
        _ => None,
    }
}

/// What an order of that word has beside the word.
fn order_of(word: &str) -> Option<Shape> {
    match word {
        "start_session" => Some(Shape::StartOrder),
        "stop_session" => Some(Shape::StopOrder),
        "reserve_now" => Some(Shape::ReserveOrder),
        "cancel_reservation" => Some(Shape::CancelOrder),
        "unlock_connector" => Some(Shape::UnlockOrder),
        _ => None,
    }
}

/// The body of a packet of that kind.
fn body_of(kind: &str) -> Option<Shape> {
    match kind {
        "start_session" => Some(Shape::StartSession),
        "stop_session" => Some(Shape::StopSession),
        "reserve_now" => Some(Shape::ReserveNow),
        "cancel_reservation" => Some(Shape::CancelReservation),
        "unlock_connector" => Some(Shape::UnlockConnector),
        "command_response" => Some(Shape::CommandResponse),
        "command_result" => Some(Shape::CommandResult),
        "put_token" => Some(Shape::Token),
        "authorize" => Some(Shape::Authorize),
        "authorization" => Some(Shape::Authorization),
        "put_session" => Some(Shape::Session),
        "post_cdr" => Some(Shape::Cdr),
        "ack" => Some(Shape::Ack),
        _ => None,
    }
}

impl Choice {
    /// The shape whose members the object has too, if there is one.
    pub fn shape_in(self, object: &Value<'_>) -> Option<Shape> {
        match self {
            Choice::Event => event_of(text_of(object, Field::Event)?, Shape::Deliver),
            Choice::NodeEvent => event_of(text_of(object, Field::Event)?, Shape::DeliverPacket),
            Choice::Order => order_of(text_of(object, Field::Order)?),
            Choice::Credit => match object.get(Field::Credit.name()) {
                Some(Value::Bool(true)) => Some(Shape::Credit),
                _ => None,
            },
        }
    }
}

impl Form {
    /// The shape of the elements of a list of objects.
    pub fn element_shape(self) -> Option<Shape> {
        match self {
            Form::Objects(shape, _, _) => Some(shape),
            _ => None,
        }
    }

    /// The shape of the object under a name of this form, in that object, if it is looked at.
    pub fn shape_in(self, object: &Value<'_>) -> Option<Shape> {
        match self {
            Form::Object(shape) => Some(shape),
            Form::Body => body_of(text_of(object, Field::Kind)?),
            Form::Data(shape) if has_data(object) => Some(shape),
            _ => None,
        }
    }
}

/// Whether a reply has a status with which its data are read.
pub fn has_data(reply: &Value<'_>) -> bool {
    match reply.get(Field::StatusCode.name()) {
        Some(Value::Number(token)) => match Whole::read(token) {
            Ok(status) => status.value() == 1000,
            Err(_) => false,
        },
        _ => false,
    }
}
