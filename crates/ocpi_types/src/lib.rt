//! The records of OCPI 2.2.1: tokens, commands, sessions, charge detail records, packets, and the sites that operators
//! configure; the setups and events of runs; and the rows that a node stores.
//!
//! ```
//! let status_code = StatusCode::new(1000)?;
//! let body = Body::Ack(Ack { status_code, timestamp: at });
//! let packet = Packet { from, to, serial, request, body };
//! let equal = packet.copy()?;
//! let mark = Row::Mark { provider: from.key(), reservation_id, number };
//! let key = mark.key();
//! let changes = [Change::Put(mark), Change::Drop(RowKey::Push { number: request })];
//! ```
//!
//! A type with a rule of its own is made by a `new`, which answers none where the rule does not hold. What owns memory
//! has a `copy`, which may want some.
//!
//! # Promises
//!
//! - What OCPI bounds, and every record of it alone, is `Copy`. Large members stand on the heap in a `Boxed`, which
//!   clauses see as the value itself, and which nothing changes. `Boxed::copy` is one more owner of it, and takes no
//!   memory. By `Boxed`; `Token`, `CdrToken`, `Session`, `Price`, `Authorization`, `CommandResponse`,
//!   `Ack`, `Event`, `Reservation`, `Opening`, `RowKey`; `Body`, `Command`, `Reply`, `Push`, `Row`.
//! - A row stands under its key in key form, for all thirteen kinds. By `Row::key` (`key_of`).
//! - A value is made exactly where its limits hold (lengths, ids that differ, ranges), and else none. By `new` of
//!   `NonEmpty`, `Connectors`, `Evses`, `Locations`, `Parties`, `Prices`, `Setup`, `StatusCode`, `RefusalCode`,
//!   `PricePerKwh`.
//! - A site's price at a moment is that of the last entry that begins by it, else its own. By `Site::price_at`.
//! - A set of ids is a finite set of keys. By `IdSet::insert`: `added`, `after`, `err`, `absent`.
//! - A word list names each entry, the kinds of packets too. By `Word` of each list.
//! - A command tells to where its result is posted, and a start its authorization reference. By `response_url`,
//!   `authorization_reference` of `Command`.
//! - A copy equals its source; of a packet, a row or a change it wants memory only where that may own some. By `copy`:
//!   `equal`, `err`.
//! - A later version is updated at the moment of its event, or 1 ms after the one before it where that is later. There
//!   is none where that one was updated at the last moment. By `next_stamp`: `some`, `none`.
//!
//! # How it is built
//!
//! What OCPI bounds lies in the value: `CiText<MAX>`, `ShortText<MAX, BYTES>`, `Party` and every record of these,
//! moments, numbers and words alone (`Token`, `Session`, `CommandResponse`, `RowKey`) are `Copy`, own no memory and
//! have no `Drop`. `FreeText<MAX>` owns a `String`: for texts that are long (`response_url`) or stored by the
//! thousand (those of a site). A record with such a part has `copy`, which may want memory. A text is seen as the
//! list of its bytes, wherever it lies, so a definition is the same for each kind of text.
#![tactic(auto)]

mod apart;
mod authorizations;
mod boxed;
mod cdrs;
mod commands;
mod copies;
mod events;
mod field;
mod id_set;
mod limits;
mod lists;
mod node_events;
mod packet;
mod parties;
mod price;
mod price_laws;
mod price_lists;
mod replies;
mod rows;
mod sessions;
mod setup;
mod site;
mod stamps;
mod stored;
mod token;
mod type_places;
mod words;

pub use authorizations::{Authorization, AuthorizationInfo, Authorize, LocationReferences};
pub use boxed::Boxed;
pub use cdrs::{Cdr, CdrDimension, CdrLocation, ChargingPeriod, GeoLocation};
pub use commands::{
    CancelReservation, Command, ReserveNow, StartSession, StopSession, UnlockConnector,
};
pub use events::{ChargerEvent, Event, EventKind, Order};
pub use field::Field;
pub use id_set::IdSet;
pub use limits::{RefusalCode, StatusCode};
pub use lists::{EvseUids, NonEmpty};
pub use node_events::{NodeEvent, NodeEventKind};
pub use packet::{Body, Packet};
pub use parties::Parties;
pub use price::PricePerKwh;
pub use price_laws::prices_hold_from_their_moments;
pub use price_lists::{PriceFrom, Prices};
pub use replies::{Ack, CommandResponse, CommandResult, ResponseData};
pub use rows::{Change, Counter, Place, Row, RowKey};
pub use sessions::{Opening, Price, Session};
pub use setup::{Node, Setup};
pub use site::{Connector, Connectors, Evse, Evses, Location, Locations, Site, SiteLine};
pub use stamps::next_stamp;
pub use stored::{OpenCommand, Push, Reply, Reservation, SentCommand};
pub use token::{CdrToken, Token};
pub use type_places::type_place;
pub use words::{
    AllowedType, AuthMethod, CommandResponseType, CommandResultType, PacketKind, SessionStatus,
    TokenType, WhitelistType, Word,
};
