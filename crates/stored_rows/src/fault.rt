//! Why no node is made of rows.

ghost use Rattle.std.specs.Prelude.{◌≡◌, Some};

use ocpi_text::{E4, Moment};
use ocpi_types::RowKey;
use std::alloc::{AllocError, AllocFailed};
use std::error::Error;
use std::fmt;

/// What is wrong with a row of a list of which no node can be made.
#[derive(Clone, Copy, Debug, PartialEq, Eq)]
pub enum BadReason {
    /// Another row has its kind and key.
    Repeated,
    /// No node of the role stores such a row.
    OfOtherRole,
    /// A counter that gave no number has no row.
    NothingCounted,
    /// Its number, that of its id or that of its authorization reference is above the last that the counter gave.
    NotGiven,
    /// A push and a command have its number.
    NumberShared,
    /// It is of another party than the node's.
    OfOtherParty,
    /// The id of the session or charge detail record is none that the operator gives.
    NotOwnId,
    /// The authorization reference of the command is none that the provider gives.
    NotOwnReference,
    /// It is of a party, or to one, with which the node does not deal.
    UnknownParty,
    /// The token of the open start is another provider's.
    TokenOfOtherParty,
    /// The site has no EVSE of that uid.
    UnknownEvse,
    /// The EVSE is of the site, and has no connector of that id.
    UnknownConnector,
    /// The EVSE is of the site, and is not at the location that the reservation names.
    OtherLocation,
    /// The open start names no EVSE, or no connector.
    WithoutPlace,
    /// Another row claims its EVSE.
    ClaimedTwice,
    /// The command has no reply.
    Unanswered,
    /// The command is open, and has a result.
    OpenWithResult,
    /// Another push is about the same, to the same party.
    PushedTwice,
    /// The session has the status RESERVATION, which no session of a node has.
    ReservationStatus,
    /// The session has no total cost.
    WithoutCost,
    /// The session is PENDING, and has energy.
    EnergyWhilePending,
    /// The session has not ended, and is in another currency than the setup's.
    OtherCurrency,
    /// The session's cost is not that of its energy at the setup's price at the moment at which the session began: another
    /// price made it.
    OtherPrice {
        /// When the session began: its `start_date_time`.
        start_date_time: Moment,
        /// The energy of the session, in kilowatt-hours.
        kwh: E4,
        /// The cost that the session has, without tax.
        cost: E4,
        /// What the setup asks for a kilowatt-hour at that moment.
        price: E4,
    },
    /// It bills a session that another charge detail record bills.
    BilledTwice,
    /// It is a credit, and another credit is of the same session.
    CreditedTwice,
    /// The session of the charge detail record is not there as completed.
    BilledEarly,
    /// The completed session has no bill among the charge detail records.
    Unbilled,
    /// The charge detail record is a credit, and the bill that it takes back is not there.
    CreditWithoutBill,
}

/// A row of a list of which no node can be made, and what is wrong with it.
#[derive(Clone, Copy)]
pub struct BadRow {
    pub key: RowKey,
    pub reason: BadReason,
}

/// It shows the reason alone: a key is written as a row's text has it, by the crate that writes rows.
impl fmt::Debug for BadRow {
    fn fmt<W: fmt::Write>(&self, f: &mut fmt::Formatter<W>) -> fmt::Result {
        f.debug_struct("BadRow")
            .field("reason", &self.reason)
            .finish_non_exhaustive()
    }
}

/// Why no node is made of rows that were stored.
#[derive(Clone, Copy, Debug)]
pub enum RowsFault {
    /// No node of that party, with those peers, has just these rows. This row shows it.
    BadRows(BadRow),
    /// Memory ran out.
    Memory,
}

impl fmt::Display for RowsFault {
    ghost use Rattle.stored_rows.specs.Faults.{fault_text};

    ghost output = { λ f. Some (fault_text f) };

    fn fmt<W: fmt::Write>(&self, f: &mut fmt::Formatter<W>) -> fmt::Result {
        match self {
            RowsFault::BadRows(_) => f.write_str("7 BadRows"),
            RowsFault::Memory => f.write_str("4 Memory"),
        }
    }
}

impl Error for RowsFault {}

impl From<AllocError> for RowsFault {
    ghost use Rattle.stored_rows.specs.declared.fault.RowsFault.TheVariants.{Memory};

    ghost from_gives = { λ _ e. e ≡ Memory };

    fn from(_e: AllocError) -> RowsFault {
        RowsFault::Memory
    }
}

impl<T: Drop> From<AllocFailed<T>> for RowsFault {
    ghost use Rattle.stored_rows.specs.declared.fault.RowsFault.TheVariants.{Memory};

    ghost from_gives = { λ _ e. e ≡ Memory };

    fn from(_e: AllocFailed<T>) -> RowsFault {
        RowsFault::Memory
    }
}
