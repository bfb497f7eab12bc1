//! Why a store refused, or a file was not read, in words, and what to do about it.

use crate::setup::SetupFault;
use node_store::{Cause, StoreFault};
use ocpi_text::{E4, Moment};
use std::alloc::{AllocError, Global};
use std::io::ErrorKind;
use stored_rows::BadReason;

/// The words for a refusal. They follow the name of the file or of its folder.
pub(crate) fn words_for(fault: StoreFault) -> &'static str {
    match fault {
        StoreFault::Refused(cause) => words_for_cause(cause),
        StoreFault::BadRow => {
            concat!(
                "a text in it is no row of its kind and key: another program wrote it; ",
                "use the file from just before that, or ask your partners if a packet was sent since"
            )
        }
        StoreFault::OldLayout => {
            "its tables are not those of this version: open it with the program that made it"
        }
        StoreFault::Memory => "memory ran out: end other programs first",
    }
}

/// The words for a refusal of the store of `node`, where a file that is not there is missing by `--existing` alone.
pub(crate) fn words_for_node(fault: StoreFault) -> &'static str {
    match fault {
        StoreFault::Refused(Cause::NotFound) => {
            "there is no such file, and --existing creates none: name the store that was used before, or check that its disk is mounted"
        }
        _ => words_for(fault),
    }
}

fn words_for_cause(cause: Cause) -> &'static str {
    match cause {
        Cause::AlreadyExists => {
            "it exists already, and a run creates new files: move it away, or name another folder"
        }
        Cause::FolderNotFound => "its folder does not exist: create it first",
        Cause::NotFound => "there is no such file: name one that a run with --store created",
        Cause::NotAFile =>
            "it is a folder, or no plain file: name the file of a store, as node1.db",
        Cause::PermissionDenied => {
            "no permission: the file must be readable and writable, and its folder writable"
        }
        Cause::DatabaseBusy => "another program has it open: wait until that has ended",
        Cause::CannotOpen => {
            "it cannot be opened: its folder must be writable, the file may have one name alone and no -journal"
        }
        Cause::NotADatabase =>
            "it is no store: no SQLite database, a damaged one, or one of another program; name the file of a store",
        Cause::StorageFull => "the disk is full: make room on it",
        Cause::Disk => "the disk failed: the system's log says more",
        Cause::Size => "a row is larger than a store takes",
        Cause::NotEmpty =>
            "it has rows already, from a -wal file that was there: move it away, or name another folder",
        Cause::NoKeeper => "no file is that of the node whose rows changed",
        Cause::OpenedBefore => "it was opened before in this run, which opens it once",
        Cause::Other => "the database refused it: keep a copy of the file, and report this",
    }
}

/// The words for what is wrong with a row of which no node of the setup is made. They follow its kind and its key.
pub(crate) fn words_for_reason(reason: BadReason) -> &'static str {
    match reason {
        BadReason::Repeated => "another row has this kind and this key",
        BadReason::OfOtherRole => "a node of this role stores no such row",
        BadReason::NothingCounted => "a counter that has given no number has no row",
        BadReason::NotGiven => {
            "its number, or that of its id or reference, is above the last that the counter gave"
        }
        BadReason::NumberShared => "a push and a command have its number",
        BadReason::OfOtherParty => "it is of another party than this node's",
        BadReason::NotOwnId => "its id is none that this node gives",
        BadReason::NotOwnReference => "its authorization reference is none that this node gives",
        BadReason::UnknownParty => "it is of or to a party that the setup has not",
        BadReason::TokenOfOtherParty => "the token of the open start is another provider's",
        BadReason::UnknownEvse => "the setup's site has no such EVSE",
        BadReason::UnknownConnector => "the setup's site has the EVSE, and no such connector of it",
        BadReason::OtherLocation => {
            "the setup's site has the EVSE, at another location than it names"
        }
        BadReason::WithoutPlace => "the open start names no EVSE, or no connector",
        BadReason::ClaimedTwice => "another row claims its EVSE",
        BadReason::Unanswered => "the command has no reply",
        BadReason::OpenWithResult => "the command is open, and has a result",
        BadReason::PushedTwice => "another push is about the same, to the same party",
        BadReason::ReservationStatus => {
            "the session has the status RESERVATION, which no session of a node has"
        }
        BadReason::WithoutCost => "the session has no total cost",
        BadReason::EnergyWhilePending => "the session is PENDING, and has energy",
        BadReason::OtherCurrency => {
            "the session has not ended, and is in another currency than the setup's"
        }
        BadReason::OtherPrice { .. } => {
            "its cost is not that of its energy at the setup's price when it began"
        }
        BadReason::BilledTwice => "another bill is of the same session",
        BadReason::CreditedTwice => "another credit is of the same session",
        BadReason::BilledEarly => "its session is missing, or not completed",
        BadReason::Unbilled => "the completed session has no bill",
        BadReason::CreditWithoutBill => "the bill that the credit takes back is missing",
    }
}

/// The same words with the numbers that the reason has. None, where it has none, and where memory runs out.
pub(crate) fn words_with_numbers(alloc: Global, reason: BadReason) -> Option<String> {
    match reason {
        BadReason::OtherPrice {
            start_date_time,
            kwh,
            cost,
            price,
        } => words_for_price(alloc, start_date_time, kwh, cost, price).ok(),
        _ => None,
    }
}

fn words_for_price(
    alloc: Global,
    began: Moment,
    kwh: E4,
    cost: E4,
    price: E4,
) -> Result<String, AllocError> {
    let (kwh, cost, price) = (kwh.write(alloc)?, cost.write(alloc)?, price.write(alloc)?);
    let began = began.write(alloc)?;
    format!(in alloc;
        "it began at {began}, and its cost {cost} for {kwh} kWh is not that of the setup's price then, {price} a kWh"
    )
}

/// What to do about a row that is bad for that reason. It follows the words for it.
pub(crate) fn advice_for(reason: BadReason) -> &'static str {
    match reason {
        BadReason::OfOtherRole | BadReason::OfOtherParty => "name the party whose store this is",
        BadReason::NotOwnReference => {
            "name the party whose store this is; if this is its store, another program wrote it"
        }
        BadReason::UnknownParty
        | BadReason::UnknownEvse
        | BadReason::UnknownConnector
        | BadReason::OtherLocation => "give the setup of the store",
        BadReason::OtherPrice { .. } => {
            "another price made it; give the setup of the store, and change a price by an entry of `prices` alone"
        }
        BadReason::OtherCurrency => {
            "give the currency of the store until all its sessions have ended"
        }
        BadReason::Repeated
        | BadReason::NothingCounted
        | BadReason::NotGiven
        | BadReason::NumberShared
        | BadReason::NotOwnId
        | BadReason::TokenOfOtherParty
        | BadReason::WithoutPlace
        | BadReason::ClaimedTwice
        | BadReason::Unanswered
        | BadReason::OpenWithResult
        | BadReason::PushedTwice
        | BadReason::ReservationStatus
        | BadReason::WithoutCost
        | BadReason::EnergyWhilePending
        | BadReason::BilledTwice
        | BadReason::CreditedTwice
        | BadReason::BilledEarly
        | BadReason::Unbilled
        | BadReason::CreditWithoutBill => {
            "another program changed the store; use the file from just before that"
        }
    }
}

/// The words for why the file of a transcript was not read. They follow its name.
pub fn words_for_unread(kind: ErrorKind) -> &'static str {
    match kind {
        ErrorKind::NotFound | ErrorKind::NotADirectory => {
            "there is no such file: name a transcript, as a run of `node --transcript` wrote it"
        }
        ErrorKind::IsADirectory =>
            "it is a folder: name a transcript, as a run of `node --transcript` wrote it",
        ErrorKind::PermissionDenied => "no permission: the file must be readable",
        _ => "it cannot be read: the system's log says more",
    }
}

/// The words for why the file of a setup gives none. They follow its name.
pub(crate) fn words_for_setup(fault: SetupFault) -> &'static str {
    match fault {
        SetupFault::Unread(kind) => words_for_unread_setup(kind),
        SetupFault::TooLong => "it has more than 1048576 bytes: name the file of a setup",
        SetupFault::NoObject => "it does not begin with {: name the file of a setup, a JSON object",
    }
}

fn words_for_unread_setup(kind: ErrorKind) -> &'static str {
    match kind {
        ErrorKind::NotFound | ErrorKind::NotADirectory => {
            "there is no such file: name the file of a setup"
        }
        ErrorKind::IsADirectory => "it is a folder: name the file of a setup",
        ErrorKind::PermissionDenied => "no permission: the file must be readable",
        ErrorKind::OutOfMemory => "memory ran out: end other programs first",
        _ => "it cannot be read: the system's log says more",
    }
}

/// The words for why the file of a transcript was not opened to write to it. They follow its name.
pub(crate) fn words_for_unopened(kind: ErrorKind) -> &'static str {
    match kind {
        ErrorKind::NotFound | ErrorKind::NotADirectory => {
            "its folder does not exist: create it first"
        }
        ErrorKind::IsADirectory => "it is a folder: name a file",
        ErrorKind::AlreadyExists => "it is the store: name a file of its own",
        ErrorKind::PermissionDenied | ErrorKind::ReadOnlyFilesystem => {
            "no permission: the file must be writable, and its folder readable and writable"
        }
        ErrorKind::StorageFull | ErrorKind::QuotaExceeded => "the disk is full: make room on it",
        ErrorKind::OutOfMemory => "memory ran out: end other programs first",
        _ => "it cannot be opened: the system's log says more",
    }
}

/// The words for why the file of a transcript was not written, or not synced. They follow its name.
pub(crate) fn words_for_unwritten(kind: ErrorKind) -> &'static str {
    match kind {
        ErrorKind::StorageFull | ErrorKind::QuotaExceeded => "the disk is full: make room on it",
        _ => "it cannot be written and synced: name a plain file, and look into the system's log",
    }
}
