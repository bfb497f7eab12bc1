//! Why histories are not woven.

ghost use Rattle.std.specs.Prelude.{◌≡◌, ◌⊎◌, ◌<◌, [], IfNone, IfSome, Some as SomeOf, length, slice_get};
ghost use Rattle.histories.specs.declared.entry.Entry.{Entry as EntryOf};
ghost use Rattle.histories.specs.Entries.{Delivers};
ghost use Rattle.histories.specs.Weaving.{AreNumbered};
ghost use Rattle.ocpi_types.specs.declared.packet.Packet.{Packet as PacketOf};
ghost use Rattle.weave.specs.declared.fault.WeaveFault.TheVariants.{Differs as OfDiffers, Memory, NeverSent as OfNeverSent};
ghost use Rattle.weave.specs.Faults.{Explains};
ghost use Rattle.weave.specs.TurnFaults.{Comes, ExplainsTurns};

use crate::needs::delivered;
use crate::turn::Turn;
use crate::turn_fault::TurnFault;
use histories::{Entry, NodeHistory};
use ocpi_types::Packet;
use std::alloc::{AllocError, AllocFailed};
use std::fmt;
use thiserror::Error;

/// Why there is no order of all entries, or none was found.
#[derive(Drop, Error)]
pub enum WeaveFault {
    /// The packet came to a node, and its sender, among these, sent none of that serial.
    #[error("a packet came that its sender never sent")]
    NeverSent(Packet),
    /// The packet came to a node, and its sender sent another of that serial.
    #[error("a packet came that its sender sent otherwise")]
    Differs(Packet),
    /// From these places on, one for each history, each next entry delivers a packet that is sent behind them.
    #[error("the entries have no order")]
    NoOrder(Vec<usize>),
    /// Memory ran out.
    #[error("memory ran out")]
    Memory,
}

/// It shows the text: a packet is written by the crate that writes JSON.
impl fmt::Debug for WeaveFault {
    fn fmt<W: fmt::Write>(&self, f: &mut fmt::Formatter<W>) -> fmt::Result {
        fmt::Display::fmt(self, f)
    }
}

impl From<AllocError> for WeaveFault {
    ghost from_gives = { λ _ e. e ≡ Memory };

    fn from(_e: AllocError) -> WeaveFault {
        WeaveFault::Memory
    }
}

impl<T: Drop> From<AllocFailed<T>> for WeaveFault {
    ghost from_gives = { λ _ e. e ≡ Memory };

    fn from(_e: AllocFailed<T>) -> WeaveFault {
        WeaveFault::Memory
    }
}

/// What is told of a packet that was never sent.
fn never_sent(packet: &Packet) -> WeaveFault
    ensures { (result ≡ OfNeverSent packet.now) ⊎ (result ≡ Memory) }
{
    match packet.copy() {
        Ok(packet) => WeaveFault::NeverSent(packet),
        Err(_) => WeaveFault::Memory,
    }
}

/// What is told of a packet that was sent otherwise.
fn differs(packet: &Packet) -> WeaveFault
    ensures { (result ≡ OfDiffers packet.now) ⊎ (result ≡ Memory) }
{
    match packet.copy() {
        Ok(packet) => WeaveFault::Differs(packet),
        Err(_) => WeaveFault::Memory,
    }
}

/// The packet that the entry at a place delivers.
fn delivered_at(entries: &[Entry], place: usize) -> Option<&Packet>
    requires { place < length entries.now }
    ensures found { IfSome result (λ q. (e : EntryOf) × (slice_get entries.now place ≡ SomeOf e) × Delivers e q.now) }
    ensures none { IfNone result ((e : EntryOf) (q : PacketOf) → slice_get entries.now place ≡ SomeOf e → Delivers e q → ⊥) }
{
    delivered(&entries[place])
}

/// The packet that the entry which a turn names delivers.
fn packet_of<'a>(histories: &[NodeHistory<'a>], turn: Turn) -> Option<&'a Packet>
    requires { (q : PacketOf) × Comes histories.now turn q }
    ensures found { IfSome result (λ r. Comes histories.now turn r.now) }
    ensures none { IfNone result ⊥ }
{
    delivered_at(histories[turn.history].entries, turn.entry)
}

/// The same, told by packets, where nobody is given.
pub fn fault_of(histories: &[NodeHistory<'_>], fault: TurnFault) -> WeaveFault
    requires numbered { AreNumbered histories.now }
    requires told { ExplainsTurns [] histories.now fault }
    ensures { Explains histories.now result }
{
    match fault {
        TurnFault::NeverSent(came) => match packet_of(histories, came) {
            Some(packet) => never_sent(packet),
            None => WeaveFault::Memory,
        },
        TurnFault::Differs(came, _) => match packet_of(histories, came) {
            Some(packet) => differs(packet),
            None => WeaveFault::Memory,
        },
        TurnFault::NoOrder(places) => WeaveFault::NoOrder(places),
        TurnFault::Memory => WeaveFault::Memory,
    }
}
