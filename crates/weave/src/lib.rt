//! Histories of several nodes made into one run of their world, or refused.
//!
//! # Promises
//!
//! - Histories are woven into an interleaving, named entry by entry, or as the events of a world. By `weave_turns`:
//!   `order`; `weave`: `interleaving`.
//! - What is told is so: the first packet that came and was never sent, or was sent otherwise. Where each was sent so,
//!   it is places from which on each next entry waits for what is sent behind them. By `weave_turns`, `weave`: `cause`.
//! - They are refused, but for want of memory, only where no interleaving exists. By `weave_turns`, `weave`:
//!   `complete`.
//! - In another form what given parties sent is taken as it came: its delivery waits for nothing. The faults name the
//!   entry that delivers, and the one by which another packet was sent. But for want of memory it refuses only where
//!   there is no such order. By `weave_turns_with`: `order` (`InterleavesWith` of `specs/Given`), `cause`
//!   (`ExplainsTurns` of `specs/TurnFaults`), `complete`.
//! - The places of its `NoOrder` are where the order ends: the entries before them are in an interleaving of the
//!   histories up to there. By `weave_turns_with`: `cause` (`IsEnd` of `specs/TurnFaults`).
//! - Where no packet came from a given party, each of these orders is an interleaving in which every delivery follows
//!   its sending; and such a one is always one of these. By laws `none_given`, `any_given`.
#![tactic(auto)]

ghost use Rattle.std.specs.Prelude.{◌≢◌, [], IfErr, IfOk};
ghost use Rattle.histories.specs.Weaving.{AreApart, AreNumbered, AreNumberedBehind, CanInterleave, IsInterleaving};
ghost use Rattle.weave.specs.declared.fault.WeaveFault.TheVariants.{Memory as OfMemory};
ghost use Rattle.weave.specs.declared.turn_fault.TurnFault.TheVariants.{Memory as TurnsOfMemory};
ghost use Rattle.weave.specs.Faults.{Explains};
ghost use Rattle.weave.specs.Given.{CanInterleaveWith};
ghost use Rattle.weave.specs.TurnFaults.{ExplainsTurns};
ghost use Rattle.weave.specs.Turns.{IsOrder, IsOrderWith};

mod events;
mod fault;
pub mod laws;
mod needs;
mod turn;
mod turn_fault;
mod weaving;

use events::events_of;
pub use fault::WeaveFault;
use fault::fault_of;
use histories::NodeHistory;
use needs::all_needs;
pub use needs::{is_from, was_before};
use ocpi_text::Party;
use ocpi_types::Event;
use std::alloc::Global;
pub use turn::Turn;
pub use turn_fault::TurnFault;
use weaving::order;

/// What `weave_turns_with` does, and of a refusal what it tells.
fn found_turns(
    alloc: Global,
    histories: &[NodeHistory<'_>],
    given: &[Party],
) -> Result<Vec<Turn>, TurnFault>
    requires apart { AreApart histories.now }
    requires numbered { AreNumberedBehind histories.now }
    ensures order { IfOk result (λ turns. IsOrderWith given.now histories.now turns.items) }
    ensures cause { IfErr result (λ f. ExplainsTurns given.now histories.now f) }
{
    let needs = all_needs(alloc, histories, given)?;
    order(alloc, histories, given, &needs)
}

/// One order of all entries of the histories of some nodes, in which each delivery follows the sending of that packet.
/// What the given parties sent, in whichever case they are spelled, is taken as it came: its delivery waits for
/// nothing.
///
/// In the order of the histories each is advanced as far as it can go, round by round.
///
/// - `NeverSent`, `Differs`: the first entry, in the order of the histories and of their entries, which delivers a
///   packet that was not sent so; and of one that differs, by which entry.
/// - `NoOrder`: each packet that came was sent so. To these places each history is advanced, and each next entry waits
///   for what is sent behind them.
/// - `Memory`: memory ran out.
///
/// With any refusal but the last there is no such order. `laws` says what it is where nobody is given.
pub fn weave_turns_with(
    alloc: Global,
    histories: &[NodeHistory<'_>],
    given: &[Party],
) -> Result<Vec<Turn>, TurnFault>
    requires apart { AreApart histories.now }
    requires numbered { AreNumberedBehind histories.now }
    ensures order { IfOk result (λ turns. IsOrderWith given.now histories.now turns.items) }
    ensures cause { IfErr result (λ f. ExplainsTurns given.now histories.now f) }
    ensures complete { IfErr result (λ f. f ≢ TurnsOfMemory → CanInterleaveWith given.now histories.now → ⊥) }
{
    found_turns(alloc, histories, given)
}

/// What [`weave_turns`] does, and of a refusal what it tells.
fn woven_turns(alloc: Global, histories: &[NodeHistory<'_>]) -> Result<Vec<Turn>, WeaveFault>
    requires apart { AreApart histories.now }
    requires numbered { AreNumbered histories.now }
    ensures order { IfOk result (λ turns. IsOrder histories.now turns.items) }
    ensures cause { IfErr result (λ f. Explains histories.now f) }
{
    match weave_turns_with(alloc, histories, &[]) {
        Ok(turns) => Ok(turns),
        Err(fault) => Err(fault_of(histories, fault)),
    }
}

/// That order, where nobody is given. It refuses as [`weave_turns_with`] does, and tells packets in place of turns.
pub fn weave_turns(alloc: Global, histories: &[NodeHistory<'_>]) -> Result<Vec<Turn>, WeaveFault>
    requires apart { AreApart histories.now }
    requires numbered { AreNumbered histories.now }
    ensures order { IfOk result (λ turns. IsOrder histories.now turns.items) }
    ensures cause { IfErr result (λ f. Explains histories.now f) }
    ensures complete { IfErr result (λ f. f ≢ OfMemory → CanInterleave histories.now → ⊥) }
{
    woven_turns(alloc, histories)
}

/// What [`weave`] does, and of a refusal what it tells.
fn woven_events(alloc: Global, histories: &[NodeHistory<'_>]) -> Result<Vec<Event>, WeaveFault>
    requires apart { AreApart histories.now }
    requires numbered { AreNumbered histories.now }
    ensures interleaving { IfOk result (λ events. IsInterleaving histories.now events.items) }
    ensures cause { IfErr result (λ f. Explains histories.now f) }
{
    match weave_turns_with(alloc, histories, &[]) {
        Ok(turns) => Ok(events_of(alloc, histories, &turns)?),
        Err(fault) => Err(fault_of(histories, fault)),
    }
}

/// That order, where nobody is given, as the events of a run of a world: a delivery names its packet by its sender and
/// serial. It refuses as [`weave_turns`] does.
pub fn weave(alloc: Global, histories: &[NodeHistory<'_>]) -> Result<Vec<Event>, WeaveFault>
    requires apart { AreApart histories.now }
    requires numbered { AreNumbered histories.now }
    ensures interleaving { IfOk result (λ events. IsInterleaving histories.now events.items) }
    ensures cause { IfErr result (λ f. Explains histories.now f) }
    ensures complete { IfErr result (λ f. f ≢ OfMemory → CanInterleave histories.now → ⊥) }
{
    woven_events(alloc, histories)
}
