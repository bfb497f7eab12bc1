//! The weaving of histories: entries are placed while some history has one that can be placed.

ghost use Rattle.std.specs.Prelude.{◌≡◌, ◌+◌, ◌<◌, ◌≤◌, ◌-◌, ℕ, IfErr, IfOk, List, OnOk, Some as SomeOf, length, map, slice_get};
ghost use Rattle.std.specs.Bool.{OnFalse, OnTrue};
ghost use Rattle.histories.specs.declared.entry.Entry.{Entry as EntryOf};
ghost use Rattle.histories.specs.declared.history.NodeHistory.{NodeHistory as HistoryOf};
ghost use Rattle.histories.specs.Causes.{HasMore};
ghost use Rattle.histories.specs.Weaving.{AreApart, AreNumberedBehind};
ghost use Rattle.weave.specs.Needs.{AreAllNeeds};
ghost use Rattle.weave.specs.Progress.{AllStuck, AreDone, AreFirst, IsReached, IsStuckAt, IsUnderWay};
ghost use Rattle.weave.specs.Reached.{serial_in};
ghost use Rattle.weave.specs.TurnFaults.{ExplainsTurns};
ghost use Rattle.weave.specs.Turns.{IsOrderWith};

use crate::needs::Need;
use crate::turn::Turn;
use crate::turn_fault::TurnFault;
use histories::{Entry, NodeHistory};
use ocpi_text::Party;
use ocpi_types::Packet;
use std::alloc::{AllocError, Global};

/// How far histories are woven.
#[derive(Drop)]
pub struct Weaving {
    /// For each history, how many of its entries are placed.
    places: Vec<usize>,
    /// For each history, what its next entry waits for, where it has one.
    waits: Vec<Option<Need>>,
    /// For each history, the serial of the last packet that these sent, or that it had sent before.
    newest: Vec<u64>,
    turns: Vec<Turn>,
}

/// What the entry at a place waits for, where there is one.
fn need_at(needs: &[Need], place: usize) -> Option<Need>
    ensures { result ≡ slice_get needs.now place }
{
    if place < needs.len() {
        Some(needs[place])
    } else {
        None
    }
}

/// What the first entry of each history waits for.
fn first_waits(alloc: Global, needs: &[Vec<Need>]) -> Result<Vec<Option<Need>>, AllocError>
    ensures { IfOk result (λ waits. AreFirst needs.now waits.items) }
{
    let mut waits = Vec::new(alloc);
    for row in needs {
        waits.push(need_at(row, 0))?;
    }
    Ok(waits)
}

/// For each history, the serial of the last packet that was sent before it begins.
fn serials_before(alloc: Global, histories: &[NodeHistory<'_>]) -> Result<Vec<u64>, AllocError>
    ensures { IfOk result (λ v. v.items ≡ map (λ (h : HistoryOf). h.before) histories.now) }
{
    let mut serials = Vec::new(alloc);
    for history in histories {
        serials.push(history.before.value())?;
    }
    Ok(serials)
}

/// No entry is placed.
fn start(
    alloc: Global,
    histories: &[NodeHistory<'_>],
    _given: &[Party],
    needs: &[Vec<Need>],
) -> Result<Weaving, AllocError>
    requires { length needs.now ≡ length histories.now }
    ensures { IfOk result (λ w. IsUnderWay _given.now histories.now needs.now w) }
{
    let places = vec![in alloc; 0; histories.len()]?;
    let newest = serials_before(alloc, histories)?;
    let waits = first_waits(alloc, needs)?;
    Ok(Weaving {
        places,
        waits,
        newest,
        turns: Vec::new(alloc),
    })
}

/// The serial of the last of the packets, or else the one before.
fn serial_after(before: u64, packets: &[Packet]) -> u64
    ensures { result ≡ serial_in before (slice_get packets.now (length packets.now - 1)) }
{
    match packets.last() {
        Some(packet) => packet.serial.value(),
        None => before,
    }
}

/// The packets of an entry.
fn packets_at(entries: &[Entry], place: usize) -> &[Packet]
    requires { place < length entries.now }
    ensures { (e : EntryOf) × (slice_get entries.now place ≡ SomeOf e) × (result.now ≡ e.packets) }
{
    entries[place].packets.as_slice()
}

/// Places the next entry of a history, where it has one and what this waits for was sent before.
fn take_entry(
    histories: &[NodeHistory<'_>],
    _given: &[Party],
    needs: &[Vec<Need>],
    weaving: &mut Weaving,
    i: usize,
) -> Result<bool, AllocError>
    requires in_range { i < length histories.now }
    requires apart { AreApart histories.now }
    requires numbered { AreNumberedBehind histories.now }
    requires needs { AreAllNeeds _given.now histories.now (length histories.now) needs.now }
    requires under_way { IsUnderWay _given.now histories.now needs.now weaving.old }
    ensures under_way { OnOk result (IsUnderWay _given.now histories.now needs.now weaving.new) }
    ensures taken { IfOk result (λ b. OnTrue b (length weaving.new.turns.items ≡ length weaving.old.turns.items + 1)) }
    ensures stuck { IfOk result (λ b. OnFalse b ((weaving.new ≡ weaving.old) × IsStuckAt _given.now histories.now weaving.old i)) }
{
    let need = match weaving.waits[i] {
        None => return Ok(false),
        Some(need) => need,
    };
    if weaving.newest[need.sender] < need.serial {
        return Ok(false);
    }
    let place = weaving.places[i];
    let turn = Turn {
        history: i,
        entry: place,
    };
    weaving.turns.push(turn)?;
    weaving.places[i] = place + 1;
    weaving.waits[i] = need_at(&needs[i], place + 1);
    weaving.newest[i] = serial_after(weaving.newest[i], packets_at(histories[i].entries, place));
    Ok(true)
}

/// Goes once over the histories, and places what entries of each it can. Tells whether there were any.
fn sweep(
    histories: &[NodeHistory<'_>],
    given: &[Party],
    needs: &[Vec<Need>],
    weaving: &mut Weaving,
) -> Result<bool, AllocError>
    requires apart { AreApart histories.now }
    requires numbered { AreNumberedBehind histories.now }
    requires needs { AreAllNeeds given.now histories.now (length histories.now) needs.now }
    requires under_way { IsUnderWay given.now histories.now needs.now weaving.old }
    ensures under_way { OnOk result (IsUnderWay given.now histories.now needs.now weaving.new) }
    ensures moved { IfOk result (λ b. OnTrue b (length weaving.old.turns.items < length weaving.new.turns.items)) }
    ensures stuck { IfOk result (λ b. OnFalse b (AllStuck given.now histories.now weaving.new)) }
{
    let mut moved = false;
    for i in 0..histories.len() {
        while take_entry(histories, given, needs, weaving, i)? {
            moved = true;
        }
    }
    Ok(moved)
}

/// All entries are placed.
fn is_done(histories: &[NodeHistory<'_>], weaving: &Weaving) -> bool
    requires { (given : List (List ℕ)) × IsReached given histories.now weaving.now }
    ensures done { OnTrue result (AreDone histories.now weaving.now) }
    ensures more { OnFalse result (HasMore histories.now weaving.now.places.items) }
{
    for (i, history) in histories.iter().enumerate() {
        if weaving.places[i] < history.entries.len() {
            return false;
        }
    }
    true
}

/// Places entries for as long as it can.
pub fn order(
    alloc: Global,
    histories: &[NodeHistory<'_>],
    given: &[Party],
    needs: &[Vec<Need>],
) -> Result<Vec<Turn>, TurnFault>
    requires apart { AreApart histories.now }
    requires numbered { AreNumberedBehind histories.now }
    requires needs { AreAllNeeds given.now histories.now (length histories.now) needs.now }
    ensures order { IfOk result (λ turns. IsOrderWith given.now histories.now turns.items) }
    ensures fault { IfErr result (λ f. ExplainsTurns given.now histories.now f) }
{
    let mut weaving = start(alloc, histories, given, needs)?;
    while sweep(histories, given, needs, &mut weaving)? {}
    if is_done(histories, &weaving) {
        Ok(weaving.turns)
    } else {
        Err(TurnFault::NoOrder(weaving.places))
    }
}
