//! What each entry waits for, and the first that waits for what was never sent. What given parties sent is waited for
//! by none.

ghost use Rattle.std.specs.Prelude.{◌≡◌, ◌<◌, IfErr, IfNone, IfOk, IfSome, IsTrue, Contains, false, length, Some as SomeOf, slice_get};
ghost use Rattle.ocpi_text.specs.Text.{key};
ghost use Rattle.ocpi_types.specs.declared.packet.Packet.{Packet as PacketOf};
ghost use Rattle.histories.specs.declared.entry.Entry.{Entry as EntryOf};
ghost use Rattle.histories.specs.declared.history.NodeHistory.{NodeHistory as HistoryOf};
ghost use Rattle.histories.specs.Entries.{Delivers, sent};
ghost use Rattle.histories.specs.Weaving.{AreApart, AreNumberedBehind};
ghost use Rattle.weave.specs.Given.{Asks, IsBefore, IsFrom, WasBefore};
ghost use Rattle.weave.specs.Needs.{AreAllNeeds, AreNeedsAt, IsGivenBy, IsMissing, IsNeed, IsTable, StandsAt, now_of, row_of, sent_in};
ghost use Rattle.weave.specs.TurnFaults.{Blames, BlamesIn, BlamesPacket, BlamesTurn, ExplainsTurns};

use crate::turn::Turn;
use crate::turn_fault::TurnFault;
use histories::{Entry, NodeHistory};
use ocpi_text::Party;
use ocpi_types::{NodeEventKind, Packet};
use packet_equality::is_equal_packet;
use std::alloc::{AllocError, Global};

/// What an entry waits for: that a history has sent the packet of a serial. Where the serial is 0, it waits for
/// nothing.
#[derive(Clone, Copy)]
pub struct Need {
    /// The number of the sender's history.
    pub sender: usize,
    pub serial: u64,
}

/// Why what a packet waits for never comes.
#[derive(Clone, Copy)]
pub enum Gap {
    /// No history has sent a packet of its sender and serial.
    NeverSent,
    /// That history has sent another of that serial.
    Differs(Need),
}

/// All packets of a history, in order.
fn sent_of<'a>(alloc: Global, history: &NodeHistory<'a>) -> Result<Vec<&'a Packet>, AllocError>
    ensures { IfOk result (λ v. row_of v ≡ sent_in history.now) }
{
    let entries = history.entries;
    let mut all = Vec::new(alloc);
    for entry in entries {
        let packets = entry.packets.as_slice();
        for packet in packets {
            all.push(packet)?;
        }
    }
    Ok(all)
}

/// A row for each history, of all its packets.
fn table_of<'a>(
    alloc: Global,
    histories: &[NodeHistory<'a>],
) -> Result<Vec<Vec<&'a Packet>>, AllocError>
    ensures { IfOk result (λ t. IsTable histories.now t.items) }
{
    let mut table = Vec::new(alloc);
    for history in histories {
        let row = sent_of(alloc, history)?;
        table.push(row)?;
    }
    Ok(table)
}

/// The number of the history of a party.
fn number_of(histories: &[NodeHistory<'_>], party: &Party) -> Option<usize>
    ensures found { IfSome result (λ j. (h : HistoryOf) × (slice_get histories.now j ≡ SomeOf h) × (key h.party ≡ key party.now)) }
    ensures none { IfNone result ((h : HistoryOf) → Contains histories.now h → key h.party ≡ key party.now → ⊥) }
{
    for (number, history) in histories.iter().enumerate() {
        if history.party.is_same(party) {
            return Some(number);
        }
    }
    None
}

/// The same. What is guessed is looked at first, since packets often come from one sender after another.
fn sender_of(histories: &[NodeHistory<'_>], party: &Party, guess: usize) -> Option<usize>
    ensures found { IfSome result (λ j. (h : HistoryOf) × (slice_get histories.now j ≡ SomeOf h) × (key h.party ≡ key party.now)) }
    ensures none { IfNone result ((h : HistoryOf) → Contains histories.now h → key h.party ≡ key party.now → ⊥) }
{
    if guess < histories.len() && histories[guess].party.is_same(party) {
        return Some(guess);
    }
    number_of(histories, party)
}

/// The packet of a row at a serial, where the first of it follows that serial.
fn packet_at<'a>(row: &[&'a Packet], before: u64, serial: u64) -> Option<&'a Packet>
    ensures found { IfSome result (λ r. StandsAt (now_of row.now) before serial r.now) }
    ensures none { IfNone result (IsMissing (now_of row.now) before serial) }
{
    if serial <= before || serial - before > row.len() as u64 {
        return None;
    }
    Some(row[(serial - before) as usize - 1])
}

/// Whether the node of a history had sent a packet before that begins.
fn is_before(history: &NodeHistory<'_>, packet: &Packet) -> bool
    ensures yes { IsTrue result → IsBefore history.now packet.now }
    ensures no { result ≡ false → IsBefore history.now packet.now → ⊥ }
{
    let serial = packet.serial.value();
    serial >= 1 && serial <= history.before.value() && history.party.is_same(&packet.from)
}

/// Whether a packet was sent before the history of its sender begins.
pub fn was_before(histories: &[NodeHistory<'_>], packet: &Packet) -> bool
    ensures yes { IsTrue result → WasBefore histories.now packet.now }
    ensures no { result ≡ false → WasBefore histories.now packet.now → ⊥ }
{
    for history in histories {
        if is_before(history, packet) {
            return true;
        }
    }
    false
}

/// That a packet which comes was sent by its sender, whose history has that number.
fn need_of_sender(
    histories: &[NodeHistory<'_>],
    table: &[Vec<&Packet>],
    packet: &Packet,
    sender: usize,
) -> Result<Need, Gap>
    requires table { IsTable histories.now table.now }
    requires apart { AreApart histories.now }
    requires numbered { AreNumberedBehind histories.now }
    requires in_range { sender < length table.now }
    requires sender { (h : HistoryOf) × (slice_get histories.now sender ≡ SomeOf h) × (key h.party ≡ key packet.now.from) }
    ensures need { IfOk result (λ n. IsGivenBy histories.now n packet.now) }
    ensures gap { IfErr result (λ g. BlamesPacket histories.now packet.now g) }
{
    let serial = packet.serial.value();
    let before = histories[sender].before.value();
    match packet_at(table[sender].as_slice(), before, serial) {
        None => Err(Gap::NeverSent),
        Some(given) => {
            if is_equal_packet(given, packet) {
                Ok(Need { sender, serial })
            } else {
                Err(Gap::Differs(Need { sender, serial }))
            }
        }
    }
}

/// That a packet which comes was sent. `guess`: whose it may be.
fn need_of_packet(
    histories: &[NodeHistory<'_>],
    table: &[Vec<&Packet>],
    packet: &Packet,
    guess: usize,
) -> Result<Need, Gap>
    requires table { IsTable histories.now table.now }
    requires apart { AreApart histories.now }
    requires numbered { AreNumberedBehind histories.now }
    ensures need { IfOk result (λ n. IsGivenBy histories.now n packet.now) }
    ensures gap { IfErr result (λ g. BlamesPacket histories.now packet.now g) }
{
    match sender_of(histories, &packet.from, guess) {
        None => Err(Gap::NeverSent),
        Some(sender) => need_of_sender(histories, table, packet, sender),
    }
}

/// Whether a packet is from one of these parties, in whichever case.
pub fn is_from(given: &[Party], packet: &Packet) -> bool
    ensures yes { IsTrue result → IsFrom given.now packet.now }
    ensures no { result ≡ false → IsFrom given.now packet.now → ⊥ }
{
    for party in given {
        if party.is_same(&packet.from) {
            return true;
        }
    }
    false
}

/// The packet that an entry delivers.
pub fn delivered(entry: &Entry) -> Option<&Packet>
    ensures found { IfSome result (λ q. Delivers entry.now q.now) }
    ensures none { IfNone result ((q : PacketOf) → Delivers entry.now q → ⊥) }
{
    match &entry.event {
        NodeEventKind::Deliver { at: _, packet } => Some(packet),
        NodeEventKind::Submit { .. }
        | NodeEventKind::Token { .. }
        | NodeEventKind::Service { .. }
        | NodeEventKind::Charger { .. }
        | NodeEventKind::Credit { .. }
        | NodeEventKind::Tick { .. }
        | NodeEventKind::Restart
        | NodeEventKind::Refused => None,
    }
}

/// The packet that an entry delivers, where it is from no given party, and was not sent before.
fn asked<'a>(histories: &[NodeHistory<'_>], given: &[Party], entry: &'a Entry) -> Option<&'a Packet>
    ensures found { IfSome result (λ q. Asks given.now histories.now entry.now q.now) }
    ensures none { IfNone result ((q : PacketOf) → Asks given.now histories.now entry.now q → ⊥) }
{
    match delivered(entry) {
        Some(packet) => {
            if is_from(given, packet) || was_before(histories, packet) {
                None
            } else {
                Some(packet)
            }
        }
        None => None,
    }
}

/// What an entry of the history of that number waits for. `guess`: whose packet it may deliver.
fn need_of(
    histories: &[NodeHistory<'_>],
    given: &[Party],
    table: &[Vec<&Packet>],
    entry: &Entry,
    number: usize,
    guess: usize,
) -> Result<Need, Gap>
    requires table { IsTable histories.now table.now }
    requires apart { AreApart histories.now }
    requires numbered { AreNumberedBehind histories.now }
    requires in_range { number < length histories.now }
    ensures need { IfOk result (λ n. IsNeed given.now histories.now entry.now n) }
    ensures gap { IfErr result (λ g. Blames given.now histories.now entry.now g) }
{
    match asked(histories, given, entry) {
        Some(packet) => need_of_packet(histories, table, packet, guess),
        None => Ok(Need {
            sender: number,
            serial: 0,
        }),
    }
}

/// The place of the entry that sent the packet at a position of all that entries sent, from 0.
fn sending_entry(entries: &[Entry], position: usize) -> usize
    requires { position < length (sent entries.now) }
    ensures { (e : EntryOf) × (q : PacketOf) × (slice_get entries.now result ≡ SomeOf e) × Contains e.packets q × (slice_get (sent entries.now) position ≡ SomeOf q) }
{
    let mut left = position;
    for (place, entry) in entries.iter().enumerate() {
        let count = entry.packets.as_slice().len();
        if left < count {
            return place;
        }
        left -= count;
    }
    0
}

/// What is told of an entry that delivers a packet for which there is such a gap.
fn gap_fault(histories: &[NodeHistory<'_>], came: Turn, gap: Gap) -> TurnFault
    requires { (q : PacketOf) × BlamesPacket histories.now q gap }
    ensures { (q : PacketOf) → BlamesPacket histories.now q gap → BlamesTurn histories.now came q result }
{
    match gap {
        Gap::NeverSent => TurnFault::NeverSent(came),
        Gap::Differs(need) => {
            let entries = histories[need.sender].entries;
            let sent_by = Turn {
                history: need.sender,
                entry: sending_entry(
                    entries,
                    (need.serial - histories[need.sender].before.value()) as usize - 1,
                ),
            };
            TurnFault::Differs(came, sent_by)
        }
    }
}

/// What each entry of the history of that number waits for.
fn needs_of(
    alloc: Global,
    histories: &[NodeHistory<'_>],
    given: &[Party],
    table: &[Vec<&Packet>],
    entries: &[Entry],
    number: usize,
) -> Result<Vec<Need>, TurnFault>
    requires table { IsTable histories.now table.now }
    requires apart { AreApart histories.now }
    requires numbered { AreNumberedBehind histories.now }
    requires in_range { number < length histories.now }
    requires entries { (h : HistoryOf) × (slice_get histories.now number ≡ SomeOf h) × (h.entries.now ≡ entries.now) }
    ensures needs { IfOk result (λ v. AreNeedsAt given.now histories.now number v) }
    ensures fault { IfErr result (λ f. BlamesIn given.now histories.now number f) }
{
    let mut needs = Vec::new(alloc);
    let mut guess = number;
    for (place, entry) in entries.iter().enumerate() {
        let need = match need_of(histories, given, table, entry, number, guess) {
            Ok(need) => need,
            Err(gap) => {
                let came = Turn {
                    history: number,
                    entry: place,
                };
                return Err(gap_fault(histories, came, gap));
            }
        };
        if need.serial > 0 {
            guess = need.sender;
        }
        needs.push(need)?;
    }
    Ok(needs)
}

/// What each entry of each history waits for, by the packets that each sent.
fn needs_over(
    alloc: Global,
    histories: &[NodeHistory<'_>],
    given: &[Party],
    table: &[Vec<&Packet>],
) -> Result<Vec<Vec<Need>>, TurnFault>
    requires table { IsTable histories.now table.now }
    requires apart { AreApart histories.now }
    requires numbered { AreNumberedBehind histories.now }
    ensures needs { IfOk result (λ rows. AreAllNeeds given.now histories.now (length histories.now) rows.items) }
    ensures fault { IfErr result (λ f. ExplainsTurns given.now histories.now f) }
{
    let mut rows = Vec::new(alloc);
    for number in 0..histories.len() {
        let entries = histories[number].entries;
        let row = needs_of(alloc, histories, given, table, entries, number)?;
        rows.push(row)?;
    }
    Ok(rows)
}

/// What each entry of each history waits for; or the first that delivers a packet, from no given party, which was not
/// sent so, in the order of the histories and of their entries.
pub fn all_needs(
    alloc: Global,
    histories: &[NodeHistory<'_>],
    given: &[Party],
) -> Result<Vec<Vec<Need>>, TurnFault>
    requires apart { AreApart histories.now }
    requires numbered { AreNumberedBehind histories.now }
    ensures needs { IfOk result (λ rows. AreAllNeeds given.now histories.now (length histories.now) rows.items) }
    ensures fault { IfErr result (λ f. ExplainsTurns given.now histories.now f) }
{
    let table = table_of(alloc, histories)?;
    needs_over(alloc, histories, given, &table)
}
