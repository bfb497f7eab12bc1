//! The nodes of a run between two rounds, and the links to them.

ghost use Rattle.std.specs.Prelude.{◌≡◌, ◌<◌, IfSome, length};
ghost use Rattle.world_laws.specs.Laws.{IsSetup};

use crate::calling::{Inbound, Out};
use crate::fault::RunFault;
use crate::link::Link;
use crate::member::Member;
use crate::of_setup::OfSetup;
use crate::script::Loss;
use crate::settling::NodeRan;
use cell_openings::open_cell;
use crossbeam_channel::unbounded;
use ocpi_text::Party;
use ocpi_types::{Node, Packet};
use std::alloc::Global;

/// A node between two rounds, and the links to it.
#[derive(Drop)]
pub(crate) struct Station<S: OfSetup> {
    pub(crate) member: Member<S>,
    pub(crate) links: Vec<Link>,
}

/// A node for a round: what it sends by, and what comes to it.
#[derive(Drop)]
pub(crate) struct Turn<S: OfSetup> {
    pub(crate) member: Member<S>,
    pub(crate) outs: Vec<Out>,
    pub(crate) ins: Vec<Inbound>,
}

/// A node after a round, the links to it, and the packets that wait for the next round.
#[derive(Drop)]
pub(crate) struct Ended<S: OfSetup> {
    pub(crate) member: Member<S>,
    pub(crate) links: Vec<Link>,
    pub(crate) given: Vec<Packet>,
}

/// What a party sends by.
#[derive(Drop)]
struct OutOf {
    from: Party,
    out: Out,
}

/// The links to a party: one from each other node.
fn links_to(
    alloc: Global,
    nodes: &[Node],
    to: &Party,
    losses: &[Loss],
) -> Result<Vec<Link>, RunFault> {
    let mut links = Vec::new(alloc);
    for node in nodes {
        let from = node.party();
        if !from.is_same(to) {
            links.push(Link::new(alloc, *from, *to, losses)?)?;
        }
    }
    Ok(links)
}

/// Each node before any event, with the links to it.
pub(crate) fn open_all<S: OfSetup>(
    alloc: Global,
    nodes: &[Node],
    losses: &[Loss],
) -> Result<Vec<Station<S>>, RunFault>
    requires setup { IsSetup nodes.now }
    requires named { nodes.now ≡ S.nodes }
{
    let mut stations = Vec::new(alloc);
    for member in nodes {
        let links = links_to(alloc, nodes, member.party(), losses)?;
        let node = NodeRan {
            cell: open_cell(alloc, nodes, member)?,
            receipts: Vec::new(alloc),
        };
        let member = Member::new(node);
        stations.push(Station { member, links })?;
    }
    Ok(stations)
}

/// A link to a party for a round: it gets a channel, whose other end is added to the senders.
fn inbound_of(
    alloc: Global,
    link: Link,
    to: Party,
    senders: &mut Vec<OutOf>,
) -> Result<Inbound, RunFault> {
    let from = *link.from();
    match unbounded(alloc) {
        Ok((sender, receiver)) => {
            let out = Out { to, sender };
            senders.push(OutOf { from, out })?;
            Ok(Inbound { link, receiver })
        }
        Err(_) => {
            drop(link);
            Err(RunFault::Memory)
        }
    }
}

/// The links to a party for a round.
fn inbounds_of(
    alloc: Global,
    links: Vec<Link>,
    to: Party,
    senders: &mut Vec<OutOf>,
) -> Result<Vec<Inbound>, RunFault> {
    let mut ins = Vec::new(alloc);
    for link in links {
        ins.push(inbound_of(alloc, link, to, senders)?)?;
    }
    Ok(ins)
}

/// A node for a round, with the links to it.
fn turn_of<S: OfSetup>(
    alloc: Global,
    station: Station<S>,
    senders: &mut Vec<OutOf>,
) -> Result<Turn<S>, RunFault> {
    let Station { member, links } = station;
    match inbounds_of(alloc, links, *member.party(), senders) {
        Ok(ins) => Ok(Turn {
            member,
            outs: Vec::new(alloc),
            ins,
        }),
        Err(fault) => {
            drop(member);
            Err(fault)
        }
    }
}

/// Where the node of a party stands.
fn turn_at<S: OfSetup>(turns: &[Turn<S>], party: &Party) -> Option<usize>
    ensures { IfSome result (λ i. i < length turns.now) }
{
    for (i, turn) in turns.iter().enumerate() {
        if turn.member.party().is_same(party) {
            return Some(i);
        }
    }
    None
}

/// Each node for a round.
pub(crate) fn turns_of<S: OfSetup>(
    alloc: Global,
    stations: Vec<Station<S>>,
) -> Result<Vec<Turn<S>>, RunFault> {
    let mut senders = Vec::new(alloc);
    let mut turns = Vec::new(alloc);
    for station in stations {
        turns.push(turn_of(alloc, station, &mut senders)?)?;
    }
    for sender in senders {
        let OutOf { from, out } = sender;
        if let Some(i) = turn_at(turns.as_slice(), &from) {
            turns[i].outs.push(out)?;
        }
    }
    Ok(turns)
}

/// Where the node of a party stands.
fn station_at<S: OfSetup>(stations: &[Station<S>], party: &Party) -> Option<usize>
    ensures { IfSome result (λ i. i < length stations.now) }
{
    for (i, station) in stations.iter().enumerate() {
        if station.member.party().is_same(party) {
            return Some(i);
        }
    }
    None
}

/// Where the link from a party stands.
fn link_at(links: &[Link], from: &Party) -> Option<usize>
    ensures { IfSome result (λ i. i < length links.now) }
{
    for (i, link) in links.iter().enumerate() {
        if link.from().is_same(from) {
            return Some(i);
        }
    }
    None
}

/// The packet is left at its link for the next round. One to nobody is lost.
fn leave<S: OfSetup>(stations: &mut Vec<Station<S>>, packet: Packet) -> Result<(), RunFault> {
    let Some(i) = station_at(stations.as_slice(), &packet.to) else {
        return Ok(());
    };
    let links = &mut stations[i].links;
    match link_at(links.as_slice(), &packet.from) {
        Some(j) => links[j].leave(packet),
        None => Ok(()),
    }
}

/// The nodes after a round. What deliveries gave is left at the links for the next.
pub(crate) fn stations_of<S: OfSetup>(
    alloc: Global,
    ended: Vec<Ended<S>>,
) -> Result<Vec<Station<S>>, RunFault> {
    let mut stations = Vec::new(alloc);
    let mut given = Vec::new(alloc);
    for node in ended {
        let Ended {
            member,
            links,
            given: more,
        } = node;
        let mut more = more;
        stations.push(Station { member, links })?;
        given.append(&mut more)?;
    }
    for packet in given {
        leave(&mut stations, packet)?;
    }
    Ok(stations)
}
