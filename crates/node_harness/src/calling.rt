//! What one thread of a node does in a round: its calls of the desk, by its own pass.

use crate::fault::{RunFault, passed_over};
use crate::link::Link;
use crate::script::Act;
use crossbeam_channel::{Receiver, SendError, Sender};
use node_desk::{Desk, Gate, Naming, Pass};
use node_store::ListKeep;
use ocpi_text::{Moment, Party};
use ocpi_types::{NodeEventKind, Packet};
use receipts::Receipt;
use std::alloc::Global;
use std::sync::Wait;

/// A link from a node to another, for one round.
#[derive(Drop)]
pub(crate) struct Out {
    pub(crate) to: Party,
    pub(crate) sender: Sender<Packet>,
}

/// A link to a node from another, for one round.
#[derive(Drop)]
pub(crate) struct Inbound {
    pub(crate) link: Link,
    pub(crate) receiver: Receiver<Packet>,
}

/// A pass, the receipts of its calls, and the packets that deliveries gave.
#[derive(Drop)]
pub(crate) struct Worked<J: Naming> {
    pub(crate) pass: Pass<J>,
    pub(crate) receipts: Vec<Receipt>,
    pub(crate) given: Vec<Packet>,
    pub(crate) link: Option<Link>,
}

/// Nothing was done by a pass.
fn begin<J: Naming>(alloc: Global, pass: Pass<J>) -> Worked<J> {
    Worked {
        pass,
        receipts: Vec::new(alloc),
        given: Vec::new(alloc),
        link: None,
    }
}

/// Calls the desk. None, where the node refuses the event.
fn call<J: Naming, G: Gate + Drop, R: Wait>(
    rt: &R,
    desk: &Desk<J, ListKeep, G>,
    worked: &mut Worked<J>,
    event: NodeEventKind,
) -> Result<Option<Receipt>, RunFault> {
    match desk.call(rt, &mut worked.pass, event) {
        Ok(receipt) => Ok(Some(receipt)),
        Err(refusal) => {
            let fault = refusal.fault;
            drop(refusal);
            passed_over(fault)?;
            Ok(None)
        }
    }
}

/// Sends a packet on the link to its addressee. Where that node has stopped, or there is none, it is lost.
fn send<R: Wait>(rt: &R, outs: &[Out], packet: &Packet) -> Result<(), RunFault> {
    for out in outs {
        if out.to.is_same(&packet.to) {
            return match out.sender.send(rt, packet.copy()?) {
                Ok(()) | Err(SendError::Disconnected(_)) => Ok(()),
                Err(SendError::OutOfMemory(_)) => Err(RunFault::Memory),
            };
        }
    }
    Ok(())
}

/// Sends packets, each on the link to its addressee.
fn send_all<R: Wait>(rt: &R, outs: &[Out], packets: &[Packet]) -> Result<(), RunFault> {
    for packet in packets {
        send(rt, outs, packet)?;
    }
    Ok(())
}

/// Calls the desk with the node's own event, and sends what the node then sends.
fn bring<J: Naming, G: Gate + Drop, R: Wait>(
    rt: &R,
    desk: &Desk<J, ListKeep, G>,
    worked: &mut Worked<J>,
    event: NodeEventKind,
    outs: &[Out],
) -> Result<(), RunFault> {
    let Some(receipt) = call(rt, desk, worked, event)? else {
        return Ok(());
    };
    match send_all(rt, outs, receipt.packets.as_slice()) {
        Ok(()) => {
            worked.receipts.push(receipt)?;
            Ok(())
        }
        Err(fault) => {
            drop(receipt);
            Err(fault)
        }
    }
}

/// The node's own event, whose packets go out at once.
pub(crate) fn work_own<J: Naming, G: Gate + Drop, R: Wait>(
    rt: &R,
    alloc: Global,
    desk: &Desk<J, ListKeep, G>,
    pass: Pass<J>,
    event: Option<NodeEventKind>,
    outs: Vec<Out>,
) -> Result<Worked<J>, RunFault> {
    let mut worked = begin(alloc, pass);
    let done = match event {
        Some(event) => bring(rt, desk, &mut worked, event, outs.as_slice()),
        None => Ok(()),
    };
    drop(outs);
    match done {
        Ok(()) => Ok(worked),
        Err(fault) => {
            drop(worked);
            Err(fault)
        }
    }
}

/// Copies of packets, behind those that were given.
fn give(given: &mut Vec<Packet>, packets: &[Packet]) -> Result<(), RunFault> {
    for packet in packets {
        given.push(packet.copy()?)?;
    }
    Ok(())
}

/// Delivers a packet. What the node sends then waits for the next round.
fn deliver<J: Naming, G: Gate + Drop, R: Wait>(
    rt: &R,
    desk: &Desk<J, ListKeep, G>,
    worked: &mut Worked<J>,
    at: Moment,
    packet: Packet,
) -> Result<(), RunFault> {
    let event = NodeEventKind::Deliver { at, packet };
    let Some(receipt) = call(rt, desk, worked, event)? else {
        return Ok(());
    };
    match give(&mut worked.given, receipt.packets.as_slice()) {
        Ok(()) => {
            worked.receipts.push(receipt)?;
            Ok(())
        }
        Err(fault) => {
            drop(receipt);
            Err(fault)
        }
    }
}

/// Delivers packets, one after the other.
fn deliver_all<J: Naming, G: Gate + Drop, R: Wait>(
    rt: &R,
    desk: &Desk<J, ListKeep, G>,
    worked: &mut Worked<J>,
    at: Moment,
    packets: Vec<Packet>,
) -> Result<(), RunFault> {
    for packet in packets {
        deliver(rt, desk, worked, at, packet)?;
    }
    Ok(())
}

/// Delivers a packet, and then once more.
fn deliver_twice<J: Naming, G: Gate + Drop, R: Wait>(
    rt: &R,
    desk: &Desk<J, ListKeep, G>,
    worked: &mut Worked<J>,
    at: Moment,
    packet: Packet,
    again: Packet,
) -> Result<(), RunFault> {
    match deliver(rt, desk, worked, at, packet) {
        Ok(()) => deliver(rt, desk, worked, at, again),
        Err(fault) => {
            drop(again);
            Err(fault)
        }
    }
}

/// A packet comes to a link, which does with it what is next.
fn take<J: Naming, G: Gate + Drop, R: Wait>(
    rt: &R,
    desk: &Desk<J, ListKeep, G>,
    worked: &mut Worked<J>,
    link: &mut Link,
    at: Moment,
    packet: Packet,
) -> Result<(), RunFault> {
    match link.next_act() {
        Act::Pass => deliver(rt, desk, worked, at, packet),
        Act::Drop => {
            drop(packet);
            Ok(())
        }
        Act::Twice => match packet.copy() {
            Ok(again) => deliver_twice(rt, desk, worked, at, packet, again),
            Err(_) => {
                drop(packet);
                Err(RunFault::Memory)
            }
        },
        Act::Hold => link.hold(packet),
    }
}

/// What was left for a link, and what is sent to it until its sender is done.
fn take_all<J: Naming, G: Gate + Drop, R: Wait>(
    rt: &R,
    desk: &Desk<J, ListKeep, G>,
    worked: &mut Worked<J>,
    link: &mut Link,
    at: Moment,
    receiver: &Receiver<Packet>,
) -> Result<(), RunFault> {
    for packet in link.take_left() {
        take(rt, desk, worked, link, at, packet)?;
    }
    for _ in rt.forever() {
        let Ok(packet) = receiver.recv(rt) else {
            break;
        };
        take(rt, desk, worked, link, at, packet)?;
    }
    Ok(())
}

/// All that comes by a link in a round: what was left for it, what is sent to it, and then what was held.
pub(crate) fn work_link<J: Naming, G: Gate + Drop, R: Wait>(
    rt: &R,
    alloc: Global,
    desk: &Desk<J, ListKeep, G>,
    pass: Pass<J>,
    at: Moment,
    inbound: Inbound,
) -> Result<Worked<J>, RunFault> {
    let Inbound { link, receiver } = inbound;
    let mut link = link;
    let mut worked = begin(alloc, pass);
    let held = link.take_held();
    let taken = take_all(rt, desk, &mut worked, &mut link, at, &receiver);
    drop(receiver);
    let done = match taken {
        Ok(()) => deliver_all(rt, desk, &mut worked, at, held),
        Err(fault) => {
            drop(held);
            Err(fault)
        }
    };
    end(worked, link, done)
}

/// What was done by a link's pass, with the link.
fn end<J: Naming>(
    worked: Worked<J>,
    link: Link,
    done: Result<(), RunFault>,
) -> Result<Worked<J>, RunFault> {
    match done {
        Ok(()) => {
            let mut worked = worked;
            worked.link = Some(link);
            Ok(worked)
        }
        Err(fault) => {
            drop(link);
            drop(worked);
            Err(fault)
        }
    }
}
