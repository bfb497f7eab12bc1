//! Runs of nodes.

ghost use Rattle.std.specs.Prelude.{◌≡◌, All, IfOk, OnOk, length, vec_len};
ghost use Rattle.node_harness.specs.Opened.{AreOpened, RanOf};
ghost use Rattle.node_harness.specs.Settled.{AreSettled, script_of};
ghost use Rattle.world_laws.specs.Laws.{IsSetup};

use crate::fault::RunFault;
use crate::member::Member;
use crate::of_setup::OfSetup;
use crate::round::{Job, Turned, run_node};
use crate::script::{Loss, Script};
use crate::settling::NodeRan;
use crate::stations::{Ended, Station, Turn, open_all, stations_of, turns_of};
use node_core::nodes_of;
use node_desk::Gate;
use ocpi_text::Moment;
use ocpi_types::{Node, NodeEventKind, Setup};
use std::alloc::Global;
use std::marker::Brand;
use std::sync::Wait;
use std::thread;
use std::thread::{JoinHandle, Threads};

/// The most rounds of a run.
pub const MOST_ROUNDS: u32 = 1_000;

/// What a run made of its nodes, in the order of the setup.
#[derive(Drop)]
pub struct Ran {
    pub nodes: Vec<NodeRan>,
}

/// The events of a node.
fn script_of(events: &[Vec<NodeEventKind>], node: usize) -> &[NodeEventKind]
    ensures { result.now ≡ script_of events.now node }
{
    match events.get(node) {
        Some(own) => own.as_slice(),
        None => &[],
    }
}

/// The event of a node in a round.
fn event_of(script: &Script, node: usize, round: u32) -> Result<Option<NodeEventKind>, RunFault> {
    match script_of(script.events.as_slice(), node).get(round as usize) {
        Some(event) => Ok(Some(event.copy()?)),
        None => Ok(None),
    }
}

/// Whether something is left for a round: an event of a node, or a packet at a link.
fn is_left<S: OfSetup>(stations: &[Station<S>], script: &Script, round: u32) -> bool {
    for (i, station) in stations.iter().enumerate() {
        if script_of(script.events.as_slice(), i).len() > round as usize {
            return true;
        }
        for link in &station.links {
            if !link.is_empty() {
                return true;
            }
        }
    }
    false
}

/// A node's turn. Its receipts come behind those that it has.
#[tactic(auto, using(crate::proofs::Openings::still))]
fn run_turn<S: OfSetup, G: Gate + Sync, R: Threads + Wait + Sync>(
    rt: &R,
    alloc: Global,
    gate: &G,
    at: Moment,
    event: Option<NodeEventKind>,
    turn: Turn<S>,
) -> Result<Ended<S>, RunFault> {
    let Turn { member, outs, ins } = turn;
    let NodeRan { cell, receipts } = member.into_node();
    let job = Job {
        at,
        event,
        outs,
        ins,
    };
    let turned = run_node(rt, alloc, gate, cell, job)?;
    let Turned { node, links, given } = turned;
    let NodeRan {
        cell,
        receipts: more,
    } = node;
    let mut receipts = receipts;
    let mut more = more;
    receipts.append(&mut more)?;
    Ok(Ended {
        member: Member::new(NodeRan { cell, receipts }),
        links,
        given,
    })
}

/// The nodes after a round, once their threads are done.
fn join_all<S: OfSetup, R: Threads>(
    rt: &R,
    alloc: Global,
    running: Vec<JoinHandle<Result<Ended<S>, RunFault>>>,
) -> Result<Vec<Ended<S>>, RunFault> {
    let mut ended = Vec::new(alloc);
    for child in running {
        ended.push(child.join(rt)?)?;
    }
    Ok(ended)
}

/// One round: each node has a thread.
fn run_round<S: OfSetup + Send + Sync, G: Gate + Sync, R: Threads + Wait + Sync>(
    rt: &R,
    alloc: Global,
    gate: &G,
    script: &Script,
    round: u32,
    turns: Vec<Turn<S>>,
) -> Result<Vec<Ended<S>>, RunFault> {
    let at = script.start.after(1_000 * u64::from(round));
    thread::scope(
        thread::scope_env(),
        rt,
        |scope| -> Result<Vec<Ended<S>>, RunFault> {
            let mut running = Vec::new(alloc);
            for turn in turns {
                let event = match event_of(script, running.len(), round) {
                    Ok(event) => event,
                    Err(fault) => {
                        drop(turn);
                        return Err(fault);
                    }
                };
                match scope.spawn(move || run_turn(rt, alloc, gate, at, event, turn)) {
                    Ok(child) => running.push(child)?,
                    Err(_) => return Err(RunFault::Memory),
                }
            }
            join_all(rt, alloc, running)
        },
    )
}

/// Runs the nodes of a setup on threads, in rounds, over lists of rows.
///
/// In round k, at `script.start` and k seconds, each node has a thread of its own and a desk. Under it one thread
/// brings the node's k-th event, whose packets go out at once, and one for each other node delivers what came from that
/// node: what was left for this round, and what its own event sends. What the node sends when it takes a delivery is
/// left for the next round. The n-th packet that comes by a link is passed, lost, repeated or held as the n-th act for
/// that link says. The run ends after `script.rounds` rounds, after 1,000, or once nothing is left.
///
/// An event that its node refuses is passed over. Any other refusal of a desk, but for want of memory, stops the run,
/// and so does a node that is not as the contract says.
pub fn run_nodes<G: Gate + Sync, R: Threads + Wait + Sync>(
    rt: &R,
    alloc: Global,
    setup: &Setup,
    script: &Script,
    losses: &[Loss],
    gate: &G,
) -> Result<Ran, RunFault>
    ensures nodes { IfOk result (λ ran. vec_len ran.nodes ≡ length setup.now) }
    ensures opened { IfOk result (λ ran. AreOpened setup.now ran.nodes.items) }
    ensures settled { IfOk result (λ ran. AreSettled setup.now (script_of script.now.events.items) ran.nodes.items (length setup.now)) }
{
    run_members::<Brand, G, R>(rt, alloc, nodes_of(setup), script, losses, gate)
}

/// The same, of the nodes of a setup that is named.
fn run_members<S: OfSetup + Send + Sync, G: Gate + Sync, R: Threads + Wait + Sync>(
    rt: &R,
    alloc: Global,
    setup: &[Node],
    script: &Script,
    losses: &[Loss],
    gate: &G,
) -> Result<Ran, RunFault>
    requires setup { IsSetup setup.now }
    requires named { setup.now ≡ S.nodes }
    ensures nodes { IfOk result (λ ran. vec_len ran.nodes ≡ length setup.now) }
    ensures opened { IfOk result (λ ran. AreOpened setup.now ran.nodes.items) }
    ensures settled { IfOk result (λ ran. AreSettled setup.now (script_of script.now.events.items) ran.nodes.items (length setup.now)) }
{
    let mut stations = open_all::<S>(alloc, setup, losses)?;
    for round in 0..script.rounds.min(MOST_ROUNDS) {
        if !is_left(stations.as_slice(), script, round) {
            break;
        }
        let turns = turns_of(alloc, stations)?;
        let ended = run_round(rt, alloc, gate, script, round, turns)?;
        stations = stations_of(alloc, ended)?;
    }
    settle_all(alloc, setup, script, stations)
}

/// The nodes of a run.
fn nodes_in<S: OfSetup>(alloc: Global, stations: Vec<Station<S>>) -> Result<Vec<NodeRan>, RunFault>
    ensures { IfOk result (λ nodes. All (RanOf S.nodes) nodes.items) }
{
    let mut nodes = Vec::new(alloc);
    for station in stations {
        let Station { member, links: _ } = station;
        nodes.push(member.into_node())?;
    }
    Ok(nodes)
}

/// Refuses where one of the nodes is not as it should be.
#[tactic(auto, using(crate::proofs::EachOne::settled_none, crate::proofs::EachOne::settled_next))]
fn settle_each(
    alloc: Global,
    setup: &[Node],
    script: &Script,
    nodes: &[NodeRan],
) -> Result<(), RunFault>
    requires { length nodes.now ≡ length setup.now }
    ensures { OnOk result (AreSettled setup.now (script_of script.now.events.items) nodes.now (length setup.now)) }
{
    for i in 0..setup.len() {
        nodes[i].settle(
            alloc,
            setup[i].party(),
            script_of(script.events.as_slice(), i),
        )?;
    }
    Ok(())
}

/// Refuses where the nodes are fewer or more than those of the setup, or one is not as it should be.
#[tactic(auto, using(crate::proofs::Openings::opened))]
fn settle_all<S: OfSetup>(
    alloc: Global,
    setup: &[Node],
    script: &Script,
    stations: Vec<Station<S>>,
) -> Result<Ran, RunFault>
    requires setup { IsSetup setup.now }
    requires named { setup.now ≡ S.nodes }
    ensures nodes { IfOk result (λ ran. vec_len ran.nodes ≡ length setup.now) }
    ensures opened { IfOk result (λ ran. AreOpened setup.now ran.nodes.items) }
    ensures settled { IfOk result (λ ran. AreSettled setup.now (script_of script.now.events.items) ran.nodes.items (length setup.now)) }
{
    let nodes = nodes_in(alloc, stations)?;
    if nodes.len() != setup.len() {
        return Err(RunFault::Stopped);
    }
    settle_each(alloc, setup, script, nodes.as_slice())?;
    Ok(Ran { nodes })
}
