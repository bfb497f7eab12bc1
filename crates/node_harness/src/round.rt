//! One round of one node.

ghost use Rattle.std.specs.Prelude.{◌≡◌, ◌<◌, IfOk};
ghost use Rattle.node_desk.specs.Logs.{log_of};

use crate::calling::{Inbound, Out, Worked, work_link, work_own};
use crate::fault::RunFault;
use crate::link::Link;
use crate::settling::NodeRan;
use node_cells::NodeCell;
use node_desk::{Desk, Gate, Naming, Pass};
use node_store::ListKeep;
use ocpi_text::Moment;
use ocpi_types::{NodeEventKind, Packet};
use receipts::Receipt;
use std::alloc::Global;
use std::marker::Brand;
use std::sync::Wait;
use std::sync::ledger::Blank;
use std::thread;
use std::thread::{JoinHandle, Threads};

/// What a node has to do in a round: an event of its own, whose packets go out, and what comes by each link, at a
/// moment.
#[derive(Drop)]
pub(crate) struct Job {
    pub(crate) at: Moment,
    pub(crate) event: Option<NodeEventKind>,
    pub(crate) outs: Vec<Out>,
    pub(crate) ins: Vec<Inbound>,
}

/// A node after a round: the receipts of that round, its links, and the packets that wait for the next.
#[derive(Drop)]
pub(crate) struct Turned {
    pub(crate) node: NodeRan,
    pub(crate) links: Vec<Link>,
    pub(crate) given: Vec<Packet>,
}

/// What the threads of a round brought back.
#[derive(Drop)]
struct Gathered<J: Naming> {
    passes: Vec<Pass<J>>,
    receipts: Vec<Receipt>,
    links: Vec<Link>,
    given: Vec<Packet>,
}

impl<J: Naming> Gathered<J> {
    fn new(alloc: Global) -> Gathered<J> {
        Gathered {
            passes: Vec::new(alloc),
            receipts: Vec::new(alloc),
            links: Vec::new(alloc),
            given: Vec::new(alloc),
        }
    }

    /// What one thread brought back.
    fn add(&mut self, worked: Worked<J>) -> Result<(), RunFault> {
        let Worked {
            pass,
            receipts,
            given,
            link,
        } = worked;
        let mut receipts = receipts;
        let mut given = given;
        if let Some(link) = link {
            self.links.push(link)?;
        }
        self.passes.push(pass)?;
        self.receipts.append(&mut receipts)?;
        self.given.append(&mut given)?;
        Ok(())
    }

    /// What the threads brought back.
    fn join<R: Threads>(
        &mut self,
        rt: &R,
        running: Vec<JoinHandle<Result<Worked<J>, RunFault>>>,
    ) -> Result<(), RunFault> {
        for child in running {
            match child.join(rt) {
                Ok(worked) => self.add(worked)?,
                Err(fault) => return Err(fault),
            }
        }
        Ok(())
    }
}

/// What the threads of a round brought back.
fn gather<J: Naming, R: Threads>(
    rt: &R,
    alloc: Global,
    running: Vec<JoinHandle<Result<Worked<J>, RunFault>>>,
) -> Result<Gathered<J>, RunFault> {
    let mut gathered = Gathered::new(alloc);
    match gathered.join(rt, running) {
        Ok(()) => Ok(gathered),
        Err(fault) => {
            drop(gathered);
            Err(fault)
        }
    }
}

/// The threads of a node's round: one for its own event, and one for each link.
fn work_all<J: Naming + Send + Sync, G: Gate + Sync, R: Threads + Wait + Sync>(
    rt: &R,
    alloc: Global,
    desk: &Desk<J, ListKeep, &G>,
    passes: Vec<Pass<J>>,
    job: Job,
) -> Result<Gathered<J>, RunFault> {
    let mut passes = passes;
    match passes.pop() {
        Some(own) => work_each(rt, alloc, desk, own, passes, job),
        None => {
            drop(job);
            Err(RunFault::Stopped)
        }
    }
}

/// The same: a pass for the node's own event, and the others for the links.
fn work_each<J: Naming + Send + Sync, G: Gate + Sync, R: Threads + Wait + Sync>(
    rt: &R,
    alloc: Global,
    desk: &Desk<J, ListKeep, &G>,
    own: Pass<J>,
    passes: Vec<Pass<J>>,
    job: Job,
) -> Result<Gathered<J>, RunFault> {
    let Job {
        at,
        event,
        outs,
        ins,
    } = job;
    let mut passes = passes;
    thread::scope(
        thread::scope_env(),
        rt,
        |scope| -> Result<Gathered<J>, RunFault> {
            let mut running = Vec::new(alloc);
            match scope.spawn(move || work_own(rt, alloc, desk, own, event, outs)) {
                Ok(child) => running.push(child)?,
                Err(_) => return Err(RunFault::Memory),
            }
            for inbound in ins {
                let Some(pass) = passes.pop() else {
                    return Err(RunFault::Stopped);
                };
                match scope.spawn(move || work_link(rt, alloc, desk, pass, at, inbound)) {
                    Ok(child) => running.push(child)?,
                    Err(_) => return Err(RunFault::Memory),
                }
            }
            gather(rt, alloc, running)
        },
    )
}

/// A desk, closed. The cell is of the node that it was of.
#[tactic(auto, using(crate::proofs::Openings::goes_party, crate::proofs::Openings::goes_first))]
fn close_desk<J: Naming, G: Gate>(
    desk: Desk<J, ListKeep, &G>,
    gathered: Gathered<J>,
) -> Result<Turned, RunFault>
    ensures party { IfOk result (λ t. t.node.cell.party ≡ J.before.party) }
    ensures first { IfOk result (λ t. t.node.cell.first ≡ J.before.first) }
{
    let Gathered {
        passes,
        receipts,
        links,
        given,
    } = gathered;
    match desk.close(passes) {
        Ok(cell) => Ok(Turned {
            node: NodeRan { cell, receipts },
            links,
            given,
        }),
        Err(missing) => {
            drop(missing);
            Err(RunFault::Stopped)
        }
    }
}

/// The calls of a desk in a round, and its closing.
fn use_desk<J: Naming + Send + Sync, G: Gate + Sync, R: Threads + Wait + Sync>(
    rt: &R,
    alloc: Global,
    desk: Desk<J, ListKeep, &G>,
    passes: Vec<Pass<J>>,
    job: Job,
) -> Result<Turned, RunFault>
    ensures party { IfOk result (λ t. t.node.cell.party ≡ J.before.party) }
    ensures first { IfOk result (λ t. t.node.cell.first ≡ J.before.first) }
{
    match work_all(rt, alloc, &desk, passes, job) {
        Ok(gathered) => close_desk(desk, gathered),
        Err(fault) => {
            drop(desk);
            Err(fault)
        }
    }
}

/// The desk of a node, from its making to its closing. No desk and no name leaves it.
#[tactic(auto, using(crate::proofs::Openings::same_party, crate::proofs::Openings::same_first))]
fn in_desk<J: Naming + Send + Sync, G: Gate + Sync, R: Threads + Wait + Sync>(
    rt: &R,
    alloc: Global,
    gate: &G,
    blank: Blank,
    cell: NodeCell<ListKeep>,
    job: Job,
    passes: usize,
) -> Result<Turned, RunFault>
    requires name { blank.name ≡ J.name }
    requires parts { blank.parts ≡ J.parts }
    requires part_each { blank.parts ≡ passes }
    requires some { 0 < passes }
    requires before { log_of cell ≡ J.before }
    ensures party { IfOk result (λ t. t.node.cell.party ≡ cell.party) }
    ensures first { IfOk result (λ t. t.node.cell.first ≡ cell.first) }
{
    match Desk::<J, ListKeep, &G>::new(alloc, blank, cell, gate, passes) {
        Ok((desk, all)) => use_desk(rt, alloc, desk, all, job),
        Err(cell) => {
            drop(cell);
            drop(job);
            Err(RunFault::Memory)
        }
    }
}

/// One round of one node: the cell after it, of the same node as before, and the receipts of its calls.
pub(crate) fn run_node<G: Gate + Sync, R: Threads + Wait + Sync>(
    rt: &R,
    alloc: Global,
    gate: &G,
    cell: NodeCell<ListKeep>,
    job: Job,
) -> Result<Turned, RunFault>
    ensures party { IfOk result (λ t. t.node.cell.party ≡ cell.party) }
    ensures first { IfOk result (λ t. t.node.cell.first ≡ cell.first) }
{
    let passes = job.ins.len() + 1;
    in_desk::<Brand, G, R>(
        rt,
        alloc,
        gate,
        Blank::new(passes as u64),
        cell,
        job,
        passes,
    )
}
