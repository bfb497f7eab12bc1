//! Work that is carried out: all memory for it is taken first, and then nothing can fail.

ghost use Rattle.std.specs.Prelude.{◌≡◌, ◌≤◌, ◌+◌, ◌++◌, IfOk, OnErr, OnOk, length, vec_capacity};
ghost use Rattle.node_core.specs.States.{state_of};
ghost use Rattle.node_core.specs.Works.{MayDo, changes_by, packets_by, versions_by};
ghost use Rattle.stored_laws.specs.Nodes.{IsWhole};
ghost use Rattle.world.specs.Seen.{place_seen};
ghost use Rattle.world.specs.Works.{place_after};
ghost use Rattle.world_steps.specs.Steps.{all_put, version_put};

use crate::place::Place;
use node_core::NodeWork;
use node_steps::copies;
use ocpi_types::{Boxed, Change, Packet, Row, Session};
use std::alloc::{AllocError, Global};
use tables::HashSeed;

/// Adds the version of a session that a change puts.
fn push_version(versions: &mut Vec<Boxed<Session>>, change: &Change) -> Result<(), AllocError>
    ensures { OnOk result (versions.new.items ≡ versions.old.items ++ version_put change.now) }
{
    match change {
        Change::Put(Row::Session { session }) => {
            versions.push(session.copy()?)?;
            Ok(())
        }
        _ => Ok(()),
    }
}

/// The versions of sessions that changes put, in order. An error is want of memory.
fn versions_put(alloc: Global, changes: &[Change]) -> Result<Vec<Boxed<Session>>, AllocError>
    ensures { IfOk result (λ v. v.items ≡ all_put changes.now) }
{
    let mut versions = Vec::new(alloc);
    for change in changes {
        push_version(&mut versions, change)?;
    }
    Ok(versions)
}

/// Adds packets to a list that has room for them.
fn add_packets(sent: &mut Vec<Packet>, mut packets: Vec<Packet>)
    requires { length sent.old.items + length packets.items ≤ vec_capacity sent.old }
    ensures { sent.new.items ≡ sent.old.items ++ packets.items }
{
    match sent.append(&mut packets) {
        Ok(()) => {}
        Err(_) => unreachable!(),
    }
}

/// Adds versions to a list that has room for them.
fn add_versions(versions: &mut Vec<Boxed<Session>>, mut more: Vec<Boxed<Session>>)
    requires { length versions.old.items + length more.items ≤ vec_capacity versions.old }
    ensures { versions.new.items ≡ versions.old.items ++ more.items }
{
    match versions.append(&mut more) {
        Ok(()) => {}
        Err(_) => unreachable!(),
    }
}

/// The rows that the work changes, once there is room for the packets that it sends. An error is want of memory.
fn ready(alloc: Global, work: &NodeWork, sent: &mut Vec<Packet>) -> Result<Vec<Change>, AllocError>
    ensures changes { IfOk result (λ v. v.items ≡ changes_by work.now) }
    ensures same { sent.new.items ≡ sent.old.items }
    ensures room { OnOk result (length sent.new.items + length (packets_by work.now) ≤ vec_capacity sent.new) }
{
    sent.reserve(work.packets().len())?;
    copies(alloc, work.changes())
}

/// The versions of its sessions that an operator stores by the work; a provider has none. An error is want of memory.
fn versions_of(alloc: Global, work: &NodeWork) -> Result<Vec<Boxed<Session>>, AllocError>
    ensures { IfOk result (λ v. v.items ≡ versions_by work.now) }
{
    match work {
        NodeWork::Operator(full) => versions_put(alloc, full.plan.changes.as_slice()),
        NodeWork::Provider(_) | NodeWork::Restart => Ok(Vec::new(alloc)),
    }
}

/// The versions that the work stores, once there is room for them. An error is want of memory.
fn ready_versions(
    alloc: Global,
    work: &NodeWork,
    versions: &mut Vec<Boxed<Session>>,
) -> Result<Vec<Boxed<Session>>, AllocError>
    ensures versions { IfOk result (λ v. v.items ≡ versions_by work.now) }
    ensures same { versions.new.items ≡ versions.old.items }
    ensures room { IfOk result (λ v. length versions.new.items + length v.items ≤ vec_capacity versions.new) }
{
    let more = versions_of(alloc, work)?;
    versions.reserve(more.len())?;
    Ok(more)
}

impl Place {
    /// The node does what was planned: all memory for it is taken first. The rows that it changes are answered. An
    /// error is want of memory, and changes nothing.
    fn act(&mut self, alloc: Global, work: NodeWork) -> Result<Vec<Change>, AllocError>
        requires { MayDo (state_of self.old.node) work }
        ensures ok { OnOk result (place_seen self.new ≡ place_after work (place_seen self.old)) }
        ensures changes { IfOk result (λ v. v.items ≡ changes_by work) }
        ensures err { OnErr result (place_seen self.new ≡ place_seen self.old) }
    {
        let more = ready_versions(alloc, &work, &mut self.versions)?;
        let changes = ready(alloc, &work, &mut self.sent)?;
        self.node.make_room(&work)?;
        let packets = self.node.apply(work);
        add_packets(&mut self.sent, packets);
        add_versions(&mut self.versions, more);
        Ok(changes)
    }

    /// The node does its work: the packets that it sends and the versions of its sessions that it stores are added to
    /// those of this place, and the rows that it changes are answered. A node that starts again is made of its rows. An
    /// error is want of memory, and changes nothing.
    pub(crate) fn carry_out(
        &mut self,
        alloc: Global,
        seed: HashSeed,
        work: NodeWork,
    ) -> Result<Vec<Change>, AllocError>
        requires may { MayDo (state_of self.old.node) work }
        requires whole { IsWhole (state_of self.old.node) }
        ensures ok { OnOk result (place_seen self.new ≡ place_after work (place_seen self.old)) }
        ensures changes { IfOk result (λ v. v.items ≡ changes_by work) }
        ensures err { OnErr result (place_seen self.new ≡ place_seen self.old) }
    {
        match work {
            NodeWork::Restart => {
                self.node.start_again(alloc, seed)?;
                Ok(Vec::new(alloc))
            }
            work => self.act(alloc, work),
        }
    }
}
