//! A link to a node, between two rounds.

use crate::fault::RunFault;
use crate::script::{Act, Loss};
use ocpi_text::Party;
use ocpi_types::Packet;
use std::alloc::Global;
use std::mem;

/// A link to a node from one of the others.
#[derive(Drop)]
pub(crate) struct Link {
    alloc: Global,
    from: Party,
    acts: Vec<Act>,
    /// How many acts are done.
    done: usize,
    /// What was given to it and has not come to it yet.
    left: Vec<Packet>,
    /// What it holds behind the packets of the next round.
    held: Vec<Packet>,
}

impl Link {
    /// The link from one party to another, at which nothing has come yet. Of several lists of acts for it the first
    /// counts.
    pub(crate) fn new(
        alloc: Global,
        from: Party,
        to: Party,
        losses: &[Loss],
    ) -> Result<Link, RunFault> {
        let mut acts = Vec::new(alloc);
        for loss in losses {
            if loss.from.is_same(&from) && loss.to.is_same(&to) {
                acts.extend_from_slice(loss.acts.as_slice())?;
                break;
            }
        }
        Ok(Link {
            alloc,
            from,
            acts,
            done: 0,
            left: Vec::new(alloc),
            held: Vec::new(alloc),
        })
    }

    /// Whose packets come by it.
    pub(crate) fn from(&self) -> &Party {
        &self.from
    }

    /// Whether nothing waits for the next round.
    pub(crate) fn is_empty(&self) -> bool {
        self.left.is_empty() && self.held.is_empty()
    }

    /// What it does with the next packet.
    pub(crate) fn next_act(&mut self) -> Act {
        if self.done < self.acts.len() {
            let act = self.acts[self.done];
            self.done += 1;
            act
        } else {
            Act::Pass
        }
    }

    /// The packet comes to it in the next round.
    pub(crate) fn leave(&mut self, packet: Packet) -> Result<(), RunFault> {
        self.left.push(packet)?;
        Ok(())
    }

    /// The packet is delivered behind those of the next round.
    pub(crate) fn hold(&mut self, packet: Packet) -> Result<(), RunFault> {
        self.held.push(packet)?;
        Ok(())
    }

    /// What was left for this round.
    pub(crate) fn take_left(&mut self) -> Vec<Packet> {
        mem::replace(&mut self.left, Vec::new(self.alloc))
    }

    /// What was held in the round before.
    pub(crate) fn take_held(&mut self) -> Vec<Packet> {
        mem::replace(&mut self.held, Vec::new(self.alloc))
    }
}
