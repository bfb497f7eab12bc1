//! What a step is decided to be, and what it answers.

ghost use Rattle.std.specs.Prelude.{◌≡◌, ◌++◌, ◌∷◌, [], IfOk, OnOk};
ghost use Rattle.node_steps.specs.Drafts.{step_of};

use ocpi_text::{Moment, Whole};
use ocpi_types::{Change, Packet};
use std::alloc::{AllocError, Global};

/// A change of what a restart empties, and that stands in no row.
#[derive(Clone, Copy)]
pub enum Volatile {
    /// The request of that number is sent at that moment, and due again ten seconds later.
    Sent { number: Whole, at: Moment },
}

/// What a step is decided to be: what it changes in what is stored, the packets that it sends, and what it does to
/// what stands in no row, in order. Nothing is changed and nothing is sent before it is carried out.
#[derive(Drop)]
pub struct Plan {
    pub changes: Vec<Change>,
    pub packets: Vec<Packet>,
    pub volatile: Vec<Volatile>,
}

impl Plan {
    /// A step that does nothing. It takes no memory.
    pub fn nothing(alloc: Global) -> Plan
        ensures { step_of result ≡ record { changes = []; packets = []; volatile = [] } }
    {
        Plan {
            changes: Vec::new(alloc),
            packets: Vec::new(alloc),
            volatile: Vec::new(alloc),
        }
    }

    /// One change of a row: nothing is sent, and no number is taken. An error is want of memory.
    pub fn one(alloc: Global, change: Change) -> Result<Plan, AllocError>
        ensures { IfOk result (λ x. step_of x ≡ record { changes = change ∷ []; packets = []; volatile = [] }) }
    {
        let mut plan = Plan::nothing(alloc);
        plan.changes.push(change)?;
        Ok(plan)
    }
}

/// What a step changes in what is stored, and the packets that it sends, in order.
#[derive(Drop)]
pub struct Stepped {
    pub rows: Vec<Change>,
    pub packets: Vec<Packet>,
}

/// Adds an equal change.
fn push_copy(copies: &mut Vec<Change>, change: &Change) -> Result<(), AllocError>
    ensures { OnOk result (copies.new.items ≡ copies.old.items ++ change.now ∷ []) }
{
    copies.push(change.copy()?)?;
    Ok(())
}

/// Equal changes, in order. An error is want of memory.
pub fn copies(alloc: Global, changes: &[Change]) -> Result<Vec<Change>, AllocError>
    ensures { IfOk result (λ v. v.items ≡ changes.now) }
{
    let mut copies = Vec::with_capacity(alloc, changes.len())?;
    for change in changes {
        push_copy(&mut copies, change)?;
    }
    Ok(copies)
}
