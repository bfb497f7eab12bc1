//! What happened at a node, and what it sent then.

ghost use Rattle.std.specs.Prelude.{◌≡◌, ◌++◌, ◌∷◌, [], IfOk, OnOk};

use ocpi_types::{NodeEventKind, Packet};
use std::alloc::{AllocError, Global};
use std::marker::Model;

/// Packets, in order. Contracts see them as their list.
#[derive(Drop)]
pub struct Packets {
    items: Vec<Packet>,
}

impl Model for Packets {
    ghost use Rattle.std.specs.Prelude.{List};
    ghost use Rattle.ocpi_types.specs.declared.packet.Packet.{Packet};

    ghost Value = { List Packet };

    ghost view = { λ p. p.items.items };
}

/// Adds an equal packet.
fn push_copy(copies: &mut Vec<Packet>, packet: &Packet) -> Result<(), AllocError>
    ensures { OnOk result (copies.new.items ≡ copies.old.items ++ packet.now ∷ []) }
{
    copies.push(packet.copy()?)?;
    Ok(())
}

/// Equal packets, in order. An error is want of memory.
pub fn copies(alloc: Global, packets: &[Packet]) -> Result<Vec<Packet>, AllocError>
    ensures { IfOk result (λ v. v.items ≡ packets.now) }
{
    let mut copies = Vec::with_capacity(alloc, packets.len())?;
    for packet in packets {
        push_copy(&mut copies, packet)?;
    }
    Ok(copies)
}

impl Packets {
    /// These packets.
    pub fn new(items: Vec<Packet>) -> Packets
        ensures { result ≡ items.items }
    {
        Packets { items }
    }

    /// The packets, in order. It takes no memory.
    pub fn as_slice(&self) -> &[Packet]
        ensures { result.now ≡ self.now }
    {
        self.items.as_slice()
    }

    /// Equal packets. An error is want of memory.
    pub fn copy(&self) -> Result<Packets, AllocError>
        ensures { IfOk result (λ p. p ≡ self.now) }
    {
        let items = copies(*self.items.allocator(), self.items.as_slice())?;
        Ok(Packets { items })
    }
}

/// What happened at a node, and the packets that it sent then.
pub struct Entry {
    pub event: NodeEventKind,
    pub packets: Packets,
}

impl Drop for Entry {
    fn drop(self) {
        let Entry { event, packets } = self;
        drop(event);
        drop(packets);
    }
}
