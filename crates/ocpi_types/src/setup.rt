//! The nodes of a run.

ghost use Rattle.std.specs.Prelude.{◌≡◌, IfOk, OnErr, SomeIff};
ghost use Rattle.ocpi_types.specs.Memory.{NodeOwnsMemory};
ghost use Rattle.ocpi_types.specs.Setups.{AreNodes, node_key, party_of};

use crate::apart::{Identified, differ_from};
use crate::copies::{ListItem, copy_all};
use crate::site::Site;
use ocpi_text::Party;
use std::alloc::AllocError;
use std::marker::Model;

/// A node: an operator has a site.
#[derive(Drop)]
pub enum Node {
    Operator { party: Party, site: Site },
    Provider { party: Party },
}

impl Node {
    /// Whose node it is.
    pub fn party(&self) -> &Party
        ensures { result.now ≡ party_of self.now }
    {
        match self {
            Node::Operator { party, .. } | Node::Provider { party } => party,
        }
    }

    /// An equal node. Memory is wanted only where it has a site.
    pub fn copy(&self) -> Result<Node, AllocError>
        ensures equal { IfOk result (λ t. t ≡ self.now) }
        ensures err { OnErr result (NodeOwnsMemory self.now) }
    {
        match self {
            Node::Operator { party, site } => Ok(Node::Operator {
                party: *party,
                site: site.copy()?,
            }),
            Node::Provider { party } => Ok(Node::Provider { party: *party }),
        }
    }
}

impl ListItem for Node {
    fn item_copy(&self) -> Result<Node, AllocError> {
        self.copy()
    }
}

impl Identified for Node {
    ghost id_key = { node_key };

    fn is_same(&self, other: &Node) -> bool {
        self.party().is_same(other.party())
    }
}

/// One to 64 nodes, no two of one party.
#[derive(Drop)]
pub struct Setup {
    nodes: Vec<Node>,
}

impl Model for Setup {
    ghost use Rattle.std.specs.Prelude.{List};
    ghost use Rattle.ocpi_types.specs.declared.setup.Node.{Node};
    ghost use Rattle.ocpi_types.specs.Setups.{AreNodes};

    ghost Value = { List Node };

    ghost view = { λ s. s.nodes.items };

    ghost invariant = { λ s. AreNodes s.nodes.items };
}

impl Setup {
    /// The nodes of a list. None, where they are none or more than 64, or two are of one party.
    pub fn new(nodes: Vec<Node>) -> Option<Setup>
        ensures { SomeIff result (AreNodes nodes.items) nodes.items }
    {
        let count = nodes.len();
        if 1 <= count && count <= 64 && differ_from(&[], nodes.as_slice()) {
            Some(Setup { nodes })
        } else {
            None
        }
    }

    /// The nodes, in order.
    pub fn as_slice(&self) -> &[Node]
        ensures value { result.now ≡ self.now }
        ensures are { AreNodes self.now }
    {
        self.nodes.as_slice()
    }

    /// An equal setup.
    pub fn copy(&self) -> Result<Setup, AllocError>
        ensures { IfOk result (λ t. t ≡ self.now) }
    {
        let nodes = copy_all(*self.nodes.allocator(), self.nodes.as_slice())?;
        Ok(Setup { nodes })
    }
}
