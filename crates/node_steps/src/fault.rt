//! Why an event was refused.

ghost use Rattle.std.specs.Prelude.{◌≡◌, Some};
ghost use Rattle.node_steps.specs.FaultText.{fault_name, fault_number};

use std::alloc::{AllocError, AllocFailed};
use std::error::Error;
use std::fmt;

/// Why a node refused an event: the first of these that applies, in this order.
#[derive(Clone, Copy, Debug, PartialEq, Eq)]
pub enum NodeFault {
    /// The packet is to another party, from a party that is no peer of the node, or of a kind that the node does not
    /// take; or the token is another party's.
    NotForMe,
    /// An order to a party that is no operator of the provider.
    UnknownOperator,
    /// An order with a token that the provider does not hold.
    UnknownToken,
    /// A version whose predecessor is of the last moment: none can be later.
    StampEnd,
    /// A counter has given its last number.
    NumbersUsedUp,
    /// Memory ran out, for an event that has none of these faults.
    Memory,
}

impl NodeFault {
    /// The number under which it is told.
    pub fn number(self) -> u64
        ensures { result ≡ fault_number self }
    {
        match self {
            NodeFault::NotForMe => 1,
            NodeFault::NumbersUsedUp => 2,
            NodeFault::StampEnd => 3,
            NodeFault::Memory => 4,
            NodeFault::UnknownOperator => 5,
            NodeFault::UnknownToken => 6,
        }
    }

    /// Its name.
    pub fn name(self) -> &'static str
        ensures { result.now ≡ fault_name self }
    {
        match self {
            NodeFault::NotForMe => "NotForMe",
            NodeFault::NumbersUsedUp => "NumbersUsedUp",
            NodeFault::StampEnd => "StampEnd",
            NodeFault::Memory => "Memory",
            NodeFault::UnknownOperator => "UnknownOperator",
            NodeFault::UnknownToken => "UnknownToken",
        }
    }
}

impl fmt::Display for NodeFault {
    ghost use Rattle.node_steps.specs.FaultText.{fault_text};

    ghost output = { λ f. Some (fault_text f) };

    fn fmt<W: fmt::Write>(&self, f: &mut fmt::Formatter<W>) -> fmt::Result {
        match self {
            NodeFault::NotForMe => f.write_str("1 NotForMe"),
            NodeFault::UnknownOperator => f.write_str("5 UnknownOperator"),
            NodeFault::UnknownToken => f.write_str("6 UnknownToken"),
            NodeFault::StampEnd => f.write_str("3 StampEnd"),
            NodeFault::NumbersUsedUp => f.write_str("2 NumbersUsedUp"),
            NodeFault::Memory => f.write_str("4 Memory"),
        }
    }
}

impl Error for NodeFault {}

impl From<AllocError> for NodeFault {
    ghost use Rattle.node_steps.specs.declared.fault.NodeFault.TheVariants.{Memory};

    ghost from_gives = { λ _ e. e ≡ Memory };

    fn from(_e: AllocError) -> NodeFault {
        NodeFault::Memory
    }
}

impl<T: Drop> From<AllocFailed<T>> for NodeFault {
    ghost use Rattle.node_steps.specs.declared.fault.NodeFault.TheVariants.{Memory};

    ghost from_gives = { λ _ e. e ≡ Memory };

    fn from(_e: AllocFailed<T>) -> NodeFault {
        NodeFault::Memory
    }
}
