//! What stops a run of one node.

ghost use Rattle.std.specs.Prelude.{◌≡◌};
ghost use Rattle.node_runs.specs.Stops.{node_status, stop_of};

use line_runs::{Ran, RunFault, status_of};
use node_store::StoreFault;
use std::error::Error;
use std::fmt;
use stored_nodes::ReopenFault;
use stored_rows::BadRow;

/// The exit status where the setup has no node of the party.
pub const UNKNOWN_PARTY: u8 = 2;

/// The exit status where a store would not do what it was asked, or has rows of which no such node is made, or where
/// memory ran out.
const STORE_REFUSED: u8 = 3;

/// Why a node did not begin, or did not go on.
#[derive(Clone, Copy, Debug)]
pub enum NodeStop {
    /// The setup has no node of the party.
    UnknownParty,
    /// The store of the node refused, or memory ran out while it was opened.
    Store(StoreFault),
    /// No such node has just the rows that are stored. This row shows it.
    BadRows(BadRow),
    /// Memory ran out for a line, or for what was to be written of it.
    Memory,
}

impl fmt::Display for NodeStop {
    ghost use Rattle.std.specs.Prelude.{Some};
    ghost use Rattle.node_runs.specs.Stops.{stop_text};

    ghost output = { λ s. Some (stop_text s) };

    fn fmt<W: fmt::Write>(&self, f: &mut fmt::Formatter<W>) -> fmt::Result {
        match self {
            NodeStop::UnknownParty => f.write_str("node: no such party in the setup"),
            NodeStop::Store(fault) => {
                f.write_str("store: ")?;
                fault.fmt(f)
            }
            NodeStop::BadRows(_) => f.write_str("store: 4 Core(BadRows)"),
            NodeStop::Memory => f.write_str("memory: 4 Memory"),
        }
    }
}

impl Error for NodeStop {}

/// What stopped a run.
#[derive(Clone, Copy, Debug)]
pub enum NodeRunFault {
    /// Reading or writing.
    Run(RunFault),
    /// The node.
    Stop(NodeStop),
}

impl fmt::Display for NodeRunFault {
    ghost use Rattle.std.specs.Prelude.{Some};
    ghost use Rattle.node_runs.specs.Stops.{fault_text};

    ghost output = { λ f. Some (fault_text f) };

    fn fmt<W: fmt::Write>(&self, f: &mut fmt::Formatter<W>) -> fmt::Result {
        match self {
            NodeRunFault::Run(fault) => fault.fmt(f),
            NodeRunFault::Stop(stop) => stop.fmt(f),
        }
    }
}

impl Error for NodeRunFault {}

impl From<RunFault> for NodeRunFault {
    ghost use Rattle.node_runs.specs.declared.fault.NodeRunFault.TheVariants.{Run};

    ghost from_gives = { λ fault run. run ≡ Run fault };

    fn from(fault: RunFault) -> NodeRunFault {
        NodeRunFault::Run(fault)
    }
}

impl From<NodeStop> for NodeRunFault {
    ghost use Rattle.node_runs.specs.declared.fault.NodeRunFault.TheVariants.{Stop};

    ghost from_gives = { λ stop run. run ≡ Stop stop };

    fn from(stop: NodeStop) -> NodeRunFault {
        NodeRunFault::Stop(stop)
    }
}

/// Why no node was made of what is kept.
pub fn stop_of(fault: ReopenFault) -> NodeStop
    ensures { result ≡ stop_of fault }
{
    match fault {
        ReopenFault::Store(fault) => NodeStop::Store(fault),
        ReopenFault::BadRows(row) => NodeStop::BadRows(row),
        ReopenFault::Memory => NodeStop::Store(StoreFault::Memory),
    }
}

/// The exit status of a run: 2 where the setup had no such party, 3 where the store or want of memory stopped it, and
/// else as of any run.
pub fn status_after_node(ran: Result<Ran, NodeRunFault>) -> u8
    ensures { result ≡ node_status ran }
{
    match ran {
        Ok(ran) => status_of(Ok(ran)),
        Err(NodeRunFault::Run(fault)) => status_of(Err(fault)),
        Err(NodeRunFault::Stop(NodeStop::UnknownParty)) => UNKNOWN_PARTY,
        Err(NodeRunFault::Stop(_)) => STORE_REFUSED,
    }
}
