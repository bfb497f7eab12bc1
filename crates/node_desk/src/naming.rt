//! Which desk it is.

ghost use Rattle.node_desk.specs.Logs.{Log, first_log};

use std::marker::Brand;
use std::sync::ledger::Ledger;

/// Which desk it is: the ledger of its passes, and what had happened at its cell when it was made.
pub trait Naming: Ledger {
    /// What had happened at the cell when the desk was made.
    ghost before: { Log };
}

impl Naming for Brand {
    ghost before = { first_log };
}
