//! What stops a run over lines whose rows are stored, and what is said of it.

ghost use Rattle.std.specs.Prelude.{◌≡◌};
ghost use Rattle.node_programs.specs.Stops.{play_status};

use line_runs::{Ran, RunFault, status_of};
use node_store::StoreFault;
use std::fmt;

/// The exit status where a store would not do what it was asked.
pub const STORE_REFUSED: u8 = 3;

/// What stopped a run.
#[derive(Clone, Copy, Debug, PartialEq, Eq)]
pub enum PlayFault {
    /// Reading or writing.
    Run(RunFault),
    /// The store of a node.
    Store(StoreFault),
}

impl fmt::Display for PlayFault {
    ghost use Rattle.std.specs.Prelude.{Some};
    ghost use Rattle.node_programs.specs.Stops.{fault_text};

    ghost output = { λ f. Some (fault_text f) };

    fn fmt<W: fmt::Write>(&self, f: &mut fmt::Formatter<W>) -> fmt::Result {
        match self {
            PlayFault::Run(fault) => fault.fmt(f),
            PlayFault::Store(fault) => {
                f.write_str("store: ")?;
                fault.fmt(f)
            }
        }
    }
}

impl std::error::Error for PlayFault {}

impl From<RunFault> for PlayFault {
    ghost use Rattle.node_programs.specs.declared.fault.PlayFault.TheVariants.{Run};

    ghost from_gives = { λ fault play. play ≡ Run fault };

    fn from(fault: RunFault) -> PlayFault {
        PlayFault::Run(fault)
    }
}

impl From<StoreFault> for PlayFault {
    ghost use Rattle.node_programs.specs.declared.fault.PlayFault.TheVariants.{Store};

    ghost from_gives = { λ fault play. play ≡ Store fault };

    fn from(fault: StoreFault) -> PlayFault {
        PlayFault::Store(fault)
    }
}

/// The exit status of a run: 3 where a store stopped it, and else as of any run.
pub fn status_after_play(ran: Result<Ran, PlayFault>) -> u8
    ensures { result ≡ play_status ran }
{
    match ran {
        Ok(ran) => status_of(Ok(ran)),
        Err(PlayFault::Run(fault)) => status_of(Err(fault)),
        Err(PlayFault::Store(_)) => STORE_REFUSED,
    }
}
