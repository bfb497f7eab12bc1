//! What stops a run of `weave`.

ghost use Rattle.std.specs.Prelude.{◌≡◌};

use line_runs::RunFault;
use thiserror::Error;

/// Why what a party sent cannot be taken as it came. It has the word as it was given.
#[derive(Clone, Copy, Debug, Error)]
pub enum GivenFault<'a> {
    /// The setup has no such party.
    #[error("weave: no {0} in the setup")]
    Unknown(&'a str),
    /// One of the files is of that party.
    #[error("weave: {0} has a file")]
    HasFile(&'a str),
}

/// What stopped a run.
#[derive(Clone, Copy, Debug, Error)]
pub enum WeaveRunFault<'a> {
    /// Writing.
    #[error(transparent)]
    Run(RunFault),
    /// A party that was given: no file was refused, and nothing is written.
    #[error(transparent)]
    Given(#[from] GivenFault<'a>),
}

/// By hand, since the contracts of a run name the fault of a write.
impl From<RunFault> for WeaveRunFault<'_> {
    ghost use Rattle.weave_runs.specs.declared.fault.WeaveRunFault.TheVariants.{Run};

    ghost from_gives = { λ fault run. run ≡ Run fault };

    fn from(fault: RunFault) -> Self {
        WeaveRunFault::Run(fault)
    }
}
