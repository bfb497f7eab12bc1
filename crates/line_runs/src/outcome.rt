//! How a run went, and the exit status that says so.
ghost use Rattle.std.specs.Prelude.{◌≡◌};
ghost use Rattle.line_runs.specs.Outcome.{both_ran, exit_status};

use std::fmt;

/// How a run that read its whole input, or was ended by a line, went.
#[derive(Clone, Copy, Debug, PartialEq, Eq)]
pub enum Ran {
    /// No line was refused.
    Whole,
    /// A line was refused.
    WithRefusals,
}

impl Ran {
    /// Of a run and what followed it: whole where both are.
    pub fn and(self, later: Ran) -> Ran
        ensures { result ≡ both_ran self later }
    {
        match self {
            Ran::Whole => later,
            Ran::WithRefusals => Ran::WithRefusals,
        }
    }
}

/// What stopped a run.
#[derive(Clone, Copy, Debug, PartialEq, Eq)]
pub enum RunFault {
    /// A read failed, or memory ran out for its line.
    ReadFailed,
    /// A write or a flush failed, or memory ran out for what was to be written.
    WriteFailed,
    /// 1,000,000,000 lines were read, and the input had not ended.
    TooManyReads,
}

impl fmt::Display for RunFault {
    ghost use Rattle.std.specs.Prelude.{Some};
    ghost use Rattle.line_runs.specs.Outcome.{fault_text};

    ghost output = { λ f. Some (fault_text f) };

    fn fmt<W: fmt::Write>(&self, f: &mut fmt::Formatter<W>) -> fmt::Result {
        f.write_str(match self {
            RunFault::ReadFailed => "input: read failed",
            RunFault::WriteFailed => "output: write failed",
            RunFault::TooManyReads => "input: too many reads",
        })
    }
}

impl std::error::Error for RunFault {}

/// The exit status of a run: 0 where no line was refused, 1 where one was refused or the run was stopped.
pub fn status_of(ran: Result<Ran, RunFault>) -> u8
    ensures { result ≡ exit_status ran }
{
    match ran {
        Ok(Ran::Whole) => 0,
        Ok(Ran::WithRefusals) | Err(_) => 1,
    }
}
