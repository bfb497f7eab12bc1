//! What a charge point reports to its operator (OCPI 2.2.1, Commands: the results of commands).

ghost use Rattle.std.specs.Prelude.{◌≡◌, ◌≢◌, ℕ, List, IfOk, IfErr, OnOk, IfSome, IfNone};
ghost use Rattle.ocpi_types.specs.declared.events.ChargerEvent.TheVariants as event;
ghost use Rattle.site_book.specs.declared.claim.Claim.TheVariants.{OpenStart};
ghost use Rattle.node_steps.specs.Drafts.{step_of};
ghost use Rattle.operator_rows.specs.FullSteps.{full_step_of};
ghost use Rattle.operator_rows.specs.State.{HasClaim};
ghost use Rattle.operator_rows.specs.Steps.{MayFollowFull};
ghost use Rattle.operator_steps.specs.Charger.{
  ChargerLine,
  EndsNone,
  IsAbout,
  IsEnded,
  IsStarted,
  StartsNone,
  accepted,
  outcome,
  unlocked,
};
ghost use Rattle.operator_steps.specs.Ends.{IsOpen};
ghost use Rattle.operator_steps.specs.Faults.{IsReportFault};
ghost use Rattle.operator_steps.specs.Moves.{AreInRange, PlannedBy, step_of_acts};
ghost use Rattle.operator_planning.specs.Planned.{StopsActs};
ghost use Rattle.operator_planning.specs.Requests.{acts_of_end};
ghost use Rattle.session_tables.specs.Moves.{MovesNone};

pub(crate) mod bills;
mod session_updates;
mod swipes;

use crate::changes::CHANGES_OF_AN_END;
use crate::planner::Planner;
use crate::plans::quiet;
use node_steps::{Needs, NodeFault, Plan};
use ocpi_text::{CiKey, Moment, Party, PartyKey, Whole};
use ocpi_types::{ChargerEvent, Command, CommandResultType};
use operator_rows::FullPlan;
use operator_steps::Ending;
use session_tables::{Beginning, Moved, Shown, moved};
use site_book::Claim;

/// A start that is carried out: how it ends, and the session that begins with it.
#[derive(Clone, Copy)]
struct Started {
    ending: Ending,
    beginning: Beginning,
}

/// The command that a report tells to be carried out, by its provider and number.
fn accepted_by(report: &ChargerEvent) -> Option<(Party, Whole)>
    ensures some { IfSome result (λ k. report.now ≡ event.Accepts k.0 k.1) }
    ensures none { IfNone result ((p : List ℕ) (n : ℕ) → report.now ≢ event.Accepts p n) }
{
    match report {
        ChargerEvent::Accepts { provider, number } => Some((*provider, *number)),
        _ => None,
    }
}

/// How a command ends that the charge point carries out. None, where its end makes a session or is told by another
/// report.
fn accepted(command: &Command) -> Option<CommandResultType>
    ensures { result ≡ accepted command.now }
{
    match command {
        Command::StopSession(_) => Some(CommandResultType::Accepted),
        Command::StartSession(_)
        | Command::ReserveNow(_)
        | Command::CancelReservation(_)
        | Command::UnlockConnector(_) => None,
    }
}

/// How a command ends where the connector was unlocked.
fn unlocked(command: &Command) -> Option<CommandResultType>
    ensures { result ≡ unlocked command.now }
{
    match command {
        Command::UnlockConnector(_) => Some(CommandResultType::Accepted),
        Command::StartSession(_)
        | Command::StopSession(_)
        | Command::ReserveNow(_)
        | Command::CancelReservation(_) => None,
    }
}

/// How a report ends a command that it is about, if it does.
fn outcome(report: &ChargerEvent, command: &Command) -> Option<CommandResultType>
    ensures { result ≡ outcome report.now command.now }
{
    match report {
        ChargerEvent::Accepts { .. } => accepted(command),
        ChargerEvent::Unlocked { .. } => unlocked(command),
        ChargerEvent::Refuses { .. } => Some(CommandResultType::Failed),
        ChargerEvent::Fault { .. } => Some(CommandResultType::EvseInoperative),
        _ => None,
    }
}

impl Planner<'_> {
    /// The start that took an EVSE and is open.
    fn open_start_at(&self, evse_uid: CiKey<36>) -> Option<(PartyKey, Whole)>
        ensures some { IfSome result (λ k. HasClaim self.now.state.rows evse_uid (OpenStart k.0 k.1)) }
        ensures only { IfSome result (λ k. (p : List ℕ) (n : ℕ) → HasClaim self.now.state.rows evse_uid (OpenStart p n) → (p ≡ k.0) × (n ≡ k.1)) }
        ensures none { IfNone result ((p : List ℕ) (n : ℕ) → HasClaim self.now.state.rows evse_uid (OpenStart p n) → ⊥) }
    {
        match self.books.site_book().claim_of(evse_uid)? {
            Claim::OpenStart { provider, number } => Some((provider, number)),
            Claim::Live { .. } | Claim::Reserved { .. } => None,
        }
    }

    /// The command that a report is about, by its provider and number.
    fn command_of(&self, report: &ChargerEvent) -> Option<(PartyKey, Whole)>
        ensures some { IfSome result (λ k. IsAbout self.now.state.rows report.now k.0 k.1) }
        ensures only { IfSome result (λ k. (p : List ℕ) (n : ℕ) → IsAbout self.now.state.rows report.now p n → (p ≡ k.0) × (n ≡ k.1)) }
        ensures none { IfNone result ((p : List ℕ) (n : ℕ) → IsAbout self.now.state.rows report.now p n → ⊥) }
    {
        match report {
            ChargerEvent::Accepts { provider, number } => Some((provider.key(), *number)),
            ChargerEvent::Unlocked { provider, number } => Some((provider.key(), *number)),
            ChargerEvent::Refuses { provider, number } => Some((provider.key(), *number)),
            ChargerEvent::Fault { evse_uid } => self.open_start_at(evse_uid.key()),
            _ => None,
        }
    }

    /// How a report ends a command, if it ends one.
    fn ended_by(&self, report: &ChargerEvent) -> Option<Ending>
        ensures some { IfSome result (IsEnded self.now.state report.now) }
        ensures none { IfNone result (EndsNone self.now.state report.now) }
    {
        self.consistency();
        let (provider, number) = self.command_of(report)?;
        let open = self.books.commands().opened(provider, number)?;
        let outcome = outcome(report, &open.command)?;
        self.ending(provider, number, outcome)
    }

    /// The step in which an open command ends.
    fn plan_end(&self, at: Moment, ending: Ending) -> Result<Plan, NodeFault>
        requires { IsOpen self.now.state.rows ending }
        ensures ok { IfOk result (λ x. step_of x ≡ step_of_acts self.now.state (acts_of_end self.now.state at ending)) }
        ensures in_range { OnOk result (AreInRange self.now.state (acts_of_end self.now.state at ending)) }
        ensures err { IfErr result (StopsActs self.now.state (acts_of_end self.now.state at ending)) }
    {
        let mut draft = self.draft(Needs {
            packets: 1,
            requests: 1,
            changes: CHANGES_OF_AN_END,
        })?;
        self.add_ends(&mut draft, at, &[ending])?;
        Ok(draft.into_plan())
    }

    /// The start that a report tells to be carried out, and the session that begins with it.
    fn started_by(&self, report: &ChargerEvent) -> Option<Started>
        ensures some { IfSome result (λ x. IsStarted self.now.state report.now x.ending x.beginning) }
        ensures none { IfNone result (StartsNone self.now.state report.now) }
    {
        self.consistency();
        let (provider, number) = accepted_by(report)?;
        let open = self.books.commands().opened(provider.key(), number)?;
        let beginning = session_tables::accepted(self.books, open)?;
        let ending = self.ending(provider.key(), number, CommandResultType::Accepted)?;
        Some(Started { ending, beginning })
    }

    /// What becomes of a report that ends no command.
    fn plan_moved(&self, at: Moment, report: &ChargerEvent) -> Result<FullPlan, NodeFault>
        requires ends { EndsNone self.now.state report.now }
        requires starts { StartsNone self.now.state report.now }
        ensures step { IfOk result (λ x. PlannedBy (ChargerLine self.now.state at report.now) self.now.state (full_step_of x)) }
        ensures fault { IfErr result (IsReportFault self.now.state at report.now) }
    {
        self.consistency();
        match moved(self.books, at, report) {
            Moved::Nothing => self.plan_shown(at, report),
            Moved::Refused => Err(NodeFault::StampEnd),
            Moved::To { version } => Ok(quiet(self.alloc, self.plan_going(at, &version)?)),
            Moved::Completed { version, draft } => {
                Ok(quiet(self.alloc, self.plan_completed(at, &version, draft)?))
            }
        }
    }

    /// What becomes of a report that ends no command, and is of no session.
    fn plan_shown(&self, at: Moment, report: &ChargerEvent) -> Result<FullPlan, NodeFault>
        requires ends { EndsNone self.now.state report.now }
        requires starts { StartsNone self.now.state report.now }
        requires moves { MovesNone self.now.state.site self.now.state.rows at report.now }
        ensures step { IfOk result (λ x. PlannedBy (ChargerLine self.now.state at report.now) self.now.state (full_step_of x)) }
        ensures fault { IfErr result (IsReportFault self.now.state at report.now) }
    {
        self.consistency();
        self.counters_in_range();
        match self.shown_by(report) {
            Shown::Nothing => Ok(quiet(self.alloc, Plan::nothing(self.alloc))),
            Shown::Begins(beginning) => {
                Ok(quiet(self.alloc, self.plan_begun(at, &[], None, &beginning)?))
            }
            Shown::Asks {
                token,
                location_id,
                place,
            } => self.plan_asked(at, &token, location_id, &place),
        }
    }

    /// What becomes of a report at a moment. Nothing changes. Refused as `on_charger` of `operator_core` says.
    pub fn plan_charger(&self, at: Moment, report: &ChargerEvent) -> Result<FullPlan, NodeFault>
        ensures step { IfOk result (λ x. PlannedBy (ChargerLine self.now.state at report.now) self.now.state (full_step_of x)) }
        ensures follows { IfOk result (λ x. MayFollowFull self.now.state (full_step_of x)) }
        ensures fault { IfErr result (IsReportFault self.now.state at report.now) }
    {
        self.consistency();
        self.counters_in_range();
        if let Some(started) = self.started_by(report) {
            let plan = self.plan_begun(at, &[started.ending], None, &started.beginning)?;
            return Ok(quiet(self.alloc, plan));
        }
        match self.ended_by(report) {
            Some(ending) => Ok(quiet(self.alloc, self.plan_end(at, ending)?)),
            None => self.plan_moved(at, report),
        }
    }
}
