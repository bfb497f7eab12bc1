//! Bills that are taken back (OCPI 2.2.1, CDRs: CDR object, members `credit` and `credit_reference_id`; Sender
//! interface).

ghost use Rattle.std.specs.Prelude.{◌≡◌, ◌≤◌, ◌↔◌, ℕ, List, length, IsTrue, IfOk, IfErr, OnOk, IfSome, IfNone};
ghost use Rattle.ocpi_types.specs.Credits.{IsBill};
ghost use Rattle.ocpi_types.specs.declared.cdrs.Cdr.{Cdr};
ghost use Rattle.node_steps.specs.Drafts.{step_of};
ghost use Rattle.operator_rows.specs.FullSteps.{full_step_of};
ghost use Rattle.operator_rows.specs.Steps.{MayFollowFull};
ghost use Rattle.operator_steps.specs.Credits.{CreditLine};
ghost use Rattle.operator_steps.specs.Faults.{IsCreditFault};
ghost use Rattle.operator_steps.specs.Moves.{AreInRange, PlannedBy, Quietly, step_of_acts};
ghost use Rattle.operator_planning.specs.Credits.{
  IsCompleted,
  IsUncredited,
  MayGoTo,
  StopsCredit,
  TakesBack,
  credit_acts,
};
ghost use Rattle.operator_planning.specs.Planned.{PlansActs, StopsActs};

use crate::changes::CHANGES_OF_A_CREDIT;
use crate::planner::Planner;
use crate::plans::quiet;
use crate::reports::bills::{add_posted, add_recorded};
use node_steps::{Needs, NodeFault, Plan, find_peer};
use ocpi_text::{CiKey, Moment, Party};
use ocpi_types::{Boxed, Cdr, SessionStatus};
use operator_rows::FullPlan;
use session_state::{SessionFault, credit_id, credit_of};
use std::alloc::AllocError;

/// The most characters of a bill's id that leave room for the mark of its credit.
const MOST_CHARACTERS: usize = 37;

impl Planner<'_> {
    /// Whether the session of an id is COMPLETED.
    fn is_completed(&self, session: CiKey<36>) -> bool
        ensures { IsTrue result ↔ IsCompleted self.now.state.rows session }
    {
        match self.books.charged().session(session) {
            Some(version) => matches!(version.status, SessionStatus::Completed),
            None => false,
        }
    }

    /// The only bill of a session that is COMPLETED and has no credit, where the bill's id leaves room for the mark of
    /// one.
    fn uncredited(&self, session: CiKey<36>) -> Option<&Cdr>
        ensures some { IfSome result (λ bill. IsUncredited self.now.state.rows session bill.now) }
        ensures none { IfNone result ((bill : Cdr) → IsUncredited self.now.state.rows session bill → ⊥) }
    {
        if !self.is_completed(session) || self.books.charged().has_credit(session) {
            return None;
        }
        let bill = self.books.charged().sole_bill(session)?;
        if bill.id.as_str().len() > MOST_CHARACTERS {
            return None;
        }
        Some(bill)
    }

    /// The party that the credit of a bill goes to: the provider of the bill's token, as the site spells it. None,
    /// where a record has the id of the credit, or the provider is none of the site. An error is want of memory.
    fn goes_to(&self, bill: &Cdr) -> Result<Option<Party>, AllocError>
        requires { length bill.now.id ≤ 37 }
        ensures some { IfOk result (λ o. IfSome o (MayGoTo self.now.state bill.now)) }
        ensures none { IfOk result (λ o. IfNone o ((to : List ℕ) → MayGoTo self.now.state bill.now to → ⊥)) }
    {
        let id = credit_id(self.alloc, bill.id)?;
        if self.books.charged().cdr(id.key()).is_some() {
            return Ok(None);
        }
        Ok(find_peer(self.books.providers(), &bill.cdr_token.party).copied())
    }

    /// The step in which a credit is pushed to a party, and stored.
    fn plan_posted(&self, at: Moment, to: Party, credit: Cdr) -> Result<Plan, NodeFault>
        ensures ok { IfOk result (λ x. step_of x ≡ step_of_acts self.now.state (credit_acts at self.now.state.rows.request to credit)) }
        ensures in_range { OnOk result (AreInRange self.now.state (credit_acts at self.now.state.rows.request to credit)) }
        ensures err { IfErr result (StopsActs self.now.state (credit_acts at self.now.state.rows.request to credit)) }
    {
        let mut draft = self.draft(Needs {
            packets: 1,
            requests: 1,
            changes: CHANGES_OF_A_CREDIT,
        })?;
        let credit = Boxed::new(self.alloc, credit)?;
        add_posted(&mut draft, at, to, &credit)?;
        add_recorded(&mut draft, credit)?;
        Ok(draft.into_plan())
    }

    /// The step in which a bill is taken back, by a credit that goes to a party. Refused (`StampEnd`) where the bill
    /// was updated at the last moment, (`NumbersUsedUp`) where a counter would pass its last number, and else for want
    /// of memory (`Memory`).
    fn plan_taken_back(&self, at: Moment, to: Party, bill: &Cdr) -> Result<Plan, NodeFault>
        requires bill { IsBill bill.now }
        requires short { length bill.now.id ≤ 37 }
        ensures ok { IfOk result (λ x. PlansActs (TakesBack self.now.state at bill.now to) self.now.state (step_of x)) }
        ensures err { IfErr result (StopsCredit self.now.state at bill.now to) }
    {
        match credit_of(self.alloc, bill, at) {
            Ok(credit) => self.plan_posted(at, to, credit),
            Err(SessionFault::StampEnd) => Err(NodeFault::StampEnd),
            Err(SessionFault::Memory) => Err(NodeFault::Memory),
        }
    }

    /// What becomes of the order to take the bill of a session back at a moment. Nothing changes. Refused as
    /// `on_credit` of `operator_core` says.
    pub fn plan_credit(&self, at: Moment, session: CiKey<36>) -> Result<FullPlan, NodeFault>
        ensures step { IfOk result (λ x. PlannedBy (Quietly (CreditLine self.now.state at session)) self.now.state (full_step_of x)) }
        ensures follows { IfOk result (λ x. MayFollowFull self.now.state (full_step_of x)) }
        ensures fault { IfErr result (IsCreditFault self.now.state at session) }
    {
        self.consistency();
        self.counters_in_range();
        let Some(bill) = self.uncredited(session) else {
            return Ok(quiet(self.alloc, Plan::nothing(self.alloc)));
        };
        match self.goes_to(bill)? {
            Some(to) => Ok(quiet(self.alloc, self.plan_taken_back(at, to, bill)?)),
            None => Ok(quiet(self.alloc, Plan::nothing(self.alloc))),
        }
    }
}
