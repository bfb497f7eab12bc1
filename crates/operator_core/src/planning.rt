//! What is planned of an event at an operator. Nothing is changed here.

ghost use Rattle.std.specs.Prelude.{◌≡◌, IfOk, IfErr};
ghost use Rattle.operator_rows.specs.FullSteps.{full_step_of};
ghost use Rattle.operator_rows.specs.Steps.{MayFollowFull};
ghost use Rattle.operator_steps.specs.Charger.{ChargerLine};
ghost use Rattle.operator_steps.specs.Credits.{CreditLine};
ghost use Rattle.operator_steps.specs.Faults.{IsCreditFault, IsDue, IsOwnFault, IsReportFault};
ghost use Rattle.operator_steps.specs.Moves.{PlannedBy, Quietly};
ghost use Rattle.operator_steps.specs.Service.{ServiceLine};
ghost use Rattle.operator_steps.specs.Steps.{Comes};
ghost use Rattle.operator_steps.specs.Tick.{TickLine};

use crate::operator::Operator;
use node_steps::NodeFault;
use ocpi_text::{CiKey, Moment};
use ocpi_types::{ChargerEvent, Packet};
use operator_planning::Planner;
use operator_rows::FullPlan;
use std::alloc::AllocError;

impl Operator {
    /// What plans its steps.
    fn planner(&self) -> Planner<'_>
        ensures { result ≡ self.now }
    {
        Planner::new(self.alloc, &self.books)
    }

    /// What becomes of a packet at a moment. Nothing changes. Refused as `on_packet` says.
    pub fn plan_packet(&self, at: Moment, packet: &Packet) -> Result<FullPlan, NodeFault>
        ensures step { IfOk result (λ x. PlannedBy (Comes self.now.state at packet.now) self.now.state (full_step_of x)) }
        ensures follows { IfOk result (λ x. MayFollowFull self.now.state (full_step_of x)) }
        ensures fault { IfErr result (IsDue self.now.state at packet.now) }
    {
        self.planner().plan_packet(at, packet)
    }

    /// What becomes of a report at a moment. Nothing changes. Refused as `on_charger` says.
    pub fn plan_charger(&self, at: Moment, report: &ChargerEvent) -> Result<FullPlan, NodeFault>
        ensures step { IfOk result (λ x. PlannedBy (ChargerLine self.now.state at report.now) self.now.state (full_step_of x)) }
        ensures follows { IfOk result (λ x. MayFollowFull self.now.state (full_step_of x)) }
        ensures fault { IfErr result (IsReportFault self.now.state at report.now) }
    {
        self.planner().plan_charger(at, report)
    }

    /// What becomes of the order to take the bill of a session back at a moment. Nothing changes. Refused as
    /// `on_credit` says.
    pub fn plan_credit(&self, at: Moment, session: CiKey<36>) -> Result<FullPlan, NodeFault>
        ensures step { IfOk result (λ x. PlannedBy (Quietly (CreditLine self.now.state at session)) self.now.state (full_step_of x)) }
        ensures follows { IfOk result (λ x. MayFollowFull self.now.state (full_step_of x)) }
        ensures fault { IfErr result (IsCreditFault self.now.state at session) }
    {
        self.planner().plan_credit(at, session)
    }

    /// What becomes of a moment. Nothing changes. Refused as `on_tick` says.
    pub fn plan_tick(&self, at: Moment) -> Result<FullPlan, NodeFault>
        ensures step { IfOk result (λ x. PlannedBy (TickLine self.now.state at) self.now.state (full_step_of x)) }
        ensures follows { IfOk result (λ x. MayFollowFull self.now.state (full_step_of x)) }
        ensures fault { IfErr result (IsOwnFault (TickLine self.now.state at) self.now.state) }
    {
        self.planner().plan_tick(at)
    }

    /// What becomes of an EVSE that goes out of service, or comes back. Nothing changes. An error is want of memory.
    pub fn plan_service(
        &self,
        evse_uid: CiKey<36>,
        in_service: bool,
    ) -> Result<FullPlan, AllocError>
        ensures step { IfOk result (λ x. PlannedBy (Quietly (ServiceLine self.now.state evse_uid in_service)) self.now.state (full_step_of x)) }
        ensures follows { IfOk result (λ x. MayFollowFull self.now.state (full_step_of x)) }
    {
        self.planner().plan_service(evse_uid, in_service)
    }
}
