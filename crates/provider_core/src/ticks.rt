//! What the time does at a provider. Nothing is changed here.

ghost use Rattle.std.specs.Prelude.{◌≡◌, IfOk, IfErr, OnOk};
ghost use Rattle.std.specs.FinMap as map;
ghost use Rattle.outbox.specs.Due.{AreExactly, IsDue};
ghost use Rattle.node_steps.specs.Drafts.{HasNumbersOf, IsInRange, StopsBy, counted, step_of, with_acts};
ghost use Rattle.provider_rows.specs.Steps.{MayFollow};
ghost use Rattle.provider_steps.specs.Faults.{IsTickFault};
ghost use Rattle.provider_steps.specs.Moves.{PlannedBy, counters_of, step_of_acts};
ghost use Rattle.provider_steps.specs.Tick.{TickLine, all_resent, resent_acts};

use crate::provider::Provider;
use node_steps::{Draft, Needs, NodeFault, Plan};
use ocpi_text::{Moment, Whole};
use provider_steps::facts;
use std::alloc::AllocError;

impl Provider {
    /// Adds that the request of a number, a push or a command, is sent again, if it stands, to its operator as the
    /// provider spells it now.
    fn add_resent(&self, draft: &mut Draft, at: Moment, number: Whole) -> Result<(), AllocError>
        requires { HasNumbersOf (resent_acts self.now.state.operators at number (map.get self.now.state.rows.outbox.pushes number) (map.get self.now.state.rows.outbox.commands number)) draft.old }
        ensures { OnOk result (draft.new ≡ with_acts (resent_acts self.now.state.operators at number (map.get self.now.state.rows.outbox.pushes number) (map.get self.now.state.rows.outbox.commands number)) draft.old) }
    {
        if let Some(outgoing) = self.books.outbox().get(number) {
            return draft.resend(self.books.operators(), at, number, outgoing);
        }
        match self.books.outbox().command(number) {
            None => Ok(()),
            Some(command) => draft.resend_command(self.books.operators(), at, number, command),
        }
    }

    /// Adds that requests are sent again, one after the other.
    fn add_all_resent(
        &self,
        draft: &mut Draft,
        at: Moment,
        numbers: &[Whole],
    ) -> Result<(), AllocError>
        requires { HasNumbersOf (all_resent self.now.state.operators at self.now.state.rows.outbox numbers.now) draft.old }
        ensures { OnOk result (draft.new ≡ with_acts (all_resent self.now.state.operators at self.now.state.rows.outbox numbers.now) draft.old) }
    {
        for number in numbers {
            self.add_resent(draft, at, *number)?;
        }
        Ok(())
    }

    /// The step in which the requests that are due are sent again.
    fn plan_resent(&self, at: Moment, due: &[Whole]) -> Result<Plan, NodeFault>
        requires { AreExactly (IsDue self.now.state.rows.outbox self.now.state.resend at) due.now }
        ensures ok { IfOk result (λ x. step_of x ≡ step_of_acts self.now.state (all_resent self.now.state.operators at self.now.state.rows.outbox due.now)) }
        ensures in_range { OnOk result (IsInRange (counted (counters_of self.now.state) (all_resent self.now.state.operators at self.now.state.rows.outbox due.now))) }
        ensures err { IfErr result (StopsBy (counted (counters_of self.now.state) (all_resent self.now.state.operators at self.now.state.rows.outbox due.now))) }
    {
        let mut draft = self.draft(Needs {
            packets: due.len(),
            requests: 0,
            changes: 0,
        })?;
        self.add_all_resent(&mut draft, at, due)?;
        Ok(draft.into_plan())
    }

    /// What becomes of a moment. Nothing changes. Refused as `on_tick` says.
    pub fn plan_tick(&self, at: Moment) -> Result<Plan, NodeFault>
        ensures step { IfOk result (λ x. PlannedBy (TickLine self.now.state at) self.now.state (step_of x)) }
        ensures follows { IfOk result (λ x. MayFollow self.now.state (step_of x)) }
        ensures fault { IfErr result (IsTickFault self.now.state at) }
    {
        self.books.consistency();
        facts::ticks_may_follow();
        let due = self.books.outbox().due(self.alloc, at)?;
        self.plan_resent(at, due.as_slice())
    }
}
