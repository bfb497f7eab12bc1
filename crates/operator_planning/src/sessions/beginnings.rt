//! The step in which one session begins.

ghost use Rattle.std.specs.Prelude.{◌≡◌, ◌+◌, Contains, length, IfOk, IfErr, OnOk};
ghost use Rattle.ocpi_text.specs.Text.{key};
ghost use Rattle.node_steps.specs.Drafts.{HasNumbers, step_of, with_acts};
ghost use Rattle.node_steps.specs.Peers.{HasPeer};
ghost use Rattle.operator_steps.specs.declared.ending.Ending.{Ending as EndingOf};
ghost use Rattle.operator_steps.specs.Ends.{IsOpen};
ghost use Rattle.operator_planning.specs.Planned.{BeginsWith, PlansActs, StopsLine, begins_acts};

use crate::changes::{CHANGES_BEFORE_A_BEGINNING, CHANGES_OF_A_BEGINNING};
use crate::packets::command_acts::add_spent;
use crate::planner::Planner;
use crate::sessions::{Begun, add_begun, add_number};
use node_steps::{Draft, Needs, NodeFault, Plan};
use ocpi_text::{CiText, Moment, Whole};
use ocpi_types::Counter;
use operator_steps::Ending;
use session_tables::Beginning;
use std::alloc::AllocError;

impl Planner<'_> {
    /// Adds that the session of a number begins, after these commands end and a reference of its provider is spent.
    fn add_beginning(
        &self,
        draft: &mut Draft,
        at: Moment,
        ends: &[Ending],
        reference: Option<CiText<36>>,
        number: Whole,
        begun: &Begun,
    ) -> Result<(), AllocError>
        requires open { (e : EndingOf) → Contains ends.now e → IsOpen self.now.state.rows e }
        requires numbers { HasNumbers (length ends.now + 1) (length ends.now + 1) draft.old }
        ensures { OnOk result (draft.new ≡ with_acts (begins_acts at self.now.state.rows.commands.pending draft.old.counters.request number ends.now reference begun.now) draft.old) }
    {
        add_number(draft, Counter::Session, number)?;
        self.add_ends(draft, at, ends)?;
        add_spent(draft, begun.provider, reference)?;
        add_begun(self.alloc, draft, at, begun)
    }

    /// The step in which a session begins, after these commands end and a reference of its provider is spent. Refused
    /// (`NumbersUsedUp`) where a counter would pass its last number, and else for want of memory (`Memory`).
    pub(crate) fn plan_begun(
        &self,
        at: Moment,
        ends: &[Ending],
        reference: Option<CiText<36>>,
        beginning: &Beginning,
    ) -> Result<Plan, NodeFault>
        requires open { (e : EndingOf) → Contains ends.now e → IsOpen self.now.state.rows e }
        requires provider { HasPeer self.now.state.providers (key beginning.now.token.party) }
        ensures ok { IfOk result (λ x. PlansActs (BeginsWith self.now.state at ends.now reference beginning.now) self.now.state (step_of x)) }
        ensures err { IfErr result (StopsLine (BeginsWith self.now.state at ends.now reference beginning.now) self.now.state) }
    {
        let number = self.next_session()?;
        let mut draft = self.draft(Needs {
            packets: ends.len() + 1,
            requests: ends.len() + 1,
            changes: CHANGES_BEFORE_A_BEGINNING + CHANGES_OF_A_BEGINNING,
        })?;
        let begun = self.begun(at, number, beginning)?;
        // The proof wants the types of the members named.
        let version = &begun.first.version;
        let _total_cost = version.total_cost;
        self.add_beginning(&mut draft, at, ends, reference, number, &begun)?;
        Ok(draft.into_plan())
    }
}
