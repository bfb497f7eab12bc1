//! What a charge point's report makes of a session (OCPI 2.2.1, Sessions: Session object, SessionStatus).

ghost use Rattle.std.specs.Prelude.{◌≡◌, ◌≢◌, ◌≤◌, IfOk, IfErr, OnOk};
ghost use Rattle.ocpi_text.specs.Text.{key};
ghost use Rattle.ocpi_text.specs.Whole.{max_whole};
ghost use Rattle.ocpi_types.specs.declared.words.SessionStatus.TheVariants.{Completed};
ghost use Rattle.node_steps.specs.Drafts.{step_of};
ghost use Rattle.node_steps.specs.Peers.{HasPeer};
ghost use Rattle.site_book.specs.Sites.{IsConnectorOf};
ghost use Rattle.operator_steps.specs.Moves.{AreInRange, step_of_acts};
ghost use Rattle.operator_planning.specs.Bills.{IsRecorded, StopsEarly, completed_acts};
ghost use Rattle.operator_planning.specs.Planned.{PlansActs, StopsActs, version_acts};

use crate::changes::{CHANGES_OF_A_BILL, CHANGES_OF_A_VERSION};
use crate::planner::Planner;
use crate::reports::bills::{Bill, add_bill};
use crate::sessions::{Versioned, add_version};
use node_steps::{Needs, NodeFault, Plan};
use ocpi_text::Moment;
use ocpi_types::Session;
use session_state::CdrDraft;

impl Planner<'_> {
    /// The step of a version that is not completed.
    fn plan_version(&self, at: Moment, versioned: &Versioned) -> Result<Plan, NodeFault>
        ensures ok { IfOk result (λ x. step_of x ≡ step_of_acts self.now.state (version_acts at self.now.state.rows.request versioned.now)) }
        ensures in_range { OnOk result (AreInRange self.now.state (version_acts at self.now.state.rows.request versioned.now)) }
        ensures err { IfErr result (StopsActs self.now.state (version_acts at self.now.state.rows.request versioned.now)) }
    {
        let mut draft = self.draft(Needs {
            packets: 1,
            requests: 1,
            changes: CHANGES_OF_A_VERSION,
        })?;
        add_version(self.alloc, &mut draft, at, versioned)?;
        Ok(draft.into_plan())
    }

    /// The step of a completed version, with its charge detail record.
    fn plan_bill(&self, at: Moment, versioned: &Versioned, bill: Bill) -> Result<Plan, NodeFault>
        requires { bill.number ≤ max_whole }
        ensures ok { IfOk result (λ x. step_of x ≡ step_of_acts self.now.state (completed_acts at self.now.state.rows.request versioned.now bill)) }
        ensures in_range { OnOk result (AreInRange self.now.state (completed_acts at self.now.state.rows.request versioned.now bill)) }
        ensures err { IfErr result (StopsActs self.now.state (completed_acts at self.now.state.rows.request versioned.now bill)) }
    {
        let mut draft = self.draft(Needs {
            packets: 2,
            requests: 2,
            changes: CHANGES_OF_A_VERSION + CHANGES_OF_A_BILL,
        })?;
        add_version(self.alloc, &mut draft, at, versioned)?;
        add_bill(self.alloc, &mut draft, at, versioned.to, bill)?;
        Ok(draft.into_plan())
    }

    /// The step in which a session goes on, or ends before it is charged: its new version is pushed and stored. Refused
    /// (`NumbersUsedUp`) where a counter would pass its last number, and else for want of memory (`Memory`).
    pub(crate) fn plan_going(&self, at: Moment, version: &Session) -> Result<Plan, NodeFault>
        requires provider { HasPeer self.now.state.providers (key version.now.cdr_token.party) }
        requires going { version.now.status ≢ Completed }
        ensures ok { IfOk result (λ x. PlansActs (IsRecorded self.now.state at version.now) self.now.state (step_of x)) }
        ensures err { IfErr result (StopsEarly (IsRecorded self.now.state at version.now) self.now.state) }
    {
        // The proof wants the types of the members named.
        let _total_cost = version.total_cost;
        let _end_date_time = version.end_date_time;
        let _reference = version.authorization_reference;
        let versioned = self.versioned(version)?;
        self.plan_version(at, &versioned)
    }

    /// The step in which a session is completed: its last version and its charge detail record are pushed and stored.
    /// The draft is spent. Refused (`NumbersUsedUp`) where a counter would pass its last number, and else for want of
    /// memory (`Memory`).
    pub(crate) fn plan_completed(
        &self,
        at: Moment,
        version: &Session,
        draft: CdrDraft,
    ) -> Result<Plan, NodeFault>
        requires provider { HasPeer self.now.state.providers (key version.now.cdr_token.party) }
        requires place { IsConnectorOf self.now.state.site.locations (key version.now.evse_uid) (key version.now.connector_id) }
        requires completed { version.now.status ≡ Completed }
        requires drafted { draft ≡ version.now }
        ensures ok { IfOk result (λ x. PlansActs (IsRecorded self.now.state at version.now) self.now.state (step_of x)) }
        ensures err { IfErr result (StopsEarly (IsRecorded self.now.state at version.now) self.now.state) }
    {
        let bill = self.bill(version, draft)?;
        let versioned = self.versioned(version)?;
        self.plan_bill(at, &versioned, bill)
    }
}
