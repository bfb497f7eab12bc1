//! An EVSE goes out of service, or comes back.

ghost use Rattle.std.specs.Prelude.{◌∷◌, [], IfOk, IfSome, IfNone};
ghost use Rattle.node_steps.specs.Acts.{changed};
ghost use Rattle.operator_rows.specs.Steps.{MayFollowFull};
ghost use Rattle.operator_rows.specs.FullSteps.{full_step_of};
ghost use Rattle.operator_steps.specs.Moves.{PlannedBy, Quietly};
ghost use Rattle.operator_steps.specs.Service.{ServiceLine};

use crate::planner::Planner;
use crate::plans::quiet;
use node_steps::Plan;
use ocpi_text::CiKey;
use ocpi_types::{Change, Row, RowKey};
use operator_rows::FullPlan;
use std::alloc::AllocError;

impl Planner<'_> {
    /// The change that puts an EVSE of the site in service or out of it, where it is not yet so.
    fn service_change(&self, evse_uid: CiKey<36>, in_service: bool) -> Option<Change>
        ensures change { IfSome result (λ c. ServiceLine self.now.state evse_uid in_service (changed c ∷ [])) }
        ensures none { IfNone result (ServiceLine self.now.state evse_uid in_service []) }
    {
        let site = self.books.site_book();
        if !site.has_evse(evse_uid) || site.works(evse_uid) == in_service {
            return None;
        }
        if in_service {
            Some(Change::Drop(RowKey::Service { evse_uid }))
        } else {
            Some(Change::Put(Row::Service { evse_uid }))
        }
    }

    /// What becomes of an EVSE that goes out of service, or comes back. Nothing changes. An error is want of memory.
    pub fn plan_service(
        &self,
        evse_uid: CiKey<36>,
        in_service: bool,
    ) -> Result<FullPlan, AllocError>
        ensures step { IfOk result (λ x. PlannedBy (Quietly (ServiceLine self.now.state evse_uid in_service)) self.now.state (full_step_of x)) }
        ensures follows { IfOk result (λ x. MayFollowFull self.now.state (full_step_of x)) }
    {
        self.consistency();
        self.counters_in_range();
        match self.service_change(evse_uid, in_service) {
            Some(change) => Ok(quiet(self.alloc, Plan::one(self.alloc, change)?)),
            None => Ok(quiet(self.alloc, Plan::nothing(self.alloc))),
        }
    }
}
