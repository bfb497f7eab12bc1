//! What plans are begun with.

ghost use Rattle.std.specs.Prelude.{◌≡◌, IfOk, IfErr, OnOk};
ghost use Rattle.node_steps.specs.Drafts.{IsInRange, StopsBy, later, opened, step_of};
ghost use Rattle.operator_rows.specs.FullSteps.{full_step_of};
ghost use Rattle.operator_steps.specs.Moves.{counters_of};
ghost use Rattle.operator_planning.specs.Planned.{quiet_step};

use crate::planner::Planner;
use node_steps::{Draft, Needs, NodeFault, Plan};
use operator_rows::FullPlan;
use std::alloc::Global;

/// A planned step with which nothing that is awaited changes. It takes no memory.
pub(crate) fn quiet(alloc: Global, plan: Plan) -> FullPlan
    ensures { full_step_of result ≡ quiet_step (step_of plan) }
{
    FullPlan {
        plan,
        waits: Vec::new(alloc),
    }
}

impl Planner<'_> {
    /// No counter passed its last number, which the types of the counters keep.
    pub(crate) fn counters_in_range(&self)
        ensures { IsInRange (counters_of self.now.state) }
    {
        self.books.counters_in_range();
    }

    /// A draft of a step that takes so many numbers.
    pub(crate) fn draft(&self, needs: Needs) -> Result<Draft, NodeFault>
        ensures ok { IfOk result (λ d. d ≡ opened self.now.state.party (counters_of self.now.state) needs.packets needs.requests) }
        ensures in_range { OnOk result (IsInRange (later (counters_of self.now.state) needs.packets needs.requests)) }
        ensures err { IfErr result (StopsBy (later (counters_of self.now.state) needs.packets needs.requests)) }
    {
        let (serial, request) = (self.books.serial(), self.books.last_request());
        Draft::open(self.alloc, self.books.party(), serial, request, needs)
    }
}
