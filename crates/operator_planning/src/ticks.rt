//! What the time does at an operator.

ghost use Rattle.std.specs.Prelude.{◌≡◌, ◌≤◌, ◌+◌, Contains, length, map, IfOk, IfErr, OnOk};
ghost use Rattle.ocpi_text.specs.Whole.{max_whole};
ghost use Rattle.ocpi_types.specs.declared.rows.Counter.TheVariants as counter;
ghost use Rattle.authorization_book.specs.Waits as waits;
ghost use Rattle.outbox.specs.Due.{AreExactly};
ghost use Rattle.node_steps.specs.Acts.{changed};
ghost use Rattle.node_steps.specs.Drafts.{HasNumbersOf, count_change, step_of, with_acts};
ghost use Rattle.operator_rows.specs.FullSteps.{full_step_of};
ghost use Rattle.operator_rows.specs.Steps.{MayFollowFull};
ghost use Rattle.operator_steps.specs.declared.ending.Ending.{Ending as EndingOf};
ghost use Rattle.operator_steps.specs.Ends.{IsOpen};
ghost use Rattle.operator_steps.specs.Faults.{IsOwnFault};
ghost use Rattle.operator_steps.specs.Moves.{AreInRange, PlannedBy, step_of_acts};
ghost use Rattle.operator_steps.specs.Tick.{TickLine, TimeOut};
ghost use Rattle.operator_planning.specs.Happenings.{AreDueAt, BeginAt, HappenWith, IsHappening, happening_acts};
ghost use Rattle.operator_planning.specs.Planned.{StopsActs};
ghost use Rattle.operator_planning.specs.Requests.{AllStand};

mod late_authorizations;

use crate::changes::{CHANGES_OF_A_BEGINNING, CHANGES_OF_AN_END};
use crate::command_ends::add_expired;
use crate::planner::Planner;
use crate::sessions::{Begun, add_all_begun, add_number};
use crate::ticks::late_authorizations::{ended, unreplaced};
use node_steps::{Draft, Needs, NodeFault, Plan};
use ocpi_text::{Moment, Whole};
use ocpi_types::{CommandResultType, Counter};
use operator_rows::FullPlan;
use operator_steps::Ending;
use reservation_book::Standing;
use session_tables::Beginning;
use std::alloc::AllocError;

/// What is due at a moment, as it stands before it.
#[derive(Drop)]
struct Due {
    /// The commands that end by a timeout.
    ends: Vec<Ending>,
    /// The reservations that end.
    expired: Vec<Standing>,
    /// The pushes that are sent again, those included that sessions which begin replace.
    pushes: Vec<Whole>,
}

/// What happens at a moment, as all is read before it.
#[derive(Drop)]
struct Happening {
    due: Due,
    /// The sessions that begin.
    begun: Vec<Begun>,
    /// The number of the last session, with these.
    last: Whole,
    /// The pushes that are sent again.
    resent: Vec<Whole>,
}

/// What the acts of a moment take: the ends of commands and reservations, sessions that begin, and pushes that are
/// sent again.
fn needs(ends: &[Ending], expired: &[Standing], begun: &[Begun], resent: &[Whole]) -> Needs
    ensures packets { result.packets ≡ (length ends.now + length begun.now) + length resent.now }
    ensures requests { result.requests ≡ length ends.now + length begun.now }
{
    let changes = CHANGES_OF_AN_END * ends.len() + CHANGES_OF_A_BEGINNING * begun.len();
    Needs {
        packets: ends.len() + begun.len() + resent.len(),
        requests: ends.len() + begun.len(),
        changes: changes + expired.len(),
    }
}

impl Planner<'_> {
    /// The timeouts of the open commands whose deadline is at or before a moment, by provider and then by number.
    fn timed_out(&self, at: Moment) -> Result<Vec<Ending>, AllocError>
        ensures { IfOk result (λ ends. TimeOut self.now.state at ends.items) }
    {
        self.consistency();
        let due = self.books.commands().due(self.alloc, at)?;
        let mut ends = Vec::with_capacity(self.alloc, due.len())?;
        for (provider, number) in due.as_slice() {
            if let Some(ending) = self.ending(*provider, *number, CommandResultType::Timeout) {
                ends.push(ending)?;
            }
        }
        Ok(ends)
    }

    /// Adds the counter of sessions, where it gave a number.
    fn add_last_session(&self, draft: &mut Draft, last: Whole) -> Result<(), AllocError>
        ensures { OnOk result (draft.new ≡ with_acts (map changed (count_change counter.Session self.now.state.rows.charged.last_session last)) draft.old) }
    {
        if last == self.books.charged().last_session() {
            return Ok(());
        }
        add_number(draft, Counter::Session, last)
    }

    /// Adds what happens at a moment.
    fn add_all(&self, draft: &mut Draft, at: Moment, all: &Happening) -> Result<(), AllocError>
        requires open { (e : EndingOf) → Contains all.now.due.ends.items e → IsOpen self.now.state.rows e }
        requires numbered { draft.old.counters.request ≡ self.now.state.rows.request }
        requires numbers { HasNumbersOf (happening_acts at self.now.state all.now) draft.old }
        ensures { OnOk result (draft.new ≡ with_acts (happening_acts at self.now.state all.now) draft.old) }
    {
        self.add_ends(draft, at, all.due.ends.as_slice())?;
        add_expired(draft, all.due.expired.as_slice())?;
        self.add_last_session(draft, all.last)?;
        add_all_begun(self.alloc, draft, at, all.begun.as_slice())?;
        self.add_all_resent(draft, at, all.resent.as_slice())
    }

    /// The step of what happens at a moment.
    fn plan_all(&self, at: Moment, all: &Happening) -> Result<Plan, NodeFault>
        requires open { (e : EndingOf) → Contains all.now.due.ends.items e → IsOpen self.now.state.rows e }
        requires stand { AllStand self.now.state.rows.pushes all.now.resent.items }
        requires number { all.now.last ≤ max_whole }
        ensures ok { IfOk result (λ x. step_of x ≡ step_of_acts self.now.state (happening_acts at self.now.state all.now)) }
        ensures in_range { OnOk result (AreInRange self.now.state (happening_acts at self.now.state all.now)) }
        ensures err { IfErr result (StopsActs self.now.state (happening_acts at self.now.state all.now)) }
    {
        let mut draft = self.draft(needs(
            all.due.ends.as_slice(),
            all.due.expired.as_slice(),
            all.begun.as_slice(),
            all.resent.as_slice(),
        ))?;
        self.add_all(&mut draft, at, all)?;
        Ok(draft.into_plan())
    }

    /// What is due at a moment. An error is want of memory.
    fn due_at(&self, at: Moment) -> Result<Due, AllocError>
        ensures { IfOk result (λ x. AreDueAt self.now.state at x) }
    {
        let ends = self.timed_out(at)?;
        let expired = self.books.booked().expired(self.alloc, at)?;
        let pushes = self.books.outbox().due(self.alloc, at)?;
        Ok(Due {
            ends,
            expired,
            pushes,
        })
    }

    /// What happens at a moment, at which these sessions begin where late authorizations got no answer. Refused
    /// (`NumbersUsedUp`) where they would pass the last number, and else for want of memory (`Memory`).
    fn happens(&self, at: Moment, beginnings: &[Beginning]) -> Result<Happening, NodeFault>
        requires { BeginAt self.now.state at beginnings.now }
        ensures ok { IfOk result (λ all. HappenWith self.now.state at beginnings.now all) }
        ensures err { IfErr result (IsOwnFault (TickLine self.now.state at) self.now.state) }
    {
        self.consistency();
        let due = self.due_at(at)?;
        let (begun, last) = self.all_begun(at, beginnings)?;
        let resent = unreplaced(self.alloc, due.pushes.as_slice(), begun.as_slice())?;
        Ok(Happening {
            due,
            begun,
            last,
            resent,
        })
    }

    /// What happens at a moment, at which these authorizations are late. Refused as `happens` says.
    fn happening(&self, at: Moment, late: &[Whole]) -> Result<Happening, NodeFault>
        requires { AreExactly (waits.IsDue self.now.state.waits at) late.now }
        ensures ok { IfOk result (λ all. IsHappening self.now.state at late.now all) }
        ensures err { IfErr result (IsOwnFault (TickLine self.now.state at) self.now.state) }
    {
        let beginnings = self.beginnings(at, late)?;
        self.happens(at, beginnings.as_slice())
    }

    /// What becomes of a moment. Nothing changes. Refused as `on_tick` of `operator_core` says.
    pub fn plan_tick(&self, at: Moment) -> Result<FullPlan, NodeFault>
        ensures step { IfOk result (λ x. PlannedBy (TickLine self.now.state at) self.now.state (full_step_of x)) }
        ensures follows { IfOk result (λ x. MayFollowFull self.now.state (full_step_of x)) }
        ensures fault { IfErr result (IsOwnFault (TickLine self.now.state at) self.now.state) }
    {
        self.consistency();
        let late = self.books.waits().due(self.alloc, at)?;
        let all = self.happening(at, late.as_slice())?;
        let plan = self.plan_all(at, &all)?;
        let waits = ended(self.alloc, late.as_slice())?;
        Ok(FullPlan { plan, waits })
    }
}
