//! How open commands end, reservations expire, and pushes are sent again (OCPI 2.2.1, Commands: CommandResult).

ghost use Rattle.std.specs.Prelude.{◌≡◌, ℕ, List, Some, Contains, OnOk, IfOk, IfSome, IfNone};
ghost use Rattle.std.specs.FinMap as map;
ghost use Rattle.ocpi_text.specs.Text.{key};
ghost use Rattle.node_steps.specs.Drafts.{HasNumbers, HasNumbersOf, with_acts};
ghost use Rattle.operator_steps.specs.declared.ending.Ending.{Ending as EndingOf};
ghost use Rattle.operator_steps.specs.Ends.{
  IsOpen,
  IsOfSite,
  all_resent,
  end_acts,
  ends_acts,
  expired_acts,
  resent_acts,
};
ghost use Rattle.operator_planning.specs.Requests.{told_of_end};

use crate::packets::bodies::told;
use crate::planner::Planner;
use node_steps::{Draft, peer_of};
use ocpi_text::{Moment, PartyKey, Whole};
use ocpi_types::{Change, CommandResult, CommandResultType, Push, Row, RowKey};
use operator_steps::Ending;
use reservation_book::Standing;
use std::alloc::AllocError;

/// Adds that reservations end, of which nobody is told.
pub fn add_expired(draft: &mut Draft, expired: &[Standing]) -> Result<(), AllocError>
    ensures { OnOk result (draft.new ≡ with_acts (expired_acts expired.now) draft.old) }
{
    for standing in expired {
        draft.change(Change::Drop(RowKey::Reservation {
            provider: standing.provider,
            reservation_id: standing.id,
        }))?;
    }
    Ok(())
}

impl Planner<'_> {
    /// How the command of that number of a provider ends by a result. None, where it is no provider of the site.
    pub(crate) fn ending(
        &self,
        provider: PartyKey,
        number: Whole,
        outcome: CommandResultType,
    ) -> Option<Ending>
        ensures is { IfSome result (λ e. (e.provider ≡ provider) × (e.number ≡ number) × (e.result ≡ outcome)) }
        ensures of_site { IfSome result (IsOfSite self.now.state.providers) }
        ensures none { IfNone result ((p : List ℕ) → Contains self.now.state.providers p → key p ≡ provider → ⊥) }
    {
        let to = peer_of(self.books.providers(), provider)?;
        Some(Ending {
            provider,
            to: *to,
            number,
            result: outcome,
        })
    }

    /// What the provider of an open command is told of how it ended. None, where it is not open.
    fn told(&self, ending: &Ending) -> Result<Option<CommandResult>, AllocError>
        ensures { IfOk result (λ o. IsOpen self.now.state.rows ending.now → o ≡ Some (told_of_end self.now.state.rows ending.now)) }
    {
        let Some(open) = self.books.commands().opened(ending.provider, ending.number) else {
            return Ok(None);
        };
        let told = told(&open.command, ending.result)?;
        Ok(Some(told))
    }

    /// Adds the end of an open command: its result is pushed, and kept.
    fn add_end(&self, draft: &mut Draft, at: Moment, ending: &Ending) -> Result<(), AllocError>
        requires stands { IsOpen self.now.state.rows ending.now }
        requires numbers { HasNumbers 1 1 draft.old }
        ensures { OnOk result (draft.new ≡ with_acts (end_acts at self.now.state.rows.commands.pending draft.old.counters.request ending.now) draft.old) }
    {
        let Some(told) = self.told(ending)? else {
            return Ok(());
        };
        let (provider, number) = (ending.provider, ending.number);
        draft.change(Change::Drop(RowKey::Pending { provider, number }))?;
        draft.push(at, ending.to, Push::CommandResult(told))?;
        draft.change(Change::Put(Row::Result {
            provider,
            number,
            result: ending.result,
        }))
    }

    /// Adds the ends of open commands, one after the other.
    pub(crate) fn add_ends(
        &self,
        draft: &mut Draft,
        at: Moment,
        ends: &[Ending],
    ) -> Result<(), AllocError>
        requires stand { (e : EndingOf) → Contains ends.now e → IsOpen self.now.state.rows e }
        requires numbers { HasNumbersOf (ends_acts at self.now.state.rows.commands.pending draft.old.counters.request ends.now) draft.old }
        ensures { OnOk result (draft.new ≡ with_acts (ends_acts at self.now.state.rows.commands.pending draft.old.counters.request ends.now) draft.old) }
    {
        for ending in ends {
            self.add_end(draft, at, ending)?;
        }
        Ok(())
    }

    /// Adds that the push of a number is sent again, if it stands, to its provider as the site spells it.
    fn add_resent(&self, draft: &mut Draft, at: Moment, number: Whole) -> Result<(), AllocError>
        requires { HasNumbersOf (resent_acts self.now.state.providers at number (map.get self.now.state.rows.pushes number)) draft.old }
        ensures { OnOk result (draft.new ≡ with_acts (resent_acts self.now.state.providers at number (map.get self.now.state.rows.pushes number)) draft.old) }
    {
        match self.books.outbox().get(number) {
            None => Ok(()),
            Some(outgoing) => draft.resend(self.books.providers(), at, number, outgoing),
        }
    }

    /// Adds that pushes are sent again, one after the other.
    pub(crate) fn add_all_resent(
        &self,
        draft: &mut Draft,
        at: Moment,
        numbers: &[Whole],
    ) -> Result<(), AllocError>
        requires { HasNumbersOf (all_resent self.now.state.providers at self.now.state.rows.pushes numbers.now) draft.old }
        ensures { OnOk result (draft.new ≡ with_acts (all_resent self.now.state.providers at self.now.state.rows.pushes numbers.now) draft.old) }
    {
        for number in numbers {
            self.add_resent(draft, at, *number)?;
        }
        Ok(())
    }
}
