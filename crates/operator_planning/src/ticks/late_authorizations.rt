//! Authorizations that get no answer in time (OCPI 2.2.1, Tokens: WhitelistType).

ghost use Rattle.std.specs.Prelude.{◌≡◌, ◌≤◌, ◌+◌, ℕ, Contains, IsTrue, length, map as list_map, IfOk, IfErr};
ghost use Rattle.std.specs.FinMap as map;
ghost use Rattle.ocpi_text.specs.Text.{key};
ghost use Rattle.ocpi_text.specs.Whole.{max_whole};
ghost use Rattle.authorization_book.specs.declared.waiting.Waiting.TheVariants.{Ends};
ghost use Rattle.node_steps.specs.Peers.{HasPeer};
ghost use Rattle.operator_steps.specs.TickFacts.{IsLeftUnanswered};
ghost use Rattle.operator_planning.specs.Happenings.{is_number, is_replaced, unreplaced};
ghost use Rattle.operator_planning.specs.Planned.{AreBeginnings, AreNewSessions, CannotNumber};
ghost use Rattle.session_tables.specs.declared.beginning.Beginning.{Beginning as BeginningOf};

use crate::planner::Planner;
use crate::sessions::Begun;
use authorization_book::Waiting;
use node_steps::NodeFault;
use ocpi_text::{Moment, Whole};
use session_tables::{Beginning, begins_without_answer};
use std::alloc::{AllocError, Global};

/// The authorizations of those numbers are awaited no more. An error is want of memory.
pub(crate) fn ended(alloc: Global, late: &[Whole]) -> Result<Vec<Waiting>, AllocError>
    ensures { IfOk result (λ waits. waits.items ≡ list_map Ends late.now) }
{
    let mut waits = Vec::with_capacity(alloc, late.len())?;
    for number in late {
        waits.push(Waiting::Ends { number: *number })?;
    }
    Ok(waits)
}

/// Whether the first version of a session replaces the push of a number.
fn replaces(begun: &Begun, number: Whole) -> bool
    ensures { result ≡ is_number begun.now.first.older number }
{
    match begun.first.older {
        None => false,
        Some(older) => older == number,
    }
}

/// Whether the first version of one of the sessions does.
pub(crate) fn is_replaced(sessions: &[Begun], number: Whole) -> bool
    ensures { result ≡ is_replaced sessions.now number }
{
    for begun in sessions {
        if replaces(begun, number) {
            return true;
        }
    }
    false
}

/// The numbers among these that none of the sessions replaces. An error is want of memory.
pub(crate) fn unreplaced(
    alloc: Global,
    numbers: &[Whole],
    sessions: &[Begun],
) -> Result<Vec<Whole>, AllocError>
    ensures { IfOk result (λ left. left.items ≡ unreplaced sessions.now numbers.now) }
{
    let mut left = Vec::with_capacity(alloc, numbers.len())?;
    for number in numbers {
        if !is_replaced(sessions, *number) {
            left.push(*number)?;
        }
    }
    Ok(left)
}

impl Planner<'_> {
    /// What begins where the authorization of a number gets no answer by a moment.
    fn beginning(&self, at: Moment, number: Whole) -> Option<Beginning>
        requires { IsTrue (map.contains_key self.now.state.waits number) }
        ensures { IsLeftUnanswered self.now.state at number result }
    {
        let Some(awaited) = self.books.waits().get(number) else {
            unreachable!()
        };
        begins_without_answer(self.books, at, awaited)
    }

    /// The sessions that begin where these authorizations get no answer by a moment, in this order. An error is want
    /// of memory.
    pub(crate) fn beginnings(
        &self,
        at: Moment,
        late: &[Whole],
    ) -> Result<Vec<Beginning>, AllocError>
        requires { (n : ℕ) → Contains late.now n → IsTrue (map.contains_key self.now.state.waits n) }
        ensures { IfOk result (λ bs. AreBeginnings self.now.state at late.now bs.items) }
    {
        let mut beginnings = Vec::new(self.alloc);
        for number in late {
            if let Some(beginning) = self.beginning(at, *number) {
                // The proof wants the types of the members named.
                let read = &beginning;
                let _location_id = read.location_id;
                beginnings.push(beginning)?;
            }
        }
        Ok(beginnings)
    }

    /// The sessions that begin so, numbered one after the other, and the number of the last session then. Refused
    /// (`NumbersUsedUp`) where that would pass the last number, and else for want of memory (`Memory`).
    pub(crate) fn all_begun(
        &self,
        at: Moment,
        beginnings: &[Beginning],
    ) -> Result<(Vec<Begun>, Whole), NodeFault>
        requires { (b : BeginningOf) → Contains beginnings.now b → HasPeer self.now.state.providers (key b.token.party) }
        ensures sessions { IfOk result (λ x. AreNewSessions self.now.state at self.now.state.rows.charged.last_session beginnings.now x.0.items) }
        ensures last { IfOk result (λ x. x.1 ≡ self.now.state.rows.charged.last_session + length beginnings.now) }
        ensures in_range { IfOk result (λ x. x.1 ≤ max_whole) }
        ensures err { IfErr result (CannotNumber self.now.state (length beginnings.now)) }
    {
        let mut last = self.books.charged().last_session();
        let _in_range = last.value();
        let mut sessions = Vec::with_capacity(self.alloc, beginnings.len())?;
        for beginning in beginnings {
            let Some(number) = last.next() else {
                return Err(NodeFault::NumbersUsedUp);
            };
            let begun = self.begun(at, number, beginning)?;
            // The proof wants the types of the members named.
            let version = &begun.first.version;
            let _total_cost = version.total_cost;
            sessions.push(begun)?;
            last = number;
        }
        Ok((sessions, last))
    }
}
