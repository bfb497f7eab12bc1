//! Sessions that begin, and their versions (OCPI 2.2.1, Sessions: Sender interface).

ghost use Rattle.std.specs.Prelude.{◌≡◌, ◌≤◌, ◌+◌, ◌∷◌, [], ℕ, Option, IfOk, IfErr, OnOk};
ghost use Rattle.ocpi_text.specs.Text.{key};
ghost use Rattle.ocpi_text.specs.Whole.{max_whole};
ghost use Rattle.ocpi_types.specs.declared.rows.Row.TheVariants as row;
ghost use Rattle.ocpi_types.specs.declared.rows.Change.TheVariants as change;
ghost use Rattle.ocpi_types.specs.declared.stored.Push.TheVariants as push;
ghost use Rattle.node_steps.specs.Acts.{changed, pushed};
ghost use Rattle.node_steps.specs.Drafts.{HasNumbers, HasNumbersOf, with_acts};
ghost use Rattle.node_steps.specs.Peers.{HasPeer};
ghost use Rattle.node_steps.specs.declared.fault.NodeFault.TheVariants.{NumbersUsedUp};
ghost use Rattle.operator_steps.specs.Sessions.{first_of, replaced};
ghost use Rattle.operator_planning.specs.Planned.{IsNewSession, IsNewVersion, all_begun, begun_acts, version_acts};

mod beginnings;

use crate::packets::command_acts::add_used;
use crate::planner::Planner;
use node_steps::{Draft, NodeFault, find_peer};
use ocpi_text::{CiKey, Moment, Party, PartyKey, Whole};
use ocpi_types::{Boxed, Change, Counter, Push, Row, Session};
use session_state::start;
use session_tables::{Beginning, opening};
use std::alloc::{AllocError, Global};

/// A version of a session, with where it is pushed.
#[derive(Clone, Copy)]
pub(crate) struct Versioned {
    /// The provider of its token, as the site spells it.
    pub to: Party,
    /// The number of the push of an older version, which it replaces.
    pub older: Option<Whole>,
    pub version: Session,
}

/// A session that begins.
#[derive(Clone, Copy)]
pub(crate) struct Begun {
    pub provider: PartyKey,
    /// The reservation of the provider that it uses, and that ends.
    pub reservation_id: Option<CiKey<36>>,
    pub first: Versioned,
}

/// Adds that a counter gave a number last.
pub(crate) fn add_number(draft: &mut Draft, counter: Counter, last: Whole) -> Result<(), AllocError>
    ensures { OnOk result (draft.new ≡ with_acts (changed (change.Put (row.Count counter last)) ∷ []) draft.old) }
{
    draft.change(Change::Put(Row::Count { counter, last }))
}

/// Adds that the push of an older version, where one stands, is sent no more.
fn add_replaced(draft: &mut Draft, older: Option<Whole>) -> Result<(), AllocError>
    ensures { OnOk result (draft.new ≡ with_acts (replaced older) draft.old) }
{
    match older {
        None => Ok(()),
        Some(number) => draft.acknowledge(number),
    }
}

/// Adds that a version of a session is pushed to a party.
fn add_pushed(
    draft: &mut Draft,
    at: Moment,
    to: Party,
    version: &Boxed<Session>,
) -> Result<(), AllocError>
    requires { HasNumbers 1 1 draft.old }
    ensures { OnOk result (draft.new ≡ with_acts (pushed at (draft.old.counters.request + 1) to (push.PutSession version.now) ∷ []) draft.old) }
{
    let sent = version.copy()?;
    draft.push(at, to, Push::PutSession(sent))
}

/// Adds that a version of a session is stored.
fn add_stored(draft: &mut Draft, session: Boxed<Session>) -> Result<(), AllocError>
    ensures { OnOk result (draft.new ≡ with_acts (changed (change.Put (row.Session session)) ∷ []) draft.old) }
{
    draft.change(Change::Put(Row::Session { session }))
}

/// Adds a version of a session: it is pushed in place of an older one, and stored.
pub(crate) fn add_version(
    alloc: Global,
    draft: &mut Draft,
    at: Moment,
    versioned: &Versioned,
) -> Result<(), AllocError>
    requires { HasNumbers 1 1 draft.old }
    ensures { OnOk result (draft.new ≡ with_acts (version_acts at draft.old.counters.request versioned.now) draft.old) }
{
    add_replaced(draft, versioned.older)?;
    // The proof wants the types of the members named.
    let version = &versioned.version;
    let _total_cost = version.total_cost;
    let _end_date_time = version.end_date_time;
    let _reference = version.authorization_reference;
    let stored = Boxed::new(alloc, *version)?;
    add_pushed(draft, at, versioned.to, &stored)?;
    add_stored(draft, stored)
}

/// Adds that a session begins: the reservation that it uses, where it uses one, ends, and its first version is pushed
/// and stored.
pub(crate) fn add_begun(
    alloc: Global,
    draft: &mut Draft,
    at: Moment,
    begun: &Begun,
) -> Result<(), AllocError>
    requires { HasNumbers 1 1 draft.old }
    ensures { OnOk result (draft.new ≡ with_acts (begun_acts at draft.old.counters.request begun.now) draft.old) }
{
    add_used(draft, begun.provider, begun.reservation_id)?;
    add_version(alloc, draft, at, &begun.first)
}

/// Adds that sessions begin, one after the other.
pub(crate) fn add_all_begun(
    alloc: Global,
    draft: &mut Draft,
    at: Moment,
    sessions: &[Begun],
) -> Result<(), AllocError>
    requires { HasNumbersOf (all_begun at draft.old.counters.request sessions.now) draft.old }
    ensures { OnOk result (draft.new ≡ with_acts (all_begun at draft.old.counters.request sessions.now) draft.old) }
{
    for begun in sessions {
        add_begun(alloc, draft, at, begun)?;
    }
    Ok(())
}

impl Planner<'_> {
    /// The number of the next session. Refused (`NumbersUsedUp`) where the last one has the greatest number.
    pub(crate) fn next_session(&self) -> Result<Whole, NodeFault>
        ensures ok { IfOk result (λ n. n ≡ self.now.state.rows.charged.last_session + 1) }
        ensures in_range { IfOk result (λ n. n ≤ max_whole) }
        ensures err { IfErr result (λ e. (e ≡ NumbersUsedUp) × (max_whole ≤ self.now.state.rows.charged.last_session)) }
    {
        match self.books.charged().last_session().next() {
            Some(number) => Ok(number),
            None => Err(NodeFault::NumbersUsedUp),
        }
    }

    /// The first version of the session of a number.
    fn first_version(&self, at: Moment, number: Whole, beginning: &Beginning) -> Session
        ensures { result ≡ first_of self.now.state at number beginning.now }
    {
        let site = self.books.site_book().site();
        let session = start(
            opening(self.books.party(), site, number, beginning),
            at,
            site.price_at(at),
        );
        *session.version()
    }

    /// A version of a session, with where it is pushed. An error is want of memory.
    pub(crate) fn versioned(&self, version: &Session) -> Result<Versioned, AllocError>
        requires { HasPeer self.now.state.providers (key version.now.cdr_token.party) }
        ensures { IfOk result (λ x. IsNewVersion self.now.state version.now x) }
    {
        let Some(to) = find_peer(self.books.providers(), &version.cdr_token.party) else {
            unreachable!()
        };
        let push = Push::PutSession(Boxed::new(self.alloc, *version)?);
        Ok(Versioned {
            to: *to,
            older: self.books.outbox().replaced(to, &push),
            version: *version,
        })
    }

    /// The session of a number that begins at a moment. An error is want of memory.
    pub(crate) fn begun(
        &self,
        at: Moment,
        number: Whole,
        beginning: &Beginning,
    ) -> Result<Begun, AllocError>
        requires { HasPeer self.now.state.providers (key beginning.now.token.party) }
        ensures { IfOk result (λ x. IsNewSession self.now.state at number beginning.now x) }
    {
        let version = self.first_version(at, number, beginning);
        let first = self.versioned(&version)?;
        Ok(Begun {
            provider: beginning.token.party.key(),
            reservation_id: beginning.reservation_id,
            first,
        })
    }
}
