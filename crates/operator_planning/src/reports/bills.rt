//! Charge detail records (OCPI 2.2.1, CDRs: Sender interface).

ghost use Rattle.std.specs.Prelude.{◌≡◌, ◌+◌, ◌∷◌, [], IfOk, IfErr, OnOk};
ghost use Rattle.ocpi_text.specs.OwnIds.{own_id_text};
ghost use Rattle.ocpi_text.specs.Text.{key};
ghost use Rattle.ocpi_text.specs.declared.own_ids.OwnIdKind.TheVariants as own;
ghost use Rattle.ocpi_types.specs.declared.rows.Change.TheVariants as change;
ghost use Rattle.ocpi_types.specs.declared.rows.Row.TheVariants as row;
ghost use Rattle.ocpi_types.specs.declared.stored.Push.TheVariants as push;
ghost use Rattle.node_steps.specs.Acts.{changed, pushed};
ghost use Rattle.node_steps.specs.Drafts.{HasNumbers, with_acts};
ghost use Rattle.site_book.specs.Sites.{IsConnectorOf};
ghost use Rattle.session_state.specs.Records.{cdr_of};
ghost use Rattle.operator_planning.specs.Bills.{CannotBill, IsBillOf, IsLocationOf, bill_acts};

use crate::planner::Planner;
use crate::sessions::add_number;
use node_steps::{Draft, NodeFault};
use ocpi_text::{Moment, Party, Whole};
use ocpi_types::{Boxed, Cdr, CdrLocation, Change, Counter, Push, Row, Session};
use session_book::cdr_id;
use session_state::CdrDraft;
use session_tables::{cdr_location, connector_at};
use std::alloc::{AllocError, Global};

/// A charge detail record, with its number.
#[derive(Drop)]
pub(crate) struct Bill {
    pub number: Whole,
    pub cdr: Cdr,
}

/// Adds that a charge detail record is pushed to a party.
pub(crate) fn add_posted(
    draft: &mut Draft,
    at: Moment,
    to: Party,
    cdr: &Boxed<Cdr>,
) -> Result<(), AllocError>
    requires { HasNumbers 1 1 draft.old }
    ensures { OnOk result (draft.new ≡ with_acts (pushed at (draft.old.counters.request + 1) to (push.PostCdr cdr.now) ∷ []) draft.old) }
{
    let sent = cdr.copy()?;
    draft.push(at, to, Push::PostCdr(sent))
}

/// Adds that a charge detail record is stored.
pub(crate) fn add_recorded(draft: &mut Draft, cdr: Boxed<Cdr>) -> Result<(), AllocError>
    ensures { OnOk result (draft.new ≡ with_acts (changed (change.Put (row.Cdr cdr)) ∷ []) draft.old) }
{
    draft.change(Change::Put(Row::Cdr { cdr }))
}

/// Adds a charge detail record: it is numbered, pushed and stored.
pub(crate) fn add_bill(
    alloc: Global,
    draft: &mut Draft,
    at: Moment,
    to: Party,
    bill: Bill,
) -> Result<(), AllocError>
    requires { HasNumbers 1 1 draft.old }
    ensures { OnOk result (draft.new ≡ with_acts (bill_acts at draft.old.counters.request to bill) draft.old) }
{
    let Bill { number, cdr } = bill;
    add_number(draft, Counter::Cdr, number)?;
    let cdr = Boxed::new(alloc, cdr)?;
    add_posted(draft, at, to, &cdr)?;
    add_recorded(draft, cdr)
}

/// The charge detail record of a draft, under the id of a number of a party. The draft is spent. An error is want of
/// memory.
fn issued(
    alloc: Global,
    party: &Party,
    number: Whole,
    location: CdrLocation,
    draft: CdrDraft,
) -> Result<Bill, AllocError>
    ensures { IfOk result (λ b. (b.number ≡ number) × (b.cdr ≡ cdr_of draft (own_id_text own.Cdr party.now number) location)) }
{
    match draft.issue(alloc, cdr_id(party, number), location) {
        Ok(cdr) => Ok(Bill { number, cdr }),
        Err(refused) => {
            let (draft, _location) = refused.value;
            draft.give_up();
            Err(AllocError)
        }
    }
}

impl Planner<'_> {
    /// Where a session is charged, as its charge detail record names it. An error is want of memory.
    fn location_of(&self, version: &Session) -> Result<CdrLocation, AllocError>
        requires { IsConnectorOf self.now.state.site.locations (key version.now.evse_uid) (key version.now.connector_id) }
        ensures { IfOk result (λ l. IsLocationOf self.now.state version.now l) }
    {
        let Some(found) = connector_at(self.books, version.evse_uid.key(), &version.connector_id)
        else {
            unreachable!()
        };
        cdr_location(&found)
    }

    /// The charge detail record of a completed version, of which that is the draft. The draft is spent. Refused
    /// (`NumbersUsedUp`) where the last one has the greatest number, and else for want of memory (`Memory`).
    pub(crate) fn bill(&self, version: &Session, draft: CdrDraft) -> Result<Bill, NodeFault>
        requires place { IsConnectorOf self.now.state.site.locations (key version.now.evse_uid) (key version.now.connector_id) }
        requires drafted { draft ≡ version.now }
        ensures ok { IfOk result (λ b. IsBillOf self.now.state version.now b) }
        ensures err { IfErr result (CannotBill self.now.state) }
    {
        let Some(number) = self.books.charged().last_cdr().next() else {
            draft.give_up();
            return Err(NodeFault::NumbersUsedUp);
        };
        match self.location_of(version) {
            Ok(location) => Ok(issued(self.alloc, &self.books.party(), number, location, draft)?),
            Err(_error) => {
                draft.give_up();
                Err(NodeFault::Memory)
            }
        }
    }
}
