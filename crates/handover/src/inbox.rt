//! What a provider receives: sessions and charge detail records of operators.

ghost use Rattle.std.specs.Prelude.{◌≡◌, ◌↔◌, ◌⊎◌, IsTrue, Some, IsOk, OnOk, OnErr, IfOk, IfErr, option_copied};
ghost use Rattle.std.specs.FinMap as map;
ghost use Rattle.ocpi_text.specs.Text.{key};
ghost use Rattle.handover.specs.Owed.{owed};
ghost use Rattle.handover.specs.Cdrs.{HasOnePerSession, cdr_key};
ghost use Rattle.handover.specs.Inbox.{
  IsOfParties,
  IsFinal,
  IsNews,
  IsInConflict,
  IsNewBeside,
  HasRoomOf,
  KeepsRoom,
  KeepsOtherRoom,
  GivesBack,
  no_rows,
  session_key,
  with_session,
  with_cdr,
  put_row,
  drop_row,
};
ghost use Rattle.handover.specs.declared.fault.HandoverFault.TheVariants.{WrongParty, Memory};
ghost use Rattle.handover.specs.declared.takings.SessionTaking.TheVariants as session_taking;
ghost use Rattle.handover.specs.declared.takings.CdrTaking.TheVariants as cdr_taking;

use crate::cdr_book::{CdrBook, group_of};
use crate::equality::is_equal;
use crate::fault::HandoverFault;
use crate::sums::Currency;
use crate::takings::{CdrTaking, SessionTaking};
use ocpi_text::{CiKey, CiText, Party, PartyKey};
use ocpi_types::{Boxed, Cdr, Row, RowKey, Session, SessionStatus};
use std::alloc::{AllocError, Global};
use std::marker::Model;
use tables::Table;

/// The newest versions of sessions and the charge detail records that a node holds, each by its operator and its id
/// without case (OCPI 2.2.1, Sessions and CDRs: Receiver Interface). Each call but `rows` and `copy` costs the
/// logarithm of what is held.
#[derive(Drop)]
pub struct Inbox {
    pub(crate) sessions: Table<(PartyKey, CiKey<36>), Boxed<Session>>,
    pub(crate) cdrs: CdrBook,
}

impl Model for Inbox {
    ghost use Rattle.std.specs.FinMap as map;
    ghost use Rattle.std.specs.Coded.{codes};
    ghost use Rattle.tables.specs.Keys.{text_pair_cmp};
    ghost use Rattle.tables.specs.Tables.{shown_of, rooms_of};
    ghost use Rattle.handover.specs.Inbox.{HeldInbox, AreOwnSessions};

    ghost Value = { HeldInbox };

    ghost coded = { Prim.hlevel (codes, map.code) };

    ghost view = { λ b. record {
      rows = record { sessions = shown_of text_pair_cmp b.sessions; cdrs = b.cdrs.cdrs };
      rooms = record { sessions = rooms_of text_pair_cmp b.sessions; cdrs = b.cdrs.rooms };
    } };

    ghost invariant = { λ b. AreOwnSessions (shown_of text_pair_cmp b.sessions) };
}

/// Whether what came is the sender's own, and about a token of this node's party.
fn is_of_parties(own: &Party, sender: &Party, token_party: &Party, party: &Party) -> bool
    ensures { IsTrue result ↔ IsOfParties own.now sender.now token_party.now party.now }
{
    token_party.is_same(own) && party.is_same(sender)
}

fn is_final(status: SessionStatus) -> bool
    ensures { IsTrue result ↔ IsFinal status }
{
    matches!(status, SessionStatus::Completed | SessionStatus::Invalid)
}

/// Whether no version is held, or the held one is not final and is older.
fn is_news(held: Option<&Session>, session: &Session) -> bool
    ensures { IsTrue result ↔ IsNews (option_copied held.entry) session.now }
{
    match held {
        None => true,
        Some(held) => !is_final(held.status) && held.last_updated < session.last_updated,
    }
}

impl Inbox {
    /// Nothing is held. It takes no memory.
    pub fn new(alloc: Global) -> Inbox
        ensures { result.rows ≡ no_rows }
    {
        Inbox {
            sessions: Table::new(alloc),
            cdrs: CdrBook::new(alloc),
        }
    }

    /// The version of an operator's session that is held. Ids are compared without case.
    pub fn held(&self, operator: &Party, id: &CiText<36>) -> Option<&Session>
        ensures { option_copied result ≡ map.get self.now.rows.sessions (key operator.now, key id.now) }
    {
        match self.sessions.get((operator.key(), id.key())) {
            Some(session) => Some(session),
            None => None,
        }
    }

    /// The charge detail record of an operator and an id that is held. Ids are compared without case.
    pub fn held_cdr(&self, operator: &Party, id: &CiText<39>) -> Option<&Cdr>
        ensures { option_copied result ≡ map.get self.now.rows.cdrs (key operator.now, key id.now) }
    {
        self.cdrs.get(operator.key(), id.key())
    }

    /// What becomes of a version of a session that a sender hands over to the party `own`. It is taken where no version
    /// is held, or the held one is neither COMPLETED nor INVALID and is older by `last_updated`. Refused is one whose
    /// token is of another party than `own`, or that is of another party than the sender (`WrongParty`).
    pub fn session_taking(
        &self,
        own: &Party,
        sender: &Party,
        session: &Session,
    ) -> Result<SessionTaking, HandoverFault>
        ensures ok { OnOk result (IsOfParties own.now sender.now session.now.cdr_token.party session.now.party) }
        ensures taken { IfOk result (λ t. (t ≡ session_taking.Taken) ↔ IsNews (map.get self.now.rows.sessions (session_key session.now)) session.now) }
        ensures err { IfErr result (λ e. (e ≡ WrongParty) × (IsOfParties own.now sender.now session.now.cdr_token.party session.now.party → ⊥)) }
    {
        if !is_of_parties(own, sender, &session.cdr_token.party, &session.party) {
            return Err(HandoverFault::WrongParty);
        }
        if is_news(self.held(&session.party, &session.id), session) {
            Ok(SessionTaking::Taken)
        } else {
            Ok(SessionTaking::Kept)
        }
    }

    /// What becomes of a charge detail record that a sender hands over to the party `own`. It is in conflict where one
    /// of that operator is held that differs in any field as spelled and has the same id, or is of the same session and
    /// as well a bill or a credit; it is kept where an equal one is held, and else taken. So one bill and one credit of
    /// a session may be held, in either order. Refused is one whose token is of another party than `own`, or that is of
    /// another party than the sender (`WrongParty`).
    pub fn cdr_taking(
        &self,
        own: &Party,
        sender: &Party,
        cdr: &Cdr,
    ) -> Result<CdrTaking, HandoverFault>
        ensures ok { OnOk result (IsOfParties own.now sender.now cdr.now.cdr_token.party cdr.now.party) }
        ensures conflict { IfOk result (λ t. (t ≡ cdr_taking.Conflict) ↔ IsInConflict self.now.rows.cdrs cdr.now) }
        ensures kept { IfOk result (λ t. (t ≡ cdr_taking.Kept) ↔ ((map.get self.now.rows.cdrs (cdr_key cdr.now) ≡ Some cdr.now) × (IsInConflict self.now.rows.cdrs cdr.now → ⊥))) }
        ensures err { IfErr result (λ e. (e ≡ WrongParty) × (IsOfParties own.now sender.now cdr.now.cdr_token.party cdr.now.party → ⊥)) }
    {
        if !is_of_parties(own, sender, &cdr.cdr_token.party, &cdr.party) {
            return Err(HandoverFault::WrongParty);
        }
        Ok(self.compared(cdr))
    }

    /// Whether a record is in conflict with those that are held, or is held.
    fn compared(&self, cdr: &Cdr) -> CdrTaking
        ensures conflict { (result ≡ cdr_taking.Conflict) ↔ IsInConflict self.now.rows.cdrs cdr.now }
        ensures kept { (result ≡ cdr_taking.Kept) ↔ ((map.get self.now.rows.cdrs (cdr_key cdr.now) ≡ Some cdr.now) × (IsInConflict self.now.rows.cdrs cdr.now → ⊥)) }
    {
        let group = group_of(cdr);
        let id = cdr.id.key();
        if self.cdrs.has_other(&group, &id) {
            return CdrTaking::Conflict;
        }
        match self.held_cdr(&cdr.party, &cdr.id) {
            None => CdrTaking::Taken,
            Some(held) => {
                if is_equal(held, cdr) {
                    CdrTaking::Kept
                } else {
                    CdrTaking::Conflict
                }
            }
        }
    }

    /// Takes the room that a session needs. An error is want of memory, for one that has none. No row changes.
    fn reserve_session(&mut self, session: &Session) -> Result<(), AllocError>
        ensures rows { self.new.rows ≡ self.old.rows }
        ensures keeps { KeepsRoom self.old.rooms self.new.rooms }
        ensures room { OnOk result (HasRoomOf self.new.rooms (Row.Session session.now)) }
        ensures again { HasRoomOf self.old.rooms (Row.Session session.now) → IsOk result }
    {
        self.sessions
            .reserve((session.party.key(), session.id.key()))
    }

    /// Puts a session that has room, in place of the one of its key. It takes no memory.
    fn put_session(&mut self, session: Boxed<Session>)
        requires { HasRoomOf self.old.rooms (Row.Session session) }
        ensures rows { self.new.rows ≡ put_row (Row.Session session) self.old.rows }
        ensures rooms { self.new.rooms ≡ self.old.rooms }
    {
        let seen = &*session;
        let key = (seen.party.key(), seen.id.key());
        self.sessions.put(key, session);
    }

    /// Puts a session, in place of the one of its key. An error is want of memory, for one that has no room, and
    /// leaves the rows as they were.
    fn add_session(&mut self, session: Boxed<Session>) -> Result<(), AllocError>
        ensures ok { OnOk result (self.new.rows ≡ put_row (Row.Session session) self.old.rows) }
        ensures err { OnErr result (self.new.rows ≡ self.old.rows) }
        ensures keeps { KeepsRoom self.old.rooms self.new.rooms }
        ensures again { HasRoomOf self.old.rooms (Row.Session session) → IsOk result }
    {
        self.reserve_session(&session)?;
        self.put_session(session);
        Ok(())
    }

    /// Puts a charge detail record, in place of the one of its key. An error is want of memory, for one that has no
    /// room, and leaves the rows as they were.
    fn add_cdr(&mut self, cdr: Boxed<Cdr>) -> Result<(), AllocError>
        ensures ok { OnOk result (self.new.rows ≡ put_row (Row.Cdr cdr) self.old.rows) }
        ensures err { OnErr result (self.new.rows ≡ self.old.rows) }
        ensures keeps { KeepsRoom self.old.rooms self.new.rooms }
        ensures again { HasRoomOf self.old.rooms (Row.Cdr cdr) → IsOk result }
    {
        self.cdrs.reserve(&cdr)?;
        self.cdrs.put(cdr);
        Ok(())
    }

    /// Takes a version of a session that a sender hands over to the party `own`, where `session_taking` says so.
    /// Refused are what it refuses (`WrongParty`), and want of memory for one that is to be taken and has no room
    /// (`Memory`).
    pub fn take_session(
        &mut self,
        own: &Party,
        sender: &Party,
        session: Boxed<Session>,
    ) -> Result<SessionTaking, HandoverFault>
        ensures ok { OnOk result (IsOfParties own.now sender.now session.cdr_token.party session.party) }
        ensures taken { IfOk result (λ t. (t ≡ session_taking.Taken) ↔ IsNews (map.get self.old.rows.sessions (session_key session)) session) }
        ensures rows { IfOk result (λ t. self.new.rows ≡ with_session t session self.old.rows) }
        ensures keeps { KeepsRoom self.old.rooms self.new.rooms }
        ensures again { IsOfParties own.now sender.now session.cdr_token.party session.party → HasRoomOf self.old.rooms (Row.Session session) → IsOk result }
        ensures err { OnErr result (self.new.rows ≡ self.old.rows) }
        ensures fault { IfErr result (λ e. ((e ≡ WrongParty) × (IsOfParties own.now sender.now session.cdr_token.party session.party → ⊥)) ⊎ ((e ≡ Memory) × IsOfParties own.now sender.now session.cdr_token.party session.party × IsNews (map.get self.old.rows.sessions (session_key session)) session)) }
    {
        match self.session_taking(own, sender, &session)? {
            SessionTaking::Kept => Ok(SessionTaking::Kept),
            SessionTaking::Taken => {
                self.add_session(session)?;
                Ok(SessionTaking::Taken)
            }
        }
    }

    /// Takes a charge detail record that a sender hands over to the party `own`, where `cdr_taking` says so. Refused
    /// are what it refuses (`WrongParty`), and want of memory for one that is to be taken and has no room (`Memory`).
    /// A bill is taken where no record of its id and of its session none but a credit is held, and a credit likewise.
    /// Where no session of an operator has two bills or two credits that are held, it stays so: no session is billed
    /// twice, and none is credited twice.
    pub fn take_cdr(
        &mut self,
        own: &Party,
        sender: &Party,
        cdr: Boxed<Cdr>,
    ) -> Result<CdrTaking, HandoverFault>
        ensures ok { OnOk result (IsOfParties own.now sender.now cdr.cdr_token.party cdr.party) }
        ensures conflict { IfOk result (λ t. (t ≡ cdr_taking.Conflict) ↔ IsInConflict self.old.rows.cdrs cdr) }
        ensures kept { IfOk result (λ t. (t ≡ cdr_taking.Kept) ↔ ((map.get self.old.rows.cdrs (cdr_key cdr) ≡ Some cdr) × (IsInConflict self.old.rows.cdrs cdr → ⊥))) }
        ensures beside { IfOk result (λ t. IsNewBeside self.old.rows.cdrs cdr → t ≡ cdr_taking.Taken) }
        ensures rows { IfOk result (λ t. self.new.rows ≡ with_cdr t cdr self.old.rows) }
        ensures once { HasOnePerSession self.old.rows.cdrs → HasOnePerSession self.new.rows.cdrs }
        ensures keeps { KeepsRoom self.old.rooms self.new.rooms }
        ensures again { IsOfParties own.now sender.now cdr.cdr_token.party cdr.party → HasRoomOf self.old.rooms (Row.Cdr cdr) → IsOk result }
        ensures err { OnErr result (self.new.rows ≡ self.old.rows) }
        ensures fault { IfErr result (λ e. ((e ≡ WrongParty) × (IsOfParties own.now sender.now cdr.cdr_token.party cdr.party → ⊥)) ⊎ ((e ≡ Memory) × IsOfParties own.now sender.now cdr.cdr_token.party cdr.party × (IsInConflict self.old.rows.cdrs cdr → ⊥) × (map.get self.old.rows.cdrs (cdr_key cdr) ≡ Some cdr → ⊥))) }
    {
        self.consistency();
        let taking = self.cdr_taking(own, sender, &cdr)?;
        match taking {
            CdrTaking::Taken => self.add_cdr(cdr)?,
            CdrTaking::Kept | CdrTaking::Conflict => {}
        }
        Ok(taking)
    }

    /// What is owed to an operator in a currency, in ten-thousandths: the sum of the costs of its charge detail
    /// records in that currency that are held, bills and credits, and 0 where none is. The costs of credits are
    /// negative, and a credit may be held before its bill, so the sum may be negative. The operator is compared without
    /// case, the currency as spelled. It takes no memory.
    pub fn settlement(&self, operator: &Party, currency: Currency) -> i128
        ensures { result ≡ owed (key operator.now, currency) (map.values self.now.rows.cdrs) }
    {
        self.cdrs.owed(operator.key(), currency)
    }

    /// Takes the memory that a session or a charge detail record needs; rows of other kinds need none. An error is want
    /// of memory, for a row that has no room. No row changes.
    pub fn reserve_row(&mut self, row: &Row) -> Result<(), AllocError>
        ensures rows { self.new.rows ≡ self.old.rows }
        ensures keeps { KeepsRoom self.old.rooms self.new.rooms }
        ensures room { OnOk result (HasRoomOf self.new.rooms row.now) }
        ensures again { HasRoomOf self.old.rooms row.now → IsOk result }
    {
        match row {
            Row::Session { session } => self.reserve_session(session),
            Row::Cdr { cdr } => self.cdrs.reserve(cdr),
            Row::Count { .. }
            | Row::Reply { .. }
            | Row::Token { .. }
            | Row::Push { .. }
            | Row::Service { .. }
            | Row::Spent { .. }
            | Row::Mark { .. }
            | Row::Reservation { .. }
            | Row::Pending { .. }
            | Row::Result { .. }
            | Row::Command { .. } => Ok(()),
        }
    }

    /// Puts a session or a charge detail record; rows of other kinds change nothing. It takes no memory.
    pub fn put_row(&mut self, row: Row)
        requires { HasRoomOf self.old.rooms row }
        ensures rows { self.new.rows ≡ put_row row self.old.rows }
        ensures rooms { self.new.rooms ≡ self.old.rooms }
    {
        match row {
            Row::Session { session } => self.put_session(session),
            Row::Cdr { cdr } => self.cdrs.put(cdr),
            Row::Count { .. }
            | Row::Reply { .. }
            | Row::Token { .. }
            | Row::Push { .. }
            | Row::Service { .. }
            | Row::Spent { .. }
            | Row::Mark { .. }
            | Row::Reservation { .. }
            | Row::Pending { .. }
            | Row::Result { .. }
            | Row::Command { .. } => {}
        }
    }

    /// Drops the session of an operator and an id, if one is held, and gives its room back. It takes no memory.
    fn drop_session(&mut self, operator: PartyKey, id: CiKey<36>)
        ensures rows { self.new.rows ≡ drop_row (RowKey.Session operator id) self.old.rows }
        ensures keeps { KeepsOtherRoom (RowKey.Session operator id) self.old.rooms self.new.rooms }
        ensures room { GivesBack (RowKey.Session operator id) self.old self.new.rooms }
    {
        drop(self.sessions.remove((operator, id)));
    }

    /// Drops a session or a charge detail record, and gives its room back; keys of other kinds change nothing. It
    /// takes no memory.
    pub fn drop_row(&mut self, key: RowKey)
        ensures rows { self.new.rows ≡ drop_row key self.old.rows }
        ensures keeps { KeepsOtherRoom key self.old.rooms self.new.rooms }
        ensures room { GivesBack key self.old self.new.rooms }
    {
        match key {
            RowKey::Session { operator, id } => self.drop_session(operator, id),
            RowKey::Cdr { operator, id } => self.cdrs.remove(operator, id),
            RowKey::Count { .. }
            | RowKey::Reply { .. }
            | RowKey::Token { .. }
            | RowKey::Push { .. }
            | RowKey::Service { .. }
            | RowKey::Spent { .. }
            | RowKey::Mark { .. }
            | RowKey::Reservation { .. }
            | RowKey::Pending { .. }
            | RowKey::Result { .. }
            | RowKey::Command { .. } => {}
        }
    }
}
