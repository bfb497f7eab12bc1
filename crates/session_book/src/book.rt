//! The sessions and the charge detail records of an operator.

ghost use Rattle.std.specs.Prelude.{
  ◌≡◌,
  ◌↔◌,
  OnOk,
  OnErr,
  IfSome,
  IfNone,
  IsOk,
  IsTrue,
  ℕ,
  List,
  option_copied,
};
ghost use Rattle.std.specs.FinMap as map;
ghost use Rattle.ocpi_text.specs.Text.{key};
ghost use Rattle.ocpi_types.specs.declared.cdrs.Cdr.{Cdr};
ghost use Rattle.ocpi_types.specs.declared.rows.Row.TheVariants as row;
ghost use Rattle.session_book.specs.Records.{HasCredit, IsSoleBill};
ghost use Rattle.session_book.specs.Stored.{
  AreKeyed,
  HasRoomOfCdr,
  no_rows,
  rooms_with,
  with_session,
  with_cdr,
  without_entry,
};

use crate::records::Records;
use ocpi_text::{CiKey, Whole};
use ocpi_types::{Boxed, Cdr, Session};
use std::alloc::{AllocError, Global};
use std::marker::Model;
use tables::Table;

/// The newest versions of the sessions of an operator, and its charge detail records, each by its id without case, and
/// the numbers of the last of both. All are the operator's own, so that ids alone tell them apart.
///
/// A look-up and a change cost the logarithm of the number of sessions, or of records, and so does a look-up of the
/// bill or the credit of a session.
#[derive(Drop)]
pub struct SessionBook {
    pub(crate) sessions: Table<CiKey<36>, Boxed<Session>>,
    pub(crate) records: Records,
    last_session: Whole,
    last_cdr: Whole,
}

impl Model for SessionBook {
    ghost use Rattle.std.specs.FinMap as map;
    ghost use Rattle.std.specs.Coded.{codes};
    ghost use Rattle.tables.specs.Keys.{text_cmp};
    ghost use Rattle.tables.specs.Tables.{shown_of, rooms_of};
    ghost use Rattle.session_book.specs.Stored.{AreKeyed, Held};

    ghost Value = { Held };

    ghost coded = { Prim.hlevel (codes, map.code) };

    ghost view = { λ b. record {
      rows = record {
        sessions = shown_of text_cmp b.sessions;
        cdrs = b.records.cdrs;
        last_session = b.last_session;
        last_cdr = b.last_cdr;
      };
      rooms = record { sessions = rooms_of text_cmp b.sessions; cdrs = b.records.rooms.cdrs; by_session = b.records.rooms.by_session };
    } };

    ghost invariant = { λ b. AreKeyed (record {
      sessions = shown_of text_cmp b.sessions;
      cdrs = b.records.cdrs;
      last_session = b.last_session;
      last_cdr = b.last_cdr;
    }) };
}

impl SessionBook {
    /// Nothing is stored, and no number was given. It takes no memory.
    pub fn new(alloc: Global) -> SessionBook
        ensures rows { result.rows ≡ no_rows }
        ensures rooms { result.rooms ≡ record { sessions = map.empty; cdrs = map.empty; by_session = map.empty } }
    {
        SessionBook {
            sessions: Table::new(alloc),
            records: Records::new(alloc),
            last_session: Whole::new(0).unwrap(),
            last_cdr: Whole::new(0).unwrap(),
        }
    }

    /// What holds of every book, which its type keeps: each session and each record stands under its own id.
    pub fn consistency(&self)
        ensures { AreKeyed self.now.rows }
    {
        // The invariant is known once a field is looked at.
        let _sessions = &self.sessions;
    }

    /// The newest version of the session of an id. It takes no memory.
    pub fn session(&self, id: CiKey<36>) -> Option<&Session>
        ensures { option_copied result ≡ map.get self.now.rows.sessions id }
    {
        match self.sessions.get(id) {
            Some(session) => Some(session),
            None => None,
        }
    }

    /// The charge detail record of an id. It takes no memory.
    pub fn cdr(&self, id: CiKey<39>) -> Option<&Cdr>
        ensures { option_copied result ≡ map.get self.now.rows.cdrs id }
    {
        self.records.get(id)
    }

    /// The bill of a session, where it has one alone. It takes no memory.
    pub fn sole_bill(&self, session: CiKey<36>) -> Option<&Cdr>
        ensures some { IfSome (option_copied result) (IsSoleBill self.now.rows session) }
        ensures none { IfNone result ((bill : Cdr) → IsSoleBill self.now.rows session bill → ⊥) }
    {
        self.records.sole_bill(session)
    }

    /// Whether a session has a credit. It takes no memory.
    pub fn has_credit(&self, session: CiKey<36>) -> bool
        ensures { IsTrue result ↔ HasCredit self.now.rows session }
    {
        self.records.has_credit(session)
    }

    /// The number of the last session, or 0.
    pub fn last_session(&self) -> Whole
        ensures { result ≡ self.now.rows.last_session }
    {
        self.last_session
    }

    /// The number of the last charge detail record, or 0.
    pub fn last_cdr(&self) -> Whole
        ensures { result ≡ self.now.rows.last_cdr }
    {
        self.last_cdr
    }

    pub(crate) fn set_last_session(&mut self, last: Whole)
        ensures { self.new ≡ record self.old { rows = record self.old.rows { last_session = last } } }
    {
        self.last_session = last;
    }

    pub(crate) fn set_last_cdr(&mut self, last: Whole)
        ensures { self.new ≡ record self.old { rows = record self.old.rows { last_cdr = last } } }
    {
        self.last_cdr = last;
    }

    /// Takes the room that a session needs. An error is want of memory, for one that has no room.
    pub(crate) fn reserve_session(&mut self, id: CiKey<36>) -> Result<(), AllocError>
        ensures rows { self.new.rows ≡ self.old.rows }
        ensures rooms { OnOk result (self.new.rooms ≡ record self.old.rooms { sessions = map.insert self.old.rooms.sessions id tt }) }
        ensures ready { OnOk result (IsTrue (map.contains_key self.new.rooms.sessions id)) }
        ensures keeps { (k : List ℕ) → IsTrue (map.contains_key self.old.rooms.sessions k) → IsTrue (map.contains_key self.new.rooms.sessions k) }
        ensures others { self.new.rooms.cdrs ≡ self.old.rooms.cdrs }
        ensures again { IsTrue (map.contains_key self.old.rooms.sessions id) → IsOk result }
        ensures err { OnErr result (self.new ≡ self.old) }
    {
        self.sessions.reserve(id)
    }

    /// Takes the room that a charge detail record needs. An error is want of memory, for one that has no room.
    pub(crate) fn reserve_cdr(&mut self, cdr: &Cdr) -> Result<(), AllocError>
        ensures rows { self.new.rows ≡ self.old.rows }
        ensures rooms { OnOk result (self.new.rooms ≡ rooms_with (row.Cdr cdr.now) self.old.rooms) }
        ensures keeps { (x : Cdr) → HasRoomOfCdr self.old.rooms x → HasRoomOfCdr self.new.rooms x }
        ensures others { self.new.rooms.sessions ≡ self.old.rooms.sessions }
        ensures again { HasRoomOfCdr self.old.rooms cdr.now → IsOk result }
        ensures err { OnErr result (self.new ≡ self.old) }
    {
        self.records.reserve(cdr)
    }

    /// Puts a version of a session, in the place of the one of its id if there is one. It takes no memory.
    pub(crate) fn put_session(&mut self, session: Boxed<Session>)
        requires { IsTrue (map.contains_key self.old.rooms.sessions (key session.id)) }
        ensures rows { self.new.rows ≡ with_session session self.old.rows }
        ensures rooms { self.new.rooms ≡ self.old.rooms }
    {
        let id = session.id.key();
        self.sessions.put(id, session);
    }

    /// Puts a charge detail record, in the place of the one of its id if there is one. It takes no memory.
    pub(crate) fn put_cdr(&mut self, cdr: Boxed<Cdr>)
        requires { HasRoomOfCdr self.old.rooms cdr }
        ensures rows { self.new.rows ≡ with_cdr cdr self.old.rows }
        ensures rooms { self.new.rooms ≡ self.old.rooms }
    {
        self.records.put(cdr);
    }

    /// Takes the session of an id out, and its room. It takes no memory.
    pub(crate) fn drop_session(&mut self, id: CiKey<36>)
        ensures rows { self.new.rows ≡ record self.old.rows { sessions = map.remove self.old.rows.sessions id } }
        ensures rooms { self.new.rooms ≡ record self.old.rooms { sessions = map.remove self.old.rooms.sessions id } }
    {
        drop(self.sessions.remove(id));
    }

    /// Takes the charge detail record of an id out, and its room. It takes no memory.
    pub(crate) fn drop_cdr(&mut self, id: CiKey<39>)
        ensures rows { self.new.rows ≡ record self.old.rows { cdrs = map.remove self.old.rows.cdrs id } }
        ensures rooms { self.new.rooms ≡ record self.old.rooms { cdrs = map.remove self.old.rooms.cdrs id; by_session = without_entry id (map.get self.old.rows.cdrs id) self.old.rooms.by_session } }
    {
        self.records.remove(id);
    }
}
