//! The charge detail records that are held, with what finds them by their sessions, and what is owed by them.

ghost use Rattle.std.specs.Prelude.{
  ◌≡◌,
  ◌≢◌,
  ◌↔◌,
  ◌++◌,
  ◌<◌,
  unsigned_abs,
  None,
  IsOk,
  IsTrue,
  OnOk,
  false,
  option_copied,
};
ghost use Rattle.std.specs.FinMap as map;
ghost use Rattle.ocpi_text.specs.Text.{key};
ghost use Rattle.ocpi_text.specs.Decimal.{e4_limit};
ghost use Rattle.ocpi_types.specs.declared.cdrs.Cdr.{Cdr};
ghost use Rattle.handover.specs.Owed.{owed};
ghost use Rattle.handover.specs.Cdrs.{
  group_of,
  AreOwnCdrs,
  HasRoomOfCdr,
  KeepsCdrRoom,
  GivesCdrBack,
  HasOther,
  HasLaterId,
  cdr_key,
  cdr_rows,
};

use crate::sums::{Currency, Sums, add_to, sum_in};
use ocpi_text::{CiKey, PartyKey};
use ocpi_types::{Boxed, Cdr, Row};
use std::alloc::{AllocError, Global};
use std::marker::Model;
use tables::{Table, least_text};

/// The operator and the session of a record, and whether it is a credit.
pub(crate) type Group = ((PartyKey, CiKey<36>), bool);

/// Charge detail records by operator and id, the bills and credits of a session, and the sums of their costs.
#[derive(Drop)]
pub(crate) struct CdrBook {
    cdrs: Table<(PartyKey, CiKey<39>), Boxed<Cdr>>,
    /// The ids of the bills, and those of the credits, of each operator and session.
    sessions: Table<(Group, CiKey<39>), ()>,
    sums: Sums,
}

impl Model for CdrBook {
    ghost use Rattle.std.specs.FinMap as map;
    ghost use Rattle.std.specs.Coded.{codes};
    ghost use Rattle.tables.specs.Keys.{text_pair_cmp};
    ghost use Rattle.tables.specs.Tables.{shown_of, rooms_of};
    ghost use Rattle.handover.specs.Cdrs.{HeldCdrs, IsKept, session_cmp};

    ghost Value = { HeldCdrs };

    ghost coded = { Prim.hlevel (codes, map.code) };

    ghost view = { λ b. record {
      cdrs = shown_of text_pair_cmp b.cdrs;
      rooms = record {
        cdrs = rooms_of text_pair_cmp b.cdrs;
        sessions = rooms_of session_cmp b.sessions;
        sums = rooms_of text_pair_cmp b.sums;
      };
    } };

    ghost invariant = { λ b. IsKept
        (shown_of text_pair_cmp b.cdrs)
        (shown_of session_cmp b.sessions)
        (shown_of text_pair_cmp b.sums)
        (rooms_of text_pair_cmp b.sums) };
}

/// The operator and the session of a record, and whether it is a credit.
pub(crate) fn group_of(cdr: &Cdr) -> Group
    ensures { result ≡ group_of cdr.now }
{
    ((cdr.party.key(), cdr.session_id.key()), cdr.is_credit())
}

/// The cost of a record, in ten-thousandths. It may be negative, as that of a credit is.
pub(crate) fn cost_of(cdr: &Cdr) -> i64
    ensures value { result ≡ cdr.now.total_cost.excl_vat }
    ensures bound { unsigned_abs result < e4_limit }
{
    cdr.total_cost.excl_vat.units()
}

impl CdrBook {
    /// No record is held. It takes no memory.
    pub(crate) fn new(alloc: Global) -> CdrBook
        ensures { result.cdrs ≡ map.empty }
    {
        CdrBook {
            cdrs: Table::new(alloc),
            sessions: Table::new(alloc),
            sums: Table::new(alloc),
        }
    }

    /// What holds of all records that are held, since the type keeps it. The method does nothing.
    pub(crate) fn consistency(&self)
        ensures { AreOwnCdrs self.now.cdrs }
    {
        let _cdrs = &self.cdrs;
    }

    /// Whether no record is held.
    pub(crate) fn is_empty(&self) -> bool
        ensures yes { IsTrue result → self.now.cdrs ≡ map.empty }
        ensures no { result ≡ false → self.now.cdrs ≢ map.empty }
    {
        match self.cdrs.first() {
            Some(_first) => false,
            None => true,
        }
    }

    /// Adds the row of each record to a list, in the order of their keys.
    pub(crate) fn push_rows(&self, rows: &mut Vec<Row>) -> Result<(), AllocError>
        ensures { OnOk result (rows.new.items ≡ rows.old.items ++ cdr_rows self.now.cdrs) }
    {
        for (_, cdr) in self.cdrs.iter() {
            let cdr = cdr.copy()?;
            rows.push(Row::Cdr { cdr })?;
        }
        Ok(())
    }

    /// The record of an operator and an id.
    pub(crate) fn get(&self, operator: PartyKey, id: CiKey<39>) -> Option<&Cdr>
        ensures value { option_copied result ≡ map.get self.now.cdrs (operator, id) }
    {
        match self.cdrs.get((operator, id)) {
            Some(cdr) => Some(cdr),
            None => None,
        }
    }

    /// Whether one of the bills, or of the credits, of a session is held under a later id.
    fn has_later(&self, group: &Group, id: &CiKey<39>) -> bool
        ensures { IsTrue result ↔ HasLaterId self.now.cdrs group.now id.now }
    {
        let Some(next) = self.sessions.first_after((*group, *id)) else {
            return false;
        };
        next.0.0.cmp(group).is_eq()
    }

    /// Whether one of the bills, or of the credits, of a session is held under another id.
    pub(crate) fn has_other(&self, group: &Group, id: &CiKey<39>) -> bool
        ensures others { IsTrue result ↔ HasOther self.now.cdrs group.now id.now }
        ensures own { AreOwnCdrs self.now.cdrs }
    {
        let Some(first) = self.sessions.first_with(*group, least_text()) else {
            return false;
        };
        let is_itself = first.0.cmp(id).is_eq();
        if is_itself {
            self.has_later(group, id)
        } else {
            true
        }
    }

    /// What is owed to an operator in a currency, by bills and by credits.
    pub(crate) fn owed(&self, operator: PartyKey, currency: Currency) -> i128
        ensures { result ≡ owed (operator, currency) (map.values self.now.cdrs) }
    {
        sum_in(&self.sums, operator, currency)
    }

    /// Takes the room that a record needs. An error is want of memory, for a record that has none.
    pub(crate) fn reserve(&mut self, cdr: &Cdr) -> Result<(), AllocError>
        ensures cdrs { self.new.cdrs ≡ self.old.cdrs }
        ensures room { OnOk result (HasRoomOfCdr self.new.rooms cdr.now) }
        ensures keeps { KeepsCdrRoom self.old.rooms self.new.rooms }
        ensures again { HasRoomOfCdr self.old.rooms cdr.now → IsOk result }
    {
        let operator = cdr.party.key();
        let id = cdr.id.key();
        let group = group_of(cdr);
        self.cdrs.reserve((operator, id))?;
        self.sessions.reserve((group, id))?;
        self.sums.reserve((operator, cdr.currency))?;
        Ok(())
    }

    /// Takes the record of an operator and an id out, if there is one, and keeps its room. It takes no memory.
    fn clear(&mut self, operator: PartyKey, id: CiKey<39>)
        ensures cdrs { self.new.cdrs ≡ map.remove self.old.cdrs (operator, id) }
        ensures rooms { self.new.rooms ≡ self.old.rooms }
    {
        let Some(cdr) = self.cdrs.get((operator, id)) else {
            return;
        };
        let seen = &**cdr;
        let group = group_of(seen);
        let currency = seen.currency;
        let cost = cost_of(seen);
        let _most = self.cdrs.room_count();
        self.cdrs.clear((operator, id));
        self.sessions.clear((group, id));
        add_to(&mut self.sums, operator, currency, -cost);
    }

    /// Puts a record where none of its operator and id is held. It takes no memory.
    fn fill(&mut self, cdr: Boxed<Cdr>)
        requires room { HasRoomOfCdr self.old.rooms cdr }
        requires new { map.get self.old.cdrs (cdr_key cdr) ≡ None }
        ensures cdrs { self.new.cdrs ≡ map.insert self.old.cdrs (cdr_key cdr) cdr }
        ensures rooms { self.new.rooms ≡ self.old.rooms }
    {
        let seen = &*cdr;
        let operator = seen.party.key();
        let id = seen.id.key();
        let group = group_of(seen);
        let currency = seen.currency;
        let cost = cost_of(seen);
        let _most = self.cdrs.room_count();
        self.cdrs.put((operator, id), cdr);
        self.sessions.put((group, id), ());
        add_to(&mut self.sums, operator, currency, cost);
    }

    /// Puts a record, in place of the one of its operator and id if there is one. It takes no memory.
    pub(crate) fn put(&mut self, cdr: Boxed<Cdr>)
        requires { HasRoomOfCdr self.old.rooms cdr }
        ensures cdrs { self.new.cdrs ≡ map.insert self.old.cdrs (cdr_key cdr) cdr }
        ensures rooms { self.new.rooms ≡ self.old.rooms }
    {
        let seen = &*cdr;
        self.clear(seen.party.key(), seen.id.key());
        self.fill(cdr);
    }

    /// Takes the record of an operator and an id out, if there is one, and gives its room back. It takes no memory.
    pub(crate) fn remove(&mut self, operator: PartyKey, id: CiKey<39>)
        ensures cdrs { self.new.cdrs ≡ map.remove self.old.cdrs (operator, id) }
        ensures rooms { (x : Cdr) → HasRoomOfCdr self.old.rooms x → cdr_key x ≢ (operator, id) → HasRoomOfCdr self.new.rooms x }
        ensures back { GivesCdrBack (operator, id) self.old.cdrs self.new.rooms }
    {
        let _most = self.cdrs.room_count();
        let Some(cdr) = self.cdrs.remove((operator, id)) else {
            return;
        };
        let seen = &*cdr;
        let group = group_of(seen);
        let currency = seen.currency;
        let cost = cost_of(seen);
        self.sessions.remove((group, id));
        add_to(&mut self.sums, operator, currency, 0 - cost);
    }
}
