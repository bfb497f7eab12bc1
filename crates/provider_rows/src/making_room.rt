//! The memory that a step needs, taken before it is carried out.

ghost use Rattle.std.specs.Prelude.{◌≡◌, OnOk, IsOk, IsTrue};
ghost use Rattle.std.specs.FinMap as map;
ghost use Rattle.tables.specs.Tables.{shown_of, rooms_of};
ghost use Rattle.node_steps.specs.Drafts.{step_of};
ghost use Rattle.outbox.specs.Resend.{KeepsSendRoom, moment_number_cmp};
ghost use Rattle.provider_rows.specs.Steps.{HasRoomFor, HasTimeRoom, HaveTimeRoom};
ghost use Rattle.provider_rows.specs.Stored.{Each, HasRoom, HasRoomOf, KeepsRoom};
ghost use Rattle.provider_rows.specs.Urls.{KeepsUrlRoom, url_entry};

use crate::books::{Books, UrlTable};
use crate::urls::place_of;
use node_steps::{Plan, Volatile};
use ocpi_text::Whole;
use ocpi_types::{Change, Row, SentCommand};
use outbox::Outbox;
use std::alloc::AllocError;

/// Takes the memory that the resend time of a request needs which is sent. An error is want of memory, where there was
/// no room.
fn reserve_time(outbox: &mut Outbox, change: &Volatile) -> Result<(), AllocError>
    ensures rows { outbox.new.rows ≡ outbox.old.rows }
    ensures rooms { outbox.new.rooms ≡ outbox.old.rooms }
    ensures resend { outbox.new.resend ≡ outbox.old.resend }
    ensures keeps { KeepsSendRoom outbox.old.sending outbox.new.sending }
    ensures room { OnOk result (HasTimeRoom outbox.new.sending change.now) }
    ensures again { HasTimeRoom outbox.old.sending change.now → IsOk result }
{
    match change {
        Volatile::Sent { number, at } => outbox.reserve_sent(*number, *at),
    }
}

/// Takes the memory that the resend times of requests need which are sent. An error is want of memory, where one has
/// no room.
fn reserve_times(outbox: &mut Outbox, volatile: &[Volatile]) -> Result<(), AllocError>
    ensures rows { outbox.new.rows ≡ outbox.old.rows }
    ensures rooms { outbox.new.rooms ≡ outbox.old.rooms }
    ensures resend { outbox.new.resend ≡ outbox.old.resend }
    ensures room { OnOk result (HaveTimeRoom outbox.new.sending volatile.now) }
    ensures again { HaveTimeRoom outbox.old.sending volatile.now → IsOk result }
{
    for change in volatile {
        reserve_time(outbox, change)?;
    }
    Ok(())
}

/// Takes the memory by which a command is found by its url. An error is want of memory, where it has no room.
fn reserve_url(urls: &mut UrlTable, number: Whole, command: &SentCommand) -> Result<(), AllocError>
    ensures shown { shown_of moment_number_cmp urls.new ≡ shown_of moment_number_cmp urls.old }
    ensures keeps { KeepsUrlRoom (rooms_of moment_number_cmp urls.old) (rooms_of moment_number_cmp urls.new) }
    ensures room { OnOk result (IsTrue (map.contains_key (rooms_of moment_number_cmp urls.new) (url_entry number command.now))) }
    ensures again { IsTrue (map.contains_key (rooms_of moment_number_cmp urls.old) (url_entry number command.now)) → IsOk result }
{
    let place = place_of(command.command.response_url());
    urls.reserve((place, number))
}

impl Books {
    /// Takes the memory that a row needs. An error is want of memory, for a row that has no room.
    pub(crate) fn reserve_row(&mut self, row: &Row) -> Result<(), AllocError>
        ensures state { self.new.state ≡ self.old.state }
        ensures sending { self.new.sending ≡ self.old.sending }
        ensures keeps { KeepsRoom self.old.rooms self.new.rooms }
        ensures room { OnOk result (HasRoomOf self.new.rooms row.now) }
        ensures again { HasRoomOf self.old.rooms row.now → IsOk result }
    {
        match row {
            Row::Reply { .. } => self.answered.reserve_row(row),
            Row::Token { .. } => self.desk.reserve_row(row),
            Row::Push { .. } => self.outbox.reserve_row(row),
            Row::Command { number, command } => {
                self.outbox.reserve_row(row)?;
                reserve_url(&mut self.urls, *number, command)
            }
            Row::Session { .. } | Row::Cdr { .. } => self.inbox.reserve_row(row),
            Row::Count { .. }
            | Row::Service { .. }
            | Row::Spent { .. }
            | Row::Mark { .. }
            | Row::Reservation { .. }
            | Row::Pending { .. }
            | Row::Result { .. } => Ok(()),
        }
    }

    /// Takes the memory that a change needs. An error is want of memory, for a change that has no room.
    fn reserve(&mut self, change: &Change) -> Result<(), AllocError>
        ensures state { self.new.state ≡ self.old.state }
        ensures sending { self.new.sending ≡ self.old.sending }
        ensures keeps { KeepsRoom self.old.rooms self.new.rooms }
        ensures room { OnOk result (HasRoom self.new.rooms change.now) }
        ensures again { HasRoom self.old.rooms change.now → IsOk result }
    {
        match change {
            Change::Put(row) => self.reserve_row(row),
            Change::Drop(_) => Ok(()),
        }
    }

    /// Takes the memory that changes need. An error is want of memory, for changes of which one has no room.
    fn reserve_all(&mut self, changes: &[Change]) -> Result<(), AllocError>
        ensures state { self.new.state ≡ self.old.state }
        ensures sending { self.new.sending ≡ self.old.sending }
        ensures room { OnOk result (Each (HasRoom self.new.rooms) changes.now) }
        ensures again { Each (HasRoom self.old.rooms) changes.now → IsOk result }
    {
        for change in changes {
            self.reserve(change)?;
        }
        Ok(())
    }

    /// Takes all the memory that a step needs. What is stored stays as it is, whether there is enough or not. An error
    /// is want of memory, for a step that has no room.
    pub fn make_room(&mut self, plan: &Plan) -> Result<(), AllocError>
        ensures state { self.new.state ≡ self.old.state }
        ensures room { OnOk result (HasRoomFor self.new (step_of plan.now)) }
        ensures again { HasRoomFor self.old (step_of plan.now) → IsOk result }
    {
        self.reserve_all(plan.changes.as_slice())?;
        reserve_times(&mut self.outbox, plan.volatile.as_slice())
    }
}
