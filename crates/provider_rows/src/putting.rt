//! Rows that are put.

ghost use Rattle.std.specs.Prelude.{◌≡◌, Some};
ghost use Rattle.ocpi_types.specs.Rows.{key_of};
ghost use Rattle.ocpi_types.specs.declared.rows.Change.TheVariants as change;
ghost use Rattle.ocpi_types.specs.declared.rows.Row.TheVariants as row;
ghost use Rattle.ocpi_types.specs.declared.rows.RowKey.TheVariants as keys;
ghost use Rattle.outbox.specs.Outbox.{released_of, request_of};
ghost use Rattle.provider_rows.specs.Sound.{MayPut};
ghost use Rattle.provider_rows.specs.Steps.{after_change};
ghost use Rattle.provider_rows.specs.Stored.{HasRoomOf, KeepsOtherRoom};

use crate::books::Books;
use crate::urls::place_of;
use ocpi_text::{Party, PartyKey, Whole};
use ocpi_types::{Boxed, Cdr, Counter, Push, Reply, Row, SentCommand, Session, Token};

impl Books {
    /// Sets a counter.
    fn put_count(&mut self, counter: Counter, last: Whole)
        requires may { MayPut self.old.state (row.Count counter last) }
        ensures state { self.new.state ≡ after_change (change.Put (row.Count counter last)) self.old.state }
        ensures keeps { KeepsOtherRoom (keys.Count counter) self.old.rooms self.new.rooms }
        ensures sending { self.new.sending ≡ self.old.sending }
    {
        match counter {
            Counter::Serial => self.serial = last,
            Counter::Request => self.outbox.put_row(Row::Count { counter, last }),
            Counter::Reference => self.desk.put_row(Row::Count { counter, last }),
            Counter::Session | Counter::Cdr => unreachable!(),
        }
    }

    /// Keeps a reply.
    fn put_reply(&mut self, sender: PartyKey, number: Whole, reply: Reply)
        requires room { HasRoomOf self.old.rooms (row.Reply sender number reply) }
        ensures state { self.new.state ≡ after_change (change.Put (row.Reply sender number reply)) self.old.state }
        ensures keeps { KeepsOtherRoom (keys.Reply sender number) self.old.rooms self.new.rooms }
        ensures sending { self.new.sending ≡ self.old.sending }
    {
        self.answered.put_row(Row::Reply {
            sender,
            number,
            reply,
        });
    }

    /// Puts a token.
    fn put_token(&mut self, token: Boxed<Token>)
        requires room { HasRoomOf self.old.rooms (row.Token token) }
        ensures state { self.new.state ≡ after_change (change.Put (row.Token token)) self.old.state }
        ensures rooms { self.new.rooms ≡ self.old.rooms }
        ensures sending { self.new.sending ≡ self.old.sending }
    {
        self.desk.put_row(Row::Token { token });
    }

    /// Puts a push, which is due at once.
    fn put_push(&mut self, number: Whole, to: Party, push: Push)
        requires room { HasRoomOf self.old.rooms (row.Push number to push) }
        requires may { MayPut self.old.state (row.Push number to push) }
        ensures state { self.new.state ≡ after_change (change.Put (row.Push number to push)) self.old.state }
        ensures keeps { KeepsOtherRoom (keys.Push number) self.old.rooms self.new.rooms }
        ensures sending { self.new.sending ≡ released_of (Some number) self.old.state.resend self.old.sending }
    {
        self.outbox.put_row(Row::Push { number, to, push });
    }

    /// Puts a command, which is due at once if it waits, and is found by its url.
    fn put_command(&mut self, number: Whole, command: Boxed<SentCommand>)
        requires room { HasRoomOf self.old.rooms (row.Command number command) }
        requires may { MayPut self.old.state (row.Command number command) }
        ensures state { self.new.state ≡ after_change (change.Put (row.Command number command)) self.old.state }
        ensures keeps { KeepsOtherRoom (keys.Command number) self.old.rooms self.new.rooms }
        ensures sending { self.new.sending ≡ released_of (Some number) self.old.state.resend self.old.sending }
    {
        let place = place_of(command.command.response_url());
        self.urls.put((place, number), ());
        self.outbox.put_row(Row::Command { number, command });
    }

    /// Puts a session.
    fn put_session(&mut self, session: Boxed<Session>)
        requires room { HasRoomOf self.old.rooms (row.Session session) }
        ensures state { self.new.state ≡ after_change (change.Put (row.Session session)) self.old.state }
        ensures rooms { self.new.rooms ≡ self.old.rooms }
        ensures sending { self.new.sending ≡ self.old.sending }
    {
        self.inbox.put_row(Row::Session { session });
    }

    /// Puts a charge detail record.
    fn put_cdr(&mut self, cdr: Boxed<Cdr>)
        requires room { HasRoomOf self.old.rooms (row.Cdr cdr) }
        ensures state { self.new.state ≡ after_change (change.Put (row.Cdr cdr)) self.old.state }
        ensures rooms { self.new.rooms ≡ self.old.rooms }
        ensures sending { self.new.sending ≡ self.old.sending }
    {
        self.inbox.put_row(Row::Cdr { cdr });
    }

    /// Puts a row, in place of the one of its key if there is one. It takes no memory.
    pub(crate) fn put_row(&mut self, row: Row)
        requires room { HasRoomOf self.old.rooms row }
        requires may { MayPut self.old.state row }
        ensures state { self.new.state ≡ after_change (change.Put row) self.old.state }
        ensures keeps { KeepsOtherRoom (key_of row) self.old.rooms self.new.rooms }
        ensures sending { self.new.sending ≡ released_of (request_of (key_of row)) self.old.state.resend self.old.sending }
    {
        match row {
            Row::Count { counter, last } => self.put_count(counter, last),
            Row::Reply {
                sender,
                number,
                reply,
            } => self.put_reply(sender, number, reply),
            Row::Token { token } => self.put_token(token),
            Row::Push { number, to, push } => self.put_push(number, to, push),
            Row::Command { number, command } => self.put_command(number, command),
            Row::Session { session } => self.put_session(session),
            Row::Cdr { cdr } => self.put_cdr(cdr),
            Row::Service { .. }
            | Row::Spent { .. }
            | Row::Mark { .. }
            | Row::Reservation { .. }
            | Row::Pending { .. }
            | Row::Result { .. } => unreachable!(),
        }
    }
}
