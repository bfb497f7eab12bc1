//! What a node remembers of the requests that came to it.

ghost use Rattle.std.specs.Prelude.{◌≡◌, ◌↔◌, ◌≢◌, ℕ, IfErr, IfNone, IfSome, IsOk, OnErr, OnOk, option_copied};
ghost use Rattle.std.specs.FinMap as map;
ghost use Rattle.tables.specs.Tables.{shown_of, rooms_of};
ghost use Rattle.ocpi_types.specs.Rows.{key_of};
ghost use Rattle.command_book.specs.Calls.{
  BarsOpening,
  BarsSettling,
  IsPlaced,
  MayOpen,
  MaySettle,
  Leaves,
  KeepReply,
  Open,
  Settle,
};
ghost use Rattle.command_book.specs.Queue.{deadline_cmp, deadline_of, unqueued};
ghost use Rattle.command_book.specs.Room.{HasRoomOf, HasRoomUntil, KeepsRoom, KeepsOtherRoom, GivesBack};
ghost use Rattle.command_book.specs.Stored.{no_rows, put_row, drop_row};
ghost use Rattle.command_book.specs.declared.fault.CommandFault.TheVariants.{AlreadyOpen, Settled};

use crate::fault::CommandFault;
use ocpi_text::{Moment, PartyKey, Whole};
use ocpi_types::{Boxed, CommandResultType, OpenCommand, Reply, Row, RowKey};
use std::alloc::{AllocError, Global};
use std::marker::Model;
use tables::{HashSeed, Lookup, Table};

/// A request: its sender and its number.
pub(crate) type Request = (PartyKey, Whole);

/// The replies to requests, the commands that are open, and the results of commands, each by sender and number. What is
/// kept for good, replies and results, is found by its hash, in constant time. A change costs the logarithm of what is
/// open.
#[derive(Drop)]
pub struct CommandBook {
    pub(crate) replies: Lookup<Request, Reply>,
    pub(crate) pending: Table<Request, Boxed<OpenCommand>>,
    pub(crate) results: Lookup<Request, CommandResultType>,
    /// The open commands, by their deadlines.
    pub(crate) queue: Table<(Moment, Request), ()>,
}

impl Model for CommandBook {
    ghost use Rattle.std.specs.FinMap as map;
    ghost use Rattle.std.specs.Coded.{codes};
    ghost use Rattle.tables.specs.Keys.{text_number_cmp};
    ghost use Rattle.tables.specs.Tables.{shown_of, rooms_of};
    ghost use Rattle.command_book.specs.Room.{Held};
    ghost use Rattle.command_book.specs.Queue.{deadline_cmp, IsQueue};

    ghost Value = { Held };

    ghost coded = { Prim.hlevel (codes, map.code) };

    ghost view = { λ b. record {
      rows = record {
        replies = shown_of text_number_cmp b.replies;
        pending = shown_of text_number_cmp b.pending;
        results = shown_of text_number_cmp b.results;
      };
      rooms = record {
        replies = rooms_of text_number_cmp b.replies;
        pending = rooms_of text_number_cmp b.pending;
        results = rooms_of text_number_cmp b.results;
        deadlines = rooms_of deadline_cmp b.queue;
      };
    } };

    ghost invariant = { λ b. IsQueue (shown_of deadline_cmp b.queue) (shown_of text_number_cmp b.pending) };
}

/// Takes a request out of a queue, where it stands there by that deadline.
fn unqueue(
    queue: &mut Table<(Moment, Request), ()>,
    deadline: Option<Moment>,
    provider: PartyKey,
    number: Whole,
)
    ensures shown { shown_of deadline_cmp queue.new ≡ unqueued deadline (provider, number) (shown_of deadline_cmp queue.old) }
    ensures room { rooms_of deadline_cmp queue.new ≡ unqueued deadline (provider, number) (rooms_of deadline_cmp queue.old) }
{
    if let Some(deadline) = deadline {
        queue.remove((deadline, (provider, number)));
    }
}

impl CommandBook {
    /// Nothing is answered, open or settled. It takes no memory. Replies and results are found by hashes that begin
    /// with the seed.
    pub fn new(alloc: Global, seed: HashSeed) -> CommandBook
        ensures { result.rows ≡ no_rows }
    {
        CommandBook {
            replies: Lookup::new(alloc, seed),
            pending: Table::new(alloc),
            results: Lookup::new(alloc, seed),
            queue: Table::new(alloc),
        }
    }

    /// The reply that a request got, kept so that the request has the same answer when it comes again.
    pub fn reply_kept(&self, sender: PartyKey, number: Whole) -> Option<&Reply>
        ensures { option_copied result ≡ map.get self.now.rows.replies (sender, number) }
    {
        self.replies.get((sender, number))
    }

    /// The command of that number of a provider, where it was accepted and has no result yet.
    pub fn opened(&self, provider: PartyKey, number: Whole) -> Option<&OpenCommand>
        ensures { option_copied result ≡ map.get self.now.rows.pending (provider, number) }
    {
        match self.pending.get((provider, number)) {
            Some(open) => Some(open),
            None => None,
        }
    }

    /// How the command of that number of a provider ended (OCPI 2.2.1, Commands: CommandResult).
    pub fn answered(&self, provider: PartyKey, number: Whole) -> Option<CommandResultType>
        ensures { result ≡ map.get self.now.rows.results (provider, number) }
    {
        self.results.get((provider, number)).copied()
    }

    /// Whether a command of that number may be opened. Refused is one that is open or has its result (`AlreadyOpen`).
    pub fn may_open(&self, provider: PartyKey, number: Whole) -> Result<(), CommandFault>
        ensures ok { IsOk result ↔ MayOpen self.now.rows (provider, number) }
        ensures err { IfErr result (λ e. e ≡ AlreadyOpen) }
    {
        if self.pending.contains((provider, number)) || self.results.contains((provider, number)) {
            return Err(CommandFault::AlreadyOpen);
        }
        Ok(())
    }

    /// Whether the command of that number may get a result. Refused is one that has its result (`Settled`).
    pub fn may_settle(&self, provider: PartyKey, number: Whole) -> Result<(), CommandFault>
        ensures ok { IsOk result ↔ MaySettle self.now.rows (provider, number) }
        ensures err { IfErr result (λ e. e ≡ Settled) }
    {
        if self.results.contains((provider, number)) {
            return Err(CommandFault::Settled);
        }
        Ok(())
    }

    /// The deadline of the command, if it is open.
    fn deadline(&self, provider: PartyKey, number: Whole) -> Option<Moment>
        ensures { result ≡ deadline_of self.now.rows.pending (provider, number) }
    {
        Some(self.pending.get((provider, number))?.deadline)
    }

    /// The deadline by which the command stands in the queue, where that is not `deadline`.
    fn stale(&self, provider: PartyKey, number: Whole, deadline: Moment) -> Option<Moment>
        ensures found { IfSome result (λ d. (deadline_of self.now.rows.pending (provider, number) ≡ Some d) × (d ≢ deadline)) }
        ensures none { IfNone result ((d : ℕ) → deadline_of self.now.rows.pending (provider, number) ≡ Some d → d ≡ deadline) }
    {
        match self.deadline(provider, number) {
            Some(found) if found != deadline => Some(found),
            _ => None,
        }
    }

    /// Takes the memory that an open command needs.
    fn reserve_open(
        &mut self,
        provider: PartyKey,
        number: Whole,
        deadline: Moment,
    ) -> Result<(), AllocError>
        ensures rows { self.new.rows ≡ self.old.rows }
        ensures keeps { KeepsRoom self.old.rooms self.new.rooms }
        ensures room { OnOk result (HasRoomUntil self.new.rooms (provider, number) deadline) }
        ensures again { HasRoomUntil self.old.rooms (provider, number) deadline → IsOk result }
    {
        self.queue.reserve((deadline, (provider, number)))?;
        self.pending.reserve((provider, number))?;
        Ok(())
    }

    /// Takes the memory that a row needs, where it is a reply, an open command or a result. No row changes, whether
    /// there is enough or not. An error is want of memory, for a row that has no room.
    pub fn reserve_row(&mut self, row: &Row) -> Result<(), AllocError>
        ensures rows { self.new.rows ≡ self.old.rows }
        ensures keeps { KeepsRoom self.old.rooms self.new.rooms }
        ensures room { OnOk result (HasRoomOf self.new.rooms row.now) }
        ensures again { HasRoomOf self.old.rooms row.now → IsOk result }
    {
        match row {
            Row::Reply { sender, number, .. } => self.replies.reserve((*sender, *number)),
            Row::Pending {
                provider,
                number,
                open,
            } => self.reserve_open(*provider, *number, open.deadline),
            Row::Result {
                provider,
                number,
                ..
            } => self.results.reserve((*provider, *number)),
            Row::Count { .. }
            | Row::Token { .. }
            | Row::Push { .. }
            | Row::Service { .. }
            | Row::Spent { .. }
            | Row::Mark { .. }
            | Row::Reservation { .. }
            | Row::Session { .. }
            | Row::Cdr { .. }
            | Row::Command { .. } => Ok(()),
        }
    }

    /// Puts an open command, in place of the one of the request if there is one.
    fn put_open(&mut self, provider: PartyKey, number: Whole, command: Boxed<OpenCommand>)
        requires { HasRoomUntil self.old.rooms (provider, number) command.deadline }
        ensures rows { self.new.rows ≡ put_row (Row.Pending provider number command) self.old.rows }
        ensures room { HasRoomUntil self.new.rooms (provider, number) command.deadline }
        ensures keeps { KeepsOtherRoom (RowKey.Pending provider number) self.old.rooms self.new.rooms }
        ensures fresh { map.get self.old.rows.pending (provider, number) ≡ None → KeepsRoom self.old.rooms self.new.rooms }
    {
        let seen = &*command;
        let deadline = seen.deadline;
        let stale = self.stale(provider, number, deadline);
        unqueue(&mut self.queue, stale, provider, number);
        self.queue.put((deadline, (provider, number)), ());
        self.pending.put((provider, number), command);
    }

    /// Puts a row, where it is a reply, an open command or a result; another row changes nothing. It takes no memory.
    pub fn put_row(&mut self, row: Row)
        requires { HasRoomOf self.old.rooms row }
        ensures rows { self.new.rows ≡ put_row row self.old.rows }
        ensures room { HasRoomOf self.new.rooms row }
        ensures keeps { KeepsOtherRoom (key_of row) self.old.rooms self.new.rooms }
    {
        match row {
            Row::Reply {
                sender,
                number,
                reply,
            } => self.replies.put((sender, number), reply),
            Row::Pending {
                provider,
                number,
                open,
            } => self.put_open(provider, number, open),
            Row::Result {
                provider,
                number,
                result,
            } => self.results.put((provider, number), result),
            Row::Count { .. }
            | Row::Token { .. }
            | Row::Push { .. }
            | Row::Service { .. }
            | Row::Spent { .. }
            | Row::Mark { .. }
            | Row::Reservation { .. }
            | Row::Session { .. }
            | Row::Cdr { .. }
            | Row::Command { .. } => {}
        }
    }

    /// Drops an open command, if there is one.
    fn drop_open(&mut self, provider: PartyKey, number: Whole)
        ensures rows { self.new.rows ≡ drop_row (RowKey.Pending provider number) self.old.rows }
        ensures room { GivesBack (RowKey.Pending provider number) self.old self.new.rooms }
        ensures keeps { KeepsOtherRoom (RowKey.Pending provider number) self.old.rooms self.new.rooms }
    {
        let deadline = self.deadline(provider, number);
        unqueue(&mut self.queue, deadline, provider, number);
        drop(self.pending.remove((provider, number)));
    }

    /// Drops the reply to a request, if there is one.
    fn drop_reply(&mut self, sender: PartyKey, number: Whole)
        ensures rows { self.new.rows ≡ drop_row (RowKey.Reply sender number) self.old.rows }
        ensures room { GivesBack (RowKey.Reply sender number) self.old self.new.rooms }
        ensures keeps { KeepsOtherRoom (RowKey.Reply sender number) self.old.rooms self.new.rooms }
    {
        drop(self.replies.remove((sender, number)));
    }

    /// Drops the row of that key, if it is a reply, an open command or a result, with its room. It takes no memory.
    pub fn drop_row(&mut self, key: RowKey)
        ensures rows { self.new.rows ≡ drop_row key self.old.rows }
        ensures room { GivesBack key self.old self.new.rooms }
        ensures keeps { KeepsOtherRoom key self.old.rooms self.new.rooms }
    {
        match key {
            RowKey::Reply { sender, number } => self.drop_reply(sender, number),
            RowKey::Pending { provider, number } => self.drop_open(provider, number),
            RowKey::Result { provider, number } => {
                self.results.remove((provider, number));
            }
            RowKey::Count { .. }
            | RowKey::Token { .. }
            | RowKey::Push { .. }
            | RowKey::Service { .. }
            | RowKey::Spent { .. }
            | RowKey::Mark { .. }
            | RowKey::Reservation { .. }
            | RowKey::Session { .. }
            | RowKey::Cdr { .. }
            | RowKey::Command { .. } => {}
        }
    }

    /// Adds a row that was read from a store, as `put_row`. An error is want of memory, for a row that has no room, and
    /// leaves the rows as they were. What has room keeps it, but for that of another row under the same key.
    pub fn add_row(&mut self, row: Row) -> Result<(), AllocError>
        ensures ok { OnOk result (self.new.rows ≡ put_row row self.old.rows) }
        ensures err { OnErr result (self.new.rows ≡ self.old.rows) }
        ensures again { HasRoomOf self.old.rooms row → IsOk result }
        ensures room { OnOk result (HasRoomOf self.new.rooms row) }
        ensures keeps { KeepsOtherRoom (key_of row) self.old.rooms self.new.rooms }
        ensures kept { OnErr result (KeepsRoom self.old.rooms self.new.rooms) }
    {
        self.reserve_row(&row)?;
        self.put_row(row);
        Ok(())
    }

    /// Keeps the reply to a request that has none yet. An error is want of memory, and leaves everything as it was.
    pub fn keep_reply(
        &mut self,
        sender: PartyKey,
        number: Whole,
        reply: Reply,
    ) -> Result<(), AllocError>
        requires { map.get self.old.rows.replies (sender, number) ≡ None }
        ensures ok { OnOk result (self.new.rows ≡ record self.old.rows { replies = map.insert self.old.rows.replies (sender, number) reply }) }
        ensures rooms { OnOk result (self.new.rooms ≡ record self.old.rooms { replies = map.insert self.old.rooms.replies (sender, number) tt }) }
        ensures err { OnErr result (self.new ≡ self.old) }
        ensures again { HasRoomOf self.old.rooms (Row.Reply sender number reply) → IsOk result }
        ensures call { Leaves (KeepReply (sender, number) reply) self.old.rows self.new.rows }
    {
        self.replies.insert((sender, number), reply)?;
        Ok(())
    }

    /// Opens a command that was accepted, until its result or the first tick at its deadline or later; a start with the
    /// place that it took. Refused is a command that is open or has its result (`AlreadyOpen`), and then want of memory
    /// (`Memory`); either leaves the rows as they were. What has room keeps it.
    pub fn open(
        &mut self,
        provider: PartyKey,
        number: Whole,
        command: Boxed<OpenCommand>,
    ) -> Result<(), CommandFault>
        requires { IsPlaced command }
        ensures ok { OnOk result (self.new.rows ≡ record self.old.rows { pending = map.insert self.old.rows.pending (provider, number) command }) }
        ensures may { OnOk result (MayOpen self.old.rows (provider, number)) }
        ensures refused { IfErr result (λ e. BarsOpening self.old.rows (provider, number) e) }
        ensures err { OnErr result (self.new.rows ≡ self.old.rows) }
        ensures again { MayOpen self.old.rows (provider, number) → HasRoomOf self.old.rooms (Row.Pending provider number command) → IsOk result }
        ensures room { OnOk result (HasRoomOf self.new.rooms (Row.Pending provider number command)) }
        ensures keeps { KeepsRoom self.old.rooms self.new.rooms }
        ensures call { Leaves (Open (provider, number) command) self.old.rows self.new.rows }
    {
        self.may_open(provider, number)?;
        self.reserve_open(provider, number, command.deadline)?;
        self.put_open(provider, number, command);
        Ok(())
    }

    /// Keeps a result. An error is want of memory, and leaves everything as it was.
    fn add_result(
        &mut self,
        provider: PartyKey,
        number: Whole,
        outcome: CommandResultType,
    ) -> Result<(), AllocError>
        ensures ok { OnOk result (self.new.rows ≡ put_row (Row.Result provider number outcome) self.old.rows) }
        ensures err { OnErr result (self.new ≡ self.old) }
        ensures again { HasRoomOf self.old.rooms (Row.Result provider number outcome) → IsOk result }
        ensures room { OnOk result (HasRoomOf self.new.rooms (Row.Result provider number outcome)) }
        ensures keeps { KeepsRoom self.old.rooms self.new.rooms }
    {
        self.results.insert((provider, number), outcome)?;
        Ok(())
    }

    /// Ends the command of that number, if it is open, whose room is given back, and keeps its result for good.
    /// Refused is a command that has its result (`Settled`), and then want of memory (`Memory`); either leaves
    /// everything as it was.
    pub fn settle(
        &mut self,
        provider: PartyKey,
        number: Whole,
        outcome: CommandResultType,
    ) -> Result<(), CommandFault>
        ensures ok { OnOk result (self.new.rows ≡ record self.old.rows { pending = map.remove self.old.rows.pending (provider, number); results = map.insert self.old.rows.results (provider, number) outcome }) }
        ensures may { OnOk result (MaySettle self.old.rows (provider, number)) }
        ensures refused { IfErr result (λ e. BarsSettling self.old.rows (provider, number) e) }
        ensures room { OnOk result (HasRoomOf self.new.rooms (Row.Result provider number outcome)) }
        ensures gives_back { OnOk result (GivesBack (RowKey.Pending provider number) self.old self.new.rooms) }
        ensures keeps { KeepsOtherRoom (RowKey.Pending provider number) self.old.rooms self.new.rooms }
        ensures err { OnErr result (self.new ≡ self.old) }
        ensures again { MaySettle self.old.rows (provider, number) → HasRoomOf self.old.rooms (Row.Result provider number outcome) → IsOk result }
        ensures call { Leaves (Settle (provider, number) outcome) self.old.rows self.new.rows }
    {
        self.may_settle(provider, number)?;
        self.add_result(provider, number, outcome)?;
        self.drop_open(provider, number);
        Ok(())
    }
}
