//! What a node sends until it is answered.

ghost use Rattle.std.specs.Prelude.{◌≡◌, ◌↔◌, ◌+◌, ◌≤◌, ℕ, None, IfOk, IfErr, IsTrue, option_copied};
ghost use Rattle.std.specs.FinMap as map;
ghost use Rattle.ocpi_text.specs.Whole.{max_whole};
ghost use Rattle.ocpi_types.specs.declared.rows.RowKey.TheVariants as keys;
ghost use Rattle.outbox.specs.Outbox.{
  AreConsistent,
  AreResent,
  AreUpTo,
  GivesBack,
  IsTo,
  KeepsOtherRoom,
  Waits,
  no_rows,
};
ghost use Rattle.outbox.specs.Pushes.{IsReplaced, subject};
ghost use Rattle.outbox.specs.Resend.{given_back};
ghost use Rattle.outbox.specs.declared.fault.OutboxFault.TheVariants.{NumbersUsedUp};

use crate::fault::OutboxFault;
use crate::push_book::{Outgoing, PushBook};
use crate::send_times::SendTimes;
use crate::sent_commands::SentCommands;
use ocpi_text::{Party, Whole};
use ocpi_types::{Boxed, Push, SentCommand};
use sorted_lists::Visits;
use std::alloc::Global;
use std::marker::Model;

/// The requests of a node that are sent until they are answered, by number, and the number of its last request:
/// pushes, which end when they are acknowledged, and at a provider commands, which stay, and wait until their answer
/// or their result comes. A push of a newer version of a session, or of a token to the same operator, replaces the
/// older one. A request that was sent is due again ten seconds later, and one that was not at once; these times are no
/// rows. A lookup and a change cost the logarithm of what is stored; a new row of a lower number than others, or a
/// resend time that is earlier, moves these, or those before it, whichever are fewer.
///
/// At all times each number is at most that of the last request, no number is both a push's and a command's, no two
/// pushes are about the same, and only what waits has a resend time: `consistency`.
#[derive(Drop)]
pub struct Outbox {
    pub(crate) last: Whole,
    /// No request below this number waits without a resend time.
    pub(crate) first: Whole,
    pub(crate) book: PushBook,
    pub(crate) commands: SentCommands,
    pub(crate) times: SendTimes,
}

impl Model for Outbox {
    ghost use Rattle.std.specs.FinMap as map;
    ghost use Rattle.std.specs.Coded.{codes};
    ghost use Rattle.outbox.specs.Outbox.{AreHeld, HeldOutbox};

    ghost Value = { HeldOutbox };

    ghost coded = { Prim.hlevel (codes, map.code) };

    ghost view = { λ b. record {
      rows = record { last = b.last; pushes = b.book.pushes; commands = b.commands.commands };
      rooms = record { pushes = b.book.rooms; commands = b.commands.rooms };
      resend = b.times.resend;
      sending = b.times.rooms;
    } };

    ghost invariant = { λ b. AreHeld (record { last = b.last; pushes = b.book.pushes; commands = b.commands.commands }) b.times.resend b.first };
}

/// `first`, or once it is above the last number a number after the next one.
fn raised(first: Whole, last: Whole, next: Whole) -> Whole
    ensures { (n : ℕ) → first ≤ n → n ≤ last → result ≤ n }
{
    if last < first {
        next.next().unwrap_or(next)
    } else {
        first
    }
}

/// The lesser of two numbers.
pub(crate) fn lower(a: Whole, b: Whole) -> Whole
    ensures first { result ≤ a }
    ensures second { result ≤ b }
{
    if b < a { b } else { a }
}

impl Outbox {
    /// Nothing is sent, and no request was made. It takes no memory.
    pub fn new(alloc: Global) -> Outbox
        ensures rows { result.rows ≡ no_rows }
        ensures resend { result.resend ≡ map.empty }
    {
        Outbox {
            last: Whole::new(0).unwrap(),
            first: Whole::new(1).unwrap(),
            book: PushBook::new(alloc),
            commands: SentCommands::new(alloc),
            times: SendTimes::new(alloc),
        }
    }

    /// What holds at all times: each number is a request's, no number is both a push's and a command's, no two pushes
    /// are about the same, and only what waits has a resend time.
    pub fn consistency(&self)
        ensures rows { AreConsistent self.now.rows }
        ensures resend { AreResent self.now.rows self.now.resend }
    {
        let _last = self.last;
    }

    /// The number of the last request, 0 where none was made.
    pub fn last_number(&self) -> Whole
        ensures { result ≡ self.now.rows.last }
    {
        self.last
    }

    /// The number of the next request. Refused where the last one has the greatest number (`NumbersUsedUp`).
    pub fn next_number(&self) -> Result<Whole, OutboxFault>
        ensures ok { IfOk result (λ n. n ≡ self.now.rows.last + 1) }
        ensures err { IfErr result (λ e. (e ≡ NumbersUsedUp) × (max_whole ≤ self.now.rows.last)) }
    {
        match self.last.next() {
            Some(number) => Ok(number),
            None => Err(OutboxFault::NumbersUsedUp),
        }
    }

    /// The push of a number.
    pub fn get(&self, number: Whole) -> Option<&Outgoing>
        ensures { option_copied result ≡ map.get self.now.rows.pushes number }
    {
        self.book.get(number)
    }

    /// The command that was sent under a number, with what came back.
    pub fn command(&self, number: Whole) -> Option<&Boxed<SentCommand>>
        ensures { option_copied result ≡ map.get self.now.rows.commands number }
    {
        self.commands.get(number)
    }

    /// Each push with its number, in the order of the numbers.
    pub fn unacked(&self) -> Visits<'_, Whole, Outgoing>
        ensures { result ≡ map.entries self.now.rows.pushes }
    {
        self.book.visits()
    }

    /// Each command that was sent with its number, in the order of the numbers.
    pub fn sent_commands(&self) -> Visits<'_, Whole, Boxed<SentCommand>>
        ensures { result ≡ map.entries self.now.rows.commands }
    {
        self.commands.visits()
    }

    /// The number of the push that a newer one to that party would replace: the one about the same session, or about
    /// the same token at the same operator, if there is one.
    pub fn replaced(&self, to: &Party, push: &Push) -> Option<Whole>
        ensures { IsReplaced self.now.rows.pushes (subject to.now push.now) result }
    {
        self.book.replaced(to, push)
    }

    /// Whether there is a push of that number to that party.
    pub fn is_to(&self, from: &Party, number: Whole) -> bool
        ensures { IsTrue result ↔ IsTo self.now.rows.pushes from.now number }
    {
        match self.book.get(number) {
            Some(outgoing) => outgoing.to.is_same(from),
            None => false,
        }
    }

    /// Whether the request of that number waits: a push that stands, or a command with neither answer nor result.
    pub fn waits(&self, number: Whole) -> bool
        ensures { IsTrue result ↔ Waits self.now.rows number }
    {
        self.book.stands(number) || self.commands.waits(number)
    }

    /// Makes that number the last one. It takes no memory.
    pub(crate) fn count_to(&mut self, last: Whole)
        requires { AreUpTo self.old.rows last }
        ensures { self.new ≡ record self.old { rows = record self.old.rows { last = last } } }
    {
        self.first = raised(self.first, self.last, last);
        self.last = last;
    }

    /// Takes the number of the next request, which is neither a push nor a command. It takes no memory. Refused where
    /// the last one has the greatest number (`NumbersUsedUp`).
    pub fn take_number(&mut self) -> Result<Whole, OutboxFault>
        ensures ok { IfOk result (λ n. (n ≡ self.old.rows.last + 1) × (self.new ≡ record self.old { rows = record self.old.rows { last = n } })) }
        ensures err { IfErr result (λ e. (e ≡ NumbersUsedUp) × (max_whole ≤ self.old.rows.last) × (self.new ≡ self.old)) }
    {
        let _last = self.last;
        let number = self.next_number()?;
        self.count_to(number);
        Ok(number)
    }

    /// Takes the push of a number out, if there is one, with its resend time, and gives its room back. It takes no
    /// memory.
    pub(crate) fn end_push(&mut self, number: Whole)
        requires { map.get self.old.rows.commands number ≡ None }
        ensures rows { self.new.rows ≡ record self.old.rows { pushes = map.remove self.old.rows.pushes number } }
        ensures resend { self.new.resend ≡ map.remove self.old.resend number }
        ensures sending { self.new.sending ≡ given_back (map.get self.old.resend number) number self.old.sending }
        ensures keeps { KeepsOtherRoom (keys.Push number) self.old.rooms self.new.rooms }
        ensures gives { GivesBack (keys.Push number) self.new.rooms }
    {
        self.times.remove(number);
        self.book.remove(number);
    }

    /// Drops the push of that number, and its resend time, where it is to the party that acknowledges it, and gives
    /// its room back. Anything else stays. It takes no memory.
    pub fn ack(&mut self, from: &Party, number: Whole)
        ensures acknowledged { IsTo self.old.rows.pushes from.now number → self.new.rows ≡ record self.old.rows { pushes = map.remove self.old.rows.pushes number } }
        ensures resend { IsTo self.old.rows.pushes from.now number → self.new.resend ≡ map.remove self.old.resend number }
        ensures sending { IsTo self.old.rows.pushes from.now number → self.new.sending ≡ given_back (map.get self.old.resend number) number self.old.sending }
        ensures keeps { KeepsOtherRoom (keys.Push number) self.old.rooms self.new.rooms }
        ensures gives { IsTo self.old.rows.pushes from.now number → GivesBack (keys.Push number) self.new.rooms }
        ensures other { (IsTo self.old.rows.pushes from.now number → ⊥) → self.new ≡ self.old }
    {
        let _last = self.last;
        if self.is_to(from, number) {
            self.end_push(number);
        }
    }
}
