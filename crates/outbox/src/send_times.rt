//! When requests are sent again.

ghost use Rattle.std.specs.Prelude.{
  ◌≡◌,
  ◌≢◌,
  ◌↔◌,
  ◌++◌,
  ◌≤◌,
  ℕ,
  IfOk,
  IfSome,
  IfNone,
  IsOk,
  IsTrue,
  OnErr,
  OnOk,
  None,
  Some,
  Contains,
};
ghost use Rattle.std.specs.FinMap as map;
ghost use Rattle.tables.specs.Tables.{shown_of, rooms_of};
ghost use Rattle.outbox.specs.Due.{due_front, untimed};
ghost use Rattle.outbox.specs.Resend.{
  HasRoomUntil,
  IsQueue,
  KeepsSendRoom,
  given_back,
  moment_number_cmp,
  moved_to,
  released,
  unqueued,
};

use ocpi_text::{Moment, Whole};
use sorted_lists::{SortedList, Visits};
use std::alloc::{AllocError, Global};
use std::marker::Model;

/// From which moment on each request is due again that was sent.
#[derive(Drop)]
pub(crate) struct SendTimes {
    moments: SortedList<Whole, Moment>,
    /// The numbers, by that moment.
    queue: SortedList<(Moment, Whole), ()>,
}

impl Model for SendTimes {
    ghost use Rattle.std.specs.FinMap as map;
    ghost use Rattle.std.specs.Coded.{codes};
    ghost use Rattle.std.specs.Ordering.{nat_cmp};
    ghost use Rattle.tables.specs.Tables.{shown_of, rooms_of};
    ghost use Rattle.outbox.specs.Resend.{HeldTimes, IsQueue, moment_number_cmp};

    ghost Value = { HeldTimes };

    ghost coded = { Prim.hlevel (codes, map.code) };

    ghost view = { λ t. record {
      resend = shown_of nat_cmp t.moments;
      queue = shown_of moment_number_cmp t.queue;
      rooms = record { numbers = rooms_of nat_cmp t.moments; moments = rooms_of moment_number_cmp t.queue };
    } };

    ghost invariant = { λ t. IsQueue (shown_of moment_number_cmp t.queue) (shown_of nat_cmp t.moments) };
}

/// Takes a number out of a queue, where it stands there by that moment.
fn unqueue(queue: &mut SortedList<(Moment, Whole), ()>, moment: Option<Moment>, number: Whole)
    ensures shown { shown_of moment_number_cmp queue.new ≡ unqueued moment number (shown_of moment_number_cmp queue.old) }
    ensures room { rooms_of moment_number_cmp queue.new ≡ unqueued moment number (rooms_of moment_number_cmp queue.old) }
{
    if let Some(moment) = moment {
        queue.remove((moment, number));
    }
}

/// A moment that is not that one.
fn other_than(found: Option<Moment>, moment: Moment) -> Option<Moment>
    ensures some { IfSome result (λ d. (found ≡ Some d) × (d ≢ moment)) }
    ensures none { IfNone result ((d : ℕ) → found ≡ Some d → d ≡ moment) }
{
    match found {
        Some(other) if other != moment => Some(other),
        _ => None,
    }
}

/// Adds the numbers of the entries that have no resend time. An error is want of memory for one of these.
pub(crate) fn push_untimed<V>(
    entries: Visits<'_, Whole, V>,
    times: &SendTimes,
    due: &mut Vec<Whole>,
) -> Result<(), AllocError>
    ensures ok { OnOk result (due.new.items ≡ due.old.items ++ untimed times.now.resend entries.entry) }
    ensures err { OnErr result ((n : ℕ) × Contains (untimed times.now.resend entries.entry) n) }
{
    for (number, _) in entries {
        if times.get(*number).is_none() {
            due.push(*number)?;
        }
    }
    Ok(())
}

/// Adds the numbers at the front of a queue whose moments are at or before that one. An error is want of memory for
/// one of these.
fn push_due(
    queue: &SortedList<(Moment, Whole), ()>,
    at: Moment,
    due: &mut Vec<Whole>,
) -> Result<(), AllocError>
    ensures ok { OnOk result (due.new.items ≡ due.old.items ++ due_front at (map.entries (shown_of moment_number_cmp queue.now))) }
    ensures err { OnErr result ((n : ℕ) × Contains (due_front at (map.entries (shown_of moment_number_cmp queue.now))) n) }
{
    for (key, _) in queue.iter() {
        if key.0 > at {
            return Ok(());
        }
        due.push(key.1)?;
    }
    Ok(())
}

impl SendTimes {
    /// No request has a time. It takes no memory.
    pub(crate) fn new(alloc: Global) -> SendTimes
        ensures { result.resend ≡ map.empty }
    {
        SendTimes {
            moments: SortedList::new(alloc),
            queue: SortedList::new(alloc),
        }
    }

    /// The resend time of a request.
    pub(crate) fn get(&self, number: Whole) -> Option<Moment>
        ensures { result ≡ map.get self.now.resend number }
    {
        self.moments.get(number).copied()
    }

    /// Takes the room that a request needs to be due from a moment on. An error is want of memory, where there was
    /// none.
    pub(crate) fn reserve(&mut self, moment: Moment, number: Whole) -> Result<(), AllocError>
        ensures resend { self.new.resend ≡ self.old.resend }
        ensures keeps { KeepsSendRoom self.old.rooms self.new.rooms }
        ensures room { OnOk result (HasRoomUntil self.new.rooms number moment) }
        ensures again { HasRoomUntil self.old.rooms number moment → IsOk result }
    {
        self.moments.reserve(number)?;
        self.queue.reserve((moment, number))
    }

    /// A request is due from a moment on, and gives the room by its old moment back. It takes no memory.
    pub(crate) fn set(&mut self, number: Whole, moment: Moment)
        requires { HasRoomUntil self.old.rooms number moment }
        ensures resend { self.new.resend ≡ map.insert self.old.resend number moment }
        ensures rooms { self.new.rooms ≡ moved_to moment (map.get self.old.resend number) number self.old.rooms }
    {
        let old = self.moments.get(number).copied();
        unqueue(&mut self.queue, other_than(old, moment), number);
        self.queue.put((moment, number), ());
        self.moments.put(number, moment);
    }

    /// A request is due at once, and gives the room of its moment back, if it has one. It takes no memory.
    pub(crate) fn clear(&mut self, number: Whole)
        ensures resend { self.new.resend ≡ map.remove self.old.resend number }
        ensures rooms { self.new.rooms ≡ released (map.get self.old.resend number) number self.old.rooms }
    {
        if let Some(moment) = self.moments.get(number).copied() {
            self.queue.remove((moment, number));
            self.moments.remove(number);
        }
    }

    /// A request ends, and gives its room back. It takes no memory.
    pub(crate) fn remove(&mut self, number: Whole)
        ensures resend { self.new.resend ≡ map.remove self.old.resend number }
        ensures rooms { self.new.rooms ≡ given_back (map.get self.old.resend number) number self.old.rooms }
    {
        let moment = self.moments.remove(number);
        unqueue(&mut self.queue, moment, number);
    }

    /// Adds the numbers whose moments are at or before that one. An error is want of memory for one of these.
    pub(crate) fn push_past(&self, at: Moment, due: &mut Vec<Whole>) -> Result<(), AllocError>
        ensures ok { OnOk result (due.new.items ≡ due.old.items ++ due_front at (map.entries self.now.queue)) }
        ensures err { OnErr result ((n : ℕ) × Contains (due_front at (map.entries self.now.queue)) n) }
        ensures exact { IsQueue self.now.queue self.now.resend }
    {
        push_due(&self.queue, at, due)
    }

    /// Each number that has a resend time, with that.
    fn visits(&self) -> Visits<'_, Whole, Moment>
        ensures { result ≡ map.entries self.now.resend }
    {
        self.moments.iter()
    }

    /// Adds a time.
    fn add(&mut self, number: Whole, moment: Moment) -> Result<(), AllocError>
        ensures { OnOk result (self.new.resend ≡ map.insert self.old.resend number moment) }
    {
        self.reserve(moment, number)?;
        self.set(number, moment);
        Ok(())
    }

    /// The same times. An error is want of memory.
    pub(crate) fn copy(&self, alloc: Global) -> Result<SendTimes, AllocError>
        ensures { IfOk result (λ t. t.resend ≡ self.now.resend) }
    {
        let mut copy = SendTimes::new(alloc);
        for (number, moment) in self.visits() {
            copy.add(*number, *moment)?;
        }
        Ok(copy)
    }
}
