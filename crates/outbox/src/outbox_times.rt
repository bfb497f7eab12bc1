//! When requests are sent again.

ghost use Rattle.std.specs.Prelude.{◌≡◌, ◌≢◌, ◌≤◌, ℕ, None, IfOk, IsOk, OnOk};
ghost use Rattle.std.specs.FinMap as map;
ghost use Rattle.outbox.specs.Due.{AreExactly, IsDue};
ghost use Rattle.outbox.specs.Outbox.{Waits};
ghost use Rattle.outbox.specs.Resend.{HasRoomToSend, KeepsSendRoom, due_again, moved_to};

use crate::outbox::{Outbox, lower};
use crate::send_times::{SendTimes, push_untimed};
use ocpi_text::{Moment, Whole};
use std::alloc::{AllocError, Global};

/// How many milliseconds after a request was sent it is due again.
const RESEND_AFTER: u64 = 10_000;

impl Outbox {
    /// Takes the memory that `sent` needs for that request and that moment. An error is want of memory, where there
    /// was no room. No row and no resend time changes.
    pub fn reserve_sent(&mut self, number: Whole, at: Moment) -> Result<(), AllocError>
        ensures rows { self.new.rows ≡ self.old.rows }
        ensures rooms { self.new.rooms ≡ self.old.rooms }
        ensures resend { self.new.resend ≡ self.old.resend }
        ensures keeps { KeepsSendRoom self.old.sending self.new.sending }
        ensures room { OnOk result (HasRoomToSend self.new.sending number at) }
        ensures again { HasRoomToSend self.old.sending number at → IsOk result }
    {
        self.times.reserve(at.after(RESEND_AFTER), number)
    }

    /// The least number at or after `first` of a request that waits, or the greatest of all numbers.
    fn lowest_waiting(&self) -> Whole
        ensures { (n : ℕ) → Waits self.now.rows n → map.get self.now.resend n ≡ None → result ≤ n }
    {
        let push = self.book.lowest_from(self.first);
        let command = self.commands.lowest_from(self.first);
        lower(push, command)
    }

    /// A number that no request is below which waits without a resend time, but for `number`.
    fn first_without(&self, number: Whole) -> Whole
        ensures { (n : ℕ) → n ≢ number → Waits self.now.rows n → map.get self.now.resend n ≡ None → result ≤ n }
    {
        if number < self.first {
            return self.first;
        }
        let lowest = if self.first == number {
            number
        } else {
            self.lowest_waiting()
        };
        if lowest == number {
            number.next().unwrap_or(number)
        } else {
            lowest
        }
    }

    /// The request of that number was sent at that moment, and is due again ten seconds later, but not after the last
    /// moment. The room by its old resend time is given back. Where it does not wait nothing changes. It takes no
    /// memory.
    pub fn sent(&mut self, number: Whole, at: Moment)
        requires { HasRoomToSend self.old.sending number at }
        ensures rows { self.new.rows ≡ self.old.rows }
        ensures rooms { self.new.rooms ≡ self.old.rooms }
        ensures resend { Waits self.old.rows number → self.new.resend ≡ map.insert self.old.resend number (due_again at) }
        ensures sending { Waits self.old.rows number → self.new.sending ≡ moved_to (due_again at) (map.get self.old.resend number) number self.old.sending }
        ensures none { (Waits self.old.rows number → ⊥) → self.new ≡ self.old }
    {
        if self.waits(number) {
            self.first = self.first_without(number);
            self.times.set(number, at.after(RESEND_AFTER));
        }
    }

    /// The numbers of the requests that are due at that moment, in ascending order: those that wait and have no resend
    /// time, or one at or before it. It costs what is due, and the order of that, and a step for each request that
    /// waits from the first on that has no resend time. An error is want of memory, and does not come where nothing is
    /// due: then none is taken.
    pub fn due(&self, alloc: Global, at: Moment) -> Result<Vec<Whole>, AllocError>
        ensures ok { IfOk result (λ numbers. AreExactly (IsDue self.now.rows self.now.resend at) numbers.items) }
        ensures none { ((n : ℕ) → IsDue self.now.rows self.now.resend at n → ⊥) → IsOk result }
    {
        let mut due = Vec::new(alloc);
        self.times.push_past(at, &mut due)?;
        push_untimed(self.book.visits_from(self.first), &self.times, &mut due)?;
        push_untimed(
            self.commands.waiting_from(self.first),
            &self.times,
            &mut due,
        )?;
        due.sort_unstable();
        Ok(due)
    }

    /// The node starts again: each request that waits is due at once. No row changes. It takes no memory, and the
    /// times go at once.
    pub fn restart(&mut self, alloc: Global)
        ensures rows { self.new.rows ≡ self.old.rows }
        ensures rooms { self.new.rooms ≡ self.old.rooms }
        ensures resend { self.new.resend ≡ map.empty }
    {
        self.times = SendTimes::new(alloc);
        self.first = Whole::new(0).unwrap();
    }
}
