//! The commands that a provider has sent, with what finds those that wait for their answers.

ghost use Rattle.std.specs.Prelude.{◌≡◌, ◌≢◌, ◌↔◌, ◌≤◌, ℕ, IfOk, IsOk, IsTrue, OnOk, option_copied};
ghost use Rattle.std.specs.BTreeMap.Range.{entries_from};
ghost use Rattle.std.specs.FinMap as map;
ghost use Rattle.std.specs.Ordering.{nat_cmp};
ghost use Rattle.ocpi_types.specs.declared.stored.SentCommand.{SentCommand};
ghost use Rattle.outbox.specs.Commands.{AreWaiting, HasRoomOfCommand, IsOpen, IsUnanswered};

use ocpi_text::Whole;
use ocpi_types::{Boxed, SentCommand};
use sorted_lists::{SortedList, Visits};
use std::alloc::{AllocError, Global};
use std::marker::Model;

/// Sent commands by number.
#[derive(Drop)]
pub(crate) struct SentCommands {
    commands: SortedList<Whole, Boxed<SentCommand>>,
    /// The numbers of those with neither answer nor result.
    waiting: SortedList<Whole, ()>,
}

impl Model for SentCommands {
    ghost use Rattle.std.specs.FinMap as map;
    ghost use Rattle.std.specs.Coded.{codes};
    ghost use Rattle.std.specs.Ordering.{nat_cmp};
    ghost use Rattle.tables.specs.Tables.{shown_of, rooms_of};
    ghost use Rattle.outbox.specs.Commands.{AreWaiting, HeldCommands};

    ghost Value = { HeldCommands };

    ghost coded = { Prim.hlevel (codes, map.code) };

    ghost view = { λ b. record {
      commands = shown_of nat_cmp b.commands;
      waiting = shown_of nat_cmp b.waiting;
      rooms = record { commands = rooms_of nat_cmp b.commands; waiting = rooms_of nat_cmp b.waiting };
    } };

    ghost invariant = { λ b. AreWaiting (shown_of nat_cmp b.commands) (shown_of nat_cmp b.waiting) };
}

/// Whether neither the answer nor the result came.
fn is_unanswered(command: &SentCommand) -> bool
    ensures { IsTrue result ↔ IsUnanswered command.now }
{
    command.answer.is_none() && command.result.is_none()
}

impl SentCommands {
    /// No command was sent. It takes no memory.
    pub(crate) fn new(alloc: Global) -> SentCommands
        ensures { result.commands ≡ map.empty }
    {
        SentCommands {
            commands: SortedList::new(alloc),
            waiting: SortedList::new(alloc),
        }
    }

    /// The command of a number.
    pub(crate) fn get(&self, number: Whole) -> Option<&Boxed<SentCommand>>
        ensures { option_copied result ≡ map.get self.now.commands number }
    {
        self.commands.get(number)
    }

    /// Whether a command of that number was sent.
    pub(crate) fn stands(&self, number: Whole) -> bool
        ensures { result ≡ map.contains_key self.now.commands number }
    {
        self.commands.contains(number)
    }

    /// Whether the command of that number waits for its answer.
    pub(crate) fn waits(&self, number: Whole) -> bool
        ensures { IsTrue result ↔ IsOpen self.now.commands number }
    {
        self.waiting.contains(number)
    }

    /// Each command with its number, in the order of the numbers.
    pub(crate) fn visits(&self) -> Visits<'_, Whole, Boxed<SentCommand>>
        ensures { result ≡ map.entries self.now.commands }
    {
        self.commands.iter()
    }

    /// Each number from the first on of a command that waits for its answer.
    pub(crate) fn waiting_from(&self, first: Whole) -> Visits<'_, Whole, ()>
        ensures visits { result ≡ entries_from (nat_cmp first) (map.entries self.now.waiting) }
        ensures exact { AreWaiting self.now.commands self.now.waiting }
    {
        self.waiting.range_from(first)
    }

    /// The least number at or after `first` of a command that waits, or the greatest of all numbers.
    pub(crate) fn lowest_from(&self, first: Whole) -> Whole
        ensures { (n : ℕ) → IsOpen self.now.commands n → first ≤ n → result ≤ n }
    {
        match self.waiting.first_from(first) {
            Some(found) => found.0,
            None => Whole::new(Whole::MAX).unwrap(),
        }
    }

    /// Whether no command has a number above that one.
    pub(crate) fn is_up_to(&self, last: Whole) -> bool
        ensures { IsTrue result ↔ ((n : ℕ) → IsTrue (map.contains_key self.now.commands n) → n ≤ last) }
    {
        match self.commands.first_after(last) {
            Some(_) => false,
            None => true,
        }
    }

    /// Takes the room that a command needs. An error is want of memory, for a command that has none.
    pub(crate) fn reserve(&mut self, number: Whole, command: &SentCommand) -> Result<(), AllocError>
        ensures commands { self.new.commands ≡ self.old.commands }
        ensures room { OnOk result (HasRoomOfCommand self.new.rooms number command.now) }
        ensures keeps { (n : ℕ) (c : SentCommand) → HasRoomOfCommand self.old.rooms n c → HasRoomOfCommand self.new.rooms n c }
        ensures again { HasRoomOfCommand self.old.rooms number command.now → IsOk result }
    {
        self.commands.reserve(number)?;
        if is_unanswered(command) {
            self.waiting.reserve(number)?;
        }
        Ok(())
    }

    /// Puts a command, in place of the one of its number if there is one. It takes no memory.
    pub(crate) fn put(&mut self, number: Whole, command: Boxed<SentCommand>)
        requires { HasRoomOfCommand self.old.rooms number command }
        ensures commands { self.new.commands ≡ map.insert self.old.commands number command }
        ensures keeps { (n : ℕ) (c : SentCommand) → n ≢ number → HasRoomOfCommand self.old.rooms n c → HasRoomOfCommand self.new.rooms n c }
        ensures room { HasRoomOfCommand self.new.rooms number command }
    {
        let waits = is_unanswered(&command);
        self.commands.put(number, command);
        if waits {
            self.waiting.put(number, ());
        } else {
            self.waiting.remove(number);
        }
    }

    /// Takes the command of a number out, if there is one, and gives its room back. It takes no memory.
    pub(crate) fn remove(&mut self, number: Whole)
        ensures commands { self.new.commands ≡ map.remove self.old.commands number }
        ensures keeps { (n : ℕ) (c : SentCommand) → n ≢ number → HasRoomOfCommand self.old.rooms n c → HasRoomOfCommand self.new.rooms n c }
        ensures gives { (c : SentCommand) → HasRoomOfCommand self.new.rooms number c → ⊥ }
    {
        self.waiting.remove(number);
        self.commands.remove(number);
    }

    /// The same commands. An error is want of memory.
    pub(crate) fn copy(&self, alloc: Global) -> Result<SentCommands, AllocError>
        ensures { IfOk result (λ b. b.commands ≡ self.now.commands) }
    {
        let mut copy = SentCommands::new(alloc);
        for (number, command) in self.visits() {
            copy.add(*number, command)?;
        }
        Ok(copy)
    }

    /// Adds a copy of a command.
    fn add(&mut self, number: Whole, command: &Boxed<SentCommand>) -> Result<(), AllocError>
        ensures { OnOk result (self.new.commands ≡ map.insert self.old.commands number command.now) }
    {
        let copy = command.copy()?;
        self.reserve(number, &copy)?;
        self.put(number, copy);
        Ok(())
    }
}
