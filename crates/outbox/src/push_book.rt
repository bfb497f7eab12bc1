//! The pushes that are not acknowledged, with what finds them by what they are about.

ghost use Rattle.std.specs.BTreeMap.Range.{entries_from};
ghost use Rattle.std.specs.Ordering.{nat_cmp};
ghost use Rattle.std.specs.Prelude.{
  ◌≡◌,
  ◌≢◌,
  ◌↔◌,
  ◌≤◌,
  ℕ,
  Option,
  Some,
  None,
  IfOk,
  IsOk,
  OnOk,
  option_copied,
  option_map,
  IsTrue,
};
ghost use Rattle.std.specs.FinMap as map;
ghost use Rattle.outbox.specs.declared.push_book.Outgoing.{Outgoing};
ghost use Rattle.outbox.specs.declared.push_book.Subject.{Subject};
ghost use Rattle.outbox.specs.Pushes.{
  subject_exact,
  HasRoomOfPush,
  KeepsPushRoom,
  IsReplaced,
  subject,
  subject_of,
  type_number,
};

use ocpi_text::{CiKey, Party, PartyKey, Whole};
use ocpi_types::{Push, TokenType};
use sorted_lists::{SortedList, Visits};
use std::alloc::{AllocError, Global};
use std::marker::Model;
use tables::{Table, TableKey};

/// What is pushed, and to whom.
#[derive(Drop)]
pub struct Outgoing {
    pub to: Party,
    pub push: Push,
}

/// What a push is the newest state of: a session of its operator, or a token at the operator that it is pushed to.
#[derive(Clone, Copy, PartialEq, Eq, PartialOrd, Ord)]
pub(crate) struct Subject {
    /// The operator.
    operator: PartyKey,
    /// The party of the session or the token.
    party: PartyKey,
    /// It tells sessions and the types of tokens apart.
    kind: u64,
    id: CiKey<36>,
}

/// By its parts, one after the other.
impl TableKey for Subject {
    ghost exact = { subject_exact };
}

/// Pushes by number.
#[derive(Drop)]
pub(crate) struct PushBook {
    pushes: SortedList<Whole, Outgoing>,
    /// The numbers of the pushes about each subject.
    subjects: Table<(Subject, Whole), ()>,
}

impl Model for PushBook {
    ghost use Rattle.std.specs.FinMap as map;
    ghost use Rattle.std.specs.Coded.{codes};
    ghost use Rattle.std.specs.Ordering.{nat_cmp};
    ghost use Rattle.tables.specs.Tables.{shown_of, rooms_of};
    ghost use Rattle.outbox.specs.Pushes.{HeldPushes, AreIndexed, subject_number_cmp};

    ghost Value = { HeldPushes };

    ghost coded = { Prim.hlevel (codes, map.code) };

    ghost view = { λ b. record {
      pushes = shown_of nat_cmp b.pushes;
      rooms = record { pushes = rooms_of nat_cmp b.pushes; subjects = rooms_of subject_number_cmp b.subjects };
    } };

    ghost invariant = { λ b. AreIndexed (shown_of nat_cmp b.pushes) (shown_of subject_number_cmp b.subjects) };
}

fn type_number(token_type: TokenType) -> u64
    ensures { result ≡ type_number token_type }
{
    match token_type {
        TokenType::AdHocUser => 1,
        TokenType::AppUser => 2,
        TokenType::Other => 3,
        TokenType::Rfid => 4,
    }
}

/// What a push is the newest state of: a session of its operator, or a token at the operator that it is pushed to.
fn subject_of(to: &Party, push: &Push) -> Option<Subject>
    ensures { result ≡ subject to.now push.now }
{
    match push {
        Push::PutSession(session) => {
            let operator = session.party.key();
            Some(Subject {
                operator,
                party: operator,
                kind: 0,
                id: session.id.key(),
            })
        }
        Push::PutToken(token) => Some(Subject {
            operator: to.key(),
            party: token.party.key(),
            kind: type_number(token.token_type),
            id: token.uid.key(),
        }),
        Push::CommandResult(_) => None,
        Push::PostCdr(_) => None,
    }
}

impl PushBook {
    /// There is no push. It takes no memory.
    pub(crate) fn new(alloc: Global) -> PushBook
        ensures { result.pushes ≡ map.empty }
    {
        PushBook {
            pushes: SortedList::new(alloc),
            subjects: Table::new(alloc),
        }
    }

    /// The push of a number.
    pub(crate) fn get(&self, number: Whole) -> Option<&Outgoing>
        ensures { option_copied result ≡ map.get self.now.pushes number }
    {
        self.pushes.get(number)
    }

    /// Whether there is a push of that number.
    pub(crate) fn stands(&self, number: Whole) -> bool
        ensures { result ≡ map.contains_key self.now.pushes number }
    {
        self.pushes.contains(number)
    }

    /// Each push with its number, in the order of the numbers.
    pub(crate) fn visits(&self) -> Visits<'_, Whole, Outgoing>
        ensures { result ≡ map.entries self.now.pushes }
    {
        self.pushes.iter()
    }

    /// Each push from a number on with its number, in the order of the numbers.
    pub(crate) fn visits_from(&self, first: Whole) -> Visits<'_, Whole, Outgoing>
        ensures { result ≡ entries_from (nat_cmp first) (map.entries self.now.pushes) }
    {
        self.pushes.range_from(first)
    }

    /// The least number at or after `first` of a push, or the greatest of all numbers.
    pub(crate) fn lowest_from(&self, first: Whole) -> Whole
        ensures { (n : ℕ) → IsTrue (map.contains_key self.now.pushes n) → first ≤ n → result ≤ n }
    {
        match self.pushes.first_from(first) {
            Some(found) => found.0,
            None => Whole::new(Whole::MAX).unwrap(),
        }
    }

    /// Whether no push has a number above that one.
    pub(crate) fn is_up_to(&self, last: Whole) -> bool
        ensures { IsTrue result ↔ ((n : ℕ) → IsTrue (map.contains_key self.now.pushes n) → n ≤ last) }
    {
        match self.pushes.first_after(last) {
            Some(_) => false,
            None => true,
        }
    }

    /// The number of a push about the same as a newer one, which replaces it.
    pub(crate) fn replaced(&self, to: &Party, push: &Push) -> Option<Whole>
        ensures { IsReplaced self.now.pushes (subject to.now push.now) result }
    {
        let subject = subject_of(to, push)?;
        match self.subjects.first_with(subject, Whole::new(0).unwrap()) {
            Some(found) => Some(found.0),
            None => None,
        }
    }

    /// Takes the room that a push needs. An error is want of memory, for a push that has none.
    pub(crate) fn reserve(
        &mut self,
        number: Whole,
        to: &Party,
        push: &Push,
    ) -> Result<(), AllocError>
        ensures pushes { self.new.pushes ≡ self.old.pushes }
        ensures room { OnOk result (HasRoomOfPush self.new.rooms number (subject to.now push.now)) }
        ensures keeps { KeepsPushRoom self.old.rooms self.new.rooms }
        ensures again { HasRoomOfPush self.old.rooms number (subject to.now push.now) → IsOk result }
    {
        self.pushes.reserve(number)?;
        match subject_of(to, push) {
            Some(subject) => self.subjects.reserve((subject, number)),
            None => Ok(()),
        }
    }

    /// Takes the push of a number out, if there is one, and keeps its room. It takes no memory.
    fn clear(&mut self, number: Whole)
        ensures pushes { self.new.pushes ≡ map.remove self.old.pushes number }
        ensures rooms { self.new.rooms ≡ self.old.rooms }
    {
        let Some(outgoing) = self.pushes.get(number) else {
            return;
        };
        let subject = subject_of(&outgoing.to, &outgoing.push);
        self.pushes.clear(number);
        if let Some(subject) = subject {
            self.subjects.clear((subject, number));
        }
    }

    /// Puts a push where there is none of its number. It takes no memory.
    fn fill(&mut self, number: Whole, to: Party, push: Push)
        requires room { HasRoomOfPush self.old.rooms number (subject to push) }
        requires new { map.get self.old.pushes number ≡ None }
        ensures pushes { self.new.pushes ≡ map.insert self.old.pushes number (record { to = to; push = push }) }
        ensures rooms { self.new.rooms ≡ self.old.rooms }
    {
        let subject = subject_of(&to, &push);
        self.pushes.put(number, Outgoing { to, push });
        if let Some(subject) = subject {
            self.subjects.put((subject, number), ());
        }
    }

    /// Puts a push, in place of the one of its number if there is one. It takes no memory.
    pub(crate) fn put(&mut self, number: Whole, to: Party, push: Push)
        requires { HasRoomOfPush self.old.rooms number (subject to push) }
        ensures pushes { self.new.pushes ≡ map.insert self.old.pushes number (record { to = to; push = push }) }
        ensures rooms { self.new.rooms ≡ self.old.rooms }
    {
        self.clear(number);
        self.fill(number, to, push);
    }

    /// Takes the push of a number out, if there is one, and gives its room back. It takes no memory.
    pub(crate) fn remove(&mut self, number: Whole)
        ensures pushes { self.new.pushes ≡ map.remove self.old.pushes number }
        ensures rooms { (n : ℕ) (u : Option Subject) → n ≢ number → HasRoomOfPush self.old.rooms n u → HasRoomOfPush self.new.rooms n u }
        ensures gives { (u : Option Subject) → HasRoomOfPush self.new.rooms number u → ⊥ }
    {
        let Some(outgoing) = self.pushes.remove(number) else {
            return;
        };
        if let Some(subject) = subject_of(&outgoing.to, &outgoing.push) {
            self.subjects.remove((subject, number));
        }
    }

    /// Adds a copy of a push.
    fn add(&mut self, number: Whole, outgoing: &Outgoing) -> Result<(), AllocError>
        ensures { OnOk result (self.new.pushes ≡ map.insert self.old.pushes number outgoing.now) }
    {
        let push = outgoing.push.copy()?;
        self.reserve(number, &outgoing.to, &push)?;
        self.put(number, outgoing.to, push);
        Ok(())
    }

    /// The same pushes. An error is want of memory.
    pub(crate) fn copy(&self, alloc: Global) -> Result<PushBook, AllocError>
        ensures { IfOk result (λ b. b.pushes ≡ self.now.pushes) }
    {
        let mut copy = PushBook::new(alloc);
        for (number, outgoing) in self.visits() {
            copy.add(*number, outgoing)?;
        }
        Ok(copy)
    }
}
