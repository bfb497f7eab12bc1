//! The memory that changes of what is awaited need, taken before they are made.

ghost use Rattle.std.specs.Prelude.{◌≡◌, IsOk, OnOk};
ghost use Rattle.authorization_book.specs.Waits.{HasRoomFor, HasRoomToBegin, HaveRoomForAll, KeepsRoom};

use crate::awaited::Awaited;
use crate::book::AuthorizationBook;
use crate::waiting::Waiting;
use ocpi_text::Whole;
use std::alloc::AllocError;

impl AuthorizationBook {
    /// Takes the memory that an authorization needs to be awaited.
    fn reserve_begin(&mut self, number: Whole, awaited: &Awaited) -> Result<(), AllocError>
        ensures waits { self.new.waits ≡ self.old.waits }
        ensures keeps { KeepsRoom self.old.rooms self.new.rooms }
        ensures room { OnOk result (HasRoomToBegin self.new.rooms number awaited.now) }
        ensures again { HasRoomToBegin self.old.rooms number awaited.now → IsOk result }
    {
        self.evses.reserve((awaited.place.evse_uid.key(), number))?;
        self.deadlines.reserve((awaited.deadline, number))?;
        self.waits.reserve(number)
    }

    /// Takes the memory that a change needs; an end needs none. What is awaited stays as it is, whether there is
    /// enough or not. An error is want of memory, for a change that has no room. What has room keeps it.
    pub fn reserve(&mut self, waiting: &Waiting) -> Result<(), AllocError>
        ensures waits { self.new.waits ≡ self.old.waits }
        ensures keeps { KeepsRoom self.old.rooms self.new.rooms }
        ensures room { OnOk result (HasRoomFor self.new.rooms waiting.now) }
        ensures again { HasRoomFor self.old.rooms waiting.now → IsOk result }
    {
        match waiting {
            Waiting::Begins { number, awaited } => self.reserve_begin(*number, awaited),
            Waiting::Ends { .. } => Ok(()),
        }
    }

    /// Takes the memory that changes need. What is awaited stays as it is, whether there is enough or not. An error is
    /// want of memory, for changes of which one has no room. What has room keeps it.
    pub fn reserve_all(&mut self, waitings: &[Waiting]) -> Result<(), AllocError>
        ensures waits { self.new.waits ≡ self.old.waits }
        ensures keeps { KeepsRoom self.old.rooms self.new.rooms }
        ensures room { OnOk result (HaveRoomForAll self.new.rooms waitings.now) }
        ensures again { HaveRoomForAll self.old.rooms waitings.now → IsOk result }
    {
        for waiting in waitings {
            self.reserve(waiting)?;
        }
        Ok(())
    }
}
