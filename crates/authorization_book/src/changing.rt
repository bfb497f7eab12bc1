//! Changes of what is awaited.

ghost use Rattle.std.specs.Prelude.{◌≡◌};
ghost use Rattle.std.specs.FinMap as map;
ghost use Rattle.authorization_book.specs.Waits.{
  HasRoomFor,
  HasRoomToBegin,
  HaveRoomForAll,
  MayBegin,
  MayChange,
  MayWait,
  released,
  room_left,
  room_left_all,
  waited,
  waited_all,
};

use crate::awaited::Awaited;
use crate::book::AuthorizationBook;
use crate::waiting::Waiting;
use ocpi_text::Whole;

impl AuthorizationBook {
    /// The authorization that the request of that number asks for is awaited. It takes no memory.
    fn begin(&mut self, number: Whole, awaited: &Awaited)
        requires room { HasRoomToBegin self.old.rooms number awaited.now }
        requires may { MayBegin self.old.waits number awaited.now }
        ensures waits { self.new.waits ≡ map.insert self.old.waits number awaited.now }
        ensures rooms { self.new.rooms ≡ self.old.rooms }
    {
        self.evses.put((awaited.place.evse_uid.key(), number), ());
        self.deadlines.put((awaited.deadline, number), ());
        self.waits.put(number, *awaited);
    }

    /// The authorization that the request of that number asked for is awaited no longer. It takes no memory.
    fn end(&mut self, number: Whole)
        ensures waits { self.new.waits ≡ map.remove self.old.waits number }
        ensures rooms { self.new.rooms ≡ released (map.get self.old.waits number) number self.old.rooms }
    {
        if let Some(awaited) = self.waits.get(number).copied() {
            self.evses.remove((awaited.place.evse_uid.key(), number));
            self.deadlines.remove((awaited.deadline, number));
            self.waits.remove(number);
        }
    }

    /// Makes a change for which there is room. What ends gives its room back, and where nothing ends or begins all
    /// stays as it is. It takes no memory.
    pub fn change(&mut self, waiting: &Waiting)
        requires room { HasRoomFor self.old.rooms waiting.now }
        requires may { MayChange self.old.waits waiting.now }
        ensures waits { self.new.waits ≡ waited waiting.now self.old.waits }
        ensures rooms { self.new.rooms ≡ room_left waiting.now self.old.waits self.old.rooms }
    {
        match waiting {
            Waiting::Begins { number, awaited } => self.begin(*number, awaited),
            Waiting::Ends { number } => self.end(*number),
        }
    }

    /// Makes changes for which there is room, one after the other. What ends gives its room back. It takes no memory.
    pub fn change_all(&mut self, waitings: &[Waiting])
        requires room { HaveRoomForAll self.old.rooms waitings.now }
        requires may { MayWait self.old.waits waitings.now }
        ensures waits { self.new.waits ≡ waited_all waitings.now self.old.waits }
        ensures rooms { self.new.rooms ≡ room_left_all waitings.now self.old.waits self.old.rooms }
    {
        for waiting in waitings {
            self.change(waiting);
        }
    }
}
