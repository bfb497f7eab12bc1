//! The open commands that a tick ends by a timeout.

ghost use Rattle.std.specs.Prelude.{IfOk, IsOk};
ghost use Rattle.command_book.specs.Due.{AreDue, IsDue};
ghost use Rattle.command_book.specs.Stored.{Request};

use crate::book::CommandBook;
use ocpi_text::{Moment, PartyKey, Whole};
use std::alloc::{AllocError, Global};

impl CommandBook {
    /// The requests whose commands are open with a deadline at or before the moment, by provider and then by number.
    /// It costs what is due, and the order of that. An error is want of memory, and none is taken where nothing is
    /// due.
    pub fn due(&self, alloc: Global, at: Moment) -> Result<Vec<(PartyKey, Whole)>, AllocError>
        ensures list { IfOk result (λ requests. AreDue self.now.rows.pending at requests.items) }
        ensures none { ((request : Request) → IsDue self.now.rows.pending at request → ⊥) → IsOk result }
    {
        let mut due = Vec::new(alloc);
        self.queue.push_due(at, &mut due)?;
        due.sort_unstable();
        Ok(due)
    }
}
