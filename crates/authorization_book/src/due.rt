//! The authorizations that a tick ends without an answer.

ghost use Rattle.std.specs.Prelude.{ℕ, IfOk, IsOk};
ghost use Rattle.authorization_book.specs.Due.{AreDue};
ghost use Rattle.authorization_book.specs.Waits.{IsDue};

use crate::book::AuthorizationBook;
use ocpi_text::{Moment, Whole};
use std::alloc::{AllocError, Global};

impl AuthorizationBook {
    /// The numbers of the requests whose authorizations are awaited with a deadline at or before the moment, in
    /// ascending order. It costs what is due, and the order of that. An error is want of memory, and none is taken
    /// where nothing is due.
    pub fn due(&self, alloc: Global, at: Moment) -> Result<Vec<Whole>, AllocError>
        ensures list { IfOk result (λ numbers. AreDue self.now.waits at numbers.items) }
        ensures none { ((number : ℕ) → IsDue self.now.waits at number → ⊥) → IsOk result }
    {
        let mut due = Vec::new(alloc);
        self.deadlines.push_due(at, &mut due)?;
        due.sort_unstable();
        Ok(due)
    }
}
