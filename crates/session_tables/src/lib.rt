//! How sessions begin, go on and end at an operator (OCPI 2.2.1, Sessions, CDRs, Tokens), reading what it stores.
//! Nothing is changed here.
//!
//! ```
//! match swiped(&books, &evse_uid, &connector_id, &token_uid, token_type) {
//!     Shown::Nothing => {}
//!     Shown::Begins(beginning) => {
//!         let number = books.charged().last_session().next()?;
//!         let opening = opening(books.party(), books.site_book().site(), number, &beginning);
//!         let session = start(opening, at, site.price_at(at));
//!     }
//!     Shown::Asks { token, location_id, place } => ask(&token, location_id, &place)?,
//! }
//! ```
//!
//! # Promises
//!
//! How sessions begin, go on and end. Nothing is changed, and no memory is taken but for a place's texts.
//!
//! - Where a token is shown, the first line of the table that applies says what follows: nothing, a session, or a
//!   question to the token's provider. By `swiped` (`specs/Swipes`: `SwipeLine`).
//! - What begins by a start that is carried out, by an answer, or where none came by the deadline, or that nothing
//!   does. By `accepted`, `begins_by_answer`, `begins_without_answer` (`specs/Accepts`, `specs/Answers`).
//! - Whether a token may take an EVSE, now, or once the claims have ended that end by a moment. By `may_take`,
//!   `may_take_at`.
//! - The version that a report makes of the session at an EVSE, with the draft of its record where it is completed; or
//!   that no later version exists, or that the report makes nothing. By `moved` (`specs/Moved`: `IsMoved`).
//! - The one session at an EVSE that has not ended is found, and the one connector of the site. A record's place is as
//!   the site spells it. By `session_at`, `connector_at`, `cdr_location`.
//! - What stays the same of a session. By `opening`.
//! - What a report makes of a version may follow it, and is one version. What begins is at a connector of the site. By
//!   laws `moves_may_follow`, `moves_are_one`, `beginnings_are_of_site`.
#![tactic(auto)]

mod accepts;
mod answers;
mod beginning;
mod laws;
mod moves;
mod outcome;
mod places;
mod shown;
mod swipes;
mod taking;

pub use accepts::accepted;
pub use answers::{begins_by_answer, begins_without_answer};
pub use beginning::{Beginning, opening};
pub use laws::{beginnings_are_of_site, moves_are_one, moves_may_follow};
pub use moves::{moved, session_at};
pub use outcome::Moved;
pub use places::{FoundConnector, cdr_location, connector_at};
pub use shown::Shown;
pub use swipes::swiped;
pub use taking::{Taking, may_take, may_take_at};
