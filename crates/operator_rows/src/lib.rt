//! What an operator stores: its rows, the claims on the site's EVSEs that follow from them, the resend times of its
//! pushes, and the authorizations that it awaits; and how a step that is decided is carried out.
//!
//! ```
//! let mut books = Books::new(alloc, seed, site_line)?;
//! let plan = Plan::one(alloc, Change::Put(Row::Service { evse_uid }))?;
//! books.make_room(&plan)?;
//! let packets = books.apply(plan);
//! let rows = books.stored(alloc)?;
//! books.restart(alloc);
//! ```
//!
//! A step comes as a `Plan`. `Books::make_room` takes all the memory that it needs, and changes nothing that is stored;
//! `Books::apply` then carries it out, takes no memory and cannot fail. A step that changes what is awaited comes as a
//! `FullPlan`, for `Books::make_full_room` and `Books::apply_full`.
//!
//! # Promises
//!
//! `Books` is what an operator stores, with the claims on its EVSEs, the resend times of its pushes, and the
//! authorizations that it awaits. Its type keeps, by `consistency`, a method that does nothing:
//!
//! - Each EVSE has at most one claim: of an open start, a session that is PENDING or ACTIVE, or a reservation. By
//!   `consistency`.
//! - Each open command was answered, has no result and is of a provider of the site. A start has an EVSE and a
//!   connector of the site. By `consistency`.
//! - Each command that has a result was answered. By `consistency`.
//! - Each reservation is on an EVSE of the site, and names its location. What is out of service is of the site. By
//!   `consistency`.
//! - Each push is to a provider of the site and has a number that was given, and no two are about the same. Only a push
//!   that stands has a resend time. By `consistency`.
//! - Each token is of a provider of the site. By `consistency`.
//! - Each session and each record is this operator's, and where its id is made of a number, of one that was given. By
//!   `consistency`.
//! - A session that has not ended is at a connector of the site, of a provider of the site, and its cost is that of its
//!   energy at the price of its start. By `consistency`.
//! - At each EVSE at most one authorization is awaited, of a provider of the site, by a request that was made. By
//!   `consistency`.
//! - The claims that `site_book` shows are exactly those of the rows. By `Books::site_book`: `claims`.
//! - Making room changes nothing that is stored, whether there is enough memory or not. An error comes only for a step
//!   that has no room. By `make_room`, `make_full_room`: `state`, `room`, `again`.
//! - A step that has room and may follow is carried out without memory, and cannot fail. The state after it is that of
//!   the definition, and the packets are those of the plan. By `apply`, `apply_full`: `state`, `packets`
//!   (`specs/Steps`: `HasFullRoomFor`, `MayFollowFull`, `after_full`).
//! - Each version of a session that it puts follows the one that stands, or begins a session; a record replaces none.
//!   By `MayFollowFull`, required by `apply_full`.
//! - After a restart no push has a resend time, no authorization is awaited, and nothing else changed. It takes no
//!   memory. By `restart`.
//! - The rows that stand are listed, each once. An operator stores no sent commands, and no counter of references. By
//!   `stored`.
//! - Changes of different rows lead from the rows before them to those after them. By law `rows_change`.
//! - What holds at all times holds once a step is carried out, and from the opening on. By laws `steps_stay_sound`,
//!   `stays_consistent`.
//!
//! # How it is built
//!
//! State is who the operator is, its site, its rows, the resend times of its pushes, and the authorizations that it
//! awaits: a record whose rows have a part for each kind, of finite maps and counters (`specs/State`). Rows are what
//! is stored; resend times and what is awaited are what a restart empties, and stand in no row.
//!
//! Claims on an EVSE are no table of the definitions: they are gathered from open starts, sessions that are PENDING
//! or ACTIVE, and reservations (`specs/State`: `HasClaim`). `Books` keeps a table of them beside the rows, with the
//! invariant that it is exactly what follows from the rows (`specs/Claimed`: `IsIndexed`); a map gives one claim for
//! an EVSE, so that two claims on one EVSE cannot even be stored. What `Books` keeps at all times is what stored rows
//! are tested for (`specs/Sound`: `IsSound`) when an operator is made of them, beside what every run keeps
//! (`operator_stored/specs/Whole`). A row is put only where `MayPut` holds, and dropped only where `MayDrop` does,
//! which keep it. Replies, tokens, results, marks, spent references, sessions, charge detail records and counters are
//! never dropped. Each version of a session that a step puts may come next after the one that stands (`MayFollow`:
//! `sessions`), and a charge detail record replaces none. Whatever else always holds is a law over runs.
#![tactic(auto)]

mod adding;
mod books;
mod claims;
mod dropping;
mod full_plan;
mod making_room;
mod putting;
mod row_laws;
mod row_lists;
mod stepping;

pub use books::Books;
pub use full_plan::FullPlan;
pub use row_laws::{rows_change, stays_consistent, steps_stay_sound};
