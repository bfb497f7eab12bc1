//! The nodes of a setup in one world, with all that each ever sent: what happens to them, event by event, and what
//! holds of them then.
//!
//! ```
//! let mut world = World::open(alloc, seed, &setup)?;
//! let outcome = world.step(&event)?;
//! let packets = world.packets();
//! let changes = world.changes();
//! for version in world.past(&operator, session) {}
//! let owed = world.settlement(&provider, &operator, currency);
//! ```
//!
//! A step finds the node of the event, and what reaches it; plans it, which changes nothing; takes all memory that the
//! step needs; and then carries it out, which cannot fail. So a step costs what the step of the one node costs, and
//! nothing is ever undone.
//!
//! # Promises
//!
//! - By its type each world is the end of a legal run, so it is right, and so is each world to which the run goes on.
//!   By `World::consistency`.
//! - When a world opens no node has stored or sent anything. By `World::open`.
//! - An event comes to what the definition of a step says, with its packets and rows. Or it is of no node; or it is
//!   refused, and nothing changes, as for want of memory. By `World::step`: `ok`, `idle`, `err`; `packets`, `changes`.
//! - The world is right, and later than before. By `World::step`: `right`, `later`.
//! - A node that starts again is what the definition says of a restart. That the code makes it of its rows is no
//!   clause, and gives just that. By `World::step`: `ok`; law `rows_make_again`.
//! - A run is the end of a legal run of the events, of which neither packets nor changes are told any more. It is
//!   right, and each world to which it goes on is right, and later. By `World::run`: `legal`, `told`, `right`,
//!   `goes_on`.
//! - All versions of a session that its operator ever stored are given, oldest first. What a provider owes is by what
//!   it holds. Neither takes memory. By `World::past`, `World::settlement`.
//!
//! # How it is built
//!
//! A world is a list of places, one for each node of a setup: the node, all packets that it ever sent, and all
//! versions that its sessions ever had. `World::step` finds the place of the event's party and what reaches it; a
//! delivery names its packet by place and serial, so no packet is searched for. It lets the node plan, takes all
//! memory (for the node's tables, the packets that it sends and the versions that it stores), and then carries out
//! what cannot fail. So a step costs what the node's step costs, nothing is undone and no node is copied. A node that
//! starts again is made of its rows (`stored`, then `from_rows`), and of the site or the peers that it was opened
//! with, and then takes the place of the old one; that its rows are never bad is a law of worlds (`stored_laws`).
#![tactic(auto)]

mod carrying;
mod finding;
mod opening;
mod past;
mod place;
mod planned;
mod planning;
mod world;

pub use past::Past;
pub use planned::Outcome;
pub use world::World;
