//! The program `node`: one node of a setup over the keeper of its rows. Each line of the input is an event, and after
//! what the node sends for it comes a line that says what became of it. A line may be an array of events too, which are
//! committed together.
//!
//! ```
//! let mut input = LineReader::new(reader);
//! let mut kept = None;
//! let ran = run_node(alloc, seed, &mut input, &mut writer, "BE/BEC", false, keeps, &mut kept);
//! let status = status_after_node(ran);
//! ```
//!
//! # Promises
//!
//! - A line of several events of `node` is as many steps, and one commit. A stop, or the end of the run at that line,
//!   leaves what stood before it, or what all of it made, and never what a part of it made. By `run_node`: `output`,
//!   `node` (`LineTurn` of `specs/NodeAnswers`); `lost_lines_go_on`.
//! - A run of `node` is a chain of steps of that node. Two runs, one after the other over one store, are one chain with
//!   a restart between. After a stop the next run goes on as after the lines that were carried out, or as after one
//!   more. By `runs_are_histories`, `two_runs_are_one`, `lost_lines_go_on`.
//! - Where a commit is refused, and where memory runs out for a line, `node` ends at that line, which gives nothing but
//!   its echo. By `run_node`: `output`, `node` (`Ends` of `specs/NodeAnswers`).
//! - Then the keeper keeps what it kept; where memory ran out for what was to be written, all of what the line made. By
//!   `run_node`: `output`, `node` (`LosesLine` of `specs/NodeAnswers`).
//! - Of a line of several events each is carried out in its turn, with its packets and its `done` at its place. All
//!   their changes are one commit. (That it stands before what is written no clause says.) By `run_node`: `output`,
//!   `node` (`CarriesOut` of `specs/LineAnswers`).
//! - With an echo two line feeds are written first. Where they are not written whole, no line is carried out. By
//!   `run_node`: `output`, `begun` (`BeginsSo` of `specs/NodeOutputs`); `run_begun`.
//!
//! # How it is built
//!
//! `run_node` is `run_numbered` over one node and its keeper (`StoredNode` of `stored_nodes`), behind what an echo
//! begins with (`run_begun`). What an event gives and its `done` are one constructor of `PlacedTurn` each, so that what
//! the lines make of the node is a chain of its steps by a walk over them (`runs_are_histories`). Which keepers were to
//! be opened is a ghost list of `Keeps` (`opened`), without which a body that opens one twice would be proved.
//! `two_runs_are_one` is `reopen`'s clause `again` at what the first run kept, which the type `StoredNode` has as the
//! rows of its node.
#![tactic(auto)]

mod beginning;
mod begun_run;
mod behind_setup;
mod done_lines;
mod event_lines;
mod fault;
pub mod laws;
mod list_lines;
mod node_run;
mod setup_line;

pub use done_lines::{
    write_all, write_known, write_malformed, write_opened, write_refused, write_skipped,
};
pub use event_lines::write_step;
pub use fault::{NodeRunFault, NodeStop, UNKNOWN_PARTY, status_after_node};
pub use node_run::run_node;
pub use setup_line::read_numbered_setup;
