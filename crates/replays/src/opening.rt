//! How a run is opened, by what stands behind its setup line.

ghost use Rattle.std.specs.Prelude.{◌≡◌, ◌≢◌, ◌<◌, ◌+◌, ◌++◌, All, Contains, IfOk, List, OnOk, false, length, string_bytes, take, ℕ};
ghost use Rattle.replays.specs.LineTurns.{held_in};
ghost use Rattle.replays.specs.Reading.{Fits, IsBehind};
ghost use Rattle.replays.specs.Ways.{IsClosed, IsFit, IsLineTried, IsNodeTried, IsTried};
ghost use Rattle.node_runs.specs.DoneLines.{opened_line};
ghost use Rattle.world_laws.specs.Laws.{IsSetup};

use crate::cutting::{EchoedLine, split_feed};
use crate::held::Held;
use node_replay::NodeReplay;
use node_runs::write_opened;
use ocpi_text::{Party, Whole};
use ocpi_types::Node;
use std::alloc::{AllocError, Global};
use stored_rows::RowsFault;
use tables::HashSeed;

/// What stands behind a setup line: the next line, without its line feed.
#[derive(Clone, Copy)]
pub(crate) struct Piece<'a> {
    pub bytes: &'a [u8],
    /// Whether something stands behind it, so that it is a whole line.
    pub is_closed: bool,
}

/// How what stands there fits a line.
#[derive(Clone, Copy, PartialEq, Eq)]
pub(crate) enum Fit {
    /// It does not.
    No,
    /// It is a beginning of it.
    Begins,
    /// It is that line, whole, but maybe without its line feed.
    Is,
}

/// Whether a node may have been opened.
#[derive(Drop)]
pub(crate) enum Tried {
    /// It was not.
    No,
    /// It may have been: a beginning of the line stands there.
    May,
    /// It was.
    Was(Opened),
}

/// A node that was opened.
#[derive(Drop)]
pub(crate) struct Opened {
    pub node: NodeReplay,
    /// The serial of the last packet that it had sent.
    pub serial: Whole,
}

/// In which ways a node may have been opened over what a store has.
#[derive(Drop)]
pub(crate) enum Ways {
    /// The node at that place in the setup was.
    Was(usize, Opened),
    /// One of these parties may have been, of which the line is cut. Where there are none, no node was.
    May(Vec<Party>),
}

/// What stands behind a setup line.
#[derive(Clone, Copy)]
pub(crate) struct Behind<'a> {
    pub line: EchoedLine<'a>,
    pub piece: Piece<'a>,
    /// What stands behind the next line.
    pub rest: &'a [u8],
    /// Whether a line feed more may have stood at the end of the run.
    pub is_ended: bool,
}

/// What stands behind a setup line.
pub(crate) fn behind_setup<'a>(line: EchoedLine<'a>, rest: &'a [u8], is_ended: bool) -> Behind<'a>
    ensures line { result.line ≡ line.entry }
    ensures ended { result.is_ended ≡ is_ended }
    ensures plain { All (λ b. b ≢ 10) result.piece.bytes.now }
    ensures is { IsBehind rest.now result.piece.bytes.now result.piece.is_closed result.rest.now }
{
    match split_feed(rest) {
        Some((bytes, rest)) => Behind {
            line,
            piece: Piece {
                bytes,
                is_closed: true,
            },
            rest,
            is_ended,
        },
        None => Behind {
            line,
            piece: Piece {
                bytes: rest,
                is_closed: false,
            },
            rest: &[],
            is_ended,
        },
    }
}

impl Piece<'_> {
    /// How it fits a line, which is given with its line feed.
    fn fit(&self, line: &[u8]) -> Fit
        requires line { IsClosed line.now }
        requires piece { All (λ b. b ≢ 10) self.now.bytes.now }
        ensures { IsFit self.now.is_closed self.now.bytes.now line.now result }
    {
        if !line.starts_with(self.bytes) {
            return Fit::No;
        }
        if line.len() == self.bytes.len() + 1 {
            return Fit::Is;
        }
        if self.is_closed { Fit::No } else { Fit::Begins }
    }

    /// Whether it may fit a line of which that is the front.
    fn may_fit(&self, front: &[u8]) -> bool
        ensures { result ≡ false → (rest : List ℕ) → 1 < length rest → Fits self.now.is_closed self.now.bytes.now (front.now ++ rest) → ⊥ }
    {
        if self.bytes.starts_with(front) {
            return true;
        }
        if self.is_closed {
            return false;
        }
        front.starts_with(self.bytes)
    }
}

/// How many bytes the line of an opening ends with whose serial is 0, from the serial on.
const END_BYTES: usize = 3;

/// The serial of a node that sent nothing.
fn no_serial() -> Whole
    ensures { result ≡ 0 }
{
    match Whole::new(0) {
        Some(serial) => serial,
        None => unreachable!(),
    }
}

/// Writes the line of an opening over what a store has, in place of a text. An error is want of memory.
fn write_over(
    alloc: Global,
    held: &Held,
    party: &Party,
    serial: Whole,
    text: &mut String,
) -> Result<(), AllocError>
    ensures { OnOk result (string_bytes text.new ≡ opened_line held.now.line party.now (length held.now.rows) serial) }
{
    text.clear();
    write_opened(
        alloc,
        held.line.value(),
        party,
        held.rows.len(),
        serial,
        text,
    )
}

/// The line of an opening, but for its last bytes if its serial is 0: the line of each serial begins so.
fn write_front(
    alloc: Global,
    held: &Held,
    party: &Party,
    text: &mut String,
) -> Result<usize, AllocError>
    ensures { IfOk result (λ length_of. (serial : ℕ) → (rest : List ℕ) × (1 < length rest)
        × (opened_line held.now.line party.now (length held.now.rows) serial ≡ take length_of (string_bytes text.new) ++ rest)) }
{
    write_over(alloc, held, party, no_serial(), text)?;
    Ok(text.as_bytes().len().saturating_sub(END_BYTES))
}

/// The first bytes of a text.
fn front_of(text: &str, length: usize) -> &[u8]
    ensures { result.now ≡ take length text.now }
{
    let bytes = text.as_bytes();
    if length > bytes.len() {
        return bytes;
    }
    let (front, _) = bytes.split_at(length);
    front
}

/// Whether the node of a setup's member may have been opened over what a store has. An error is want of memory.
pub(crate) fn try_member(
    alloc: Global,
    seed: HashSeed,
    nodes: &[Node],
    member: &Node,
    held: &Held,
    piece: Piece<'_>,
    text: &mut String,
) -> Result<Tried, AllocError>
    requires setup { IsSetup nodes.now }
    requires member { Contains nodes.now member.now }
    requires piece { All (λ b. b ≢ 10) piece.bytes.now }
    ensures { IfOk result (IsTried nodes.now member.now (held_in held.now) piece.entry.is_closed piece.entry.bytes.now) }
{
    let front = write_front(alloc, held, member.party(), text)?;
    if !piece.may_fit(front_of(text.as_str(), front)) {
        return Ok(Tried::No);
    }
    let rows = held.copy_rows(alloc)?;
    match NodeReplay::from_rows(alloc, seed, nodes, member, rows) {
        Ok(node) => {
            node.can_start_again();
            try_node(alloc, member, held, node, piece, text)
        }
        Err(RowsFault::BadRows(_)) => Ok(Tried::No),
        Err(RowsFault::Memory) => Err(AllocError),
    }
}

/// Whether a node that was made of these rows was opened. An error is want of memory.
fn try_node(
    alloc: Global,
    member: &Node,
    held: &Held,
    node: NodeReplay,
    piece: Piece<'_>,
    text: &mut String,
) -> Result<Tried, AllocError>
    requires piece { All (λ b. b ≢ 10) piece.bytes.now }
    ensures { IfOk result (IsNodeTried member.now (held_in held.now) held.now.rows node piece.entry.is_closed piece.entry.bytes.now) }
{
    let serial = node.last_serial();
    match write_over(alloc, held, member.party(), serial, text) {
        Ok(()) => Ok(fit_node(node, serial, piece, text.as_bytes())),
        Err(_) => {
            drop(node);
            Err(AllocError)
        }
    }
}

/// Whether a node was opened of which this line says so.
fn fit_node(node: NodeReplay, serial: Whole, piece: Piece<'_>, line: &[u8]) -> Tried
    requires line { IsClosed line.now }
    requires piece { All (λ b. b ≢ 10) piece.bytes.now }
    ensures { IsLineTried line.now node serial piece.entry.is_closed piece.entry.bytes.now result }
{
    match piece.fit(line) {
        Fit::Is => Tried::Was(Opened { node, serial }),
        Fit::Begins => {
            drop(node);
            Tried::May
        }
        Fit::No => {
            drop(node);
            Tried::No
        }
    }
}
