//! What a store has: the rows of a node, and the number of the last line that took hold.

ghost use Rattle.std.specs.Prelude.{◌≡◌, ◌≤◌, ◌++◌, ◌∷◌, ℕ, [], Contains, IfOk, OnOk, false, true};
ghost use Rattle.ocpi_text.specs.Whole.{max_whole};
ghost use Rattle.ocpi_types.specs.declared.rows.Row.TheVariants.{Command};
ghost use Rattle.ocpi_types.specs.declared.stored.SentCommand.{SentCommand};
ghost use Rattle.replays.specs.LineTurns.{IsNumbered, nothing_held};

use ocpi_text::Whole;
use ocpi_types::Row;
use std::alloc::{AllocError, Global};
use std::marker::Model;

/// What the store of a file's first run has.
#[derive(Drop)]
pub struct Start {
    pub(crate) held: Held,
    /// Whether it was told. Else it has no rows.
    pub(crate) is_given: bool,
}

impl Start {
    /// No rows, and no line took hold.
    pub fn new(alloc: Global) -> Start
        ensures held { result.held ≡ nothing_held }
        ensures given { result.is_given ≡ false }
    {
        Start {
            held: Held {
                rows: Vec::new(alloc),
                line: first_number(),
            },
            is_given: false,
        }
    }

    /// These rows, and the number of the last line that took hold, which is 1 where none did. An error is want of
    /// memory.
    pub fn of(alloc: Global, rows: &[Row], line: Whole) -> Result<Start, AllocError>
        ensures held { IfOk result (λ start. start.held ≡ record { rows = rows.now; line = line }) }
        ensures given { IfOk result (λ start. start.is_given ≡ true) }
    {
        let rows = copies(alloc, rows)?;
        Ok(Start {
            held: Held { rows, line },
            is_given: true,
        })
    }
}

impl Start {
    /// Lines and requests can have its numbers, which their types keep. It does nothing.
    pub(crate) fn is_numbered(&self)
        ensures { IsNumbered self.now.held }
    {
        self.held.is_numbered();
    }
}

/// The number where no line took hold.
fn first_number() -> Whole
    ensures { result ≡ 1 }
{
    match Whole::new(1) {
        Some(number) => number,
        None => unreachable!(),
    }
}

/// Adds an equal row. An error is want of memory.
fn push_copy(copies: &mut Vec<Row>, row: &Row) -> Result<(), AllocError>
    ensures { OnOk result (copies.new.items ≡ copies.old.items ++ row.now ∷ []) }
{
    copies.push(row.copy()?)?;
    Ok(())
}

/// Equal rows, in order. An error is want of memory.
fn copies(alloc: Global, rows: &[Row]) -> Result<Vec<Row>, AllocError>
    ensures { IfOk result (λ v. v.items ≡ rows.now) }
{
    let mut copies = Vec::with_capacity(alloc, rows.len())?;
    for row in rows {
        push_copy(&mut copies, row)?;
    }
    Ok(copies)
}

/// Where the row is a request, it can have its number. It does nothing.
fn request_fits(row: &Row)
    ensures { (n : ℕ) (c : SentCommand) → row.now ≡ Command n c → n ≤ max_whole }
{
    if let Row::Command { number, .. } = row {
        let _number = number.value();
    }
}

/// So it is of each of these rows.
fn requests_fit(rows: &[Row])
    ensures { (n : ℕ) (c : SentCommand) → Contains rows.now (Command n c) → n ≤ max_whole }
{
    for row in rows {
        request_fits(row);
    }
}

/// What a store has.
#[derive(Drop)]
pub(crate) struct Held {
    pub rows: Vec<Row>,
    /// The number of the last line that took hold.
    pub line: Whole,
}

impl Model for Held {
    ghost use Rattle.std.specs.Coded.{codes};
    ghost use Rattle.std.specs.FinMap as map;
    ghost use Rattle.replays.specs.LineTurns.{Store};

    ghost Value = { Store };

    ghost coded = { Prim.hlevel (codes, map.code) };

    ghost view = { λ h. record { rows = h.rows.items; line = h.line } };
}

impl Held {
    /// The number of the last line that took hold.
    pub(crate) fn line(&self) -> Whole
        ensures { result ≡ self.now.line }
    {
        self.line
    }

    /// Lines and requests can have its numbers, which their types keep. It does nothing.
    fn is_numbered(&self)
        ensures { IsNumbered self.now }
    {
        requests_fit(self.rows.as_slice());
        let _number = self.line.value();
    }

    /// Equal rows. An error is want of memory.
    pub(crate) fn copy_rows(&self, alloc: Global) -> Result<Vec<Row>, AllocError>
        ensures { IfOk result (λ rows. rows.items ≡ self.now.rows) }
    {
        copies(alloc, self.rows.as_slice())
    }
}
