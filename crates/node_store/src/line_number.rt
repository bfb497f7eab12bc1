//! The number of a line that took hold, and where it is kept.

ghost use Rattle.std.specs.Prelude.{◌≡◌, ◌≤◌, ◌++◌, IfOk, OnOk, OnErr, SomeIff};
ghost use Rattle.ocpi_text.specs.Whole.{max_whole};
ghost use Rattle.ocpi_types.specs.declared.rows.Counter.TheVariants.{Serial};
ghost use Rattle.ocpi_types.specs.declared.rows.Row.TheVariants as row;
ghost use Rattle.node_store.specs.Contents.{AnswersNumber, IsLineNumber, line_text, number_in, number_of_text};
ghost use Rattle.node_store.specs.Numbers.{is_line_place, line_edits};

use crate::fault::StoreFault;
use crate::stored::row_of;
use ocpi_json::{RowKind, Scratch, write_row};
use ocpi_text::Whole;
use ocpi_types::{Counter, Row, Word};
use row_table::TextEdit;
use std::alloc::{AllocError, Global};
use std::marker::Model;

/// The name under which the number is kept, beside the counters, none of which has it.
pub(crate) const LINE_NAME: &str = "line";

/// The number of a line that can take hold, from 2 on: before it stands the first line, which no keeper keeps.
#[derive(Clone, Copy)]
pub struct LineNumber {
    number: Whole,
}

impl Model for LineNumber {
    ghost use Rattle.std.specs.Prelude.{ℕ, ◌≤◌};

    ghost Value = { ℕ };

    ghost view = { λ l. l.number };

    ghost invariant = { λ l. 2 ≤ l.number };

    ghost inverse = { λ n. record { number = n } };
}

impl LineNumber {
    /// The number of a line, where it is not below 2.
    pub fn new(number: Whole) -> Option<LineNumber>
        ensures { SomeIff result (2 ≤ number) number }
    {
        if number.value() >= 2 {
            Some(LineNumber { number })
        } else {
            None
        }
    }

    /// The number itself.
    pub fn value(self) -> Whole
        ensures value { result ≡ self }
        ensures least { 2 ≤ self }
        ensures most { self ≤ max_whole }
    {
        let _bound = self.number.value();
        self.number
    }
}

/// Whether a kind and a name are the place of the number.
pub(crate) fn is_line_place(kind: &str, name: &str) -> bool
    ensures { result ≡ is_line_place (kind.now, name.now) }
{
    kind == RowKind::Count.word() && name == LINE_NAME
}

/// The row whose text is that of the number.
pub(crate) fn line_row(number: LineNumber) -> Row
    ensures row { result ≡ row.Count Serial number }
    ensures fits { IsLineNumber number }
{
    Row::Count {
        counter: Counter::Serial,
        last: number.value(),
    }
}

/// Adds the edit that keeps a number, where there is one.
pub(crate) fn add_number(
    alloc: Global,
    line: Option<LineNumber>,
    edits: &mut Vec<TextEdit>,
) -> Result<(), AllocError>
    ensures edits { OnOk result (edits.new.items ≡ edits.old.items ++ line_edits line) }
{
    let Some(number) = line else {
        return Ok(());
    };
    let kind = String::from_str(alloc, RowKind::Count.word())?;
    let name = String::from_str(alloc, LINE_NAME)?;
    let text = write_row(alloc, &line_row(number))?;
    edits.push(TextEdit::new(kind, name, Some(text)))?;
    Ok(())
}

fn number_in(row: &Row) -> Option<Whole>
    ensures { result ≡ number_in row.now }
{
    match row {
        Row::Count { counter: _, last } if last.value() >= 2 => Some(*last),
        _ => None,
    }
}

/// The number of the last line that took hold, of the text that is kept at its place.
pub(crate) fn number_of_text(
    alloc: Global,
    scratch: &mut Scratch,
    text: &[u8],
) -> Result<Whole, StoreFault>
    ensures { AnswersNumber result (number_of_text text.now) }
{
    let row = row_of(
        alloc,
        scratch,
        RowKind::Count.word(),
        Counter::Serial.name(),
        text,
    )?;
    let number = number_in(&row);
    drop(row);
    match number {
        Some(number) => Ok(number),
        None => Err(StoreFault::BadRow),
    }
}

/// The number where no line took hold.
pub(crate) fn first_number() -> Whole
    ensures { result ≡ 1 }
{
    match Whole::new(1) {
        Some(number) => number,
        None => unreachable!(),
    }
}
