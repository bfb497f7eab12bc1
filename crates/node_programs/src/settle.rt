//! The program `settle`: what is owed by the charge detail records among the rows of a store.

ghost use Rattle.std.specs.Prelude.{◌≡◌, ◌++◌, ℕ, ℤ, List, IfErr, IfOk, OnOk, string_bytes};
ghost use Rattle.handover.specs.Owed.{Account};
ghost use Rattle.line_runs.specs.Run.{gives_beginning};
ghost use Rattle.node_programs.specs.Settle.{Settles, account_line, cdr_of, cdrs_of, sum_lines};
ghost use Rattle.std.specs.Io.KnownBytes.{Appends};
ghost use Rattle.tables.specs.Keys.{text_pair_cmp};
ghost use Rattle.tables.specs.Tables.{shown_of};

use handover::{Currency, Sums, settle_all};
use line_runs::{RunFault, flush, write_whole};
use ocpi_text::{PartyKey, write_sum};
use ocpi_types::{Boxed, Cdr, Row};
use std::alloc::{AllocError, Global};
use std::io::Write;

/// Adds the record of a row, where it is one of a charge detail record.
fn push_cdr(cdrs: &mut Vec<Boxed<Cdr>>, row: &Row) -> Result<(), AllocError>
    ensures { OnOk result (cdrs.new.items ≡ cdrs.old.items ++ cdr_of row.now) }
{
    match row {
        Row::Cdr { cdr } => {
            cdrs.push(cdr.copy()?)?;
            Ok(())
        }
        _ => Ok(()),
    }
}

/// The charge detail records among rows.
pub(crate) fn cdrs_of(alloc: Global, rows: &[Row]) -> Result<Vec<Boxed<Cdr>>, AllocError>
    ensures { IfOk result (λ v. v.items ≡ cdrs_of rows.now) }
{
    let mut cdrs = Vec::new(alloc);
    for row in rows {
        push_cdr(&mut cdrs, row)?;
    }
    Ok(cdrs)
}

/// Adds the line of what is owed to an operator in a currency.
fn write_account(
    alloc: Global,
    operator: PartyKey,
    currency: Currency,
    sum: i128,
    output: &mut String,
) -> Result<(), AllocError>
    ensures { OnOk result (string_bytes output.new ≡ string_bytes output.old ++ account_line ((operator, currency), sum)) }
{
    let sum = write_sum(alloc, sum)?;
    writeln!(
        output,
        "owed {} {} {}",
        operator.as_str(),
        currency.as_str(),
        sum.as_str()
    )
}

/// Adds a line for each operator and currency.
fn write_sums(alloc: Global, sums: &Sums, output: &mut String) -> Result<(), AllocError>
    ensures { OnOk result (string_bytes output.new ≡ string_bytes output.old ++ sum_lines (shown_of text_pair_cmp sums.now)) }
{
    for (account, sum) in sums.iter() {
        write_account(alloc, account.0, account.1, *sum, output)?;
    }
    Ok(())
}

/// The lines of what is owed by rows.
fn settlement(alloc: Global, rows: &[Row]) -> Result<String, AllocError>
    ensures { IfOk result (λ s. Settles rows.now (string_bytes s)) }
{
    let cdrs = cdrs_of(alloc, rows)?;
    let sums = settle_all(alloc, cdrs.as_slice())?;
    let mut output = String::new(alloc);
    write_sums(alloc, &sums, &mut output)?;
    Ok(output)
}

/// Writes what is owed by the charge detail records among rows: a line for each operator and currency, by operator and
/// then by currency. The writer is flushed at the end. Where writing fails, or memory runs out for the lines, what is
/// written is a beginning of them.
pub fn run_settle<W: Write>(alloc: Global, rows: &[Row], writer: &mut W) -> Result<(), RunFault>
    ensures output { OnOk result ((out : List ℕ) × Settles rows.now out × Appends (W.contents writer.old) (W.contents writer.new) out) }
    ensures begun { IfErr result (λ fault. (fault ≡ RunFault.WriteFailed)
        × gives_beginning (Settles rows.now) (W.contents writer.old) (W.contents writer.new)) }
{
    let Ok(output) = settlement(alloc, rows) else {
        return Err(RunFault::WriteFailed);
    };
    match write_whole(writer, output.as_bytes()) {
        Ok(()) => flush(writer),
        Err(fault) => Err(fault),
    }
}
