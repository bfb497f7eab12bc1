//! What is owed by a list of charge detail records.

ghost use Rattle.std.specs.Prelude.{◌≡◌, ◌≢◌, [], length, IfOk, OnErr};
ghost use Rattle.tables.specs.Keys.{text_pair_cmp};
ghost use Rattle.tables.specs.Tables.{shown_of};
ghost use Rattle.handover.specs.Owed.{AreOwed};

use crate::cdr_book::cost_of;
use crate::sums::{Sums, sum_in};
use ocpi_types::{Boxed, Cdr};
use std::alloc::{AllocError, Global};
use tables::Table;

/// The number of records, by which their sum is bounded.
fn number_of(cdrs: &[Boxed<Cdr>]) -> usize
    ensures { result ≡ length cdrs.now }
{
    cdrs.len()
}

/// What is owed to each operator in each currency of which there is a record, in ten-thousandths: the sum of the costs
/// of the records of both, bills and credits, each as often as it stands in the list, by operator and then by currency.
/// Costs may be negative, as those of credits are. Operators are compared without case, currencies as spelled. An error
/// is want of memory; an empty list needs none.
pub fn settle_all(alloc: Global, cdrs: &[Boxed<Cdr>]) -> Result<Sums, AllocError>
    ensures ok { IfOk result (λ t. AreOwed cdrs.now (shown_of text_pair_cmp t)) }
    ensures err { OnErr result (cdrs.now ≢ []) }
{
    let _count = number_of(cdrs);
    let mut sums = Table::new(alloc);
    for cdr in cdrs {
        let seen = &**cdr;
        let operator = seen.party.key();
        let sum = sum_in(&sums, operator, seen.currency) + i128::from(cost_of(seen));
        sums.insert((operator, seen.currency), sum)?;
    }
    Ok(sums)
}
