//! An operator that is made of rows.

ghost use Rattle.std.specs.Prelude.{◌≡◌, IfErr, IfOk};
ghost use Rattle.stored_rows.specs.Faults.{IfBadRows};
ghost use Rattle.operator_rows.specs.Sound.{IsConsistent, with_rows};
ghost use Rattle.operator_rows.specs.State.{State, opening};
ghost use Rattle.operator_rows.specs.Steps.{restarted};
ghost use Rattle.operator_stored.specs.Bad.{IsBad};
ghost use Rattle.operator_stored.specs.Making.{IsMadeOf, StartsAgain};

use crate::operator::Operator;
use ocpi_text::Moment;
use ocpi_types::{Row, SiteLine};
use operator_stored::books_of_rows;
use std::alloc::{AllocError, Global};
use stored_rows::RowsFault;
use tables::HashSeed;

impl Operator {
    /// The operator of a site that has just these rows, in whatever order they come: each push is due at once, and no
    /// authorization is awaited. So of all that an operator stored (`stored`) the very same is made, as it starts
    /// again. Refused (`BadRows`) where no operator of that site has just these rows: with the key of a row that shows
    /// it, and with the reason.
    pub fn from_rows(
        alloc: Global,
        seed: HashSeed,
        line: SiteLine,
        rows: Vec<Row>,
    ) -> Result<Operator, RowsFault>
        ensures made { IfOk result (λ o. IsMadeOf line rows.items o.state) }
        ensures bad { IfErr result (IfBadRows (IsBad line rows.items)) }
        ensures again { (s : State) → IsConsistent s → StartsAgain line rows.items s → IfOk result (λ o. o.state ≡ restarted s) }
        ensures good { (s : State) → IsConsistent s → StartsAgain line rows.items s → IfErr result (λ e. e ≡ RowsFault.Memory) }
    {
        let books = books_of_rows(alloc, seed, line, rows)?;
        Ok(Operator { alloc, books })
    }

    /// The site of the operator, with its providers, as a line of that moment: what the operator was opened with. An
    /// error is want of memory.
    pub fn site_line(&self, at: Moment) -> Result<SiteLine, AllocError>
        ensures { IfOk result (λ line. restarted self.now.state ≡ with_rows self.now.state.rows (opening line)) }
    {
        self.books.site_line(at)
    }
}
