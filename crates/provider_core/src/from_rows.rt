//! A provider that is made of rows.

ghost use Rattle.std.specs.Prelude.{◌≡◌, IfErr, IfOk};
ghost use Rattle.provider_rows.specs.Rows.{AreKeyed};
ghost use Rattle.provider_rows.specs.Sound.{IsConsistent, with_rows};
ghost use Rattle.provider_rows.specs.State.{State, opening};
ghost use Rattle.provider_rows.specs.Steps.{restarted};
ghost use Rattle.provider_stored.specs.Bad.{IsBad};
ghost use Rattle.provider_stored.specs.Making.{IsMadeOf, StartsAgain};
ghost use Rattle.stored_rows.specs.Faults.{IfBadRows};

use crate::provider::Provider;
use ocpi_types::Row;
use provider_rows::Peers;
use provider_stored::books_of_rows;
use std::alloc::{AllocError, Global};
use stored_rows::RowsFault;
use tables::HashSeed;

impl Provider {
    /// The provider with these peers that has just these rows, in whatever order they come: each request that waits is
    /// due at once. So of all that a provider stored (`stored`) the very same is made, as it starts again. Refused
    /// (`BadRows`) where no provider with these peers has just these rows: the fault tells which row shows it, and for
    /// what reason.
    pub fn from_rows(
        alloc: Global,
        seed: HashSeed,
        peers: Peers,
        rows: Vec<Row>,
    ) -> Result<Provider, RowsFault>
        ensures made { IfOk result (λ p. IsMadeOf peers rows.items p.state) }
        ensures bad { IfErr result (IfBadRows (IsBad peers rows.items)) }
        ensures again { (s : State) → IsConsistent s → AreKeyed s.rows → StartsAgain peers rows.items s → IfOk result (λ p. p.state ≡ restarted s) }
        ensures good { (s : State) → IsConsistent s → AreKeyed s.rows → StartsAgain peers rows.items s → IfErr result (λ e. e ≡ RowsFault.Memory) }
    {
        let books = books_of_rows(alloc, seed, peers, rows)?;
        Ok(Provider { alloc, books })
    }

    /// The provider and its operators: what the provider was opened with. An error is want of memory.
    pub fn peers(&self) -> Result<Peers, AllocError>
        ensures { IfOk result (λ peers. restarted self.now.state ≡ with_rows self.now.state.rows (opening peers)) }
    {
        self.books.peers()
    }

    /// Each token, each session and each charge detail record stands under its own key, so that the rows tell all that
    /// is stored.
    pub fn keys_are_own(&self)
        ensures { AreKeyed self.now.state.rows }
    {
        self.books.keys_are_own();
    }
}
