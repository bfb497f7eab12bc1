//! A provider, and the operators that it deals with.

ghost use Rattle.std.specs.Prelude.{◌≡◌, IfOk, SomeIff};
ghost use Rattle.provider_rows.specs.State.{ArePeers};

use ocpi_text::Party;
use ocpi_types::Parties;
use std::alloc::AllocError;
use std::marker::Model;

/// A provider, and the at most 63 operators that it deals with, in order. No two of all these are the same party.
#[derive(Drop)]
pub struct Peers {
    /// The provider stands first, as the operator of a site does.
    parties: Parties,
}

impl Model for Peers {
    ghost use Rattle.provider_rows.specs.State.{ArePeers, Peering};

    ghost Value = { Peering };

    ghost view = { λ p. record { provider = p.parties.operator; operators = p.parties.providers } };

    ghost invariant = { λ p. ArePeers (record { provider = p.parties.operator; operators = p.parties.providers }) };
}

impl Peers {
    /// The provider and its operators. None, where the operators are more than 63, or two of all these are the same
    /// party.
    pub fn new(provider: Party, operators: Vec<Party>) -> Option<Peers>
        ensures { SomeIff result (ArePeers (record { provider = provider; operators = operators.items })) (record { provider = provider; operators = operators.items }) }
    {
        let _own = provider.as_str();
        let parties = Parties::new(provider, operators)?;
        Some(Peers { parties })
    }

    /// The provider whose node it is, as it spells itself.
    pub fn provider(&self) -> &Party
        ensures value { result.now ≡ self.now.provider }
        ensures peers { ArePeers self.now }
    {
        self.parties.operator()
    }

    /// The operators, in order.
    pub fn operators(&self) -> &[Party]
        ensures { result.now ≡ self.now.operators }
    {
        self.parties.providers()
    }

    /// Equal peers. An error is want of memory.
    pub fn copy(&self) -> Result<Peers, AllocError>
        ensures { IfOk result (λ p. p ≡ self.now) }
    {
        let _peers = self.provider();
        let parties = self.parties.copy()?;
        Ok(Peers { parties })
    }
}
