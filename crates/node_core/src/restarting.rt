//! A node that starts again: it is made of its own rows.

ghost use Rattle.std.specs.Prelude.{◌≡◌, IfOk, OnErr, OnOk};
ghost use Rattle.node_core.specs.States.{state_of};
ghost use Rattle.operator_rows.specs.Steps as operator_rows;
ghost use Rattle.operator_stored.specs.Whole as operator_whole;
ghost use Rattle.provider_rows.specs.Steps as provider_rows;
ghost use Rattle.provider_stored.specs.Whole as provider_whole;
ghost use Rattle.stored_laws.specs.Nodes.{IsWhole, restarted};

use crate::node::Node;
use crate::opening::first_moment;
use operator_core::Operator;
use provider_core::Provider;
use std::alloc::{AllocError, Global};
use std::mem;
use stored_rows::RowsFault;
use tables::HashSeed;

/// An operator as it starts again, made of its rows. An error is want of memory.
fn operator_again(
    alloc: Global,
    seed: HashSeed,
    operator: &Operator,
) -> Result<Operator, AllocError>
    requires { operator_whole.IsWhole operator.now.state }
    ensures { IfOk result (λ o. o.state ≡ operator_rows.restarted operator.now.state) }
{
    operator.consistency();
    let line = operator.site_line(first_moment())?;
    let rows = operator.stored()?;
    match Operator::from_rows(alloc, seed, line, rows) {
        Ok(again) => Ok(again),
        Err(RowsFault::Memory) => Err(AllocError),
        Err(RowsFault::BadRows(_)) => unreachable!(),
    }
}

/// A provider as it starts again, made of its rows. An error is want of memory.
fn provider_again(
    alloc: Global,
    seed: HashSeed,
    provider: &Provider,
) -> Result<Provider, AllocError>
    requires { provider_whole.IsWhole provider.now.state }
    ensures { IfOk result (λ p. p.state ≡ provider_rows.restarted provider.now.state) }
{
    provider.consistency();
    provider.keys_are_own();
    let peers = provider.peers()?;
    let rows = provider.stored()?;
    match Provider::from_rows(alloc, seed, peers, rows) {
        Ok(again) => Ok(again),
        Err(RowsFault::Memory) => Err(AllocError),
        Err(RowsFault::BadRows(_)) => unreachable!(),
    }
}

/// The operator is replaced by the one that is made of its rows. An error is want of memory, and changes nothing.
fn restart_operator(
    alloc: Global,
    seed: HashSeed,
    operator: &mut Operator,
) -> Result<(), AllocError>
    requires { operator_whole.IsWhole operator.old.state }
    ensures ok { OnOk result (operator.new.state ≡ operator_rows.restarted operator.old.state) }
    ensures err { OnErr result (operator.new.state ≡ operator.old.state) }
{
    let again = operator_again(alloc, seed, operator)?;
    drop(mem::replace(operator, again));
    Ok(())
}

/// The provider is replaced by the one that is made of its rows. An error is want of memory, and changes nothing.
fn restart_provider(
    alloc: Global,
    seed: HashSeed,
    provider: &mut Provider,
) -> Result<(), AllocError>
    requires { provider_whole.IsWhole provider.old.state }
    ensures ok { OnOk result (provider.new.state ≡ provider_rows.restarted provider.old.state) }
    ensures err { OnErr result (provider.new.state ≡ provider.old.state) }
{
    let again = provider_again(alloc, seed, provider)?;
    drop(mem::replace(provider, again));
    Ok(())
}

impl Node {
    /// The node starts again: it is made of the rows that it stored, and of what it was opened with. So each request
    /// that waits is due at once, no authorization is awaited, and nothing else changes. An error is want of memory,
    /// and changes nothing.
    pub fn start_again(&mut self, alloc: Global, seed: HashSeed) -> Result<(), AllocError>
        requires { IsWhole (state_of self.old) }
        ensures ok { OnOk result (state_of self.new ≡ restarted (state_of self.old)) }
        ensures err { OnErr result (state_of self.new ≡ state_of self.old) }
    {
        match self {
            Node::Operator(operator) => restart_operator(alloc, seed, operator),
            Node::Provider(provider) => restart_provider(alloc, seed, provider),
        }
    }
}
