//! A node that is made of rows.

ghost use Rattle.std.specs.Prelude.{◌≡◌, Contains, IfErr, IfOk};
ghost use Rattle.node_core.specs.Members.{IsBadFor, IsMadeOfRows, StartsAgainFrom};
ghost use Rattle.node_core.specs.States.{state_of};
ghost use Rattle.ocpi_types.specs.declared.setup.Node.TheVariants as member;
ghost use Rattle.stored_laws.specs.Nodes.{CanStartAgain, restarted};
ghost use Rattle.stored_rows.specs.Faults.{IfBadRows};
ghost use Rattle.world_laws.specs.Laws.{IsSetup};
ghost use Rattle.world_steps.specs.World.{NodeState};

use crate::node::Node;
use crate::opening::{peers, site_line};
use ocpi_text::Party;
use ocpi_types::{Node as SetupNode, Row, Site};
use operator_core::Operator;
use provider_core::Provider;
use std::alloc::Global;
use stored_rows::RowsFault;
use tables::HashSeed;

/// The operator of that site that has just these rows.
fn operator_of_rows(
    alloc: Global,
    seed: HashSeed,
    nodes: &[SetupNode],
    party: &Party,
    site: &Site,
    rows: Vec<Row>,
) -> Result<Node, RowsFault>
    requires setup { IsSetup nodes.now }
    requires among { Contains nodes.now (member.Operator party.now site.now) }
    ensures made { IfOk result (λ n. IsMadeOfRows nodes.now (member.Operator party.now site.now) rows.items (state_of n)) }
    ensures bad { IfErr result (IfBadRows (IsBadFor nodes.now (member.Operator party.now site.now) rows.items)) }
    ensures again { (s : NodeState) → CanStartAgain s → StartsAgainFrom nodes.now (member.Operator party.now site.now) rows.items s → IfOk result (λ n. state_of n ≡ restarted s) }
    ensures good { (s : NodeState) → CanStartAgain s → StartsAgainFrom nodes.now (member.Operator party.now site.now) rows.items s → IfErr result (λ e. e ≡ RowsFault.Memory) }
{
    let line = site_line(alloc, nodes, party, site)?;
    match Operator::from_rows(alloc, seed, line, rows) {
        Ok(operator) => Ok(Node::Operator(operator)),
        Err(fault) => Err(fault),
    }
}

/// The provider of that party that has just these rows.
fn provider_of_rows(
    alloc: Global,
    seed: HashSeed,
    nodes: &[SetupNode],
    party: &Party,
    rows: Vec<Row>,
) -> Result<Node, RowsFault>
    requires setup { IsSetup nodes.now }
    requires among { Contains nodes.now (member.Provider party.now) }
    ensures made { IfOk result (λ n. IsMadeOfRows nodes.now (member.Provider party.now) rows.items (state_of n)) }
    ensures bad { IfErr result (IfBadRows (IsBadFor nodes.now (member.Provider party.now) rows.items)) }
    ensures again { (s : NodeState) → CanStartAgain s → StartsAgainFrom nodes.now (member.Provider party.now) rows.items s → IfOk result (λ n. state_of n ≡ restarted s) }
    ensures good { (s : NodeState) → CanStartAgain s → StartsAgainFrom nodes.now (member.Provider party.now) rows.items s → IfErr result (λ e. e ≡ RowsFault.Memory) }
{
    let peers = peers(alloc, nodes, party)?;
    match Provider::from_rows(alloc, seed, peers, rows) {
        Ok(provider) => Ok(Node::Provider(provider)),
        Err(fault) => Err(fault),
    }
}

impl Node {
    /// The node of a setup that has just these rows, in whatever order they come, as it starts again: each request that
    /// waits is due at once, and no authorization is awaited. So of all that a node stored (`stored`) the very same is
    /// made, as it starts again. Refused (`BadRows`) where no such node has just these rows: a row that shows it is
    /// told, and what is wrong with it.
    pub fn from_rows(
        alloc: Global,
        seed: HashSeed,
        nodes: &[SetupNode],
        member: &SetupNode,
        rows: Vec<Row>,
    ) -> Result<Node, RowsFault>
        requires setup { IsSetup nodes.now }
        requires member { Contains nodes.now member.now }
        ensures made { IfOk result (λ n. IsMadeOfRows nodes.now member.now rows.items (state_of n)) }
        ensures bad { IfErr result (IfBadRows (IsBadFor nodes.now member.now rows.items)) }
        ensures again { (s : NodeState) → CanStartAgain s → StartsAgainFrom nodes.now member.now rows.items s → IfOk result (λ n. state_of n ≡ restarted s) }
        ensures good { (s : NodeState) → CanStartAgain s → StartsAgainFrom nodes.now member.now rows.items s → IfErr result (λ e. e ≡ RowsFault.Memory) }
    {
        match member {
            SetupNode::Operator { party, site } => {
                operator_of_rows(alloc, seed, nodes, party, site, rows)
            }
            SetupNode::Provider { party } => provider_of_rows(alloc, seed, nodes, party, rows),
        }
    }
}
