//! A node of a setup, before the first event.

ghost use Rattle.std.specs.Prelude.{◌≡◌, ◌++◌, Contains, IfOk, Ok, OnOk};
ghost use Rattle.node_core.specs.Members.{line_of, peers_of};
ghost use Rattle.node_core.specs.States.{state_of};
ghost use Rattle.ocpi_text.specs.Party.{party_at};
ghost use Rattle.ocpi_types.specs.Setups.{party_of};
ghost use Rattle.ocpi_types.specs.declared.setup.Node.{Node as NodeOf};
ghost use Rattle.ocpi_types.specs.declared.setup.Node.TheVariants as node;
ghost use Rattle.operator_rows.specs.State as operator;
ghost use Rattle.provider_rows.specs.State as provider;
ghost use Rattle.world_laws.specs.Laws.{IsSetup};
ghost use Rattle.world_steps.specs.World.{opening_of, operator_of, operators_of, provider_of, providers_of};

use crate::node::Node;
use ocpi_text::{Moment, Party};
use ocpi_types::{Node as SetupNode, Parties, Setup, Site, SiteLine};
use operator_core::Operator;
use provider_core::Provider;
use provider_rows::Peers;
use std::alloc::{AllocError, Global};
use tables::HashSeed;

/// Adds the party of a provider.
fn push_provider(parties: &mut Vec<Party>, member: &SetupNode) -> Result<(), AllocError>
    ensures { OnOk result (parties.new.items ≡ parties.old.items ++ provider_of member.now) }
{
    match member {
        SetupNode::Operator { .. } => Ok(()),
        SetupNode::Provider { party } => {
            parties.push(*party)?;
            Ok(())
        }
    }
}

/// Adds the party of an operator.
fn push_operator(parties: &mut Vec<Party>, member: &SetupNode) -> Result<(), AllocError>
    ensures { OnOk result (parties.new.items ≡ parties.old.items ++ operator_of member.now) }
{
    match member {
        SetupNode::Operator { party, .. } => {
            parties.push(*party)?;
            Ok(())
        }
        SetupNode::Provider { .. } => Ok(()),
    }
}

/// The providers among the nodes, in order. An error is want of memory.
fn providers(alloc: Global, nodes: &[SetupNode]) -> Result<Vec<Party>, AllocError>
    ensures { IfOk result (λ v. v.items ≡ providers_of nodes.now) }
{
    let mut parties = Vec::new(alloc);
    for member in nodes {
        push_provider(&mut parties, member)?;
    }
    Ok(parties)
}

/// The operators among the nodes, in order. An error is want of memory.
fn operators(alloc: Global, nodes: &[SetupNode]) -> Result<Vec<Party>, AllocError>
    ensures { IfOk result (λ v. v.items ≡ operators_of nodes.now) }
{
    let mut parties = Vec::new(alloc);
    for member in nodes {
        push_operator(&mut parties, member)?;
    }
    Ok(parties)
}

/// The first moment of all, at which a setup is opened.
pub(crate) fn first_moment() -> Moment
    ensures { result ≡ 0 }
{
    Moment::read("1970-01-01T00:00:00Z").unwrap()
}

/// The site of a member, with all providers among the nodes. An error is want of memory.
pub(crate) fn site_line(
    alloc: Global,
    nodes: &[SetupNode],
    party: &Party,
    site: &Site,
) -> Result<SiteLine, AllocError>
    requires setup { IsSetup nodes.now }
    requires member { Contains nodes.now (node.Operator party.now site.now) }
    ensures { IfOk result (λ line. line ≡ line_of nodes.now party.now site.now) }
{
    let Some(parties) = Parties::new(*party, providers(alloc, nodes)?) else {
        unreachable!()
    };
    Ok(SiteLine {
        at: first_moment(),
        parties,
        site: site.copy()?,
    })
}

/// A provider of that party, with all operators among the nodes. An error is want of memory.
pub(crate) fn peers(alloc: Global, nodes: &[SetupNode], party: &Party) -> Result<Peers, AllocError>
    requires setup { IsSetup nodes.now }
    requires member { Contains nodes.now (node.Provider party.now) }
    ensures { IfOk result (λ p. p ≡ peers_of nodes.now party.now) }
{
    let Some(peers) = Peers::new(*party, operators(alloc, nodes)?) else {
        unreachable!()
    };
    Ok(peers)
}

/// An operator of that site, and all providers among the nodes. An error is want of memory.
fn open_operator(
    alloc: Global,
    seed: HashSeed,
    nodes: &[SetupNode],
    party: &Party,
    site: &Site,
) -> Result<Operator, AllocError>
    requires setup { IsSetup nodes.now }
    requires member { Contains nodes.now (node.Operator party.now site.now) }
    ensures { IfOk result (λ o. o.state ≡ operator.opening (line_of nodes.now party.now site.now)) }
{
    let line = site_line(alloc, nodes, party, site)?;
    Operator::new(alloc, seed, line)
}

/// A provider, and all operators among the nodes. An error is want of memory.
fn open_provider(
    alloc: Global,
    seed: HashSeed,
    nodes: &[SetupNode],
    party: &Party,
) -> Result<Provider, AllocError>
    requires setup { IsSetup nodes.now }
    requires member { Contains nodes.now (node.Provider party.now) }
    ensures { IfOk result (λ p. p.state ≡ provider.opening (peers_of nodes.now party.now)) }
{
    Ok(Provider::new(alloc, seed, peers(alloc, nodes, party)?))
}

impl Node {
    /// A node of a setup before its first event: an operator with all providers among the nodes, or a provider with all
    /// operators. An error is want of memory.
    pub fn open(
        alloc: Global,
        seed: HashSeed,
        nodes: &[SetupNode],
        member: &SetupNode,
    ) -> Result<Node, AllocError>
        requires setup { IsSetup nodes.now }
        requires member { Contains nodes.now member.now }
        ensures { IfOk result (λ n. state_of n ≡ opening_of nodes.now member.now) }
    {
        match member {
            SetupNode::Operator { party, site } => {
                Ok(Node::Operator(open_operator(alloc, seed, nodes, party, site)?))
            }
            SetupNode::Provider { party } => {
                Ok(Node::Provider(open_provider(alloc, seed, nodes, party)?))
            }
        }
    }
}

/// The party of each node is one by its form, which its type keeps.
fn parties_are(nodes: &[SetupNode])
    ensures { (n : NodeOf) → Contains nodes.now n → party_at (party_of n) ≡ Ok (party_of n) }
{
    for member in nodes {
        let _text = member.party().as_str();
    }
}

/// The nodes of a setup, and what its type keeps.
pub fn nodes_of(setup: &Setup) -> &[SetupNode]
    ensures value { result.now ≡ setup.now }
    ensures is_setup { IsSetup setup.now }
{
    let nodes = setup.as_slice();
    parties_are(nodes);
    nodes
}
