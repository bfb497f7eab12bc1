//! How the node of a run begins: its party is found in the setup, its keeper is opened, and it is made of what is kept.

ghost use Rattle.std.specs.Prelude.{◌≡◌, ◌++◌, Contains, List, Some, ℕ};
ghost use Rattle.std.specs.Prelude.{IfErr, IfNone, IfOk, IfSome, OnOk};
ghost use Rattle.stored_nodes.specs.Keepers.{IsSettled, keeper_of};
ghost use Rattle.stored_nodes.specs.Stored.{IsStored};
ghost use Rattle.stored_nodes.specs.declared.fault.ReopenFault.{ReopenFault as ReopenFaultOf};
ghost use Rattle.ocpi_types.specs.Setups.{party_of};
ghost use Rattle.ocpi_types.specs.declared.setup.Node.{Node as NodeOf};
ghost use Rattle.world_laws.specs.Laws.{IsSetup};
ghost use Rattle.node_keepers.specs.Opening.{source_of};
ghost use Rattle.node_runs.specs.NodeTurns.{Begins, IsMember, IsUnbegun, Starts, Unmade, first_place};
ghost use Rattle.node_runs.specs.Stops.{stop_of};

use crate::fault::{NodeStop, stop_of};
use node_core::nodes_of;
use node_keepers::Keeps;
use node_store::Keep;
use ocpi_text::{Party, Whole};
use ocpi_types::{Node, Setup};
use std::alloc::Global;
use std::marker::Model;
use stored_nodes::{Reopened, StoredNode, Unopened};
use tables::HashSeed;

/// A node over its keeper, and its party as the setup spells it.
pub struct Running<K: Keep> {
    pub party: Party,
    pub node: StoredNode<K>,
}

/// What a derive would do, in a function of its own: so it is proved once.
impl<K: Keep + Drop> Drop for Running<K> {
    fn drop(self) {
        let Running { party: _, node } = self;
        drop(node);
    }
}

impl<K: Keep> Model for Running<K> {
    ghost use Rattle.std.specs.Coded.{codes};
    ghost use Rattle.std.specs.FinMap as map;
    ghost use Rattle.node_runs.specs.NodeTurns.{Running};

    ghost Value = { Running K };

    ghost coded = { Prim.hlevel (codes, map.code, K.code) };

    ghost view = { λ r. record { party = r.party; node = r.node } };
}

impl<K: Keep> Running<K> {
    /// What holds of its node over the keeper, which the node's type keeps. It does nothing.
    pub fn is_stored(&self)
        ensures { IsStored (keeper_of K.content K.is_honest K.refusals K.may_leave) self.now.node }
    {
        self.node.is_stored();
    }

    /// Its keeper. The node ends.
    pub fn into_keep(self) -> K
        ensures value { result ≡ self.node.keep }
        ensures stored { IsStored (keeper_of K.content K.is_honest K.refusals K.may_leave) self.node }
    {
        let Running { party: _, node } = self;
        node.into_keep()
    }

    /// Its party, and the node over its keeper.
    pub fn into_parts(self) -> (Party, StoredNode<K>)
        ensures party { result.0 ≡ self.party }
        ensures node { result.1 ≡ self.node }
        ensures stored { IsStored (keeper_of K.content K.is_honest K.refusals K.may_leave) self.node }
    {
        let Running { party, node } = self;
        (party, node)
    }
}

/// A node that was opened.
#[derive(Drop)]
pub struct Begun<K: Keep> {
    pub running: Running<K>,
    /// The number of rows that were kept.
    pub rows: usize,
    /// The number of the last line that had taken hold, 1 where none did.
    pub line: Whole,
}

/// A node that was not opened: why, and its keeper, where that was opened.
#[derive(Drop)]
pub struct Unbegun<K> {
    pub keep: Option<K>,
    pub stop: NodeStop,
}

/// The node of a setup of that party. Parties are compared without case.
fn member_of<'a>(nodes: &'a [Node], wanted: &Option<Party>) -> Option<&'a Node>
    ensures some { IfSome result (λ member. IsMember nodes.now wanted.now member.now) }
    ensures none { IfNone result ((member : NodeOf) → IsMember nodes.now wanted.now member → ⊥) }
{
    let Some(party) = wanted else {
        return None;
    };
    for node in nodes {
        if node.party().is_same(party) {
            return Some(node);
        }
    }
    None
}

/// Opens the keeper of the party's node, which is made of what was found for the first place, and makes the node of
/// what that keeps. Where the setup has no such node, no keeper is opened.
pub fn begin<S: Keeps>(
    alloc: Global,
    seed: HashSeed,
    keeps: &mut S,
    wanted: &Option<Party>,
    setup: Setup,
) -> Result<Begun<S::Kept>, Unbegun<S::Kept>>
    ensures ok { IfOk result (λ b. (member : NodeOf) × IsMember setup wanted.now member
        × (b.running.party ≡ party_of member)
        × Begins (keeper_of S.Kept.content S.Kept.is_honest S.Kept.refusals S.Kept.may_leave) (source_of S.may_refuse S.found)
        setup member b.rows b.line b.running.node) }
    ensures err { IfErr result (λ u. (asked : List ℕ) × (S.opened keeps.new ≡ S.opened keeps.old ++ asked)
        × IsUnbegun (keeper_of S.Kept.content S.Kept.is_honest S.Kept.refusals S.Kept.may_leave) (source_of S.may_refuse S.found)
        setup wanted.now asked u.keep u.stop) }
    ensures opened { OnOk result (S.opened keeps.new ≡ S.opened keeps.old ++ first_place) }
{
    let nodes = nodes_of(&setup);
    let Some(member) = member_of(nodes, wanted) else {
        return Err(Unbegun {
            keep: None,
            stop: NodeStop::UnknownParty,
        });
    };
    match keeps.open(1) {
        Ok(keep) => begin_over(alloc, seed, nodes, member, keep),
        Err(fault) => Err(Unbegun {
            keep: None,
            stop: NodeStop::Store(fault),
        }),
    }
}

/// Makes a node of what that keeper keeps.
fn begin_over<K: Keep>(
    alloc: Global,
    seed: HashSeed,
    nodes: &[Node],
    member: &Node,
    keep: K,
) -> Result<Begun<K>, Unbegun<K>>
    requires setup { IsSetup nodes.now }
    requires member { Contains nodes.now member.now }
    requires settled { IsSettled (keeper_of K.content K.is_honest K.refusals K.may_leave) keep }
    ensures ok { IfOk result (λ b. (b.running.party ≡ party_of member.now)
        × (starts : Starts (keeper_of K.content K.is_honest K.refusals K.may_leave) nodes.now member.now b.rows b.line b.running.node) × (starts.fresh ≡ keep)) }
    ensures err { IfErr result (λ u. (fault : ReopenFaultOf) × (k : K)
        × (unmade : Unmade (keeper_of K.content K.is_honest K.refusals K.may_leave) nodes.now member.now fault k) × (unmade.fresh ≡ keep)
        × (u.keep ≡ Some k) × (u.stop ≡ stop_of fault)) }
{
    match StoredNode::reopen(alloc, seed, nodes, member, keep) {
        Ok(reopened) => {
            let Reopened { node, rows, line } = reopened;
            node.is_stored();
            let party = *member.party();
            Ok(Begun {
                running: Running { party, node },
                rows,
                line,
            })
        }
        Err(unopened) => {
            let Unopened { keep, fault } = unopened;
            Err(Unbegun {
                keep: Some(keep),
                stop: stop_of(fault),
            })
        }
    }
}
