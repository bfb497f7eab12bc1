//! A node of a run.

ghost use Rattle.std.specs.Prelude.{◌≡◌};
ghost use Rattle.node_harness.specs.Opened.{RanOf};

use crate::of_setup::OfSetup;
use crate::settling::NodeRan;
use ocpi_text::Party;
use std::marker::{Model, PhantomData};

/// A node of the setup of a run, which began as that setup opens it, and its receipts so far.
#[derive(Drop)]
pub(crate) struct Member<S: OfSetup> {
    node: NodeRan,
    of: PhantomData<S>,
}

impl<S: OfSetup> Model for Member<S> {
    ghost use Rattle.std.specs.Coded.{codes};
    ghost use Rattle.std.specs.FinMap as map;
    ghost use Rattle.node_harness.specs.declared.settling.NodeRan.{NodeRan};
    ghost use Rattle.node_harness.specs.Opened.{RanOf};

    ghost Value = { NodeRan };

    ghost coded = { Prim.hlevel (codes, map.code) };

    ghost view = { λ m. m.node };

    ghost invariant = { λ m. RanOf S.nodes m.node };
}

impl<S: OfSetup> Member<S> {
    /// A node of the setup.
    pub(crate) fn new(node: NodeRan) -> Member<S>
        requires { RanOf S.nodes node }
        ensures { result ≡ node }
    {
        Member {
            node,
            of: PhantomData,
        }
    }

    /// Whose node it is.
    pub(crate) fn party(&self) -> &Party
        ensures { result.now ≡ self.now.cell.party }
    {
        self.node.cell.party()
    }

    /// The node itself.
    pub(crate) fn into_node(self) -> NodeRan
        ensures node { result ≡ self }
        ensures of_setup { RanOf S.nodes result }
    {
        let Member { node, of: _ } = self;
        node
    }
}
