//! A node of either role, and what it tells.

ghost use Rattle.std.specs.Prelude.{◌≡◌, IfOk};
ghost use Rattle.ocpi_text.specs.Text.{key};
ghost use Rattle.node_core.specs.States.{owed_of, state_of};
ghost use Rattle.stored_laws.specs.Nodes.{AreNodeRows, IsSound, last_serial};

use ocpi_text::{Party, ShortText, Whole};
use ocpi_types::Row;
use operator_core::Operator;
use provider_core::Provider;
use std::alloc::AllocError;

/// A node of either role.
pub enum Node {
    Operator(Operator),
    Provider(Provider),
}

/// What a derive would do, in a function of its own: so it is proved once, and not in each function that drops one.
impl Drop for Node {
    fn drop(self) {
        match self {
            Node::Operator(operator) => drop(operator),
            Node::Provider(provider) => drop(provider),
        }
    }
}

/// What holds of every provider at any time, which its type keeps.
fn provider_is_sound(provider: &Provider)
    ensures { IsSound (state_of (Node.Provider provider.now)) }
{
    provider.consistency();
    provider.keys_are_own();
}

impl Node {
    /// What holds of every node at any time, which its type keeps: what `Operator::consistency` and
    /// `Provider::consistency` say, and that each row of a provider stands under its own key.
    pub fn is_sound(&self)
        ensures { IsSound (state_of self.now) }
    {
        match self {
            Node::Operator(operator) => operator.consistency(),
            Node::Provider(provider) => provider_is_sound(provider),
        }
    }

    /// All rows that stand, each once. An error is want of memory.
    pub fn stored(&self) -> Result<Vec<Row>, AllocError>
        ensures { IfOk result (λ rows. AreNodeRows rows.items (state_of self.now)) }
    {
        match self {
            Node::Operator(operator) => operator.stored(),
            Node::Provider(provider) => provider.stored(),
        }
    }

    /// What the node owes to an operator in a currency, in ten-thousandths: the sum of the costs of the operator's
    /// charge detail records in that currency that it holds. An operator owes nothing. It takes no memory.
    pub fn settlement(&self, operator: &Party, currency: ShortText<3, 12>) -> i128
        ensures { result ≡ owed_of (state_of self.now) (key operator.now, currency) }
    {
        match self {
            Node::Operator(_) => 0,
            Node::Provider(provider) => provider.settlement(operator, currency),
        }
    }

    /// The serial of the last packet that it sent, 0 where it sent none.
    pub fn last_serial(&self) -> Whole
        ensures { result ≡ last_serial (state_of self.now) }
    {
        match self {
            Node::Operator(operator) => operator.last_serial(),
            Node::Provider(provider) => provider.last_serial(),
        }
    }
}
