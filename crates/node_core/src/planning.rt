//! What comes of what reaches a node. Nothing is changed here.

ghost use Rattle.std.specs.Prelude.{IfOk};
ghost use Rattle.node_core.specs.States.{state_of};
ghost use Rattle.node_core.specs.Works.{ComesOf, ComesOfFull, IsPlanned};
ghost use Rattle.world_steps.specs.World.{Operates, Provides};

use crate::input::NodeInput;
use crate::node::Node;
use crate::work::{NodePlan, NodeWork};
use node_steps::{NodeFault, Plan};
use operator_core::Operator;
use operator_rows::FullPlan;
use provider_core::Provider;
use std::alloc::AllocError;

/// What comes of a plan of an operator. An error is want of memory.
fn of_operator(planned: Result<FullPlan, NodeFault>) -> Result<NodePlan, AllocError>
    ensures { IfOk result (λ x. ComesOfFull planned x) }
{
    match planned {
        Ok(plan) => Ok(NodePlan::Acts(NodeWork::Operator(plan))),
        Err(NodeFault::Memory) => Err(AllocError),
        Err(fault) => Ok(NodePlan::Refused(fault)),
    }
}

/// What comes of a plan of a provider. An error is want of memory.
fn of_provider(planned: Result<Plan, NodeFault>) -> Result<NodePlan, AllocError>
    ensures { IfOk result (λ x. ComesOf planned x) }
{
    match planned {
        Ok(plan) => Ok(NodePlan::Acts(NodeWork::Provider(plan))),
        Err(NodeFault::Memory) => Err(AllocError),
        Err(fault) => Ok(NodePlan::Refused(fault)),
    }
}

/// What comes of what reaches an operator. An error is want of memory.
fn plan_operator(operator: &Operator, input: &NodeInput<'_>) -> Result<NodePlan, AllocError>
    ensures { IfOk result (λ x. IsPlanned (Operates operator.now.state) input.now x) }
{
    match input {
        NodeInput::Submit { .. } | NodeInput::Token { .. } => Ok(NodePlan::Skipped),
        NodeInput::Service {
            evse_uid,
            in_service,
        } => {
            let plan = operator.plan_service(*evse_uid, *in_service)?;
            Ok(NodePlan::Acts(NodeWork::Operator(plan)))
        }
        NodeInput::Charger { at, event } => of_operator(operator.plan_charger(*at, *event)),
        NodeInput::Credit { at, session_id } => {
            of_operator(operator.plan_credit(*at, *session_id))
        }
        NodeInput::Arrives { at, packet } => of_operator(operator.plan_packet(*at, *packet)),
        NodeInput::Tick { at } => of_operator(operator.plan_tick(*at)),
        NodeInput::Restart => Ok(NodePlan::Acts(NodeWork::Restart)),
    }
}

/// What comes of what reaches a provider. An error is want of memory.
fn plan_provider(provider: &Provider, input: &NodeInput<'_>) -> Result<NodePlan, AllocError>
    ensures { IfOk result (λ x. IsPlanned (Provides provider.now.state) input.now x) }
{
    match input {
        NodeInput::Submit {
            at,
            operator,
            order,
        } => of_provider(provider.plan_order(*at, *operator, *order)),
        NodeInput::Token { at, token } => of_provider(provider.plan_token(*at, *token)),
        NodeInput::Service { .. } | NodeInput::Charger { .. } | NodeInput::Credit { .. } => {
            Ok(NodePlan::Skipped)
        }
        NodeInput::Arrives { at, packet } => of_provider(provider.plan_packet(*at, *packet)),
        NodeInput::Tick { at } => of_provider(provider.plan_tick(*at)),
        NodeInput::Restart => Ok(NodePlan::Acts(NodeWork::Restart)),
    }
}

impl Node {
    /// What comes of what reaches the node: it is skipped where it is not for a node of this role, refused for a fault
    /// that the node has (`NodeFault`, but for want of memory), and else the node is to do what the tables of its role
    /// say. Nothing changes. An error is want of memory.
    pub fn plan(&self, input: &NodeInput<'_>) -> Result<NodePlan, AllocError>
        ensures { IfOk result (λ x. IsPlanned (state_of self.now) input.now x) }
    {
        match self {
            Node::Operator(operator) => plan_operator(operator, input),
            Node::Provider(provider) => plan_provider(provider, input),
        }
    }
}
