//! What an event brings to a node.

ghost use Rattle.std.specs.Prelude.{◌≡◌, IfNone, IfSome};
ghost use Rattle.node_inputs.specs.Inputs.{SaysTheSame};
ghost use Rattle.ocpi_types.specs.declared.node_events.NodeEventKind.TheVariants as event;

use node_core::NodeInput;
use ocpi_types::NodeEventKind;

/// What an event brings to a node, if anything: one whose storing was refused brings nothing.
pub fn input_of(kind: &NodeEventKind) -> Option<NodeInput<'_>>
    ensures some { IfSome result (λ i. SaysTheSame i kind.now) }
    ensures none { IfNone result (kind.now ≡ event.Refused) }
{
    match kind {
        NodeEventKind::Submit {
            at,
            operator,
            order,
        } => Some(NodeInput::Submit {
            at: *at,
            operator,
            order,
        }),
        NodeEventKind::Token { at, token } => Some(NodeInput::Token { at: *at, token }),
        NodeEventKind::Service {
            evse_uid,
            in_service,
        } => Some(NodeInput::Service {
            evse_uid: evse_uid.key(),
            in_service: *in_service,
        }),
        NodeEventKind::Charger { at, event } => Some(NodeInput::Charger { at: *at, event }),
        NodeEventKind::Credit { at, session_id } => Some(NodeInput::Credit {
            at: *at,
            session_id: session_id.key(),
        }),
        NodeEventKind::Deliver { at, packet } => Some(NodeInput::Arrives { at: *at, packet }),
        NodeEventKind::Tick { at } => Some(NodeInput::Tick { at: *at }),
        NodeEventKind::Restart => Some(NodeInput::Restart),
        NodeEventKind::Refused => None,
    }
}
