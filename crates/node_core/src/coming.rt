//! Which frames may come, whatever sends them. A node that is asked by bytes from anyone stays within its limits by
//! this, and so does all that it sends.
ghost use Rattle.std.specs.Prelude.{◌≡◌, ◌&&◌};
ghost use Rattle.frame_bytes.specs.Limits.{is_frame};
ghost use Rattle.world_model.specs.Turn.{has_room_for, is_given_out, may_come};
ghost use Rattle.node_state.specs.State.{node_of};

use end_rules::hold_any;
use frame_bytes::{has_room_to_go_on, is_within_limits};
use node_state::State;
use pico_base::Node;
use rpc_frame::Frame;

/// Whether the frame is within the limits, and so is what it makes the node send: a call that is asked for grows by a
/// byte as it is sent on.
fn has_room(node: &State, from: Node, frame: &Frame) -> bool
    ensures { result ≡ is_frame frame.now && has_room_for (node_of node.now) from frame.now }
{
    match frame {
        Frame::Ask { .. } => has_room_to_go_on(frame),
        Frame::RecallAll => node.deeds.processes().len() < 256,
        _ => is_within_limits(frame),
    }
}

/// Whether no process comes whose number this node has still to give.
fn is_given_out(node: &State, frame: &Frame) -> bool
    ensures { result ≡ is_given_out (node_of node.now) frame.now }
{
    match frame {
        Frame::Checkpoint { deed, .. } => !node.leases.holds(deed.name),
        Frame::Left { parcel } => !hold_any(&node.leases, parcel),
        _ => true,
    }
}

/// Whether a frame may come to the node. It takes no memory.
#[tactic(auto, unfolding(world_model::specs::Turn::may_come))]
pub(crate) fn may_come(node: &State, from: Node, frame: &Frame) -> bool
    ensures { result ≡ may_come (node_of node.now) from frame.now }
{
    has_room(node, from, frame) && is_given_out(node, frame)
}
