//! The leader asks a name back, and holds what needs it.
ghost use Rattle.std.specs.Prelude.{◌≡◌, IsTrue, OnOk};
ghost use Rattle.world_model.specs.Routes.{hold_item, recall_from};
ghost use Rattle.node_model.specs.Directory.{is_coming, recall};
ghost use Rattle.lease_leader.specs.Places.{is_at};
ghost use Rattle.node_state.specs.State.{step_of};

use lease_leader::Directory;
use node_model::Held;
use node_state::{Growing, Leader, unreached};
use pico_base::{Memory, Name, Node};
use rpc_frame::Frame;

/// Whether the name is on its way.
fn is_coming(leader: &Leader, name: &Name) -> bool
    ensures { result ≡ is_coming leader.now.directory name.now }
{
    leader.is_coming(*name)
}

/// The deed of a name that is at a node is asked back.
fn recall(directory: &mut Directory, name: &Name, to: Option<Node>)
    requires { IsTrue (is_at directory.old name.now) }
    ensures { directory.new ≡ recall directory.old name.now to }
{
    directory.recall(*name, to)
}

/// What needs a name is held until its deed has come. Memory, too, where the name isn't on its way.
pub fn hold_item(step: &mut Growing, name: Name, item: Held) -> Result<(), Memory>
    ensures { OnOk result (step_of step.new ≡ hold_item (step_of step.old) name item) }
{
    if !is_coming(&step.node.leader, &name) {
        return Err(unreached());
    }
    match step.node.leader.directory.hold(name, item) {
        Ok(()) => Ok(()),
        Err((fault, _)) => Err(fault),
    }
}

/// The name is asked back from its owner, perhaps for another node. Memory, too, where the name isn't at a node.
pub fn recall_from(
    step: &mut Growing,
    name: Name,
    to: Option<Node>,
    owner: Node,
) -> Result<(), Memory>
    ensures { OnOk result (step_of step.new ≡ recall_from (step_of step.old) name to owner) }
{
    if !step.node.leader.is_placed(name) {
        return Err(unreached());
    }
    recall(&mut step.node.leader.directory, &name, to);
    step.send(owner, Frame::Recall { name })
}
