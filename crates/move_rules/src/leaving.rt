//! A node tells the leader that it leaves.
ghost use Rattle.std.specs.Prelude.{◌≡◌, ◌&&◌, ◌||◌, IsTrue, OnOk, nat_eq, not};
ghost use Rattle.node_model.specs.Directory.{is_known, stays, with_leaving};
ghost use Rattle.node_model.specs.Leases.{leases_hold};
ghost use Rattle.world_model.specs.Lives.{may_leave, place_family, take_leaving};
ghost use Rattle.node_state.specs.State.{node_of};
ghost use Rattle.node_state.specs.Turning.{IsFresh, Turns};

use lease_leader::Directory;
use node_state::forms::is_node;
use node_state::{Growing, LEADER, State, TurnFault};
use pico_base::{Memory, Name, Node, Pid, Script};
use rpc_frame::Frame;

/// Whether the leader knows where the parent of a process that leaves is, or can take it from what it is told.
fn has_parent(node: &State, parent: Pid, parent_node: Node) -> bool
    ensures { result ≡ (is_known node.now.leader.directory (Name.Proc parent) || not (nat_eq parent_node 1)) }
{
    node.leader.knows(Name::Proc(parent)) || parent_node != LEADER
}

/// Whether neither number is still to be given out here.
fn are_given(node: &State, pid: Pid, parent: Pid) -> bool
    ensures { result ≡ (not (leases_hold node.now.leases (Name.Proc parent))
        && not (leases_hold node.now.leases (Name.Proc pid))) }
{
    !node.leases.holds(Name::Proc(parent)) && !node.leases.holds(Name::Proc(pid))
}

/// Whether the leader may take a Leaving.
fn may_leave(
    node: &State,
    script: &Script,
    from: Node,
    pid: Pid,
    parent: Pid,
    parent_node: Node,
) -> bool
    ensures { result ≡ may_leave script.now (node_of node.now) from pid parent parent_node }
{
    node.leader.directory.stays(from)
        && pid.0 > 0
        && parent.0 > 0
        && pid != parent
        && is_node(script, parent_node)
        && has_parent(node, parent, parent_node)
        && are_given(node, pid, parent)
}

/// The process and its parent are placed where the leader didn't know them.
fn place_family(
    directory: &mut Directory,
    from: Node,
    pid: Pid,
    parent: Pid,
    parent_node: Node,
) -> Result<(), Memory>
    ensures { OnOk result (directory.new ≡ place_family directory.old from pid parent parent_node) }
{
    let _ = directory.place(Name::Proc(parent), parent_node)?;
    let _ = directory.place(Name::Proc(pid), from)?;
    Ok(())
}

/// What is at the node is on its way, once the process and its parent are placed.
fn part(
    directory: &mut Directory,
    from: Node,
    pid: Pid,
    parent: Pid,
    parent_node: Node,
) -> Result<(), Memory>
    requires stays { IsTrue (stays directory.old from) }
    ensures { OnOk result
        (directory.new ≡ with_leaving (place_family directory.old from pid parent parent_node) from) }
{
    place_family(directory, from, pid, parent, parent_node)?;
    directory.leaving(from);
    Ok(())
}

/// The Leaving rule: the process and its parent are placed where the leader didn't know them, what is at the node is on
/// its way, and the node is asked for all that it holds.
pub fn take_leaving(
    step: &mut Growing,
    script: &Script,
    from: Node,
    pid: Pid,
    parent: Pid,
    parent_node: Node,
) -> Result<(), TurnFault>
    requires fresh { IsFresh step.old }
    ensures { Turns (take_leaving script.now (node_of step.old.node) from pid parent parent_node) step.old step.new
        result }
{
    if !step.node.is_to_leader(from)
        || !may_leave(&step.node, script, from, pid, parent, parent_node)
    {
        return Err(TurnFault::NotAllowed);
    }
    part(
        &mut step.node.leader.directory,
        from,
        pid,
        parent,
        parent_node,
    )?;
    Ok(step.send(from, Frame::RecallAll)?)
}
