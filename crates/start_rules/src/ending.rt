//! A process makes its last call.
ghost use Rattle.std.specs.Prelude.{◌≡◌, IfOk, IsTrue, OnOk, Some};
ghost use Rattle.kernel_model.specs.Row.{Row as AtRow};
ghost use Rattle.kernel_model.specs.Script.{IsSoundScript};
ghost use Rattle.node_model.specs.Kinds.{put_all};
ghost use Rattle.node_model.specs.Parcels.{all_gone, end_first};
ghost use Rattle.world_model.specs.Node.{own_row};
ghost use Rattle.world_model.specs.Starting.{end_leader, leave, start_end};
ghost use Rattle.node_serve.specs.Bodies.{bodies_of, row_of};
ghost use Rattle.node_state.specs.Started.{can_start, started};
ghost use Rattle.node_state.specs.State.{node_of, step_of};

use deed_box::Deeds;
use node_serve::{Body, Row, bury};
use node_state::{Growing, LEADER, Stage, State, unreached};
use pico_base::{Call, Memory, Pid, Reply, Script};
use rpc_frame::Frame;
use serve_rules::begin;
use std::alloc::Global;

/// These processes are gone.
fn bury_all(deeds: &mut Deeds<Body>, pids: &[Pid]) -> Result<(), Memory>
    ensures { OnOk result (bodies_of deeds.new.bodies ≡ put_all (bodies_of deeds.old.bodies) (all_gone pids.now)) }
{
    for pid in pids {
        deeds.reserve(1)?;
        bury(deeds, *pid);
    }
    Ok(())
}

/// The processes that are gone with the first one: its ended children, and itself.
fn all_ended(alloc: Global, pid: Pid, row: &Row) -> Result<Vec<Pid>, Memory>
    ensures { IfOk result (λ pids. all_gone pids.items ≡ end_first pid (row_of row.now)) }
{
    let mut pids = row.family.ended(alloc)?;
    pids.push(pid)?;
    Ok(pids)
}

/// The processes that are gone with the first one, which is the node's own. Memory, too, where its row isn't here.
fn ended_with(node: &State) -> Result<Vec<Pid>, Memory>
    ensures { IfOk result (λ pids. (row : AtRow) → own_row (node_of node.now) ≡ Some row
        → all_gone pids.items ≡ end_first (node_of node.now).pid row) }
{
    match node.own_row() {
        Some(row) => all_ended(node.alloc, node.pid, row),
        None => Err(unreached()),
    }
}

/// Process 1 ends at once, and node 1 goes on as the leader.
fn end_leader(step: &mut Growing, script: &Script, call: Call) -> Result<(), Memory>
    requires sound { IsSoundScript script.now }
    ensures { OnOk result ((row : AtRow) → own_row (node_of step.old.node) ≡ Some row
        → step_of step.new ≡ end_leader script.now (step_of step.old) call row) }
{
    let ended = ended_with(&step.node)?;
    bury_all(&mut step.node.deeds, ended.as_slice())?;
    step.node.stage = Stage::Over;
    let asked = step.node.asked_here(call);
    step.carry_out(script, asked, Reply::Ended)
}

/// The node tells the leader that its process has made its last call.
fn leave(step: &mut Growing) -> Result<(), Memory>
    ensures { OnOk result (step_of step.new ≡ leave (step_of step.old)) }
{
    step.node.stage = Stage::Leaving;
    let frame = Frame::Leaving {
        pid: step.node.pid,
        parent: step.node.parent,
        parent_node: step.node.parent_node,
    };
    step.send(LEADER, frame)
}

/// The process ends: at once at the leader, and any other node leaves. Memory, too, where its row isn't here.
fn end(step: &mut Growing, script: &Script, call: Call) -> Result<(), Memory>
    requires sound { IsSoundScript script.now }
    ensures { OnOk result ((row : AtRow) → own_row (node_of step.old.node) ≡ Some row
        → step_of step.new ≡ start_end script.now (step_of step.old) call row) }
{
    if step.node.is_leader() {
        end_leader(step, script, call)
    } else {
        leave(step)
    }
}

/// The last call is under way, and the process ends. Memory, too, where its row isn't here.
#[inline(never)]
pub(crate) fn start_end(step: &mut Growing, script: &Script, call: Call) -> Result<(), Memory>
    requires sound { IsSoundScript script.now }
    requires can_start { IsTrue (can_start (node_of step.old.node)) }
    ensures { OnOk result ((row : AtRow) → own_row (node_of step.old.node) ≡ Some row
        → step_of step.new ≡ start_end script.now (started (step_of step.old) call) call row) }
{
    begin(step, &call)?;
    end(step, script, call)
}
