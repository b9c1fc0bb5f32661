//! A signal interrupts a call that waits, and a withdrawal goes to where the call is.
ghost use Rattle.std.specs.Prelude.{◌≡◌, ◌&&◌, OnOk};
ghost use Rattle.std.specs.Option.{option_map};
ghost use Rattle.pico_base.specs.declared.call.Call.TheVariants as calls;
ghost use Rattle.kernel_model.specs.Script.{IsSoundScript};
ghost use Rattle.waiting_model.specs.Calls.{waits_at};
ghost use Rattle.node_model.specs.Caller.{to_cancel};
ghost use Rattle.node_model.specs.Serving.{withdraw};
ghost use Rattle.world_model.specs.Node.{asked_here, is_born, is_node};
ghost use Rattle.world_model.specs.Strikes.{cancelled, cancelled_at, strike, strike_at, strike_object, take_cancel, tell_leader};
ghost use Rattle.node_state.specs.State.{node_of, step_of};
ghost use Rattle.node_state.specs.Turning.{IsFresh, Turns};
ghost use Rattle.route_rules.specs.Striking.{struck_there};

use crate::routing::{cancel, route_cancel};
use node_state::forms::{is_node, withdrawn_from};
use node_state::{Growing, LEADER, State, TurnFault};
use pico_base::{Call, Errno, Memory, Name, Pid, Reply, Script};
use rpc_frame::Asked;
use serve_rules::{Interrupted, interrupt};

/// Where a call that may have to wait does so: at its queue or its set, and `waitpid` at the caller itself.
fn waits_at(pid: Pid, call: &Call) -> Name
    ensures { result ≡ waits_at pid call.now }
{
    match call {
        Call::MsgSnd { id, .. } | Call::MsgRcv { id, .. } => Name::Msg(*id),
        Call::SemOp { id, .. } => Name::Sem(*id),
        _ => Name::Proc(pid),
    }
}

/// Where the call waits that a signal interrupts, if there is one.
fn struck_at(node: &State) -> Option<Name>
    ensures { result ≡ option_map (waits_at (node_of node.now).pid) (to_cancel (node_of node.now).caller) }
{
    match node.caller.to_cancel() {
        Some(call) => Some(waits_at(node.pid, call)),
        None => None,
    }
}

/// The withdrawal of the node's own call, which waits at this name.
fn withdrawing(node: &State, name: &Name) -> Asked
    ensures { result ≡ asked_here (node_of node.now) (calls.Withdraw name.now) }
{
    node.asked_here(Call::Withdraw { name: *name })
}

/// The leader finds where the name is at which the call waits.
fn tell_leader(step: &mut Growing, script: &Script, name: &Name, asked: Asked) -> Result<(), Memory>
    requires sound { IsSoundScript script.now }
    ensures { OnOk result (step_of step.new ≡ tell_leader script.now (step_of step.old) name.now asked) }
{
    if step.node.is_leader() {
        route_cancel(step, script, name, asked)
    } else {
        cancel(step, LEADER, asked)
    }
}

/// The call that waits at a queue or a set is interrupted where that is held here, and else the leader is told.
fn strike_object(
    step: &mut Growing,
    script: &Script,
    name: &Name,
    asked: Asked,
) -> Result<(), Memory>
    requires sound { IsSoundScript script.now }
    ensures { OnOk result (step_of step.new ≡ strike_object script.now (step_of step.old) name.now asked
        (withdraw (step_of step.old).node.deeds name.now asked.pid asked.ticket)) }
{
    match interrupt(step, script, name, asked)? {
        Interrupted::Done => Ok(()),
        Interrupted::NotThere(asked) => tell_leader(step, script, name, asked),
        Interrupted::NotHeld(asked) => tell_leader(step, script, name, asked),
    }
}

/// A `waitpid` is interrupted at once, and so is a call that waits in a deed that is held here. Any other is told the
/// leader.
fn strike_at(step: &mut Growing, script: &Script, name: &Name, asked: Asked) -> Result<(), Memory>
    requires sound { IsSoundScript script.now }
    ensures { OnOk result (step_of step.new ≡ strike_at script.now (step_of step.old) asked name.now) }
{
    match name {
        Name::Proc(_) => step.carry_out(script, asked, Reply::Fail(Errno::Eintr)),
        Name::Msg(_) => strike_object(step, script, name, asked),
        Name::Sem(_) => strike_object(step, script, name, asked),
    }
}

/// The call that waits at this name is interrupted, which is noted.
fn strike_waiting(step: &mut Growing, script: &Script, name: &Name) -> Result<(), Memory>
    requires sound { IsSoundScript script.now }
    ensures { OnOk result (step_of step.new ≡ struck_there script.now (step_of step.old) name.now) }
{
    step.node.caller.note_cancel();
    let asked = withdrawing(&step.node, name);
    strike_at(step, script, name, asked)
}

/// The strike, last of all in a turn: where a signal strikes the node's process, the call that it waits in is
/// interrupted. Memory, too, where that call's line isn't there.
#[inline(always)]
pub fn strike(step: &mut Growing, script: &Script) -> Result<(), Memory>
    requires sound { IsSoundScript script.now }
    ensures { OnOk result (step_of step.new ≡ strike script.now (step_of step.old)) }
{
    if !step.strikes {
        return Ok(());
    }
    match struck_at(&step.node) {
        Some(name) => strike_waiting(step, script, &name),
        None => Ok(()),
    }
}

/// A withdrawal that has come to a node other than the leader: who waits here is taken out. Where the name has gone
/// from here it goes back to the leader.
fn cancel_here(step: &mut Growing, script: &Script, name: &Name, asked: Asked) -> Result<(), Memory>
    requires fresh { IsFresh step.old }
    requires sound { IsSoundScript script.now }
    ensures { OnOk result (step_of step.new ≡ cancelled_at script.now (node_of step.old.node) name.now asked
        (withdraw (node_of step.old.node).deeds name.now asked.pid asked.ticket)) }
{
    match interrupt(step, script, name, asked)? {
        Interrupted::Done => Ok(()),
        Interrupted::NotThere(_) => Ok(()),
        Interrupted::NotHeld(asked) => {
            if step.node.leases.holds(*name) {
                Ok(())
            } else {
                cancel(step, LEADER, asked)
            }
        }
    }
}

/// A withdrawal at this name has come.
fn cancelled(step: &mut Growing, script: &Script, name: &Name, asked: Asked) -> Result<(), Memory>
    requires fresh { IsFresh step.old }
    requires sound { IsSoundScript script.now }
    ensures { OnOk result (step_of step.new ≡ cancelled script.now (node_of step.old.node) asked name.now) }
{
    if step.node.is_leader() {
        route_cancel(step, script, name, asked)
    } else {
        cancel_here(step, script, name, asked)
    }
}

/// Whether a node may take a Cancel frame with this withdrawal.
fn may_cancel(node: &State, script: &Script, asked: &Asked) -> bool
    ensures { result ≡ (is_born (node_of node.now) && is_node script.now asked.now.caller) }
{
    node.is_born() && is_node(script, asked.caller)
}

/// The Cancel rule: the leader sends the withdrawal on by its name's place, and any other node takes the waiter out.
pub fn take_cancel(step: &mut Growing, script: &Script, asked: Asked) -> Result<(), TurnFault>
    requires fresh { IsFresh step.old }
    requires sound { IsSoundScript script.now }
    ensures { Turns (take_cancel script.now (node_of step.old.node) asked) step.old step.new result }
{
    if !may_cancel(&step.node, script, &asked) {
        return Err(TurnFault::NotAllowed);
    }
    match withdrawn_from(&asked.call) {
        Some(name) => Ok(cancelled(step, script, &name, asked)?),
        None => Err(TurnFault::NotAllowed),
    }
}
