//! A node takes a frame about its own process's call.
ghost use Rattle.std.specs.Prelude.{◌≡◌, OnOk, Some};
ghost use Rattle.kernel_model.specs.Script.{IsSoundScript};
ghost use Rattle.world_model.specs.Calls.{end_with_reply, take_answer, take_not_owner, with_forgotten, with_learnt};
ghost use Rattle.world_model.specs.Starting.{ask};
ghost use Rattle.world_model.specs.Step.{with_node};
ghost use Rattle.node_state.specs.State.{node_of, step_of};
ghost use Rattle.node_state.specs.Turning.{IsFresh, Turns};

use crate::asking::{ask, may_ask};
use node_state::forms::is_for_others;
use node_state::{Growing, State, TurnFault, unreached};
use pico_base::{Call, Home, Memory, Name, Node, Reply, Script, home};

/// The call under way is asked for once more, and the cache forgets who owned its name.
fn ask_anew(step: &mut Growing, script: &Script, call: Call, name: Name) -> Result<(), Memory>
    requires sound { IsSoundScript script.now }
    ensures { OnOk result
        (ask script.now (with_node (step_of step.old) (with_forgotten (node_of step.old.node) name)) call
        ≡ Some (step_of step.new)) }
{
    step.node.cache.forget(name);
    ask(step, script, call)
}

/// The NotOwner rule: the cache was out of date, and the leader is asked.
///
/// NotAllowed where no call on a name is under way with this ticket, or this is the leader and can't route it.
pub fn take_not_owner(step: &mut Growing, script: &Script, ticket: u32) -> Result<(), TurnFault>
    requires fresh { IsFresh step.old }
    requires sound { IsSoundScript script.now }
    ensures { Turns (take_not_owner script.now (node_of step.old.node) ticket) step.old step.new result }
{
    let Some(call) = step.node.under_way_as(ticket) else {
        return Err(TurnFault::NotAllowed);
    };
    let Home::At(name) = home(step.node.pid, call) else {
        return Err(TurnFault::NotAllowed);
    };
    if !may_ask(step, call) {
        return Err(TurnFault::NotAllowed);
    }
    let call = call.try_copy(step.node.alloc)?;
    Ok(ask_anew(step, script, call, name)?)
}

/// The cache learns that this node owns the name of a call.
fn learn(node: &mut State, from: Node, home: Home) -> Result<(), Memory>
    ensures { OnOk result (node_of node.new ≡ with_learnt (node_of node.old) from home) }
{
    match home {
        Home::At(name) => node.cache.learn(name, from),
        _ => Ok(()),
    }
}

/// The Answer rule: the call under way has its reply, and the cache learns who owns its name.
///
/// NotAllowed where no call that others carry out is under way with this ticket. Memory, too, where the call's line
/// isn't there: no run leads there.
pub fn take_answer(
    step: &mut Growing,
    script: &Script,
    from: Node,
    ticket: u32,
    reply: Reply,
) -> Result<(), TurnFault>
    requires fresh { IsFresh step.old }
    requires sound { IsSoundScript script.now }
    ensures { Turns (take_answer script.now (node_of step.old.node) from ticket reply) step.old step.new result }
{
    let Some(call) = step.node.under_way_as(ticket) else {
        return Err(TurnFault::NotAllowed);
    };
    let home = home(step.node.pid, call);
    if !is_for_others(&home) {
        return Err(TurnFault::NotAllowed);
    }
    if !step.node.caller.has_line(script) {
        return Err(unreached().into());
    }
    learn(&mut step.node, from, home)?;
    Ok(step.node.caller.answered(script, &reply)?)
}
