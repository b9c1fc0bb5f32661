//! A call that others carry out: the leader is asked to route it, or the owner that the cache names to carry it out.
ghost use Rattle.std.specs.Prelude.{◌≡◌, IsTrue, None, OnOk, Some, false};
ghost use Rattle.pico_base.specs.declared.script.Script.{Script as Scripted};
ghost use Rattle.kernel_model.specs.Script.{IsSoundScript};
ghost use Rattle.node_model.specs.Cache.{Cache as Owners, owner_in};
ghost use Rattle.node_model.specs.Caller.{Caller as Calling};
ghost use Rattle.world_model.specs.Starting.{ask, request, start_at, with_look};
ghost use Rattle.world_model.specs.Step.{send, with_node};
ghost use Rattle.node_state.specs.Started.{can_start, started};
ghost use Rattle.node_state.specs.State.{node_of, step_of};
ghost use Rattle.start_rules.specs.Started.{aside};

use node_state::forms::may_park;
use node_state::{Growing, LEADER};
use pico_base::{Call, Memory, Name, Node, Script};
use route_rules::{may_route, route_call};
use rpc_frame::Frame;
use serve_rules::{begin, serve_at_once};

/// Whether the call can be asked for: the leader has to be able to route its own.
pub(crate) fn may_ask(step: &Growing, call: &Call) -> bool
    ensures { (script : Scripted) (caller : Calling) (cache : Owners) → result ≡ false
        → ask script (aside (step_of step.now) caller cache) call.now ≡ None }
{
    !step.node.is_leader() || may_route(step, step.node.pid, call)
}

/// The leader routes the call under way, and any other node asks it to.
#[inline(always)]
pub(crate) fn ask(step: &mut Growing, script: &Script, call: Call) -> Result<(), Memory>
    requires sound { IsSoundScript script.now }
    ensures { OnOk result (ask script.now (step_of step.old) call ≡ Some (step_of step.new)) }
{
    if step.node.is_leader() {
        let asked = step.node.asked_here(call);
        route_call(step, script, asked)
    } else {
        let frame = Frame::Ask {
            ticket: step.node.caller.ticket(),
            pid: step.node.pid,
            call,
        };
        step.send(LEADER, frame)
    }
}

/// This owner is asked to carry out the call under way.
fn request_from(step: &mut Growing, call: Call, owner: Node) -> Result<(), Memory>
    ensures { OnOk result (step_of step.new ≡ send (step_of step.old) owner
        (Frame.Request (node_of step.old.node).caller.ticket (node_of step.old.node).pid call)) }
{
    let frame = Frame::Request {
        ticket: step.node.caller.ticket(),
        pid: step.node.pid,
        call,
    };
    step.send(owner, frame)
}

/// The owner that the cache names is asked, if it is another node.
fn request(
    step: &mut Growing,
    script: &Script,
    call: Call,
    owner: Option<Node>,
) -> Result<(), Memory>
    requires sound { IsSoundScript script.now }
    ensures { OnOk result (request script.now (step_of step.old) call owner ≡ Some (step_of step.new)) }
{
    match owner {
        None => ask(step, script, call),
        Some(owner) => {
            if owner == step.node.number() {
                ask(step, script, call)
            } else {
                request_from(step, call, owner)
            }
        }
    }
}

/// The call is under way, and the leader routes it, or is asked to.
#[inline(always)]
pub(crate) fn start_ask(step: &mut Growing, script: &Script, call: Call) -> Result<(), Memory>
    requires sound { IsSoundScript script.now }
    requires can_start { IsTrue (can_start (node_of step.old.node)) }
    ensures { OnOk result (ask script.now (started (step_of step.old) call) call ≡ Some (step_of step.new)) }
{
    begin(step, &call)?;
    ask(step, script, call)
}

/// The call is under way, and the owner of its name is asked, which the cache may know.
#[inline(always)]
fn start_request(step: &mut Growing, script: &Script, call: Call, name: &Name) -> Result<(), Memory>
    requires sound { IsSoundScript script.now }
    requires can_start { IsTrue (can_start (node_of step.old.node)) }
    ensures { OnOk result
        (request script.now
        (with_node (started (step_of step.old) call) (with_look (started (step_of step.old) call).node name.now)) call
        (owner_in (node_of step.old.node).cache name.now) ≡ Some (step_of step.new)) }
{
    begin(step, &call)?;
    let owner = step.node.cache.look(*name);
    request(step, script, call, owner)
}

/// A call on a name that is held here is served; else it is under way, and the owner is asked. One that may have to
/// wait is asked of the leader alone: a withdrawal that follows it then finds the name's owner by the same way.
pub(crate) fn start_at(
    step: &mut Growing,
    script: &Script,
    call: Call,
    name: &Name,
) -> Result<(), Memory>
    requires sound { IsSoundScript script.now }
    requires can_start { IsTrue (can_start (node_of step.old.node)) }
    ensures { OnOk result
        (start_at script.now (started (step_of step.old) call) call name.now ≡ Some (step_of step.new)) }
{
    if step.node.holds(*name) {
        serve_at_once(step, script, *name, call)
    } else if may_park(&call) {
        start_ask(step, script, call)
    } else {
        start_request(step, script, call, name)
    }
}
