//! A node takes a frame about a call of another node's process.
ghost use Rattle.std.specs.Prelude.{◌≡◌, ◌&&◌, not, IsTrue, OnOk};
ghost use Rattle.pico_base.specs.Home.{home_of};
ghost use Rattle.pico_base.specs.declared.call.Home.TheVariants as homes;
ghost use Rattle.kernel_model.specs.Script.{IsSoundScript};
ghost use Rattle.waiting_model.specs.Calls.{is_withdrawal};
ghost use Rattle.world_model.specs.Node.{is_node};
ghost use Rattle.world_model.specs.Routes.{route_call};
ghost use Rattle.world_model.specs.Calls.{asks_as, bounce, bounce_or_nobody, forwarded_by, is_for_others, is_from_leader, is_on_name_or_removal, is_to_leader, requested_by, take_ask, take_bounce, take_forward, take_request};
ghost use Rattle.node_state.specs.State.{node_of, step_of};
ghost use Rattle.node_state.specs.Turning.{IsFresh, Turns};
ghost use Rattle.route_rules.specs.Asking.{route_if};

use crate::keys::get_by_key_if;
use crate::routing::{may_route, route_call};
use node_state::forms::{is_for_others, is_node, is_on_name_or_removal, is_withdrawal};
use node_state::{Growing, LEADER, State, TurnFault};
use pico_base::{Call, Home, Memory, Name, Node, Pid, Script, home};
use rpc_frame::{Asked, Frame};
use serve_rules::{serve_asked, serve_nobody};

/// The leader routes the call.
fn route(step: &mut Growing, script: &Script, asked: Asked) -> Result<(), TurnFault>
    requires sound { IsSoundScript script.now }
    ensures { Turns (route_call script.now (step_of step.old) asked) step.old step.new result }
{
    Ok(route_call(step, script, asked)?)
}

/// The leader routes the call if it can.
fn route_fitting(step: &mut Growing, script: &Script, asked: Asked) -> Result<(), TurnFault>
    requires sound { IsSoundScript script.now }
    ensures { Turns (route_call script.now (step_of step.old) asked) step.old step.new result }
{
    if may_route(step, asked.pid, &asked.call) {
        route(step, script, asked)
    } else {
        Err(TurnFault::NotAllowed)
    }
}

/// Whether the call is a get by a key.
fn is_by_key(asked: &Asked) -> bool
    ensures { IsTrue result → home_of asked.now.pid asked.now.call ≡ homes.Keys }
{
    matches!(home(asked.pid, &asked.call), Home::Keys)
}

/// The call is routed if the leader can. For a get by a key that is known once the key is looked up.
fn route_by_kind(step: &mut Growing, script: &Script, asked: Asked) -> Result<(), TurnFault>
    requires sound { IsSoundScript script.now }
    ensures { Turns (route_call script.now (step_of step.old) asked) step.old step.new result }
{
    if is_by_key(&asked) {
        get_by_key_if(step, script, asked)
    } else {
        route_fitting(step, script, asked)
    }
}

/// The call is routed where that is allowed and the leader can.
fn route_if(
    step: &mut Growing,
    script: &Script,
    asked: Asked,
    allowed: bool,
) -> Result<(), TurnFault>
    requires sound { IsSoundScript script.now }
    ensures { Turns (route_if allowed script.now (step_of step.old) asked) step.old step.new result }
{
    if allowed {
        route_by_kind(step, script, asked)
    } else {
        Err(TurnFault::NotAllowed)
    }
}

/// Whether the leader may take an Ask frame with this call.
fn may_ask(node: &State, from: Node, pid: Pid, call: &Call) -> bool
    ensures { result ≡ (is_to_leader (node_of node.now) from && asks_as is_for_others pid call.now) }
{
    node.is_to_leader(from) && (is_for_others(&home(pid, call)) && !is_withdrawal(call))
}

/// The Ask rule: the leader routes the call.
pub fn take_ask(
    step: &mut Growing,
    script: &Script,
    from: Node,
    ticket: u32,
    pid: Pid,
    call: Call,
) -> Result<(), TurnFault>
    requires fresh { IsFresh step.old }
    requires sound { IsSoundScript script.now }
    ensures { Turns (take_ask script.now (node_of step.old.node) from ticket pid call) step.old step.new result }
{
    let allowed = may_ask(&step.node, from, pid, &call);
    let asked = Asked {
        caller: from,
        ticket,
        pid,
        call,
    };
    route_if(step, script, asked, allowed)
}

/// Whether the leader may take a Bounce frame with this call.
fn may_bounce(node: &State, script: &Script, from: Node, asked: &Asked) -> bool
    ensures { result
        ≡ (is_to_leader (node_of node.now) from
        && (is_node script.now asked.now.caller && asks_as is_on_name_or_removal asked.now.pid asked.now.call)) }
{
    node.is_to_leader(from)
        && (is_node(script, asked.caller)
            && (is_on_name_or_removal(&home(asked.pid, &asked.call))
                && !is_withdrawal(&asked.call)))
}

/// The Bounce rule: the leader routes the call once more.
pub fn take_bounce(
    step: &mut Growing,
    script: &Script,
    from: Node,
    asked: Asked,
) -> Result<(), TurnFault>
    requires fresh { IsFresh step.old }
    requires sound { IsSoundScript script.now }
    ensures { Turns (take_bounce script.now (node_of step.old.node) from asked) step.old step.new result }
{
    let allowed = may_bounce(&step.node, script, from, &asked);
    route_if(step, script, asked, allowed)
}

/// The name has gone from here.
fn bounce(step: &mut Growing, asked: Asked) -> Result<(), Memory>
    requires fresh { IsFresh step.old }
    ensures { OnOk result (step_of step.new ≡ bounce (node_of step.old.node) asked) }
{
    step.send(LEADER, Frame::Bounce { asked })
}

/// A number that isn't given out yet names nothing; else the name has gone.
fn bounce_or_nobody(
    step: &mut Growing,
    script: &Script,
    asked: Asked,
    name: &Name,
) -> Result<(), Memory>
    requires fresh { IsFresh step.old }
    requires sound { IsSoundScript script.now }
    ensures { OnOk result (step_of step.new ≡ bounce_or_nobody script.now (node_of step.old.node) asked name.now) }
{
    if step.node.leases.holds(*name) {
        serve_nobody(step, script, *name, asked)
    } else {
        bounce(step, asked)
    }
}

/// A call that the leader sent on, by its home.
fn forwarded_by(
    step: &mut Growing,
    script: &Script,
    asked: Asked,
    home: Home,
) -> Result<(), TurnFault>
    requires fresh { IsFresh step.old }
    requires sound { IsSoundScript script.now }
    ensures { Turns (forwarded_by script.now (node_of step.old.node) asked home) step.old step.new result }
{
    match home {
        Home::At(name) if step.node.holds(name) => Ok(serve_asked(step, script, name, asked)?),
        Home::At(name) => Ok(bounce_or_nobody(step, script, asked, &name)?),
        Home::Removal(name) if step.node.holds(name) => Ok(bounce(step, asked)?),
        Home::Removal(name) => Ok(bounce_or_nobody(step, script, asked, &name)?),
        _ => Err(TurnFault::NotAllowed),
    }
}

/// Whether a node may take a Forward frame with this call.
fn may_forward(node: &State, script: &Script, from: Node, asked: &Asked) -> bool
    ensures { result
        ≡ (is_from_leader (node_of node.now) from
        && (is_node script.now asked.now.caller && not (is_withdrawal asked.now.call))) }
{
    node.is_from_leader(from) && (is_node(script, asked.caller) && !is_withdrawal(&asked.call))
}

/// The Forward rule: the owner serves the call; a number that isn't given out yet names nothing; else the name has
/// gone.
pub fn take_forward(
    step: &mut Growing,
    script: &Script,
    from: Node,
    asked: Asked,
) -> Result<(), TurnFault>
    requires fresh { IsFresh step.old }
    requires sound { IsSoundScript script.now }
    ensures { Turns (take_forward script.now (node_of step.old.node) from asked) step.old step.new result }
{
    if !may_forward(&step.node, script, from, &asked) {
        return Err(TurnFault::NotAllowed);
    }
    let home = home(asked.pid, &asked.call);
    forwarded_by(step, script, asked, home)
}

/// A call that its caller sent to the owner of its name, by its home.
fn requested_by(
    step: &mut Growing,
    script: &Script,
    asked: Asked,
    home: Home,
) -> Result<(), TurnFault>
    requires fresh { IsFresh step.old }
    requires sound { IsSoundScript script.now }
    ensures { Turns (requested_by script.now (node_of step.old.node) asked home) step.old step.new result }
{
    match home {
        Home::At(name) if step.node.holds(name) => Ok(serve_asked(step, script, name, asked)?),
        Home::At(_) => {
            let frame = Frame::NotOwner {
                ticket: asked.ticket,
            };
            Ok(step.send(asked.caller, frame)?)
        }
        _ => Err(TurnFault::NotAllowed),
    }
}

/// The Request rule: the owner serves the call, or says that it isn't the owner.
pub fn take_request(
    step: &mut Growing,
    script: &Script,
    from: Node,
    ticket: u32,
    pid: Pid,
    call: Call,
) -> Result<(), TurnFault>
    requires fresh { IsFresh step.old }
    requires sound { IsSoundScript script.now }
    ensures { Turns (take_request script.now (node_of step.old.node) from ticket pid call) step.old step.new result }
{
    if !step.node.is_born() || from == step.node.number() || is_withdrawal(&call) {
        return Err(TurnFault::NotAllowed);
    }
    let home = home(pid, &call);
    let asked = Asked {
        caller: from,
        ticket,
        pid,
        call,
    };
    requested_by(step, script, asked, home)
}
