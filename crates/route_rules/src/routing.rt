//! The route rule.
ghost use Rattle.std.specs.Prelude.{◌≡◌, ℕ, nat_eq, OnOk, Some, None, false};
ghost use Rattle.pico_base.specs.declared.script.Script.{Script as Scripted};
ghost use Rattle.kernel_model.specs.Script.{IsSoundScript};
ghost use Rattle.node_model.specs.Directory.{route};
ghost use Rattle.node_model.specs.declared.route.Route.TheVariants as routes;
ghost use Rattle.world_model.specs.Serving.{serve_asked};
ghost use Rattle.world_model.specs.Routes.{cancel, cancel_by, forward, recall_and_hold, remove_by, remove_here, route_by, route_call, route_cancel, route_held, route_home, unbind_name};
ghost use Rattle.node_state.specs.State.{node_of, step_of};
ghost use Rattle.route_rules.specs.Asking.{asked_by, may_route_by};

use crate::keys::{get_by_key, may_get_by_key};
use crate::moving::{hold_item, recall_from};
use node_model::{Held, Route};
use node_state::forms::withdrawn_from;
use node_state::{Growing, State, unreached};
use pico_base::{Call, Home, Memory, Name, Node, Pid, Script, home};
use rpc_frame::{Asked, Frame};
use serve_rules::{serve_asked, serve_nobody, withdraw_here};

/// A call on a name goes to the node where the name is, or the node that was given its number.
#[inline(always)]
fn forward(step: &mut Growing, to: Node, asked: Asked) -> Result<(), Memory>
    ensures { OnOk result (step_of step.new ≡ forward (step_of step.old) to asked) }
{
    step.send(to, Frame::Forward { asked })
}

/// A removal at another node waits until the name's deed has come.
fn recall_and_hold(step: &mut Growing, name: &Name, item: Held, owner: Node) -> Result<(), Memory>
    ensures { OnOk result (step_of step.new ≡ recall_and_hold (step_of step.old) name.now item owner) }
{
    recall_from(step, *name, None, owner)?;
    hold_item(step, *name, item)
}

/// Whether it is this node.
fn is_here(node: &State, number: Node) -> bool
    ensures { result ≡ nat_eq number (node_of node.now).number }
{
    number == node.number()
}

/// Where a call on the name goes.
fn route_of(node: &State, name: &Name) -> Route
    ensures { result ≡ route (node_of node.now).leader.directory name.now }
{
    node.leader.directory.route(*name)
}

/// A call on a name that is at this node is carried out here, and on one at another node goes there.
fn route_at(
    step: &mut Growing,
    script: &Script,
    name: Name,
    asked: Asked,
    node: Node,
) -> Result<(), Memory>
    requires sound { IsSoundScript script.now }
    ensures { OnOk result
        (route_by script.now (step_of step.old) name asked (routes.At node) ≡ Some (step_of step.new)) }
{
    if is_here(&step.node, node) {
        serve_asked(step, script, name, asked)
    } else {
        forward(step, node, asked)
    }
}

/// A call on a name, by where it goes.
#[inline(always)]
fn route_by(
    step: &mut Growing,
    script: &Script,
    name: Name,
    asked: Asked,
    route: Route,
) -> Result<(), Memory>
    requires sound { IsSoundScript script.now }
    ensures { OnOk result (route_by script.now (step_of step.old) name asked route ≡ Some (step_of step.new)) }
{
    match route {
        Route::At(node) => route_at(step, script, name, asked, node),
        Route::Coming => hold_item(step, name, Held::Request(asked)),
        Route::Range(node) => forward(step, node, asked),
        Route::Nobody => serve_nobody(step, script, name, asked),
    }
}

/// No key leads to a name once it is removed. A removal of what was removed already is refused, and the keys stay.
fn unbind_name(step: &mut Growing, name: &Name, refused: bool)
    ensures { step_of step.new ≡ unbind_name refused name.now (step_of step.old) }
{
    if !refused {
        step.node.leader.unbind(*name);
    }
}

/// A removal of a name that is at this node is carried out here.
fn remove_here(step: &mut Growing, script: &Script, name: &Name, asked: Asked) -> Result<(), Memory>
    requires sound { IsSoundScript script.now }
    ensures { OnOk result (remove_here script.now (step_of step.old) name.now asked ≡ Some (step_of step.new)) }
{
    let refused = step.node.was_removed(*name);
    serve_asked(step, script, *name, asked)?;
    unbind_name(step, name, refused);
    Ok(())
}

/// A removal of a name that is at a node.
fn remove_at(
    step: &mut Growing,
    script: &Script,
    name: &Name,
    asked: Asked,
    node: Node,
) -> Result<(), Memory>
    requires sound { IsSoundScript script.now }
    ensures { OnOk result
        (remove_by script.now (step_of step.old) name.now asked (routes.At node) ≡ Some (step_of step.new)) }
{
    if is_here(&step.node, node) {
        remove_here(step, script, name, asked)
    } else {
        recall_and_hold(step, name, Held::Request(asked), node)
    }
}

/// A removal, by where the name is. It is carried out by the leader alone.
fn remove_by(
    step: &mut Growing,
    script: &Script,
    name: Name,
    asked: Asked,
    route: Route,
) -> Result<(), Memory>
    requires sound { IsSoundScript script.now }
    ensures { OnOk result (remove_by script.now (step_of step.old) name asked route ≡ Some (step_of step.new)) }
{
    match route {
        Route::At(node) => remove_at(step, script, &name, asked, node),
        route => route_by(step, script, name, asked, route),
    }
}

/// Whether a call on a name can be routed: where the name is at this node, it is held here.
fn may_route_by(node: &State, name: &Name) -> bool
    ensures { result ≡ may_route_by (node_of node.now) name.now (route node.now.leader.directory name.now) }
{
    // Where the call can be carried out here, the directory isn't asked.
    if node.holds(*name) {
        return true;
    }
    match route_of(node, name) {
        Route::At(owner) => !is_here(node, owner),
        _ => true,
    }
}

/// Whether the leader can route a call of this process, whoever asks for it.
#[inline(always)]
pub fn may_route(step: &Growing, pid: Pid, call: &Call) -> bool
    ensures { (script : Scripted) (caller ticket : ℕ) → result ≡ false
        → route_call script (step_of step.now) (asked_by caller ticket pid call.now) ≡ None }
{
    match home(pid, call) {
        Home::Own | Home::Parent => false,
        Home::Keys => may_get_by_key(step, call),
        Home::At(name) | Home::Removal(name) => may_route_by(&step.node, &name),
    }
}

/// A call is carried out here, sent on, or held, by its home.
fn route_home(step: &mut Growing, script: &Script, asked: Asked, home: Home) -> Result<(), Memory>
    requires sound { IsSoundScript script.now }
    ensures { OnOk result (route_home script.now (step_of step.old) asked home ≡ Some (step_of step.new)) }
{
    match home {
        Home::Own | Home::Parent => Err(unreached()),
        Home::Keys => get_by_key(step, script, asked),
        Home::At(name) => {
            let route = route_of(&step.node, &name);
            route_by(step, script, name, asked, route)
        }
        Home::Removal(name) => {
            let route = route_of(&step.node, &name);
            remove_by(step, script, name, asked, route)
        }
    }
}

/// The route rule: the call is carried out here, sent on, or held. Memory, too, where the leader can't route it.
pub fn route_call(step: &mut Growing, script: &Script, asked: Asked) -> Result<(), Memory>
    requires sound { IsSoundScript script.now }
    ensures { OnOk result (route_call script.now (step_of step.old) asked ≡ Some (step_of step.new)) }
{
    let home = home(asked.pid, &asked.call);
    route_home(step, script, asked, home)
}

/// A withdrawal goes to this node.
pub(crate) fn cancel(step: &mut Growing, to: Node, asked: Asked) -> Result<(), Memory>
    ensures { OnOk result (step_of step.new ≡ cancel (step_of step.old) to asked) }
{
    step.send(to, Frame::Cancel { asked })
}

/// A withdrawal at a name that is at this node, or at another one.
fn cancel_at(
    step: &mut Growing,
    script: &Script,
    name: &Name,
    asked: Asked,
    node: Node,
) -> Result<(), Memory>
    requires sound { IsSoundScript script.now }
    ensures { OnOk result
        (step_of step.new ≡ cancel_by script.now (step_of step.old) name.now asked (routes.At node)) }
{
    if is_here(&step.node, node) {
        withdraw_here(step, script, name, asked)
    } else {
        cancel(step, node, asked)
    }
}

/// A withdrawal, by where its name is. Where that is nobody's nothing is done.
fn cancel_by(
    step: &mut Growing,
    script: &Script,
    name: &Name,
    asked: Asked,
    route: Route,
) -> Result<(), Memory>
    requires sound { IsSoundScript script.now }
    ensures { OnOk result (step_of step.new ≡ cancel_by script.now (step_of step.old) name.now asked route) }
{
    match route {
        Route::At(node) => cancel_at(step, script, name, asked, node),
        Route::Coming => hold_item(step, *name, Held::Request(asked)),
        Route::Range(node) => cancel(step, node, asked),
        Route::Nobody => Ok(()),
    }
}

/// A withdrawal goes the way of its call, which is in front of it.
pub fn route_cancel(
    step: &mut Growing,
    script: &Script,
    name: &Name,
    asked: Asked,
) -> Result<(), Memory>
    requires sound { IsSoundScript script.now }
    ensures { OnOk result (step_of step.new ≡ route_cancel script.now (step_of step.old) name.now asked) }
{
    let route = route_of(&step.node, name);
    cancel_by(step, script, name, asked, route)
}

/// What the leader held is routed: a call, or the end of a wait. Memory, too, where the leader can't route it.
pub fn route_held(step: &mut Growing, script: &Script, asked: Asked) -> Result<(), Memory>
    requires sound { IsSoundScript script.now }
    ensures { OnOk result (route_held script.now (step_of step.old) asked ≡ Some (step_of step.new)) }
{
    match withdrawn_from(&asked.call) {
        Some(name) => route_cancel(step, script, &name, asked),
        None => route_call(step, script, asked),
    }
}
