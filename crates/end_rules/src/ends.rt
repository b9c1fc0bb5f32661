//! A process ends where its parent's deed is.
ghost use Rattle.std.specs.Prelude.{◌≡◌, ◌+◌, ◌≤◌, ◌∷◌, [], IfOk, IsTrue, OnOk, Some, map};
ghost use Rattle.pico_base.specs.declared.numbers.Name.TheVariants.{Proc};
ghost use Rattle.kernel_model.specs.Script.{IsSoundScript};
ghost use Rattle.node_model.specs.declared.held.Held.TheVariants.{Ending};
ghost use Rattle.node_model.specs.Kinds.{get_named};
ghost use Rattle.node_model.specs.Parcels.{lets_end};
ghost use Rattle.node_serve.specs.Bodies.{bodies_of, body_of};
ghost use Rattle.node_serve.specs.Ending.{lets};
ghost use Rattle.world_model.specs.Routes.{hold_item};
ghost use Rattle.world_model.specs.Step.{enter_with};
ghost use Rattle.world_model.specs.Ends.{answer_own, exit_here};
ghost use Rattle.node_model.specs.Entries.{outcome_with};
ghost use Rattle.node_state.specs.State.{step_of};
ghost use Rattle.end_rules.specs.Ending.{AllArrived, Arrived, Ends, EndsAt, exit_at, parcels_in};
ghost use Rattle.end_rules.specs.Fitting.{fits_deeds};

use crate::fitting::fits;
use crate::parents::{is_struck_by_end, parked_parent};
use deed_box::Deeds;
use lease_leader::HeldList;
use node_model::{Held, Route};
use node_serve::{Body, commit_exit};
use node_state::forms::is_object;
use node_state::{Growing, unreached};
use pico_base::{Call, Memory, Name, Node, Pid, Reply, Script};
use route_rules::hold_item;
use rpc_frame::{Frame, PackedDeed, Parcel};
use std::alloc::Global;
use waiting_model::{Wake, Wakes};

/// Whether a process with this parent may end: a parent that lives lists it.
fn lets(parent: &Body, pid: Pid) -> bool
    ensures { result ≡ lets_end pid (body_of parent.now) }
{
    match parent {
        Body::Living(row) => row.family.lists(pid),
        _ => true,
    }
}

/// Whether the parent's deed is held, and the process may end there: a parent that lives lists it.
pub(crate) fn lets_end(deeds: &Deeds<Body>, parcel: &Parcel) -> bool
    ensures { result ≡ lets parcel.now.pid (get_named deeds.now.bodies (Proc parcel.now.parent)) }
{
    match deeds.get(Name::Proc(parcel.parent)) {
        Some(parent) => lets(parent, parcel.pid),
        None => false,
    }
}

/// The exit of this process is entered, by which the parent is woken: the call under way ends, in which it waits.
/// Memory, too, where that call's line isn't there.
fn enter_waking(
    step: &mut Growing,
    script: &Script,
    pid: Pid,
    call: Call,
    parent: Wake,
) -> Result<(), Memory>
    requires sound { IsSoundScript script.now }
    ensures { OnOk result (step_of step.new ≡ answer_own script.now
        (enter_with (step_of step.old) pid call (outcome_with (Some Reply.Ended) (parent ∷ []))) (parent ∷ [])) }
{
    let reply = parent.reply.try_copy(step.node.alloc)?;
    let mut wakes = Wakes::new(step.node.alloc);
    wakes.push(parent)?;
    step.enter_waking(pid, call, &Some(Reply::Ended), wakes.as_slice())?;
    step.answer_own(script, &reply)
}

/// Who is woken by the end of its child at this node, with this reply. An entry says neither the node nor the ticket.
fn wake_of(node: Node, parent: Pid, reply: Reply) -> Wake
    ensures { result ≡ record { caller = node; ticket = 0; pid = parent; reply = reply } }
{
    Wake {
        caller: node,
        ticket: 0,
        pid: parent,
        reply,
    }
}

/// The exit is carried out here, of a parcel that fits and whose parent is held and lets the process end. Where the
/// parent waits for it here its call ends. Memory, too, where that call's line isn't there.
pub(crate) fn exit_fitting(
    step: &mut Growing,
    script: &Script,
    parcel: Parcel,
) -> Result<(), Memory>
    requires sound { IsSoundScript script.now }
    requires parent { IsTrue (lets parcel.pid (get_named step.old.node.deeds.bodies (Proc parcel.parent))) }
    requires fits { IsTrue (fits_deeds (bodies_of step.old.node.deeds.bodies) parcel) }
    ensures { OnOk result (exit_here script.now (step_of step.old) parcel ≡ Some (step_of step.new)) }
{
    let alloc = step.node.alloc;
    let pid = parcel.pid;
    let parent = parcel.parent;
    let call = parcel.call.try_copy(alloc)?;
    let awaits = parked_parent(&step.node, parent);
    let struck = is_struck_by_end(&step.node, parent);
    let Ok(own) = commit_exit(alloc, &mut step.node.deeds, parcel, awaits) else {
        return Err(Memory);
    };
    step.strike_if(struck);
    match own {
        Some(reply) => {
            let woken = wake_of(step.node.number(), parent, reply);
            enter_waking(step, script, pid, call, woken)
        }
        None => step.enter(pid, call, Reply::Ended),
    }
}

/// The exit is carried out here. Memory, too, where it can't be.
fn exit_here(step: &mut Growing, script: &Script, parcel: Parcel) -> Result<(), Memory>
    requires sound { IsSoundScript script.now }
    ensures { OnOk result (exit_here script.now (step_of step.old) parcel ≡ Some (step_of step.new)) }
{
    if !lets_end(&step.node.deeds, &parcel) {
        return Err(unreached());
    }
    if !fits(step.node.alloc, &step.node.deeds, &parcel)? {
        return Err(unreached());
    }
    exit_fitting(step, script, parcel)
}

/// The names of the deeds, in order.
fn names_in(alloc: Global, deeds: &[PackedDeed]) -> Result<Vec<Name>, Memory>
    ensures { IfOk result (λ names. names.items ≡ map (λ deed. deed.name) deeds.now) }
{
    let mut names = Vec::with_capacity(alloc, deeds.len())?;
    for deed in deeds {
        names.push(deed.name)?;
    }
    Ok(names)
}

/// A process that was on its way is at this node now: what was held for it, in order. Memory where it isn't a process
/// or wasn't on its way.
fn arrive(step: &mut Growing, name: &Name, node: Node) -> Result<HeldList, Memory>
    ensures { IfOk result (Arrived (step_of step.old) name.now node (step_of step.new)) }
{
    if is_object(name) || !step.node.leader.is_coming(*name) {
        return Err(unreached());
    }
    step.node.leader.directory.places_rise();
    Ok(step.node.leader.directory.arrive(*name, node))
}

/// The names are at this node now. What was held for them, in order.
fn arrive_all(step: &mut Growing, names: &[Name], node: Node) -> Result<HeldList, Memory>
    ensures { IfOk result (AllArrived (step_of step.old) names.now node (step_of step.new)) }
{
    let mut items = Vec::new(step.node.alloc);
    for name in names {
        let mut held = arrive(step, name, node)?.into_vec();
        items.append(&mut held)?;
    }
    Ok(HeldList::from_vec(items))
}

/// The exit is carried out here, or sent to the parent's node.
fn exit_at(step: &mut Growing, script: &Script, parcel: Parcel, node: Node) -> Result<(), Memory>
    requires sound { IsSoundScript script.now }
    ensures { OnOk result (exit_at script.now (step_of step.old) parcel node ≡ Some (step_of step.new)) }
{
    if node == step.node.number() {
        exit_here(step, script, parcel)
    } else {
        step.send(node, Frame::ExitTo { parcel })
    }
}

/// The end of a process whose parent is at this node: it is carried out or sent on. What is to be released then, in
/// order.
fn end_at(
    step: &mut Growing,
    script: &Script,
    parcel: Parcel,
    node: Node,
) -> Result<HeldList, Memory>
    requires sound { IsSoundScript script.now }
    ensures { IfOk result (EndsAt script.now (step_of step.old) parcel node (step_of step.new)) }
{
    let names = names_in(step.node.alloc, parcel.deeds.as_slice())?;
    exit_at(step, script, parcel, node)?;
    arrive_all(step, names.as_slice(), node)
}

/// The end is held for the parent, which is on its way.
fn hold_end(step: &mut Growing, parcel: Parcel) -> Result<(), Memory>
    ensures held { OnOk result (step_of step.new
        ≡ hold_item (step_of step.old) (Proc parcel.parent) (Ending parcel)) }
    ensures counts { OnOk result (parcels_in (step_of step.new) ≤ parcels_in (step_of step.old) + 1) }
{
    step.node.leader.directory.places_rise();
    hold_item(step, Name::Proc(parcel.parent), Held::Ending(parcel))
}

/// The end rule: the end is held for the parent, or it is carried out or sent on, and then these items are to be
/// released, in order. Memory, too, where it can't be.
pub(crate) fn end_process(
    step: &mut Growing,
    script: &Script,
    parcel: Parcel,
) -> Result<Option<HeldList>, Memory>
    requires sound { IsSoundScript script.now }
    ensures { IfOk result (Ends script.now (step_of step.old) parcel (step_of step.new)) }
{
    match step.node.leader.directory.route(Name::Proc(parcel.parent)) {
        Route::At(node) => Ok(Some(end_at(step, script, parcel, node)?)),
        Route::Coming => {
            hold_end(step, parcel)?;
            Ok(None)
        }
        Route::Range(_) | Route::Nobody => Err(unreached()),
    }
}
