//! A node hands over all that it holds.
ghost use Rattle.std.specs.Prelude.{◌≡◌, IfOk, IsTrue, OnOk, Some, fold};
ghost use Rattle.std.specs.Option.{option_copied};
ghost use Rattle.node_model.specs.Kinds.{name_of, none_named};
ghost use Rattle.node_model.specs.Parcels.{give_all};
ghost use Rattle.world_model.specs.Lives.{hand_over, is_end, send_to_leader, take_recall_all};
ghost use Rattle.node_state.specs.State.{node_of, step_of};
ghost use Rattle.node_state.specs.Turning.{IsFresh, Turns};
ghost use Rattle.move_rules.specs.Handing.{all_kinds_suit, all_suit, asked_end, end_in, without_all};

use deed_box::{Deeds, Shared};
use exit_handover::give_all;
use node_serve::Body;
use node_state::forms::{is_end, name_of};
use node_state::{Growing, LEADER, Stage, State, TurnFault, Watches, unreached};
use pico_base::{Call, Kind, Memory, Node};
use rpc_frame::Frames;

/// Whether all bodies of a kind go with their names.
fn suits_kind(kind: Kind, entries: &[(u32, Body)]) -> bool
    ensures { result ≡ all_suit (name_of kind) entries.now }
{
    entries
        .iter()
        .all(|entry| entry.1.fits(name_of(kind, entry.0)))
}

/// Whether all bodies go with their names.
fn suits_all(deeds: &Deeds<Body>) -> bool
    ensures { result ≡ all_kinds_suit deeds.now.bodies }
{
    suits_kind(Kind::Msg, deeds.queues())
        && suits_kind(Kind::Sem, deeds.sets())
        && suits_kind(Kind::Proc, deeds.processes())
}

/// All deeds, as frames that hand them over with the call that ends the process. None is held here from now on. Memory,
/// too, where a body doesn't go with its name.
fn pack_all(node: &mut State, call: Call) -> Result<Frames, Memory>
    ensures frames { IfOk result (λ frames.
        frames ≡ give_all (node_of node.old).deeds node.old.pid node.old.parent call) }
    ensures none { OnOk result (node_of node.new ≡ record (node_of node.old) { deeds = none_named }) }
{
    if !suits_all(&node.deeds) {
        return Err(unreached());
    }
    give_all(node.alloc, &mut node.deeds, node.pid, node.parent, call)
}

/// All deeds are given away as these frames, and the node has left.
fn leave(node: &mut State, call: Call) -> Result<Frames, Memory>
    ensures frames { IfOk result (λ frames.
        frames ≡ give_all (node_of node.old).deeds node.old.pid node.old.parent call) }
    ensures left { OnOk result (node_of node.new ≡ without_all (node_of node.old)) }
{
    let frames = pack_all(node, call)?;
    node.stage = Stage::Left;
    node.watches = Watches::new(node.alloc);
    Ok(frames)
}

/// Sends these frames to the leader, in order.
fn send_all(step: &mut Growing, frames: Frames) -> Result<(), Memory>
    ensures { OnOk result (step_of step.new ≡ fold send_to_leader (step_of step.old) frames) }
{
    for frame in frames.into_vec() {
        step.send(LEADER, frame)?;
    }
    Ok(())
}

/// All deeds are handed over, with the call that ends the process. Memory, too, where a body doesn't go with its name.
fn hand_over(step: &mut Growing, call: Call) -> Result<(), Memory>
    requires fresh { IsFresh step.old }
    requires end { IsTrue (is_end call) }
    ensures { OnOk result (hand_over (node_of step.old.node) call ≡ Some (step_of step.new)) }
{
    let frames = leave(&mut step.node, call)?;
    send_all(step, frames)
}

/// The call under way, where that ends the process.
fn end_under_way(node: &State) -> Option<&Call>
    ensures { option_copied result ≡ end_in (node_of node.now).caller.under_way }
{
    let call = node.caller.under_way()?;
    if is_end(call) { Some(call) } else { None }
}

/// A copy of the call that ends the process, where that is under way and the leader asks for all that is held here.
fn asked_end(node: &State, from: Node) -> Result<Option<Call>, Memory>
    ensures { IfOk result (λ call. call ≡ asked_end (node_of node.now) from) }
{
    if from != LEADER || node.stage != Stage::Leaving {
        return Ok(None);
    }
    match end_under_way(node) {
        Some(call) => Ok(Some(call.try_copy(node.alloc)?)),
        None => Ok(None),
    }
}

/// The RecallAll rule: all deeds are handed over, with the call that ends the process. Memory, too, where a body
/// doesn't go with its name.
pub fn take_recall_all(step: &mut Growing, from: Node) -> Result<(), TurnFault>
    requires fresh { IsFresh step.old }
    ensures { Turns (take_recall_all (node_of step.old.node) from) step.old step.new result }
{
    match asked_end(&step.node, from)? {
        Some(call) => Ok(hand_over(step, call)?),
        None => Err(TurnFault::NotAllowed),
    }
}
