//! A frame is taken where it may come, by the rule of its kind.
ghost use Rattle.kernel_model.specs.Script.{IsSoundScript};
ghost use Rattle.world_model.specs.Turn.{take_by_kind, take_by_rules, take_frame};
ghost use Rattle.node_state.specs.State.{node_of};
ghost use Rattle.node_state.specs.Turning.{IsFresh, Turns};

use crate::coming::may_come;
use end_rules::{take_exit, take_left};
use move_rules::{
    take_checkpoint, take_give_back, take_grant, take_leaving, take_recall, take_recall_all,
    take_suggest,
};
use node_state::{Growing, TurnFault};
use number_rules::{take_lease, take_lease_ask, take_placed};
use pico_base::{Node, Script};
use route_rules::{strike, take_ask, take_bounce, take_cancel, take_forward, take_request};
use rpc_frame::Frame;
use start_rules::{take_answer, take_not_owner};

/// A frame is taken. One that may not come has no rule: it is refused before anything has changed.
pub(crate) fn take_frame(
    step: &mut Growing,
    script: &Script,
    from: Node,
    frame: Frame,
) -> Result<(), TurnFault>
    requires fresh { IsFresh step.old }
    requires sound { IsSoundScript script.now }
    ensures { Turns (take_frame script.now (node_of step.old.node) from frame) step.old step.new result }
{
    if !may_come(&step.node, from, &frame) {
        return Err(TurnFault::NotAllowed);
    }
    take_by_rules(step, script, from, frame)
}

/// The rule of a frame's kind, and last of all the strike: a signal interrupts a call that waits. What a process starts
/// itself needs none.
fn take_by_rules(
    step: &mut Growing,
    script: &Script,
    from: Node,
    frame: Frame,
) -> Result<(), TurnFault>
    requires fresh { IsFresh step.old }
    requires sound { IsSoundScript script.now }
    ensures { Turns (take_by_rules script.now (node_of step.old.node) from frame) step.old step.new result }
{
    take_by_kind(step, script, from, frame)?;
    Ok(strike(step, script)?)
}

/// The rule of a frame's kind.
fn take_by_kind(
    step: &mut Growing,
    script: &Script,
    from: Node,
    frame: Frame,
) -> Result<(), TurnFault>
    requires fresh { IsFresh step.old }
    requires sound { IsSoundScript script.now }
    ensures { Turns (take_by_kind script.now (node_of step.old.node) from frame) step.old step.new result }
{
    match frame {
        Frame::Ask { ticket, pid, call } => take_ask(step, script, from, ticket, pid, call),
        Frame::Request { ticket, pid, call } => take_request(step, script, from, ticket, pid, call),
        Frame::Forward { asked } => take_forward(step, script, from, asked),
        Frame::Bounce { asked } => take_bounce(step, script, from, asked),
        Frame::Answer { ticket, reply } => take_answer(step, script, from, ticket, reply),
        Frame::NotOwner { ticket } => take_not_owner(step, script, ticket),
        Frame::LeaseAsk { kind } => take_lease_ask(step, from, kind),
        Frame::Lease { kind, first } => take_lease(step, script, from, kind, first),
        Frame::Placed { name, node } => take_placed(step, script, from, name, node),
        Frame::Checkpoint {
            pid,
            parent,
            deed,
            vars,
        } => take_checkpoint(step, script, from, pid, parent, deed, vars),
        Frame::Suggest { name, node } => take_suggest(step, script, from, name, node),
        Frame::Recall { name } => take_recall(step, from, name),
        Frame::GiveBack { deed } => take_give_back(step, script, from, deed),
        Frame::Grant { deed } => take_grant(step, script, from, deed),
        Frame::Leaving {
            pid,
            parent,
            parent_node,
        } => take_leaving(step, script, from, pid, parent, parent_node),
        Frame::RecallAll => take_recall_all(step, from),
        Frame::Left { parcel } => take_left(step, script, from, parcel),
        Frame::ExitTo { parcel } => take_exit(step, script, from, parcel),
        Frame::Cancel { asked } => take_cancel(step, script, asked),
    }
}
