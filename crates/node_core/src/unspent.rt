//! A node that isn't spent, between turns.
ghost use Rattle.std.specs.Prelude.{◌≡◌, ◌++◌, [], Err, IfOk, OnOk};
ghost use Rattle.kernel_model.specs.Script.{IsSoundScript};
ghost use Rattle.world_model.specs.Node.{opening_node, can_run, is_born};
ghost use Rattle.world_model.specs.Run.{has_call_under_way};
ghost use Rattle.node_state.specs.State.{node_of, step_of as steps_of};
ghost use Rattle.node_state.specs.Turning.{IsFresh};
ghost use Rattle.node_state.specs.declared.fault.TurnFault.TheVariants.{Memory as OutOfMemory};
ghost use Rattle.world_model.specs.Starting.{run};
ghost use Rattle.world_model.specs.Turn.{take_frame};
ghost use Rattle.node_core.specs.Lives.{has_left};
ghost use Rattle.node_core.specs.Step.{IsOnto, Follows};

use crate::rules::take_frame;
use crate::turn::Turn;
use node_state::{Growing, Sends, Stage, State, TurnFault};
use pico_base::{Entries, Memory, Node, Script};
use rpc_frame::Frame;
use start_rules::run;
use std::alloc::Global;
use std::marker::Model;
use std::mem;

/// A node between turns, when it has made no entries and sent no frames. Contracts see a node of the machine.
#[derive(Drop)]
pub(crate) struct Unspent {
    step: Growing,
}

impl Model for Unspent {
    ghost use Rattle.world_model.specs.Node.{Node as NodeValue};

    ghost Value = { NodeValue };

    ghost use Rattle.node_state.specs.State.{node_of};
    ghost use Rattle.node_state.specs.Turning.{IsFresh};

    ghost view = { λ u. node_of u.step.node };

    ghost invariant = { λ u. IsFresh u.step };
}

/// What was made follows behind what is there, and its list is left empty. One item alone, as most turns make, goes by
/// itself.
#[inline(always)]
fn move_behind<T: Drop>(made: &mut Vec<T>, there: &mut Vec<T>) -> Result<(), Memory>
    ensures moved { OnOk result (there.new.items ≡ there.old.items ++ made.old.items) }
    ensures emptied { OnOk result (made.new.items ≡ []) }
{
    if made.is_empty() {
        return Ok(());
    }
    if there.is_empty() {
        mem::swap(made, there);
        return Ok(());
    }
    if made.len() > 1 {
        there.append(made)?;
        return Ok(());
    }
    if let Some(last) = made.pop() {
        there.push(last)?;
    }
    Ok(())
}

/// What was done in the turn follows behind what was made before, after which the next turn may begin.
#[inline(always)]
fn hand_over(step: &mut Growing, made: &mut Turn) -> Result<(), Memory>
    ensures fresh { OnOk result (IsFresh step.new) }
    ensures handed { OnOk result (IsOnto (steps_of step.old) (node_of step.new.node) made.old made.new) }
{
    move_behind(step.entries.as_mut_vec(), made.entries.as_mut_vec())?;
    step.strikes = false;
    move_behind(step.sends.as_mut_vec(), made.sends.as_mut_vec())
}

/// The run rule, and what is done is handed over.
fn run_growing(step: &mut Growing, script: &Script, made: &mut Turn) -> Result<(), TurnFault>
    requires fresh { IsFresh step.old }
    requires sound { IsSoundScript script.now }
    ensures fresh { (result ≡ Err OutOfMemory → ⊥) → IsFresh step.new }
    ensures turned { Follows (run script.now (node_of step.old.node)) (node_of step.old.node) (node_of step.new.node)
        made.old made.new result }
{
    run(step, script)?;
    hand_over(step, made)?;
    Ok(())
}

/// The rule of a frame, and what is done is handed over.
fn take_growing(
    step: &mut Growing,
    script: &Script,
    from: Node,
    frame: Frame,
    made: &mut Turn,
) -> Result<(), TurnFault>
    requires fresh { IsFresh step.old }
    requires sound { IsSoundScript script.now }
    ensures fresh { (result ≡ Err OutOfMemory → ⊥) → IsFresh step.new }
    ensures turned { Follows (take_frame script.now (node_of step.old.node) from frame) (node_of step.old.node)
        (node_of step.new.node) made.old made.new result }
{
    take_frame(step, script, from, frame)?;
    hand_over(step, made)?;
    Ok(())
}

/// After a refusal for want of memory, what was done in the turn is dropped.
#[cold]
#[inline(never)]
fn drop_done(step: &mut Growing, alloc: Global)
    ensures { IsFresh step.new }
{
    step.entries = Entries::new(alloc);
    step.sends = Sends::new(alloc);
    step.strikes = false;
}

/// The turn is over, and the next one may begin: after a refusal for want of memory, what was done is dropped.
fn finish(step: &mut Growing, alloc: Global, turned: Result<(), TurnFault>) -> Result<(), TurnFault>
    requires fresh { (turned ≡ Err OutOfMemory → ⊥) → IsFresh step.old }
    ensures fresh { IsFresh step.new }
    ensures same { result ≡ turned }
    ensures left { (turned ≡ Err OutOfMemory → ⊥) → step.new ≡ step.old }
{
    if turned.is_ok() {
        return turned;
    }
    if let Err(TurnFault::Memory) = turned {
        drop_done(step, alloc);
    }
    turned
}

impl Unspent {
    /// The node at its opening.
    pub(crate) fn new(alloc: Global, number: Node) -> Result<Unspent, Memory>
        ensures { IfOk result (λ node. node ≡ opening_node number) }
    {
        Ok(Unspent {
            step: Growing {
                node: State::new(alloc, number)?,
                entries: Entries::new(alloc),
                sends: Sends::new(alloc),
                strikes: false,
            },
        })
    }

    /// Whether its process can start a call.
    pub(crate) fn can_run(&self) -> bool
        ensures { result ≡ can_run self.now }
    {
        self.step.node.can_run()
    }

    /// Whether its Checkpoint has come, or it is node 1.
    pub(crate) fn is_born(&self) -> bool
        ensures { result ≡ is_born self.now }
    {
        self.step.node.is_born()
    }

    /// Whether its process lives, with a call under way.
    pub(crate) fn has_call_under_way(&self) -> bool
        ensures { result ≡ has_call_under_way self.now }
    {
        matches!(self.step.node.stage, Stage::Living) && self.step.node.caller.under_way().is_some()
    }

    /// Whether its process has ended and it has handed over what it held.
    pub(crate) fn has_left(&self) -> bool
        ensures { result ≡ has_left self.now }
    {
        matches!(self.step.node.stage, Stage::Left)
    }

    /// The process starts its next call, and what that makes follows behind what was made before. After a refusal for
    /// want of memory nothing is said of the node or of what was made.
    pub(crate) fn run_behind(
        &mut self,
        alloc: Global,
        script: &Script,
        made: &mut Turn,
    ) -> Result<(), TurnFault>
        requires sound { IsSoundScript script.now }
        ensures { Follows (run script.now self.old) self.old self.new made.old made.new result }
    {
        let turned = run_growing(&mut self.step, script, made);
        finish(&mut self.step, alloc, turned)
    }

    /// A frame is taken, and what that makes follows as above.
    pub(crate) fn take_behind(
        &mut self,
        alloc: Global,
        script: &Script,
        from: Node,
        frame: Frame,
        made: &mut Turn,
    ) -> Result<(), TurnFault>
        requires sound { IsSoundScript script.now }
        ensures { Follows (take_frame script.now self.old from frame) self.old self.new made.old made.new result }
    {
        let turned = take_growing(&mut self.step, script, from, frame, made);
        finish(&mut self.step, alloc, turned)
    }
}
