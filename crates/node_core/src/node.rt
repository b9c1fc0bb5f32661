//! A picoprocess as callers see it: its turns, and what it may do next.
ghost use Rattle.std.specs.Prelude.{◌≡◌, ◌≤◌, length, Some, None, Err, IfOk, IfSome, IsErr, IsSome};
ghost use Rattle.kernel_model.specs.Script.{IsSoundScript};
ghost use Rattle.world_model.specs.Node.{opening_node, can_run, is_born};
ghost use Rattle.world_model.specs.Run.{has_call_under_way};
ghost use Rattle.node_state.specs.declared.fault.TurnFault.TheVariants.{Memory as OutOfMemory, NotAllowed};
ghost use Rattle.node_core.specs.Lives.{has_left};
ghost use Rattle.node_core.specs.Step.{step_of};
ghost use Rattle.node_core.specs.Turns.{IsTurn, IsRefusal, Turned};
ghost use Rattle.node_core.specs.declared.turn.Input.TheVariants as inputs;

use crate::turn::{Input, Turn};
use crate::unspent::Unspent;
use node_state::TurnFault;
use pico_base::{Memory, Node, Script};
use rpc_frame::Frame;
use std::alloc::Global;
use std::marker::Model;

/// The node of a picoprocess, which contracts see as a node of the machine, or none once it is spent: an allocation was
/// refused in a turn. Node k runs block k of the script. Its process has a number, a parent and a place in the block;
/// it holds the deeds of what it owns, and numbers to give; and node 1 is the leader.
#[derive(Drop)]
pub struct PicoNode {
    alloc: Global,
    // none once the node is spent
    state: Option<Unspent>,
}

impl Model for PicoNode {
    ghost use Rattle.std.specs.Prelude.{Option};
    ghost use Rattle.world_model.specs.Node.{Node as NodeValue};

    ghost Value = { Option NodeValue };

    ghost view = { λ n. n.state };
}

impl PicoNode {
    /// The node at its opening: node 1 is born, with process 1, and the others aren't. It keeps the allocator for its
    /// turns.
    pub fn new(alloc: Global, script: &Script, node: Node) -> Result<PicoNode, Memory>
        requires block { node ≤ length script.now.blocks }
        ensures { IfOk result (λ n. n ≡ Some (opening_node node)) }
    {
        let _blocks = &script.blocks;
        Ok(PicoNode {
            alloc,
            state: Some(Unspent::new(alloc, node)?),
        })
    }

    /// Whether its process can start a call: it makes calls, and none is under way. It takes no memory.
    pub fn can_run(&self) -> bool
        requires whole { IsSome self.now }
        ensures { IfSome self.now (λ n. result ≡ can_run n) }
    {
        match &self.state {
            Some(node) => node.can_run(),
            None => false,
        }
    }

    /// Whether its Checkpoint has come, or it is node 1. It takes no memory.
    pub fn born(&self) -> bool
        requires whole { IsSome self.now }
        ensures { IfSome self.now (λ n. result ≡ is_born n) }
    {
        match &self.state {
            Some(node) => node.is_born(),
            None => false,
        }
    }

    /// Whether its process lives, with a call under way: one that was started, and has no reply yet. It takes no
    /// memory.
    pub fn has_call_under_way(&self) -> bool
        requires whole { IsSome self.now }
        ensures { IfSome self.now (λ n. result ≡ has_call_under_way n) }
    {
        match &self.state {
            Some(node) => node.has_call_under_way(),
            None => false,
        }
    }

    /// Whether its process has ended and it has handed over all that it held, so that it starts no call any more. Node
    /// 1 never has: it stays as the leader. It takes no memory.
    pub fn has_left(&self) -> bool
        requires whole { IsSome self.now }
        ensures { IfSome self.now (λ n. result ≡ has_left n) }
    {
        match &self.state {
            Some(node) => node.has_left(),
            None => false,
        }
    }

    /// Makes the turn of an input: its process's next call is started, or a frame is taken.
    ///
    /// NotAllowed comes only where the machine has no step for the input, as for a frame outside the limits of frames,
    /// and the node is unchanged. Memory: an allocation was refused, in this turn or in an earlier one, or the turn met
    /// a state that no run of a script leads to; the node is spent, and answers Memory from now on.
    pub fn turn(&mut self, script: &Script, input: Input) -> Result<Turn, TurnFault>
        requires sound { IsSoundScript script.now }
        // A turn is the machine's step, and the node is left as the step leaves it.
        ensures ok { IfOk result (λ turn. IsTurn script.now self.old input self.new turn) }
        // A refusal: there is no step, and the node is unchanged.
        ensures not_allowed { result ≡ Err NotAllowed → IsRefusal script.now self.old input self.new }
        // Without memory the node is spent, and a spent node has no memory.
        ensures memory { result ≡ Err OutOfMemory → self.new ≡ None }
        ensures spent { self.old ≡ None → result ≡ Err OutOfMemory }
        // Where memory doesn't run out, there is a turn exactly where there is a step.
        ensures step { IfSome self.old (λ n. IsSome (step_of script.now n input) → (result ≡ Err NotAllowed) → ⊥) }
        ensures no_step { IfSome self.old (λ n. step_of script.now n input ≡ None → IsErr result) }
    {
        let mut made = Turn::empty(self.alloc);
        match input {
            Input::Run => self.run_onto(script, &mut made)?,
            Input::Take { from, frame } => self.take_onto(script, from, frame, &mut made)?,
        }
        Ok(made)
    }

    /// Starts the process's next call, as `turn` does, for one who has many turns made: what the turn makes follows
    /// behind what was made before. Its faults are those of `turn`. After NotAllowed nothing is changed, and after
    /// Memory nothing is said of what was made.
    pub fn run_onto(&mut self, script: &Script, made: &mut Turn) -> Result<(), TurnFault>
        requires sound { IsSoundScript script.now }
        ensures { Turned script.now self.old inputs.Run self.new made.old made.new result }
    {
        let Some(node) = &mut self.state else {
            return Err(TurnFault::Memory);
        };
        let turned = node.run_behind(self.alloc, script, made);
        self.settle(turned)
    }

    /// Takes a frame, as `turn` does, for one who has many turns made: as above.
    pub fn take_onto(
        &mut self,
        script: &Script,
        from: Node,
        frame: Frame,
        made: &mut Turn,
    ) -> Result<(), TurnFault>
        requires sound { IsSoundScript script.now }
        ensures { Turned script.now self.old (inputs.Take from frame) self.new made.old made.new result }
    {
        let Some(node) = &mut self.state else {
            return Err(TurnFault::Memory);
        };
        let turned = node.take_behind(self.alloc, script, from, frame, made);
        self.settle(turned)
    }

    /// The turn is over. After a refusal for want of memory the node is spent.
    fn settle(&mut self, turned: Result<(), TurnFault>) -> Result<(), TurnFault>
        ensures same { result ≡ turned }
        ensures memory { turned ≡ Err OutOfMemory → self.new ≡ None }
        ensures left { (turned ≡ Err OutOfMemory → ⊥) → self.new ≡ self.old }
    {
        if turned.is_ok() {
            return turned;
        }
        if let Err(TurnFault::Memory) = turned {
            self.spend();
        }
        turned
    }

    /// The node is spent. This stands apart because a function clears the room of all its locals as it begins, and the
    /// state that is put here has a node's size.
    #[cold]
    #[inline(never)]
    fn spend(&mut self)
        ensures { self.new ≡ None }
    {
        self.state = None;
    }
}
