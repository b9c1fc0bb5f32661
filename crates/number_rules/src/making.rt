//! What a new number is given to: a process, a queue or a set.
ghost use Rattle.std.specs.Prelude.{◌≡◌, IfOk, OnOk, Some};
ghost use Rattle.kernel_model.specs.Script.{IsSoundScript};
ghost use Rattle.world_model.specs.Numbers.{make, make_with, tell_place};
ghost use Rattle.node_state.specs.State.{node_of, step_of};
ghost use Rattle.number_rules.specs.Taking.{IsNewQueue, IsNewSet, can_make, with_made};

use crate::forking::fork_with;
use crate::numbers::take_number;
use node_serve::Body;
use node_state::{Growing, LEADER, State, unreached};
use pico_base::{Call, Id, Kind, Memory, Name, Node, Reply, Script};
use rpc_frame::Frame;
use sysv_msg::HeldQueue;
use sysv_sem::{NewFault, SemSet};

/// How many semaphores a set can have.
const MOST_SEMAPHORES: u32 = 64;

/// A new queue, held here under this number.
pub fn new_queue(node: &mut State, number: u32) -> Result<Name, Memory>
    ensures { IfOk result (IsNewQueue (node_of node.old) number (node_of node.new)) }
{
    let queue = HeldQueue::new(node.alloc)?;
    node.create(Name::Msg(Id(number)), Body::Queue(queue))?;
    Ok(Name::Msg(Id(number)))
}

/// A new set of so many semaphores, held here under this number. Memory, too, where that isn't a size of a set.
pub fn new_set(node: &mut State, number: u32, count: u32) -> Result<Name, Memory>
    ensures { IfOk result (IsNewSet (node_of node.old) number count (node_of node.new)) }
{
    match SemSet::new(node.alloc, count) {
        Ok(set) => {
            node.create(Name::Sem(Id(number)), Body::Set(set))?;
            Ok(Name::Sem(Id(number)))
        }
        Err(NewFault::Memory) => Err(Memory),
        Err(NewFault::BadCount) => Err(unreached()),
    }
}

/// The leader places a new name itself, and any other maker tells it.
pub(crate) fn tell_place(step: &mut Growing, name: Name, node: Node) -> Result<(), Memory>
    ensures { OnOk result (step_of step.new ≡ tell_place (step_of step.old) name node) }
{
    if !step.node.is_leader() {
        return step.send(LEADER, Frame::Placed { name, node });
    }
    let _ = step.node.leader.directory.place(name, node)?;
    Ok(())
}

/// A new queue or set is held here: the call that made it is carried out, and its place told.
fn make_object(
    step: &mut Growing,
    script: &Script,
    call: Call,
    name: Name,
    number: u32,
) -> Result<(), Memory>
    requires sound { IsSoundScript script.now }
    ensures { OnOk result (step_of step.new ≡ with_made script.now (step_of step.old) call name number) }
{
    let node = step.node.number();
    let asked = step.node.asked_here(call);
    step.carry_out(script, asked, Reply::Num(number))?;
    tell_place(step, name, node)
}

/// The call under way is carried out with this number. Memory, too, where it takes none, or can't be given one.
fn make_with(step: &mut Growing, script: &Script, call: Call, number: u32) -> Result<(), Memory>
    requires sound { IsSoundScript script.now }
    ensures { OnOk result
        (make_with script.now (step_of step.old) call number ≡ Some (step_of step.new)) }
{
    match &call {
        Call::Fork { block } => fork_with(step, script, *block, number),
        Call::MsgGet { .. } => {
            let name = new_queue(&mut step.node, number)?;
            make_object(step, script, call, name, number)
        }
        Call::SemGet { count, .. } => {
            let name = new_set(&mut step.node, number, *count)?;
            make_object(step, script, call, name, number)
        }
        _ => Err(unreached()),
    }
}

/// Whether a number can be given to what the call makes.
pub(crate) fn may_make(node: &State, call: &Call) -> bool
    ensures { result ≡ can_make (node_of node.now) call.now }
{
    match call {
        Call::Fork { .. } => node.own_row().is_some(),
        Call::MsgGet { .. } => true,
        Call::SemGet { count, .. } => *count >= 1 && *count <= MOST_SEMAPHORES,
        _ => false,
    }
}

/// The call under way is carried out with the next number of the kind. Memory, too, where there is none to give, or the
/// call takes none.
pub fn make(step: &mut Growing, script: &Script, call: Call, kind: Kind) -> Result<(), Memory>
    requires sound { IsSoundScript script.now }
    ensures { OnOk result (make script.now (step_of step.old) call kind ≡ Some (step_of step.new)) }
{
    let number = take_number(&mut step.node, kind)?;
    make_with(step, script, call, number)
}
