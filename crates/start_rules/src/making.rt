//! A call of a process on itself is carried out, with a new number where it takes one.
ghost use Rattle.std.specs.Prelude.{◌≡◌, IsTrue, OnOk, false};
ghost use Rattle.pico_base.specs.declared.reply.Errno.TheVariants.{Einval as Invalid};
ghost use Rattle.pico_base.specs.declared.script.Script.{Script as Scripted};
ghost use Rattle.kernel_model.specs.Script.{IsSoundScript};
ghost use Rattle.kernel_model.specs.SemaphoreSet.{new_set};
ghost use Rattle.world_model.specs.Node.{asked_here};
ghost use Rattle.world_model.specs.Starting.{start_making, start_own, start_set};
ghost use Rattle.world_model.specs.Step.{carry_out};
ghost use Rattle.node_state.specs.Started.{can_start, started};
ghost use Rattle.node_state.specs.State.{node_of, step_of};

use node_state::forms::is_bad_count;
use node_state::{Growing, LEADER};
use number_rules::{make, may_take_number};
use pico_base::{Call, Errno, Kind, Memory, Reply, Script};
use rpc_frame::Frame;
use serve_rules::{act_at_once, begin};

/// Whether a call that takes a number of the kind can be carried out, or the leader asked for more numbers.
fn may_make(step: &Growing, call: &Call, kind: Kind) -> bool
    ensures { (script : Scripted) → result ≡ false
        → start_making script (started (step_of step.now) call.now) call.now kind ≡ None }
{
    if step.node.leases.is_used_up(kind) && !step.node.is_leader() {
        true
    } else {
        may_take_number(&step.node, kind)
    }
}

/// Whether a call of the process on itself can be carried out, as far as that depends on numbers.
pub(crate) fn may_start_own(step: &Growing, call: &Call) -> bool
    ensures { (script : Scripted) → result ≡ false
        → start_own script (started (step_of step.now) call.now) call.now ≡ None }
{
    match call {
        Call::Fork { .. } => may_make(step, call, Kind::Proc),
        Call::MsgGet { .. } => may_make(step, call, Kind::Msg),
        Call::SemGet { count, .. } => is_bad_count(*count) || may_make(step, call, Kind::Sem),
        _ => true,
    }
}

/// A call that takes a number is carried out with the next number of the node's lease. Where that is used up the leader
/// is asked for more, which needs none itself.
fn start_making(step: &mut Growing, script: &Script, call: Call, kind: Kind) -> Result<(), Memory>
    requires sound { IsSoundScript script.now }
    ensures { OnOk result (start_making script.now (step_of step.old) call kind ≡ Some (step_of step.new)) }
{
    if step.node.leases.is_used_up(kind) && !step.node.is_leader() {
        step.send(LEADER, Frame::LeaseAsk { kind })
    } else {
        make(step, script, call, kind)
    }
}

/// The call under way is refused with EINVAL.
fn refuse(step: &mut Growing, script: &Script, call: Call) -> Result<(), Memory>
    requires sound { IsSoundScript script.now }
    ensures { OnOk result (step_of step.new
        ≡ carry_out script.now (step_of step.old) (asked_here (node_of step.old.node) call) (Reply.Fail Invalid)) }
{
    let asked = step.node.asked_here(call);
    step.carry_out(script, asked, Reply::Fail(Errno::Einval))
}

/// A set of so many semaphores is made. One of a bad size is refused, and takes no number.
fn start_set(step: &mut Growing, script: &Script, call: Call, count: u32) -> Result<(), Memory>
    requires sound { IsSoundScript script.now }
    ensures { OnOk result
        (start_set script.now (step_of step.old) call (new_set count) ≡ Some (step_of step.new)) }
{
    if is_bad_count(count) {
        refuse(step, script, call)
    } else {
        start_making(step, script, call, Kind::Sem)
    }
}

/// The call is under way, and takes a number of the kind.
fn begin_making(step: &mut Growing, script: &Script, call: Call, kind: Kind) -> Result<(), Memory>
    requires sound { IsSoundScript script.now }
    requires can_start { IsTrue (can_start (node_of step.old.node)) }
    ensures { OnOk result
        (start_making script.now (started (step_of step.old) call) call kind ≡ Some (step_of step.new)) }
{
    begin(step, &call)?;
    start_making(step, script, call, kind)
}

/// The call is under way, and makes a set of so many semaphores.
fn begin_set(step: &mut Growing, script: &Script, call: Call, count: u32) -> Result<(), Memory>
    requires sound { IsSoundScript script.now }
    requires can_start { IsTrue (can_start (node_of step.old.node)) }
    ensures { OnOk result
        (start_set script.now (started (step_of step.old) call) call (new_set count) ≡ Some (step_of step.new)) }
{
    begin(step, &call)?;
    start_set(step, script, call, count)
}

/// A call of the process on itself is started and carried out, or the leader is asked for the number that it takes.
#[inline(never)]
pub(crate) fn start_own(step: &mut Growing, script: &Script, call: Call) -> Result<(), Memory>
    requires sound { IsSoundScript script.now }
    requires can_start { IsTrue (can_start (node_of step.old.node)) }
    ensures { OnOk result (start_own script.now (started (step_of step.old) call) call ≡ Some (step_of step.new)) }
{
    match &call {
        Call::Fork { .. } => begin_making(step, script, call, Kind::Proc),
        Call::MsgGet { .. } => begin_making(step, script, call, Kind::Msg),
        Call::SemGet { count, .. } => {
            let count = *count;
            begin_set(step, script, call, count)
        }
        _ => act_at_once(step, script, call),
    }
}
