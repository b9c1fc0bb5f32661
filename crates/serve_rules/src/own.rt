//! A process's calls on itself.
ghost use Rattle.std.specs.Prelude.{◌≡◌, IfSome, IsTrue, OnOk, Some};
ghost use Rattle.kernel_model.specs.Script.{IsSoundScript};
ghost use Rattle.world_model.specs.Starting.{act};
ghost use Rattle.node_calls.specs.Caller.{HasLine};
ghost use Rattle.node_state.specs.Started.{can_start, started};
ghost use Rattle.node_state.specs.State.{node_of, step_of};

use crate::carrying::{Held, serve_held};
use crate::serving::{wait_or_wake, who_starts};
use node_serve::reply_on_own;
use node_state::forms::may_park;
use node_state::{Growing, unreached};
use pico_base::{Call, Memory, Name, Script};

/// A copy of a call on the caller's own row, which holds no list, so that none is made.
fn copy_own(call: &Call) -> Option<Call>
    ensures { IfSome result (λ copy. copy ≡ call.now) }
{
    match call {
        Call::GetPid => Some(Call::GetPid),
        Call::Kill { pid, sig } => Some(Call::Kill {
            pid: *pid,
            sig: *sig,
        }),
        Call::SigAction { sig, act } => Some(Call::SigAction {
            sig: *sig,
            act: *act,
        }),
        Call::SigProcMask { how, set } => Some(Call::SigProcMask {
            how: *how,
            set: *set,
        }),
        Call::SigPending => Some(Call::SigPending),
        Call::Handled { sig } => Some(Call::Handled { sig: *sig }),
        Call::WaitPid { child, nohang } => Some(Call::WaitPid {
            child: *child,
            nohang: *nohang,
        }),
        _ => None,
    }
}

/// A call of the node's process on its own row that needn't wait is started and carried out, and stays with who lent
/// it. Memory, too, where the row isn't held here, and for a call that makes something, ends its process or a wait, or
/// has to wait.
pub fn act_lent(step: &mut Growing, script: &Script, call: &Call) -> Result<(), Memory>
    requires reached { HasLine script.now step.old.node.caller }
    requires can_start { IsTrue (can_start (node_of step.old.node)) }
    ensures { OnOk result
        (act script.now (started (step_of step.old) call.now) call.now ≡ Some (step_of step.new)) }
{
    let who = who_starts(&step.node);
    let Some(reply) = reply_on_own(&mut step.node.deeds, &who, call)? else {
        return Err(unreached());
    };
    let Some(copy) = copy_own(call) else {
        return Err(unreached());
    };
    step.carry_out_reached(script, copy, reply)
}

/// The same for a call that may have to wait: until its reply is here it is under way.
fn act_waiting(step: &mut Growing, script: &Script, call: Call) -> Result<(), Memory>
    requires sound { IsSoundScript script.now }
    requires can_start { IsTrue (can_start (node_of step.old.node)) }
    ensures { OnOk result (act script.now (started (step_of step.old) call) call ≡ Some (step_of step.new)) }
{
    let alloc = step.node.alloc;
    let who = who_starts(&step.node);
    let name = Name::Proc(step.node.pid);
    let served = serve_held(alloc, &mut step.node.deeds, &name, &who, &call)?;
    match served {
        Held::AtOnce { reply, .. } => step.carry_out_at_once(script, call, reply),
        Held::Did { own, wakes, .. } => wait_or_wake(step, script, call, own, wakes),
        Held::NotAdmitted => Err(unreached()),
    }
}

/// A call of the node's process on its own row is started, and carried out or waits. Memory, too, where its line isn't
/// there, and as above.
pub fn act_at_once(step: &mut Growing, script: &Script, call: Call) -> Result<(), Memory>
    requires sound { IsSoundScript script.now }
    requires can_start { IsTrue (can_start (node_of step.old.node)) }
    ensures { OnOk result (act script.now (started (step_of step.old) call) call ≡ Some (step_of step.new)) }
{
    if may_park(&call) {
        return act_waiting(step, script, call);
    }
    if !step.node.caller.has_line(script) {
        return Err(unreached());
    }
    act_lent(step, script, &call)
}
