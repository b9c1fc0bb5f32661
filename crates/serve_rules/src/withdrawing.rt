//! A call that waits here is withdrawn.
ghost use Rattle.std.specs.Prelude.{◌≡◌, IfOk, OnOk};
ghost use Rattle.kernel_model.specs.Script.{IsSoundScript};
ghost use Rattle.world_model.specs.Serving.{withdraw_here};
ghost use Rattle.node_state.specs.State.{step_of};
ghost use Rattle.serve_rules.specs.Withdrawing.{Interrupts};

use node_serve::{Withdrawn, withdraw};
use node_state::Growing;
use pico_base::{Errno, Memory, Name, Reply, Script};
use rpc_frame::Asked;

/// What a withdrawal came to. Where nothing is done it comes back.
#[derive(Drop)]
pub enum Interrupted {
    /// The call doesn't wait any more, and has its reply.
    Done,
    /// The deed of its name is held here, and the call doesn't wait there.
    NotThere(Asked),
    /// The deed of its name isn't held here.
    NotHeld(Asked),
}

/// The call that waits under this ticket doesn't wait any more, and its reply is EINTR, if it waits here. Memory, too,
/// where that ends a call of this node whose line isn't there.
pub fn interrupt(
    step: &mut Growing,
    script: &Script,
    name: &Name,
    asked: Asked,
) -> Result<Interrupted, Memory>
    requires sound { IsSoundScript script.now }
    ensures { IfOk result (Interrupts script.now (step_of step.old) name.now asked (step_of step.new)) }
{
    match withdraw(&mut step.node.deeds, *name, asked.pid, asked.ticket) {
        Withdrawn::TakenOut => {
            step.carry_out(script, asked, Reply::Fail(Errno::Eintr))?;
            Ok(Interrupted::Done)
        }
        Withdrawn::NotThere => Ok(Interrupted::NotThere(asked)),
        Withdrawn::NotHeld => Ok(Interrupted::NotHeld(asked)),
    }
}

/// The withdrawal at a name that is here. Where the call doesn't wait there it has its reply, and nothing is done.
pub fn withdraw_here(
    step: &mut Growing,
    script: &Script,
    name: &Name,
    asked: Asked,
) -> Result<(), Memory>
    requires sound { IsSoundScript script.now }
    ensures { OnOk result (step_of step.new ≡ withdraw_here script.now (step_of step.old) name.now asked) }
{
    match interrupt(step, script, name, asked)? {
        Interrupted::Done => Ok(()),
        Interrupted::NotThere(_) | Interrupted::NotHeld(_) => Ok(()),
    }
}
