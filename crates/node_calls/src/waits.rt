//! Which calls may have to wait.
ghost use Rattle.std.specs.Prelude.{◌≡◌};
ghost use Rattle.std.specs.List.{list_any};
ghost use Rattle.kernel_model.specs.Waiting.{may_wait};
ghost use Rattle.waiting_model.specs.Calls.{may_park};

use pico_base::{Call, SemStep};

/// Whether one of the operations may have to wait: it isn't positive, and has no IPC_NOWAIT.
fn may_wait(steps: &[SemStep]) -> bool
    ensures { result ≡ list_any may_wait steps.now }
{
    steps.iter().any(|step| step.add <= 0 && !step.nowait)
}

/// Whether the call has a form that may have to wait.
pub fn may_park(call: &Call) -> bool
    ensures { result ≡ may_park call.now }
{
    match call {
        Call::MsgSnd { nowait, .. } | Call::MsgRcv { nowait, .. } => !*nowait,
        Call::WaitPid { nohang, .. } => !*nohang,
        Call::SemOp { steps, .. } => may_wait(steps.as_slice()),
        _ => false,
    }
}
