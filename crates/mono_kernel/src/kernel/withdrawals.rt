//! A process that a signal has struck doesn't wait any more.
ghost use Rattle.std.specs.Prelude.{◌≡◌, ◌↔◌, ℕ, false, IfOk, OnErr, IsErrOf, Some, None};
ghost use Rattle.std.specs.Option.{option_map_or};
ghost use Rattle.pico_base.specs.declared.call.Call.TheVariants.{Withdraw};
ghost use Rattle.waiting_model.specs.Calls.{withdrawn_from};
ghost use Rattle.waiting_model.specs.Kernel.{living_at};
ghost use Rattle.waiting_model.specs.Transition.{successor, transition, may_withdraw, unparked};

use crate::fault::CallFault;
use crate::kernel::Kernel;
use crate::maps::{leave_queue, leave_set};
use crate::process::Change;
use pico_base::{Call, Errno, Name, Outcome, Pid, Reply};

/// Where the wait is that a call ends; no other call than a withdrawal ends one.
pub(super) fn withdrawn_from(call: &Call) -> Option<Name>
    ensures { result ≡ withdrawn_from call.now }
{
    match call {
        Call::Withdraw { name } => Some(*name),
        _ => None,
    }
}

/// Withdrawals.
impl Kernel {
    /// The process withdraws the call in which it waits: EINTR.
    pub(super) fn withdraw(&mut self, pid: Pid, name: &Name) -> Result<Outcome, CallFault>
        ensures ok { IfOk result
            (λ outcome. (chosen : ℕ)
            → transition self.old pid (Withdraw name.now) chosen ≡ Some (successor self.new outcome)) }
        ensures not_allowed { (chosen : ℕ)
            → IsErrOf result CallFault.NotAllowed ↔ (transition self.old pid (Withdraw name.now) chosen ≡ None) }
        ensures err { OnErr result (self.new ≡ self.old) }
    {
        if !self.may_withdraw(pid, name) {
            return Err(CallFault::NotAllowed);
        }
        self.leave(pid, name);
        self.processes.change_there(pid, Change::Answer);
        Ok(Outcome::reply(self.alloc, Reply::Fail(Errno::Eintr)))
    }

    /// Whether the process lives, waits there, and was struck.
    fn may_withdraw(&self, pid: Pid, name: &Name) -> bool
        ensures { result ≡ option_map_or (λ a. may_withdraw pid a name.now) (living_at self.now pid) false }
    {
        match self.processes.alive(pid) {
            Some(alive) => alive.may_withdraw(pid, name),
            None => false,
        }
    }

    /// The process isn't among those who wait there any more.
    fn leave(&mut self, pid: Pid, name: &Name)
        ensures { self.new ≡ unparked self.old pid name.now }
    {
        match name {
            Name::Proc(_) => (),
            Name::Msg(id) => leave_queue(&mut self.queues, *id, pid),
            Name::Sem(id) => leave_set(&mut self.sets, *id, pid),
        }
    }
}
