//! Callers that wait at a queue or a set.
ghost use Rattle.std.specs.Prelude.{◌≡◌};
ghost use Rattle.waiting_model.specs.Waiters.{waiter};
ghost use Rattle.pico_base.specs.declared.call.Call.TheVariants.{SemOp};
ghost use Rattle.mono_kernel.specs.Waiters.{Operates, eidrm_for};

use pico_base::{Call, Errno, Id, Pid, Reply, SemStep, Steps};
use std::marker::Model;

/// A caller that waits at a queue: its process and its call.
#[derive(Drop)]
pub(crate) struct QueueWaiter {
    pid: Pid,
    call: Call,
}

impl Model for QueueWaiter {
    ghost use Rattle.waiting_model.specs.declared.callers.Waiting.{Waiting};

    ghost Value = { Waiting };

    ghost view = { λ w. record { caller = 0; ticket = 0; pid = w.pid; call = w.call } };
}

impl QueueWaiter {
    /// What it is told where the thing at which it waits is removed.
    pub(crate) fn refusal(&self) -> (Pid, Reply)
        ensures { result ≡ eidrm_for self.now }
    {
        (self.pid, Reply::Fail(Errno::Eidrm))
    }

    /// A process that waits in this call.
    pub(crate) fn new(pid: Pid, call: Call) -> QueueWaiter
        ensures { result ≡ waiter pid call }
    {
        QueueWaiter { pid, call }
    }

    /// The process.
    pub(crate) fn pid(&self) -> Pid
        ensures { result ≡ self.now.pid }
    {
        self.pid
    }

    /// The call.
    pub(crate) fn call(&self) -> &Call
        ensures { result.now ≡ self.now.call }
    {
        &self.call
    }

    /// The call, once it waits no more.
    pub(crate) fn into_call(self) -> Call
        ensures { result ≡ self.call }
    {
        self.call
    }
}

/// A caller that waits at a set, which is always in a `semop`.
#[derive(Drop)]
pub(crate) struct SetWaiter {
    pid: Pid,
    id: Id,
    steps: Steps,
}

impl Model for SetWaiter {
    ghost use Rattle.waiting_model.specs.declared.callers.Waiting.{Waiting};
    ghost use Rattle.pico_base.specs.declared.call.Call.TheVariants.{SemOp};

    ghost Value = { Waiting };

    ghost view = { λ w. record { caller = 0; ticket = 0; pid = w.pid; call = SemOp w.id w.steps } };
}

impl SetWaiter {
    /// What it is told where the thing at which it waits is removed.
    pub(crate) fn refusal(&self) -> (Pid, Reply)
        ensures { result ≡ eidrm_for self.now }
    {
        (self.pid, Reply::Fail(Errno::Eidrm))
    }

    /// A process that waits in this `semop`.
    pub(crate) fn new(pid: Pid, id: Id, steps: Steps) -> SetWaiter
        ensures { result ≡ waiter pid (SemOp id steps) }
    {
        SetWaiter { pid, id, steps }
    }

    /// The process.
    pub(crate) fn pid(&self) -> Pid
        ensures { result ≡ self.now.pid }
    {
        self.pid
    }

    /// The operations.
    pub(crate) fn steps(&self) -> &[SemStep]
        ensures { Operates self.now.call result.now }
    {
        self.steps.as_slice()
    }
}
