//! The calls on processes and signals (fork, exit, waitpid, kill, sigaction, sigprocmask).
ghost use Rattle.std.specs.Prelude.{◌≡◌, IsSome, IfSome, IfOk, OnErr, Some, is_some, ◌↔◌, true};
ghost use Rattle.pico_base.specs.Signal.{at};
ghost use Rattle.pico_base.specs.declared.call.Call.TheVariants.{WaitPid};
ghost use Rattle.kernel_model.specs.Signals.{act_on, with_mask};
ghost use Rattle.kernel_model.specs.Row.{wait};
ghost use Rattle.kernel_model.specs.Effect.{is_fresh};
ghost use Rattle.waiting_model.specs.Kernel.{living_at, with_alive};
ghost use Rattle.waiting_model.specs.Effect.{replying};
ghost use Rattle.waiting_model.specs.ProcessCalls.{fork_effect, end_process, reap_child, action_effect, kill, with_signals};
ghost use Rattle.waiting_model.specs.Transition.{allowance_after};
ghost use Rattle.mono_kernel.specs.Process.{after_change};
ghost use Rattle.mono_kernel.specs.Answers.{Answers, IsDone, Replies, signalled_kernel};
ghost use Rattle.mono_kernel.specs.Waited.{waited_of, is_not_yet, reply_of_wait};

use crate::done::Done;
use crate::family::Waited;
use crate::fault::CallFault;
use crate::kernel::Kernel;
use crate::process::Change;
use crate::signals::SignalState;
use pico_base::{Act, Call, Ending, Errno, How, Pid, Reply, Sequence, Sig, SigArg, SigSet};

/// Whether children that match only live.
fn is_not_yet(found: &Waited) -> bool
    ensures { result ≡ is_not_yet (waited_of found.now) }
{
    match found {
        Waited::NotYet => true,
        Waited::Found(_) | Waited::NoChild => false,
    }
}

/// The reply of a waitpid that needn't wait.
fn reply_of_wait(found: &Waited) -> Reply
    ensures { result ≡ reply_of_wait (waited_of found.now) }
{
    match found {
        Waited::Found(child) => Reply::Child {
            pid: child.pid,
            ending: child.ending,
        },
        Waited::NotYet => Reply::Num(0),
        Waited::NoChild => Reply::Fail(Errno::Echild),
    }
}

/// The calls on processes and signals.
impl Kernel {
    /// Makes a change of a living process.
    fn change(&mut self, pid: Pid, change: Change)
        requires { IsSome (living_at self.old pid) }
        ensures { IfSome (living_at self.old pid) (λ a. self.new ≡ with_alive self.old pid (after_change change a)) }
    {
        self.processes.change(pid, change);
    }

    /// Whether a process may take this number.
    fn is_new_process(&self, pid: Pid) -> bool
        ensures { result ≡ is_fresh self.now.used_processes pid }
    {
        pid.0 > 0 && !self.processes.is_there(pid)
    }

    /// fork: NotAllowed where the number is 0 or used.
    pub(super) fn fork(&mut self, pid: Pid, chosen: u32) -> Result<Reply, CallFault>
        requires { IsSome (living_at self.old pid) }
        ensures { IfSome (living_at self.old pid)
            (λ a. Replies (fork_effect self.old pid a chosen) result self.old self.new) }
    {
        if !self.is_new_process(Pid(chosen)) {
            return Err(CallFault::NotAllowed);
        }
        self.processes.fork(self.alloc, pid, Pid(chosen))?;
        Ok(Reply::Num(chosen))
    }

    /// exit, and the end by a signal.
    pub(super) fn end(&mut self, pid: Pid, ending: Ending) -> Result<Done, CallFault>
        requires { IsSome (living_at self.old pid) }
        ensures { IfSome (living_at self.old pid)
            (λ a. (call : Call) → Answers (Some (end_process self.old pid a ending)) call result self.old self.new) }
    {
        let woken = self.processes.end(self.alloc, pid, ending)?;
        Ok(Done::Replies {
            reply: Reply::Ended,
            woken: Sequence::from_vec(woken),
        })
    }

    /// waitpid: ECHILD where there is no such child. Where such children only live it waits, or replies
    /// 0 with WNOHANG.
    pub(super) fn wait(&mut self, pid: Pid, which: &Option<Pid>, nohang: bool) -> Done
        requires { IsSome (living_at self.old pid) }
        ensures { IfSome (living_at self.old pid)
            (λ a. IsDone (reap_child self.old pid a nohang (wait a.row.family which.now)) (WaitPid which.now nohang)
            self.new result) }
    {
        let found = self.processes.wait(pid, which);
        if !nohang && is_not_yet(&found) {
            return Done::Parks(Call::WaitPid {
                child: *which,
                nohang,
            });
        }
        Done::alone(self.alloc, reply_of_wait(&found))
    }

    /// sigaction: EINVAL for KILL, 0 and a number that is no signal's.
    pub(super) fn act(&mut self, pid: Pid, sig: SigArg, act: Act) -> Reply
        requires { IsSome (living_at self.old pid) }
        ensures { IfSome (living_at self.old pid)
            (λ a. action_effect self.old pid a (act_on a.row.signals sig act)
            ≡ replying self.new result) }
    {
        let Some(alive) = self.processes.alive(pid) else {
            return Reply::Num(0);
        };
        let mut signals = alive.signals();
        match signals.act(sig, act) {
            Ok(()) => {
                self.change(pid, Change::Signals(signals));
                Reply::Num(0)
            }
            Err(errno) => Reply::Fail(errno),
        }
    }

    /// sigprocmask: gives the old mask.
    pub(super) fn change_mask(&mut self, pid: Pid, how: How, set: SigSet) -> Reply
        requires { IsSome (living_at self.old pid) }
        ensures masked { IfSome (living_at self.old pid)
            (λ a. self.new ≡ with_signals self.old pid a (with_mask a.row.signals how set)) }
        ensures reply { IfSome (living_at self.old pid) (λ a. result ≡ Reply.Bits a.row.signals.mask) }
    {
        let Some(alive) = self.processes.alive(pid) else {
            return Reply::Num(0);
        };
        let mut signals = alive.signals();
        let old = signals.change_mask(how, set);
        self.change(pid, Change::Signals(signals));
        Reply::Bits(old)
    }

    /// sigpending.
    pub(super) fn pending(&self, pid: Pid) -> Reply
        requires { IsSome (living_at self.now pid) }
        ensures { IfSome (living_at self.now pid) (λ a. result ≡ Reply.Bits a.row.signals.pending) }
    {
        match self.processes.alive(pid) {
            Some(alive) => Reply::Bits(alive.signals().pending()),
            None => Reply::Num(0),
        }
    }

    /// How often the signal was caught.
    pub(super) fn handled(&self, pid: Pid, sig: Sig) -> Reply
        requires { IsSome (living_at self.now pid) }
        ensures { IfSome (living_at self.now pid) (λ a. result ≡ Reply.Num (at a.row.signals.handled sig)) }
    {
        match self.processes.alive(pid) {
            Some(alive) => Reply::Num(alive.signals().handled(sig)),
            None => Reply::Num(0),
        }
    }

    /// kill: EINVAL for a number that is no signal's, then ESRCH where there is no such process.
    pub(super) fn kill(&mut self, caller: Pid, pid: Pid, sig: SigArg) -> Reply
        ensures { kill self.old caller pid sig ≡ replying self.new result }
    {
        if sig == SigArg::Bad {
            return Reply::Fail(Errno::Einval);
        }
        let signals = match self.processes.cell(pid) {
            None => return Reply::Fail(Errno::Esrch),
            Some(cell) => match cell.alive() {
                Some(alive) => alive.signals(),
                None if cell.is_gone() => return Reply::Fail(Errno::Esrch),
                None => return Reply::Num(0),
            },
        };
        if let SigArg::Is(sig) = sig {
            self.signal(caller, pid, signals, sig);
        }
        Reply::Num(0)
    }

    /// A signal arrives at a living process: its own, or another's.
    fn signal(&mut self, caller: Pid, pid: Pid, mut signals: SignalState, sig: Sig)
        requires lives { IsSome (living_at self.old pid) }
        requires its { IfSome (living_at self.old pid) (λ a. signals ≡ a.row.signals) }
        ensures { IfSome (living_at self.old pid) (λ a. self.new ≡ signalled_kernel self.old caller pid a sig) }
    {
        if caller == pid {
            signals.raise(sig);
            self.change(pid, Change::Signals(signals));
        } else {
            self.change(pid, Change::Raise(sig));
        }
    }

    /// A doomed process that lives on after an entry of its own has nothing left but its ending.
    pub(super) fn spend(&mut self, pid: Pid)
        ensures { self.new ≡ allowance_after self.old pid (living_at self.old pid) }
    {
        let doomed = match self.processes.alive(pid) {
            Some(alive) => alive.doom().is_some(),
            None => false,
        };
        if doomed {
            self.change(pid, Change::Spend);
        }
    }
}
