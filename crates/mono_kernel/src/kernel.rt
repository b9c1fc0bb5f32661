//! The whole kernel as a plain program, one call at a time.
ghost use Rattle.std.specs.Prelude.{◌≡◌, ◌↔◌, ℕ, false, IfOk, OnErr, IsErrOf, IsSome, IsTrue, IfSome, Some, None};
ghost use Rattle.std.specs.Option.{option_map_or};
ghost use Rattle.number_maps.specs.Maps.{get};
ghost use Rattle.waiting_model.specs.Calls.{withdrawn_from};
ghost use Rattle.waiting_model.specs.Kernel.{opening, living_at};
ghost use Rattle.waiting_model.specs.Waiters.{waiter};
ghost use Rattle.waiting_model.specs.Transition.{effect, finish_call, successor, transition, may_make};
ghost use Rattle.mono_kernel.specs.Answers.{Answers, FinishesWith};
ghost use Rattle.mono_kernel.specs.Standing.{standing_of};

mod process_calls;
mod queue_calls;
mod set_calls;
mod withdrawals;

use crate::done::Done;
use crate::fault::CallFault;
use crate::maps::{Queues, Sets};
use crate::names::Names;
use crate::process::Change;
use crate::processes::Processes;
use crate::standing::{Standing, of_cell};
use pico_base::{Call, Ending, Memory, Outcome, Pid, Reply, Sequence};
use std::alloc::Global;
use std::collections::BTreeMap;
use std::marker::Model;
use withdrawals::withdrawn_from;

/// The kernel of one POSIX system in which callers wait.
#[derive(Drop)]
pub struct Kernel {
    alloc: Global,
    processes: Processes,
    queues: Queues,
    queue_names: Names,
    sets: Sets,
    set_names: Names,
}

impl Model for Kernel {
    ghost use Rattle.waiting_model.specs.Kernel.{Kernel as PlainKernel};
    ghost use Rattle.std.specs.Map.{keys_of};

    ghost Value = { PlainKernel };

    ghost view = { λ k. record {
      processes = k.processes;
      queue_keys = k.queue_names.keys;
      set_keys = k.set_names.keys;
      queues = k.queues.entries;
      sets = k.sets.entries;
      used_processes = keys_of k.processes;
      used_queues = k.queue_names.used;
      used_sets = k.set_names.used;
    } };
}

/// getpid.
fn number_of(pid: Pid) -> Reply
    ensures { result ≡ Reply.Num pid }
{
    Reply::Num(pid.0)
}

impl Kernel {
    /// The kernel in which process 1 alone lives.
    pub fn new(alloc: Global) -> Result<Kernel, Memory>
        ensures { IfOk result (λ kernel. kernel ≡ opening) }
    {
        Ok(Kernel {
            alloc,
            processes: Processes::new(alloc)?,
            queues: BTreeMap::new(alloc),
            queue_names: Names::new(alloc),
            sets: BTreeMap::new(alloc),
            set_names: Names::new(alloc),
        })
    }

    /// Carries out a call of a living process (POSIX.1-2017, and the profile where it chooses).
    ///
    /// `chosen` is the number that a new process, queue or set takes; other calls ignore it. A call
    /// that has to wait has no reply of its own, and the process then makes no call but a withdrawal,
    /// until another's call wakes it. A call that is refused by an error replies it, and the kernel
    /// stays as it was but for the caller's marks. After `Memory` and `NotAllowed` the kernel is
    /// unchanged. `NotAllowed` comes exactly where the kernel has no transition.
    pub fn call(&mut self, pid: Pid, call: &Call, chosen: u32) -> Result<Outcome, CallFault>
        ensures ok { IfOk result
            (λ outcome. transition self.old pid call.now chosen ≡ Some (successor self.new outcome)) }
        ensures not_allowed { IsErrOf result CallFault.NotAllowed ↔ (transition self.old pid call.now chosen ≡ None) }
        ensures err { OnErr result (self.new ≡ self.old) }
    {
        match withdrawn_from(call) {
            Some(name) => self.withdraw(pid, &name),
            None => self.make(pid, call, chosen),
        }
    }

    /// How the process stands.
    pub fn standing(&self, pid: Pid) -> Standing
        ensures { result ≡ standing_of (get self.now.processes pid) }
    {
        of_cell(self.processes.cell(pid))
    }

    /// Carries out a call that is no withdrawal.
    fn make(&mut self, pid: Pid, call: &Call, chosen: u32) -> Result<Outcome, CallFault>
        requires { withdrawn_from call.now ≡ None }
        ensures ok { IfOk result
            (λ outcome. transition self.old pid call.now chosen ≡ Some (successor self.new outcome)) }
        ensures not_allowed { IsErrOf result CallFault.NotAllowed
            ↔ (transition self.old pid call.now chosen ≡ None) }
        ensures err { OnErr result (self.new ≡ self.old) }
    {
        if !self.may_make(pid, call) {
            return Err(CallFault::NotAllowed);
        }
        if let Call::GetPid = call {
            return Ok(self.own_number(pid));
        }
        match self.carry_out(pid, call, chosen) {
            Ok(done) => Ok(self.finish(pid, done)),
            Err(fault) => Err(fault),
        }
    }

    /// getpid, which changes nothing but the caller's marks. It stands apart from all that other calls need.
    #[inline(never)]
    fn own_number(&mut self, pid: Pid) -> Outcome
        requires { IsTrue (option_map_or (λ a. may_make a Call.GetPid) (living_at self.old pid) false) }
        ensures { (chosen : ℕ) → transition self.old pid Call.GetPid chosen ≡ Some (successor self.new result) }
    {
        self.finish(pid, Done::alone(self.alloc, number_of(pid)))
    }

    /// Whether the process lives and may make this call.
    fn may_make(&self, pid: Pid, call: &Call) -> bool
        ensures { result ≡ option_map_or (λ a. may_make a call.now) (living_at self.now pid) false }
    {
        match self.processes.alive(pid) {
            Some(alive) => alive.may_make(call),
            None => false,
        }
    }

    /// The caller's own marks after its call, which waits or has its reply.
    fn finish(&mut self, pid: Pid, done: Done) -> Outcome
        ensures { FinishesWith self.old pid done self.new result }
    {
        self.spend(pid);
        match done {
            Done::Parks(call) => {
                self.processes.change_there(pid, Change::Park(call));
                Outcome {
                    own: None,
                    woken: Sequence::new(self.alloc),
                }
            }
            Done::Replies { reply, woken } => {
                self.processes.change_there(pid, Change::Answer);
                Outcome {
                    own: Some(reply),
                    woken,
                }
            }
        }
    }

    /// The call's effect but for the caller's own marks, and what it comes to.
    fn carry_out(&mut self, pid: Pid, call: &Call, chosen: u32) -> Result<Done, CallFault>
        requires { IsSome (living_at self.old pid) }
        ensures { IfSome (living_at self.old pid)
            (λ a. Answers (effect self.old (waiter pid call.now) a chosen) call.now result self.old self.new) }
    {
        let alloc = self.alloc;
        match call {
            Call::Fork { .. } => Done::of(alloc, self.fork(pid, chosen)),
            Call::Exit { status } => self.end(pid, Ending::Exited((*status % 256) as u8)),
            Call::Killed { sig } => self.end(pid, Ending::Killed(*sig)),
            Call::GetPid => Done::of(alloc, Ok(number_of(pid))),
            Call::Kill { pid: target, sig } => Done::of(alloc, Ok(self.kill(pid, *target, *sig))),
            Call::SigAction { sig, act } => Done::of(alloc, Ok(self.act(pid, *sig, *act))),
            Call::SigProcMask { how, set } => Done::of(
                alloc,
                Ok(self.change_mask(pid, *how, *set)),
            ),
            Call::SigPending => Done::of(alloc, Ok(self.pending(pid))),
            Call::Handled { sig } => Done::of(alloc, Ok(self.handled(pid, *sig))),
            Call::WaitPid { child, nohang } => Ok(self.wait(pid, child, *nohang)),
            Call::MsgGet { key, create, excl } => Done::of(
                alloc,
                self.get_queue(*key, *create, *excl, chosen),
            ),
            Call::MsgSnd { id, .. } => self.on_queue(pid, *id, call),
            Call::MsgRcv { id, .. } => self.on_queue(pid, *id, call),
            Call::MsgStat { id } => self.on_queue(pid, *id, call),
            Call::MsgSet { id, .. } => self.on_queue(pid, *id, call),
            Call::MsgRmid { id } => self.remove_queue(*id),
            Call::SemGet {
                key,
                count,
                create,
                excl,
            } => Done::of(alloc, self.get_set(*key, *count, *create, *excl, chosen)),
            Call::SemOp { id, .. } => self.on_set(pid, *id, call),
            Call::SemGetVal { id, .. } => self.on_set(pid, *id, call),
            Call::SemGetPid { id, .. } => self.on_set(pid, *id, call),
            Call::SemGetNcnt { id, .. } => self.on_set(pid, *id, call),
            Call::SemGetZcnt { id, .. } => self.on_set(pid, *id, call),
            Call::SemSetVal { id, .. } => self.on_set(pid, *id, call),
            Call::SemGetAll { id } => self.on_set(pid, *id, call),
            Call::SemSetAll { id, .. } => self.on_set(pid, *id, call),
            Call::SemRmid { id } => self.remove_set(*id),
            Call::Withdraw { .. } => Err(CallFault::NotAllowed),
        }
    }
}
