//! The calls on message queues (msgget, msgsnd, msgrcv, msgctl).
ghost use Rattle.std.specs.Prelude.{◌≡◌, Some, None};
ghost use Rattle.number_maps.specs.Maps.{get};
ghost use Rattle.kernel_model.specs.Effect.{is_fresh};
ghost use Rattle.waiting_model.specs.Waiters.{waiter};
ghost use Rattle.waiting_model.specs.Effect.{on_named};
ghost use Rattle.waiting_model.specs.QueueCalls.{new_queue, get_queue, on_queue, remove_queue};
ghost use Rattle.mono_kernel.specs.Names.{keys_with, bound_to};
ghost use Rattle.mono_kernel.specs.Answers.{Answers, Replies};
ghost use Rattle.mono_kernel.specs.Done.{woken_of};
ghost use Rattle.mono_kernel.specs.Table.{with_answers};

use crate::awaited_queue::AwaitedQueue;
use crate::done::Done;
use crate::fault::CallFault;
use crate::kernel::Kernel;
use crate::maps::{call_queue, remove_at};
use pico_base::{Call, Errno, Id, Key, Pid, Reply, Sequence};

/// The calls on message queues.
impl Kernel {
    /// Whether a queue may take this number.
    fn is_new_queue(&self, id: &Id) -> bool
        ensures { result ≡ is_fresh self.now.used_queues id.now }
    {
        id.0 > 0 && !self.queue_names.is_used(id)
    }

    /// A new queue, with a key if there is one. NotAllowed where the number is 0 or used.
    fn new_queue(&mut self, key: &Option<Key>, chosen: &Id) -> Result<Reply, CallFault>
        requires { bound_to self.old.queue_keys key.now ≡ None }
        ensures { Replies (new_queue self.old (keys_with self.old.queue_keys key.now chosen.now) chosen.now) result
            self.old self.new }
    {
        if !self.is_new_queue(chosen) {
            return Err(CallFault::NotAllowed);
        }
        let queue = AwaitedQueue::new(self.alloc);
        self.queue_names.add(&mut self.queues, chosen, key, queue)?;
        Ok(Reply::Num(chosen.0))
    }

    /// msgget: ENOENT for a key that leads nowhere, without IPC_CREAT; EEXIST for one that leads to a
    /// queue, with IPC_CREAT and IPC_EXCL.
    pub(super) fn get_queue(
        &mut self,
        key: Option<Key>,
        create: bool,
        excl: bool,
        chosen: u32,
    ) -> Result<Reply, CallFault>
        ensures { Replies (get_queue self.old key create excl chosen) result self.old self.new }
    {
        let Some(key) = key else {
            return self.new_queue(&None, &Id(chosen));
        };
        if let Some(id) = self.queue_names.find(key) {
            return Ok(if create && excl {
                Reply::Fail(Errno::Eexist)
            } else {
                Reply::Num(id.0)
            });
        }
        if !create {
            return Ok(Reply::Fail(Errno::Enoent));
        }
        self.new_queue(&Some(key), &Id(chosen))
    }

    /// msgsnd, msgrcv, and msgctl with IPC_STAT and IPC_SET: EINVAL where there is no such queue.
    pub(super) fn on_queue(&mut self, pid: Pid, id: Id, call: &Call) -> Result<Done, CallFault>
        ensures { Answers (Some (on_queue self.old id (waiter pid call.now))) call.now result self.old self.new }
    {
        let done = call_queue(self.alloc, &mut self.queues, id, pid, call)?;
        self.wake(&done);
        Ok(done)
    }

    /// Those who are woken have their replies.
    pub(super) fn wake(&mut self, done: &Done)
        ensures { self.new ≡ record self.old { processes = with_answers self.old.processes (woken_of done.now) } }
    {
        if let Done::Replies { woken, .. } = done {
            self.processes.answer(woken.as_slice());
        }
    }

    /// msgctl with IPC_RMID: EINVAL where there is no such queue. Whoever waits is woken.
    pub(super) fn remove_queue(&mut self, id: Id) -> Result<Done, CallFault>
        ensures { (call : Call)
            → Answers (Some (on_named self.old (get self.old.queues id) (remove_queue self.old id))) call result
            self.old self.new }
    {
        let Some(queue) = self.queues.get(&id) else {
            return Ok(Done::alone(self.alloc, Reply::Fail(Errno::Einval)));
        };
        let done = Done::Replies {
            reply: Reply::Num(0),
            woken: Sequence::from_vec(queue.refusals(self.alloc)?),
        };
        remove_at(&mut self.queues, id);
        self.queue_names.unbind(id);
        self.wake(&done);
        Ok(done)
    }
}
