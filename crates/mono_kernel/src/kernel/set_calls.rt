//! The calls on semaphore sets (semget, semop, semctl).
ghost use Rattle.std.specs.Prelude.{◌≡◌, Some, None};
ghost use Rattle.number_maps.specs.Maps.{get};
ghost use Rattle.kernel_model.specs.SemaphoreSet.{new_set};
ghost use Rattle.kernel_model.specs.Effect.{is_fresh};
ghost use Rattle.waiting_model.specs.Waiters.{waiter};
ghost use Rattle.waiting_model.specs.Effect.{on_named, replying};
ghost use Rattle.waiting_model.specs.SetCalls.{new_set_of, find_set, get_set, set_size, on_set, remove_set};
ghost use Rattle.mono_kernel.specs.Names.{keys_with, bound_to};
ghost use Rattle.mono_kernel.specs.Answers.{Answers, Replies};

use crate::awaited_set::AwaitedSet;
use crate::done::Done;
use crate::fault::CallFault;
use crate::kernel::Kernel;
use crate::maps::{call_set, remove_at};
use crate::semaphores::{SemaphoreSet, is_bad_size};
use pico_base::{Call, Errno, Id, Key, Pid, Reply, Sequence};

/// The calls on semaphore sets.
impl Kernel {
    /// Whether a set may take this number.
    fn is_new_set(&self, id: &Id) -> bool
        ensures { result ≡ is_fresh self.now.used_sets id.now }
    {
        id.0 > 0 && !self.set_names.is_used(id)
    }

    /// A new set, with a key if there is one: EINVAL for a bad number of semaphores. NotAllowed where
    /// the number is 0 or used.
    fn new_set(&mut self, key: &Option<Key>, count: u32, chosen: &Id) -> Result<Reply, CallFault>
        requires { bound_to self.old.set_keys key.now ≡ None }
        ensures { Replies
            (new_set_of self.old (keys_with self.old.set_keys key.now chosen.now) chosen.now (new_set count))
            result self.old self.new }
    {
        if is_bad_size(count) {
            return Ok(Reply::Fail(Errno::Einval));
        }
        if !self.is_new_set(chosen) {
            return Err(CallFault::NotAllowed);
        }
        let set = AwaitedSet::new(self.alloc, SemaphoreSet::new(self.alloc, count)?);
        self.set_names.add(&mut self.sets, chosen, key, set)?;
        Ok(Reply::Num(chosen.0))
    }

    /// The size of the set of a number, 0 where there is none.
    fn size_of(&self, id: Id) -> usize
        ensures { result ≡ set_size self.now id }
    {
        match self.sets.get(&id) {
            Some(set) => set.size(),
            None => 0,
        }
    }

    /// What a bound key gives: EINVAL where more semaphores are asked for than the set has.
    fn found_set(&self, id: Id, count: u32) -> Reply
        ensures { find_set self.now id count ≡ replying self.now result }
    {
        if count == 0 || count as usize <= self.size_of(id) {
            Reply::Num(id.0)
        } else {
            Reply::Fail(Errno::Einval)
        }
    }

    /// semget: ENOENT for a key that leads nowhere, without IPC_CREAT; EEXIST for one that leads to a
    /// set, with IPC_CREAT and IPC_EXCL; EINVAL by the number of semaphores.
    pub(super) fn get_set(
        &mut self,
        key: Option<Key>,
        count: u32,
        create: bool,
        excl: bool,
        chosen: u32,
    ) -> Result<Reply, CallFault>
        ensures { Replies (get_set self.old key count create excl chosen) result self.old self.new }
    {
        let Some(key) = key else {
            return self.new_set(&None, count, &Id(chosen));
        };
        if let Some(id) = self.set_names.find(key) {
            return Ok(if create && excl {
                Reply::Fail(Errno::Eexist)
            } else {
                self.found_set(id, count)
            });
        }
        if !create {
            return Ok(Reply::Fail(Errno::Enoent));
        }
        self.new_set(&Some(key), count, &Id(chosen))
    }

    /// semop, and semctl but with IPC_RMID: EINVAL where there is no such set.
    pub(super) fn on_set(&mut self, pid: Pid, id: Id, call: &Call) -> Result<Done, CallFault>
        ensures { Answers (Some (on_set self.old id (waiter pid call.now))) call.now result self.old self.new }
    {
        let done = call_set(self.alloc, &mut self.sets, id, pid, call)?;
        self.wake(&done);
        Ok(done)
    }

    /// semctl with IPC_RMID: EINVAL where there is no such set. Whoever waits is woken.
    pub(super) fn remove_set(&mut self, id: Id) -> Result<Done, CallFault>
        ensures { (call : Call)
            → Answers (Some (on_named self.old (get self.old.sets id) (remove_set self.old id))) call result self.old
            self.new }
    {
        let Some(set) = self.sets.get(&id) else {
            return Ok(Done::alone(self.alloc, Reply::Fail(Errno::Einval)));
        };
        let done = Done::Replies {
            reply: Reply::Num(0),
            woken: Sequence::from_vec(set.refusals(self.alloc)?),
        };
        remove_at(&mut self.sets, id);
        self.set_names.unbind(id);
        self.wake(&done);
        Ok(done)
    }
}
