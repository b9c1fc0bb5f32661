//! Ordered maps by number: the queues and the sets, each with those who wait at it.
ghost use Rattle.std.specs.Prelude.{◌≡◌, IfOk, OnErr, is_some};
ghost use Rattle.std.specs.Bool.{OnFalse};
ghost use Rattle.number_maps.specs.Maps.{get, without};
ghost use Rattle.waiting_model.specs.Waiters.{waiter, without_waiter};
ghost use Rattle.waiting_model.specs.Queue.{carry_out_on_queue};
ghost use Rattle.waiting_model.specs.SemaphoreSet.{carry_out_on_set};
ghost use Rattle.mono_kernel.specs.At.{CarriesAt, changed_at};

use crate::awaited_queue::AwaitedQueue;
use crate::awaited_set::AwaitedSet;
use crate::done::Done;
use pico_base::{Call, Errno, Id, Memory, Pid, Reply};
use std::alloc::Global;
use std::collections::BTreeMap;

/// The queues by number.
pub(crate) type Queues = BTreeMap<Id, AwaitedQueue>;

/// The semaphore sets by number.
pub(crate) type Sets = BTreeMap<Id, AwaitedSet>;

/// Carries out a call on the queue of a number. A refusal of memory changes nothing.
pub(crate) fn call_queue(
    alloc: Global,
    queues: &mut Queues,
    id: Id,
    pid: Pid,
    call: &Call,
) -> Result<Done, Memory>
    ensures ok { IfOk result
        (λ done. CarriesAt (λ q. carry_out_on_queue q (waiter pid call.now)) queues.old.entries id call.now
        queues.new.entries done) }
    ensures err { OnErr result (queues.new.entries ≡ queues.old.entries) }
{
    match queues.get_mut(&id) {
        Some(queue) => queue.carry_out(alloc, pid, call),
        None => Ok(Done::alone(alloc, Reply::Fail(Errno::Einval))),
    }
}

/// Carries out a call on the set of a number. A refusal of memory changes nothing.
pub(crate) fn call_set(
    alloc: Global,
    sets: &mut Sets,
    id: Id,
    pid: Pid,
    call: &Call,
) -> Result<Done, Memory>
    ensures ok { IfOk result
        (λ done. CarriesAt (λ s. carry_out_on_set s (waiter pid call.now)) sets.old.entries id call.now
        sets.new.entries done) }
    ensures err { OnErr result (sets.new.entries ≡ sets.old.entries) }
{
    match sets.get_mut(&id) {
        Some(set) => set.carry_out(alloc, pid, call),
        None => Ok(Done::alone(alloc, Reply::Fail(Errno::Einval))),
    }
}

/// A process doesn't wait any more at the queue of a number.
pub(crate) fn leave_queue(queues: &mut Queues, id: Id, pid: Pid)
    ensures { queues.new.entries ≡ changed_at (without_waiter pid) queues.old.entries id }
{
    if let Some(queue) = queues.get_mut(&id) {
        queue.withdraw(pid);
    }
}

/// A process doesn't wait any more at the set of a number.
pub(crate) fn leave_set(sets: &mut Sets, id: Id, pid: Pid)
    ensures { sets.new.entries ≡ changed_at (without_waiter pid) sets.old.entries id }
{
    if let Some(set) = sets.get_mut(&id) {
        set.withdraw(pid);
    }
}

/// Removes what a map has at a number, and says whether it had anything there.
pub(crate) fn remove_at<T: Drop>(things: &mut BTreeMap<Id, T>, id: Id) -> bool
    ensures removed { things.new.entries ≡ without things.old.entries id }
    ensures there { result ≡ is_some (get things.old.entries id) }
    ensures unchanged { OnFalse result (things.new.entries ≡ things.old.entries) }
{
    let held = things.len();
    things.remove(&id);
    things.len() < held
}
