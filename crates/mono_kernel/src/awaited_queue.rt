//! A message queue with those who wait at it.
ghost use Rattle.std.specs.Prelude.{◌≡◌, ◌≤◌, ◌<◌, ◌+◌, [], not, nat_eq, length, map, IfOk, OnErr, vec_len, vec_capacity};
ghost use Rattle.std.specs.List.{filter};
ghost use Rattle.kernel_model.specs.Queue.{empty_queue};
ghost use Rattle.waiting_model.specs.Waiters.{unawaited, without_waiter, settle, waiter};
ghost use Rattle.waiting_model.specs.Queue.{try_queue, carry_out_on_queue};
ghost use Rattle.mono_kernel.specs.Done.{IsCarried};
ghost use Rattle.mono_kernel.specs.Settling.{WakesFirst, WakesAt, IsSettling};
ghost use Rattle.mono_kernel.specs.Waiters.{eidrm_for};

use crate::done::Done;
use crate::queue::MessageQueue;
use crate::waiter::QueueWaiter;
use pico_base::{Call, Memory, Pid, Reply, Sequence};
use std::alloc::Global;
use std::marker::Model;

/// A message queue, and those who wait at it in the order in which they parked. There is memory for a
/// message of each of them.
#[derive(Drop)]
pub(crate) struct AwaitedQueue {
    queue: MessageQueue,
    waiters: Vec<QueueWaiter>,
}

impl Model for AwaitedQueue {
    ghost use Rattle.std.specs.Prelude.{◌≤◌, length};
    ghost use Rattle.kernel_model.specs.Queue.{Queue};
    ghost use Rattle.waiting_model.specs.Waiters.{Awaited};

    ghost Value = { Awaited Queue };

    ghost view = { λ q. record { state = q.queue.queue; waiters = q.waiters.items } };

    ghost invariant = { λ q. length q.waiters.items ≤ q.queue.room };
}

/// The process doesn't wait any more.
fn drop_waiter(waiters: &mut Vec<QueueWaiter>, pid: Pid)
    ensures others { waiters.new.items ≡ filter (λ w. not (nat_eq pid w.pid)) waiters.old.items }
    ensures no_more { vec_len waiters.new ≤ vec_len waiters.old }
{
    waiters.retain(|waiter| pid != waiter.pid());
}

/// What each of these is told where the queue is removed.
fn refusals_of(alloc: Global, waiters: &[QueueWaiter]) -> Result<Vec<(Pid, Reply)>, Memory>
    ensures { IfOk result (λ woken. woken.items ≡ map eidrm_for waiters.now) }
{
    let mut woken = Vec::with_capacity(alloc, waiters.len())?;
    for waiter in waiters {
        woken.push_reserved(waiter.refusal());
    }
    Ok(woken)
}

impl AwaitedQueue {
    /// An empty queue, at which nobody waits. It takes no memory.
    pub(crate) fn new(alloc: Global) -> AwaitedQueue
        ensures { result ≡ unawaited empty_queue }
    {
        AwaitedQueue {
            queue: MessageQueue::new(alloc),
            waiters: Vec::new(alloc),
        }
    }

    /// Carries out a call of a process: it parks, or has its reply, and whoever that lets go on is
    /// woken. A refusal of memory changes nothing.
    pub(crate) fn carry_out(&mut self, alloc: Global, pid: Pid, call: &Call) -> Result<Done, Memory>
        ensures ok { IfOk result
            (λ done. IsCarried (carry_out_on_queue self.old (waiter pid call.now)) call.now self.new done) }
        ensures err { OnErr result (self.new ≡ self.old) }
    {
        let mine = call.try_copy(alloc)?;
        self.queue.reserve(self.waiters.len() + 1)?;
        if !self.queue.can_go(pid, call) {
            let marked = call.try_copy(alloc)?;
            self.waiters.push(QueueWaiter::new(pid, mine))?;
            return Ok(Done::Parks(marked));
        }
        let room = Vec::with_capacity(alloc, self.waiters.len())?;
        let reply = self.queue.perform(pid, mine);
        let woken = Sequence::from_vec(self.settle(room));
        Ok(Done::Replies { reply, woken })
    }

    /// How many wait.
    fn len(&self) -> usize
        ensures { result ≡ length self.now.waiters }
    {
        self.waiters.len()
    }

    /// Wakes each who can go on, in order, from the first on again after each.
    fn settle(&mut self, mut woken: Vec<(Pid, Reply)>) -> Vec<(Pid, Reply)>
        requires nobody { woken.items ≡ [] }
        requires room { length self.old.waiters ≤ vec_capacity woken }
        ensures { IsSettling (settle try_queue self.old) self.new result.items }
    {
        let all = self.len();
        for round in 0..all {
            match self.wake_first() {
                Some(pair) => woken.push_reserved(pair),
                None => return woken,
            }
        }
        woken
    }

    /// Wakes the first who can go on, if there is one.
    fn wake_first(&mut self) -> Option<(Pid, Reply)>
        ensures { WakesFirst try_queue self.old self.new result }
    {
        let all = self.len();
        for place in 0..all {
            if let Some(pair) = self.wake_at(place) {
                return Some(pair);
            }
        }
        None
    }

    /// Wakes the one at this place, who can go on or goes on waiting.
    fn wake_at(&mut self, place: usize) -> Option<(Pid, Reply)>
        requires { place < length self.old.waiters }
        ensures { WakesAt try_queue place self.old self.new result }
    {
        let waiting = &self.waiters[place];
        if !self.queue.can_go(waiting.pid(), waiting.call()) {
            return None;
        }
        let waiter = self.waiters.remove(place);
        let pid = waiter.pid();
        let reply = self.queue.perform(pid, waiter.into_call());
        Some((pid, reply))
    }

    /// The process doesn't wait any more.
    pub(crate) fn withdraw(&mut self, pid: Pid)
        ensures { self.new ≡ without_waiter pid self.old }
    {
        drop_waiter(&mut self.waiters, pid);
    }

    /// What each who waits is told where the queue is removed.
    pub(crate) fn refusals(&self, alloc: Global) -> Result<Vec<(Pid, Reply)>, Memory>
        ensures { IfOk result (λ woken. woken.items ≡ map eidrm_for self.now.waiters) }
    {
        refusals_of(alloc, self.waiters.as_slice())
    }
}
