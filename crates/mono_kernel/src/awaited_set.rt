//! A semaphore set with those who wait at it.
ghost use Rattle.std.specs.Prelude.{◌≡◌, if◌then◌else◌, ◌≤◌, ◌<◌, [], not, nat_eq, length, map, None, IfOk, OnOk, OnErr, vec_len, vec_capacity};
ghost use Rattle.std.specs.List.{filter};
ghost use Rattle.waiting_model.specs.Waiters.{unawaited, without_waiter, settle, waiter, carry_out, parked_behind};
ghost use Rattle.waiting_model.specs.SemaphoreSet.{try_set, carry_out_on_set, count_waiters};
ghost use Rattle.mono_kernel.specs.Done.{IsCarried};
ghost use Rattle.mono_kernel.specs.Settling.{WakesFirst, WakesAt, IsSettling};
ghost use Rattle.mono_kernel.specs.Waiters.{eidrm_for, tests, counted_reply, StopsAt};

use crate::done::Done;
use crate::semaphores::SemaphoreSet;
use crate::waiter::SetWaiter;
use pico_base::{Call, Errno, Memory, Pid, Reply, SemStep, Sequence};
use std::alloc::Global;
use std::marker::Model;

/// There are fewer processes than this, so no more can wait.
const MAX_WAITERS: usize = 4294967295;

/// A semaphore set, and those who wait at it in the order in which they parked.
#[derive(Drop)]
pub(crate) struct AwaitedSet {
    set: SemaphoreSet,
    waiters: Vec<SetWaiter>,
}

impl Model for AwaitedSet {
    ghost use Rattle.std.specs.Prelude.{◌≤◌, length};
    ghost use Rattle.kernel_model.specs.SemaphoreSet.{SemaphoreSet as PlainSet};
    ghost use Rattle.waiting_model.specs.Waiters.{Awaited};

    ghost Value = { Awaited PlainSet };

    ghost view = { λ s. record { state = s.set; waiters = s.waiters.items } };

    ghost invariant = { λ s. length s.waiters.items ≤ 4294967295 };
}

/// Which of those who wait are counted: for a higher value, or for 0.
#[derive(Clone, Copy)]
pub(crate) enum Look {
    Negative,
    Zero,
}

/// 1 where an operation that stops is one of these, on this semaphore, and else 0.
fn counted(look: Look, num: u16, stop: Option<SemStep>) -> u32
    ensures one { result ≡ (if tests look num stop then 1 else 0) }
    ensures few { result ≤ 1 }
{
    u32::from(is_counted(look, num, stop))
}

/// Whether an operation that stops is one of these, on this semaphore.
fn is_counted(look: Look, num: u16, stop: Option<SemStep>) -> bool
    ensures { result ≡ tests look num stop }
{
    let Some(step) = stop else {
        return false;
    };
    step.num == num
        && match look {
            Look::Negative => step.add < 0,
            Look::Zero => step.add == 0,
        }
}

/// The process doesn't wait any more.
fn drop_waiter(waiters: &mut Vec<SetWaiter>, pid: Pid)
    ensures others { waiters.new.items ≡ filter (λ w. not (nat_eq pid w.pid)) waiters.old.items }
    ensures no_more { vec_len waiters.new ≤ vec_len waiters.old }
{
    waiters.retain(|waiter| pid != waiter.pid());
}

impl AwaitedSet {
    /// A set at which nobody waits.
    pub(crate) fn new(alloc: Global, set: SemaphoreSet) -> AwaitedSet
        ensures { result ≡ unawaited set }
    {
        AwaitedSet {
            set,
            waiters: Vec::new(alloc),
        }
    }

    /// How many semaphores there are.
    pub(crate) fn size(&self) -> usize
        ensures { result ≡ length self.now.state.semaphores }
    {
        self.set.size()
    }

    /// Carries out a call of a process: it parks, or has its reply, and whoever that lets go on is
    /// woken. A refusal of memory changes nothing.
    pub(crate) fn carry_out(&mut self, alloc: Global, pid: Pid, call: &Call) -> Result<Done, Memory>
        ensures ok { IfOk result
            (λ done. IsCarried (carry_out_on_set self.old (waiter pid call.now)) call.now self.new done) }
        ensures err { OnErr result (self.new ≡ self.old) }
    {
        match call {
            Call::SemGetNcnt { num, .. } => Ok(Done::alone(
                alloc,
                self.count(Look::Negative, *num),
            )),
            Call::SemGetZcnt { num, .. } => Ok(Done::alone(alloc, self.count(Look::Zero, *num))),
            _ => self.try_and_settle(alloc, pid, call),
        }
    }

    /// Any call but those that count who waits.
    fn try_and_settle(&mut self, alloc: Global, pid: Pid, call: &Call) -> Result<Done, Memory>
        ensures ok { IfOk result
            (λ done. IsCarried (carry_out try_set self.old (waiter pid call.now)) call.now self.new done) }
        ensures err { OnErr result (self.new ≡ self.old) }
    {
        let room = Vec::with_capacity(alloc, self.waiters.len())?;
        let Some(reply) = self.set.try_call(alloc, pid, call)? else {
            let marked = call.try_copy(alloc)?;
            self.park(alloc, pid, call)?;
            return Ok(Done::Parks(marked));
        };
        let woken = Sequence::from_vec(self.settle(room));
        Ok(Done::Replies { reply, woken })
    }

    /// A process waits in this call.
    fn park(&mut self, alloc: Global, pid: Pid, call: &Call) -> Result<(), Memory>
        requires { try_set self.old.state pid call.now ≡ None }
        ensures ok { OnOk result (self.new ≡ (parked_behind self.old (waiter pid call.now)).object) }
        ensures err { OnErr result (self.new ≡ self.old) }
    {
        let Call::SemOp { id, steps } = call else {
            unreachable!()
        };
        let mine = steps.try_copy(alloc)?;
        if self.waiters.len() >= MAX_WAITERS {
            return Err(Memory);
        }
        self.waiters.push(SetWaiter::new(pid, *id, mine))?;
        Ok(())
    }

    /// How many wait.
    fn len(&self) -> usize
        ensures len { result ≡ length self.now.waiters }
        ensures few { result ≤ 4294967295 }
    {
        self.waiters.len()
    }

    /// The operation at which the one at this place stops.
    fn stop_at(&mut self, place: usize) -> Option<SemStep>
        requires { place < length self.old.waiters }
        ensures same { self.new ≡ self.old }
        ensures stop { StopsAt self.old place result }
    {
        self.set.stop(self.waiters[place].steps())
    }

    /// Wakes each who can go on, in order, from the first on again after each.
    fn settle(&mut self, mut woken: Vec<(Pid, Reply)>) -> Vec<(Pid, Reply)>
        requires nobody { woken.items ≡ [] }
        requires room { length self.old.waiters ≤ vec_capacity woken }
        ensures { IsSettling (settle try_set self.old) self.new result.items }
    {
        let all = self.len();
        for round in 0..all {
            match self.wake_first() {
                Some(pair) => woken.push_reserved(pair),
                None => return woken,
            }
        }
        woken
    }

    /// Wakes the first who can go on, if there is one.
    fn wake_first(&mut self) -> Option<(Pid, Reply)>
        ensures { WakesFirst try_set self.old self.new result }
    {
        let all = self.len();
        for place in 0..all {
            if let Some(pair) = self.wake_at(place) {
                return Some(pair);
            }
        }
        None
    }

    /// Wakes the one at this place, who can go on or goes on waiting.
    fn wake_at(&mut self, place: usize) -> Option<(Pid, Reply)>
        requires { place < length self.old.waiters }
        ensures { WakesAt try_set place self.old self.new result }
    {
        let waiter = &self.waiters[place];
        let pid = waiter.pid();
        let reply = self.set.try_op(pid, waiter.steps())?;
        self.waiters.remove(place);
        Some((pid, reply))
    }

    /// semctl with GETNCNT and GETZCNT: EINVAL for a number that is no semaphore's, and else how many
    /// wait for it.
    fn count(&mut self, look: Look, num: u16) -> Reply
        ensures same { self.new ≡ self.old }
        ensures reply { result ≡ counted_reply look num self.old }
    {
        if usize::from(num) >= self.set.size() {
            return Reply::Fail(Errno::Einval);
        }
        Reply::Num(self.count_waiters(look, num))
    }

    /// How many wait for a higher value of the semaphore, or for 0.
    fn count_waiters(&mut self, look: Look, num: u16) -> u32
        ensures same { self.new ≡ self.old }
        ensures count { result ≡ count_waiters (tests look num) self.old }
    {
        let mut count = 0u32;
        let all = self.len();
        for place in 0..all {
            let stop = self.stop_at(place);
            count += counted(look, num, stop);
        }
        count
    }

    /// The process doesn't wait any more.
    pub(crate) fn withdraw(&mut self, pid: Pid)
        ensures { self.new ≡ without_waiter pid self.old }
    {
        drop_waiter(&mut self.waiters, pid);
    }

    /// What each who waits is told where the set is removed.
    pub(crate) fn refusals(&self, alloc: Global) -> Result<Vec<(Pid, Reply)>, Memory>
        ensures { IfOk result (λ woken. woken.items ≡ map eidrm_for self.now.waiters) }
    {
        Ok(
            self.waiters
                .iter()
                .map(|waiter| waiter.refusal())
                .collect(alloc)?,
        )
    }
}
