//! Those who wait at a set, gone through in order.
ghost use Rattle.std.specs.Prelude.{◌≡◌, ◌≤◌, ◌+◌, ◌<◌, ◌++◌, [], length, map, nat_eq, if◌then◌else◌, vec_len, vec_capacity, IfOk};
ghost use Rattle.std.specs.List.{list_any};
ghost use Rattle.pico_base.specs.declared.reply.Errno.TheVariants.{Eidrm};
ghost use Rattle.pico_base.specs.declared.reply.Reply.TheVariants.{Fail};
ghost use Rattle.waiting_model.specs.Waiters.{wake};
ghost use Rattle.waiting_model.specs.SemaphoreSet.{count_waiters, steps_of};
ghost use Rattle.sysv_sem.specs.Calls.{counted_reply, tests};
ghost use Rattle.sysv_sem.specs.Waiters.{held, is_asked, taker, takers, takes_away, waiters_in, Finds};

use crate::row::Row;
use index_links::{Links, Slot};
use pico_base::{Call, Errno, Memory, Node, Pid, Reply, SemStep};
use std::alloc::Global;
use waiting_model::{Waiting, Wake};

/// So many wait at a set at most.
pub(crate) const MAX_WAITERS: u32 = 32;

/// Which of those who wait are counted: for a higher value, or for 0.
#[derive(Clone, Copy)]
pub(crate) enum Look {
    Negative,
    Zero,
}

/// The operations of a call, which are none where it is no `semop`.
pub(crate) fn steps_of(call: &Call) -> &[SemStep]
    ensures { result.now ≡ steps_of call.now }
{
    match call {
        Call::SemOp { steps, .. } => steps.as_slice(),
        _ => &[],
    }
}

/// What a waiter that is woken with this reply is told.
pub(crate) fn woken(waiter: Waiting, reply: Reply) -> Wake
    ensures { result ≡ wake waiter reply }
{
    Wake {
        caller: waiter.caller,
        ticket: waiter.ticket,
        pid: waiter.pid,
        reply,
    }
}

/// Whether it is this process that waits.
pub(crate) fn is_of(waiter: &Waiting, pid: Pid) -> bool
    ensures { result ≡ nat_eq pid waiter.now.pid }
{
    pid == waiter.pid
}

/// Whether a process waits.
pub(crate) fn waits(waiters: &Links<Waiting>, pid: Pid) -> bool
    ensures { result ≡ list_any (λ w. nat_eq pid w.pid) (waiters_in waiters.now.nodes) }
{
    waiters.have_own_slots();
    let mut at = waiters.first();
    for _ in 0..waiters.len() {
        let Some(slot) = at else {
            return false;
        };
        if is_of(waiters.value(slot), pid) {
            return true;
        }
        at = waiters.next(slot);
    }
    false
}

/// Whether an operation of the call takes from its semaphore.
fn takes_away(call: &Call) -> bool
    ensures { result ≡ takes_away call.now }
{
    steps_of(call).iter().any(|step| step.add < 0)
}

/// Adds the process of one who waits at the end, if its call takes away. There is room for it.
fn push_taker(pids: &mut Vec<Pid>, waiter: &Waiting)
    requires { vec_len pids.old < vec_capacity pids.old }
    ensures items { pids.new.items ≡ pids.old.items ++ taker waiter.now }
    ensures len { vec_len pids.new ≤ vec_len pids.old + 1 }
    ensures capacity { vec_capacity pids.new ≡ vec_capacity pids.old }
{
    if takes_away(&waiter.call) {
        pids.push_reserved(waiter.pid);
    }
}

/// Adds the processes that wait in a call that takes away to an empty list, in order. There is room for all who wait.
pub(crate) fn note_takers(pids: &mut Vec<Pid>, waiters: &Links<Waiting>)
    requires nobody { pids.old.items ≡ [] }
    requires room { length waiters.now.nodes ≤ vec_capacity pids.old }
    ensures { pids.new.items ≡ takers (waiters_in waiters.now.nodes) }
{
    waiters.have_own_slots();
    let mut at = waiters.first();
    for _ in 0..waiters.len() {
        let Some(slot) = at else {
            return;
        };
        push_taker(pids, waiters.value(slot));
        at = waiters.next(slot);
    }
}

/// The nodes of those who wait, in order.
pub(crate) fn callers(alloc: Global, waiters: &Links<Waiting>) -> Result<Vec<Node>, Memory>
    ensures { IfOk result (λ nodes. nodes.items ≡ map (λ w. w.caller) (waiters_in waiters.now.nodes)) }
{
    let mut nodes = Vec::with_capacity(alloc, waiters.len() as usize)?;
    waiters.have_own_slots();
    let mut at = waiters.first();
    for _ in 0..waiters.len() {
        let Some(slot) = at else {
            return Ok(nodes);
        };
        nodes.push(waiters.value(slot).caller)?;
        at = waiters.next(slot);
    }
    Ok(nodes)
}

/// Whether this process waits, under this ticket.
fn is_asked(waiter: &Waiting, pid: Pid, ticket: u32) -> bool
    ensures { result ≡ is_asked pid ticket waiter.now }
{
    pid == waiter.pid && ticket == waiter.ticket
}

/// The slot of the waiter of this process and this ticket.
pub(crate) fn slot_of(waiters: &Links<Waiting>, pid: Pid, ticket: u32) -> Option<Slot>
    ensures { Finds pid ticket waiters.now.nodes result }
{
    waiters.have_own_slots();
    let mut at = waiters.first();
    for _ in 0..waiters.len() {
        let Some(slot) = at else {
            return None;
        };
        if is_asked(waiters.value(slot), pid, ticket) {
            return Some(slot);
        }
        at = waiters.next(slot);
    }
    None
}

/// Takes all out, in order, and tells each EIDRM.
pub(crate) fn refuse_all(waiters: &mut Links<Waiting>, mut wakes: Vec<Wake>) -> Vec<Wake>
    requires nobody { wakes.items ≡ [] }
    requires room { length waiters.old.nodes ≤ vec_capacity wakes }
    ensures wakes { result.items ≡ map (λ w. wake w (Fail Eidrm)) (waiters_in waiters.old.nodes) }
    ensures nobody_left { waiters.new.nodes ≡ [] }
{
    for _ in 0..waiters.len() {
        let Some(slot) = waiters.first() else {
            return wakes;
        };
        let waiter = waiters.unlink(slot);
        wakes.push_reserved(woken(waiter, Reply::Fail(Errno::Eidrm)));
    }
    wakes
}

/// Whether an operation that stops is one of these, on this semaphore.
fn is_counted(look: Look, num: u16, stop: Option<SemStep>) -> bool
    ensures { result ≡ tests look num stop }
{
    let Some(step) = stop else {
        return false;
    };
    step.num == num
        && match look {
            Look::Negative => step.add < 0,
            Look::Zero => step.add == 0,
        }
}

/// 1 where an operation that stops is one of these, on this semaphore, and else 0.
fn counted(look: Look, num: u16, stop: Option<SemStep>) -> u32
    ensures one { result ≡ (if tests look num stop then 1 else 0) }
    ensures few { result ≤ 1 }
{
    u32::from(is_counted(look, num, stop))
}

/// How many wait for a higher value of the semaphore, or for 0.
fn count_waiters(row: &mut Row, waiters: &Links<Waiting>, look: Look, num: u16) -> u32
    ensures same { row.new ≡ row.old }
    ensures count { result ≡ count_waiters (tests look num) (held row.old waiters.now.nodes) }
{
    waiters.have_own_slots();
    let mut count = 0u32;
    let mut at = waiters.first();
    for _ in 0..waiters.len() {
        let Some(slot) = at else {
            return count;
        };
        let stop = row.stop(steps_of(&waiters.value(slot).call));
        count += counted(look, num, stop);
        at = waiters.next(slot);
    }
    count
}

/// `semctl` with GETNCNT and GETZCNT: how many wait for it. EINVAL: the semaphore isn't there.
pub(crate) fn count(row: &mut Row, waiters: &Links<Waiting>, look: Look, num: u16) -> Reply
    ensures same { row.new ≡ row.old }
    ensures reply { result ≡ counted_reply look num (held row.old waiters.now.nodes) }
{
    if usize::from(num) >= row.size() {
        return Reply::Fail(Errno::Einval);
    }
    Reply::Num(count_waiters(row, waiters, look, num))
}
