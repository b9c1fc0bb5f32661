//! A set written as bytes.
ghost use Rattle.std.specs.Prelude.{◌≡◌, ◌+◌, ◌*◌, ◌≤◌, ◌++◌, true, IfOk, OnOk, length, vec_len, vec_capacity};
ghost use Rattle.std.specs.Int.{w16, w32, to_be_bytes};
ghost use Rattle.std.specs.List.{flat_map, AllByRecursion};
ghost use Rattle.frame_bytes.specs.Limits.{is_call};
ghost use Rattle.kernel_model.specs.SemaphoreSet.{max_semaphores, max_value};
ghost use Rattle.sysv_sem.specs.Body.{row_field, semaphore_field, waiter_field, HasProcess, HasWaiterRanges, IsBodyOf};
ghost use Rattle.sysv_sem.specs.Waiters.{waiters_in};

use crate::SemSet;
use crate::row::Row;
use crate::semaphore::Semaphore;
use frame_bytes::put_asked;
use index_links::Links;
use pico_base::{Bytes, Memory};
use rpc_frame::Asked;
use std::alloc::Global;
use waiting_model::Waiting;

/// The code of a set among the bodies.
pub(crate) const CODE: u8 = 5;

/// Adds a value at the end, for which there is room.
fn push_value(out: &mut Vec<u8>, value: u16)
    requires { vec_len out.old + 2 ≤ vec_capacity out.old }
    ensures items { out.new.items ≡ out.old.items ++ to_be_bytes w16 value }
    ensures len { vec_len out.new ≡ vec_len out.old + 2 }
    ensures capacity { vec_capacity out.new ≡ vec_capacity out.old }
{
    let bytes = value.to_be_bytes();
    out.push_reserved(bytes[0]);
    out.push_reserved(bytes[1]);
}

/// Adds a process at the end, for which there is room.
fn push_process(out: &mut Vec<u8>, process: u32)
    requires { vec_len out.old + 4 ≤ vec_capacity out.old }
    ensures items { out.new.items ≡ out.old.items ++ to_be_bytes w32 process }
    ensures len { vec_len out.new ≡ vec_len out.old + 4 }
    ensures capacity { vec_capacity out.new ≡ vec_capacity out.old }
{
    let bytes = process.to_be_bytes();
    out.push_reserved(bytes[0]);
    out.push_reserved(bytes[1]);
    out.push_reserved(bytes[2]);
    out.push_reserved(bytes[3]);
}

/// Adds a semaphore at the end, for which there is room.
fn push_semaphore(out: &mut Vec<u8>, semaphore: &Semaphore)
    requires fits { semaphore.now.value ≤ max_value }
    requires room { vec_len out.old + 6 ≤ vec_capacity out.old }
    ensures field { out.new.items ≡ out.old.items ++ semaphore_field semaphore.now }
    ensures process { HasProcess semaphore.now }
    ensures len { vec_len out.new ≡ vec_len out.old + 6 }
    ensures capacity { vec_capacity out.new ≡ vec_capacity out.old }
{
    push_value(out, semaphore.value as u16);
    push_process(out, semaphore.last.0);
}

/// Adds semaphores at the end, for which there is room.
fn push_semaphores(out: &mut Vec<u8>, set: &[Semaphore])
    requires fit { AllByRecursion (λ s. s.value ≤ max_value) set.now }
    requires room { vec_len out.old + 6 * length set.now ≤ vec_capacity out.old }
    ensures fields { out.new.items ≡ out.old.items ++ flat_map semaphore_field set.now }
    ensures processes { AllByRecursion HasProcess set.now }
{
    for semaphore in set {
        push_semaphore(out, semaphore);
    }
}

/// Adds one who waits at the end, whose call is copied on the way. A refusal of memory may leave a part of the bytes.
fn push_waiter(alloc: Global, out: &mut Vec<u8>, waiter: &Waiting) -> Result<(), Memory>
    requires { is_call waiter.now.call ≡ true }
    ensures field { OnOk result (out.new.items ≡ out.old.items ++ waiter_field waiter.now) }
    ensures ranges { OnOk result (HasWaiterRanges waiter.now) }
{
    let asked = Asked {
        caller: waiter.caller,
        ticket: waiter.ticket,
        pid: waiter.pid,
        call: waiter.call.try_copy(alloc)?,
    };
    put_asked(out, &asked)
}

/// Adds those who wait at the end, in order. A refusal of memory may leave a part of the bytes.
fn push_waiters(alloc: Global, out: &mut Vec<u8>, waiters: &Links<Waiting>) -> Result<(), Memory>
    requires { AllByRecursion (λ w. is_call w.call ≡ true) (waiters_in waiters.now.nodes) }
    ensures fields { OnOk result
        (out.new.items ≡ out.old.items ++ flat_map waiter_field (waiters_in waiters.now.nodes)) }
    ensures ranges { OnOk result (AllByRecursion HasWaiterRanges (waiters_in waiters.now.nodes)) }
{
    waiters.have_own_slots();
    let mut at = waiters.first();
    for _ in 0..waiters.len() {
        let Some(slot) = at else {
            return Ok(());
        };
        push_waiter(alloc, out, waiters.value(slot))?;
        at = waiters.next(slot);
    }
    Ok(())
}

impl Row {
    /// Adds the count of the semaphores and each of them at the end, for which there is room.
    fn push_onto(&self, out: &mut Vec<u8>)
        requires fit { AllByRecursion (λ s. s.value ≤ max_value) self.now.semaphores }
        requires few { length self.now.semaphores ≤ max_semaphores }
        requires room { vec_len out.old + 1 + 6 * length self.now.semaphores ≤ vec_capacity out.old }
        ensures field { out.new.items ≡ out.old.items ++ row_field self.now.semaphores }
        ensures processes { AllByRecursion HasProcess self.now.semaphores }
    {
        out.push_reserved(self.semaphores.len() as u8);
        push_semaphores(out, &self.semaphores);
    }
}

impl SemSet {
    /// The set as bytes, which `unpack` makes into an equal set. A set has one spelling: 5, the count of semaphores
    /// in one byte, each semaphore as its value in 2 bytes and its last process in 4, the count of those who wait in
    /// one byte, and each of them as a frame brings a call that was asked for. Numbers are big-endian.
    pub fn pack(&self) -> Result<Bytes, Memory>
        ensures { IfOk result (λ bytes. IsBodyOf self.now bytes) }
    {
        let alloc = self.row.allocator();
        let mut out = Vec::with_capacity(alloc, 3 + 6 * self.row.size())?;
        out.push_reserved(CODE);
        self.row.push_onto(&mut out);
        out.push(self.waiters.len() as u8)?;
        push_waiters(alloc, &mut out, &self.waiters)?;
        Ok(Bytes::from_vec(out))
    }
}
