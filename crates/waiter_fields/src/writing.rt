//! Those who wait, as they are written.
ghost use Rattle.std.specs.Prelude.{◌≡◌, ◌≤◌, ◌++◌, true, length, OnOk};
ghost use Rattle.std.specs.List.{AllByRecursion, flat_map};
ghost use Rattle.frame_bytes.specs.Limits.{is_call};
ghost use Rattle.waiter_fields.specs.Ranges.{HasWaiterRanges};
ghost use Rattle.waiter_fields.specs.Waiters.{max_waiters, waiter_field, waiters_field};

use frame_bytes::put_asked;
use pico_base::Memory;
use rpc_frame::Asked;
use std::alloc::Global;
use waiting_model::Waiting;

/// Adds the bytes of one who waits.
fn put_waiter(alloc: Global, out: &mut Vec<u8>, waiter: &Waiting) -> Result<(), Memory>
    requires { is_call waiter.now.call ≡ true }
    ensures bytes { OnOk result (out.new.items ≡ out.old.items ++ waiter_field waiter.now) }
    ensures fits { OnOk result (HasWaiterRanges waiter.now) }
{
    let asked = Asked {
        caller: waiter.caller,
        ticket: waiter.ticket,
        pid: waiter.pid,
        call: waiter.call.try_copy(alloc)?,
    };
    put_asked(out, &asked)
}

/// Adds the bytes of each.
fn put_each(alloc: Global, out: &mut Vec<u8>, waiters: &[Waiting]) -> Result<(), Memory>
    requires { AllByRecursion (λ w. is_call w.call ≡ true) waiters.now }
    ensures bytes { OnOk result (out.new.items ≡ out.old.items ++ flat_map waiter_field waiters.now) }
    ensures fits { OnOk result (AllByRecursion HasWaiterRanges waiters.now) }
{
    for waiter in waiters {
        put_waiter(alloc, out, waiter)?;
    }
    Ok(())
}

/// Adds those who wait at the end, in their order. Their calls are copied on the way, so Memory may come although there
/// is room in `out`; it may leave a part of the bytes.
pub fn put_waiters(alloc: Global, out: &mut Vec<u8>, waiters: &[Waiting]) -> Result<(), Memory>
    requires few { length waiters.now ≤ max_waiters }
    requires calls { AllByRecursion (λ w. is_call w.call ≡ true) waiters.now }
    ensures bytes { OnOk result (out.new.items ≡ out.old.items ++ waiters_field waiters.now) }
    ensures fits { OnOk result (AllByRecursion HasWaiterRanges waiters.now) }
{
    out.push(waiters.len() as u8)?;
    put_each(alloc, out, waiters)
}
