//! Those who wait at one queue or set, in the order in which they parked.
ghost use Rattle.std.specs.Prelude.{◌≡◌, None, IfOk, nat_eq, map, position, MatchOption};
ghost use Rattle.std.specs.List.{list_any};
ghost use Rattle.pico_base.specs.declared.reply.Errno.TheVariants.{Eidrm};
ghost use Rattle.pico_base.specs.declared.reply.Reply.TheVariants.{Fail};
ghost use Rattle.waiting_model.specs.Waiters.{wake};
ghost use Rattle.waiter_fields.specs.Settling.{is_waiter, IsTaken};

use pico_base::{Errno, Memory, Pid, Reply};
use std::alloc::Global;
use waiting_model::{Waiting, Wake};

/// Whether the waiter is of this process, and waits under this ticket.
fn is_waiter(waiter: &Waiting, pid: Pid, ticket: u32) -> bool
    ensures { result ≡ is_waiter pid ticket waiter.now }
{
    pid.0 == waiter.pid.0 && ticket == waiter.ticket
}

/// Whether the waiter is of this process.
fn is_of(waiter: &Waiting, pid: Pid) -> bool
    ensures { result ≡ nat_eq pid waiter.now.pid }
{
    pid.0 == waiter.pid.0
}

/// Whether the process is one of those who wait. It takes no memory.
pub fn waits_among(waiters: &[Waiting], pid: Pid) -> bool
    ensures { result ≡ list_any (λ w. nat_eq pid w.pid) waiters.now }
{
    waiters.iter().any(|waiter| is_of(waiter, pid))
}

/// The place of the waiter with this process and this ticket.
fn place_of(waiters: &[Waiting], pid: Pid, ticket: u32) -> Option<usize>
    ensures { result ≡ position (is_waiter pid ticket) waiters.now }
{
    waiters
        .iter()
        .position(|waiter| is_waiter(waiter, pid, ticket))
}

/// Takes out the waiter with this process and this ticket; the others keep their order. None exactly where there is
/// none. It takes no memory.
pub fn take_waiter(waiters: &mut Vec<Waiting>, pid: Pid, ticket: u32) -> Option<Waiting>
    ensures { MatchOption result
        ((position (is_waiter pid ticket) waiters.old.items ≡ None) × (waiters.new.items ≡ waiters.old.items))
        (λ w. IsTaken (is_waiter pid ticket) waiters.old.items w waiters.new.items) }
{
    let place = place_of(waiters.as_slice(), pid, ticket)?;
    Some(waiters.remove(place))
}

/// The waiter as it is woken with this reply.
pub fn woken_with(waiter: &Waiting, reply: Reply) -> Wake
    ensures { result ≡ wake waiter.now reply }
{
    Wake {
        caller: waiter.caller,
        ticket: waiter.ticket,
        pid: waiter.pid,
        reply,
    }
}

/// What each who waits is told, in order, where the queue or the set is removed: EIDRM.
pub fn wakes_at_removal(alloc: Global, waiters: &[Waiting]) -> Result<Vec<Wake>, Memory>
    ensures { IfOk result (λ wakes. wakes.items ≡ map (λ w. wake w (Fail Eidrm)) waiters.now) }
{
    let mut wakes = Vec::with_capacity(alloc, waiters.len())?;
    for waiter in waiters {
        wakes.push_reserved(woken_with(waiter, Reply::Fail(Errno::Eidrm)));
    }
    Ok(wakes)
}
