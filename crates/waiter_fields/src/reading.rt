//! Those who wait, as they are read.
ghost use Rattle.std.specs.Prelude.{◌≤◌, IfSome};
ghost use Rattle.body_fields.specs.Fields.{Reads};
ghost use Rattle.frame_bytes.specs.Fields.{node_at, positive_at};
ghost use Rattle.frame_bytes.specs.Readers.{Gives, many};
ghost use Rattle.waiter_fields.specs.Waiters.{head_at, waiter_at, waiters_at};

use crate::{WaitingCalls, skip_waiters};
use body_fields::{u8_at, u32_at};
use frame_bytes::Read;
use pico_base::{Memory, Node, Pid, UnpackFault};
use std::alloc::Global;
use waiting_model::Waiting;

/// A node's number, 1 to 32.
#[tactic(auto, unfolding(frame_bytes::specs::Fields::node_at))]
fn node_of(bytes: &[u8]) -> Option<(u8, &[u8])>
    ensures read { Reads (λ x. (x.0, x.1.now)) result (node_at bytes.now) }
    ensures least { IfSome result (λ x. 1 ≤ x.0) }
    ensures most { IfSome result (λ x. x.0 ≤ 32) }
{
    let (number, rest) = u8_at(bytes)?;
    if number < 1 || number > 32 {
        return None;
    }
    Some((number, rest))
}

/// A number of 4 bytes that is at least 1.
#[tactic(auto, unfolding(frame_bytes::specs::Fields::positive_at))]
fn positive_of(bytes: &[u8]) -> Option<(u32, &[u8])>
    ensures { Reads (λ x. (x.0, x.1.now)) result (positive_at bytes.now) }
{
    let (number, rest) = u32_at(bytes)?;
    if number == 0 {
        return None;
    }
    Some((number, rest))
}

/// What stands before a waiter's call: the node of its caller, its ticket and its process number; and the bytes behind
/// them. None: there are no such numbers. It takes no memory.
#[tactic(auto, unfolding(crate::specs::Waiters::head_at))]
pub fn head_of(bytes: &[u8]) -> Option<(u8, u32, u32, &[u8])>
    ensures read { Reads (λ x. ((x.0, x.1, x.2), x.3.now)) result (head_at bytes.now) }
    ensures least { IfSome result (λ x. 1 ≤ x.0) }
    ensures most { IfSome result (λ x. x.0 ≤ 32) }
{
    let (caller, rest) = node_of(bytes)?;
    let (ticket, rest) = positive_of(rest)?;
    let (pid, rest) = u32_at(rest)?;
    Some((caller, ticket, pid, rest))
}

/// One who waits, and the bytes behind it.
#[tactic(auto, unfolding(crate::specs::Waiters::waiter_at))]
fn waiter_of<C: WaitingCalls>(alloc: Global, bytes: &[u8]) -> Read<'_, Waiting>
    ensures { Gives (λ x. (x.0, x.1.now)) result (waiter_at C.call_at bytes.now) }
{
    let Some((caller, ticket, pid, rest)) = head_of(bytes) else {
        return Err(UnpackFault::NotABody);
    };
    let (call, rest) = C::read(alloc, rest)?;
    let waiting = Waiting {
        caller: Node(caller),
        ticket,
        pid: Pid(pid),
        call,
    };
    Ok((waiting, rest))
}

/// So many who wait.
fn read_many<C: WaitingCalls>(alloc: Global, count: u8, bytes: &[u8]) -> Read<'_, Vec<Waiting>>
    ensures { Gives (λ x. (x.0.items, x.1.now)) result (many (waiter_at C.call_at) count bytes.now) }
{
    let mut waiters = Vec::new(alloc);
    let mut rest = bytes;
    for _ in 0..count {
        let (waiter, after) = waiter_of::<C>(alloc, rest)?;
        waiters.push(waiter)?;
        rest = after;
    }
    Ok((waiters, rest))
}

/// Those who wait, in their order, and the bytes behind them. `NotABody` comes exactly where the bytes have no such
/// waiters at their front: more than 32, a caller that is no node, a ticket 0, a call that doesn't wait there, or two
/// of one process.
#[tactic(auto, unfolding(crate::specs::Waiters::waiters_at))]
pub fn read_waiters<C: WaitingCalls>(alloc: Global, bytes: &[u8]) -> Read<'_, Vec<Waiting>>
    ensures { Gives (λ x. (x.0.items, x.1.now)) result (waiters_at C.call_at bytes.now) }
{
    let Some((count, _)) = skip_waiters::<C>(bytes) else {
        return Err(UnpackFault::NotABody);
    };
    match bytes.split_first() {
        Some((_, rest)) => read_many::<C>(alloc, count, rest),
        None => Err(UnpackFault::NotABody),
    }
}
