//! Settling: after a change whoever can go on is woken, the first who parked first, and after each the first again.
ghost use Rattle.std.specs.Prelude.{◌≡◌, ◌≤◌, [], None, length, vec_capacity};
ghost use Rattle.std.specs.Bool.{OnFalse};
ghost use Rattle.std.specs.List.{AllByRecursion};
ghost use Rattle.waiting_model.specs.Waiters.{settle};
ghost use Rattle.sysv_sem.specs.Settling.{settled, FindsReady, WakesFirst};
ghost use Rattle.sysv_sem.specs.Trial.{TriesTo};
ghost use Rattle.sysv_sem.specs.Waiters.{held, try_steps, waiters_in};

use crate::row::Row;
use crate::waiters::{steps_of, woken};
use index_links::{Links, Slot};
use pico_base::Reply;
use waiting_model::{Waiting, Wake};

/// Tries the call of one who waits. None: it goes on waiting, and all stays.
pub(crate) fn try_waiter(row: &mut Row, waiter: &Waiting) -> Option<Reply>
    ensures { TriesTo (try_steps row.old waiter.now.pid waiter.now.call) row.old row.new result }
{
    row.try_op(waiter.pid, steps_of(&waiter.call))
}

/// Whether somebody may go on: not everyone who waits is in a `semop` of one operation that stops.
pub(crate) fn may_wake(row: &Row, waiters: &Links<Waiting>) -> bool
    ensures { OnFalse result
        (AllByRecursion (λ w. try_steps row.now w.pid w.call ≡ None) (waiters_in waiters.now.nodes)) }
{
    waiters.have_own_slots();
    let mut at = waiters.first();
    for _ in 0..waiters.len() {
        let Some(slot) = at else {
            return false;
        };
        if !row.is_stopped(steps_of(&waiters.value(slot).call)) {
            return true;
        }
        at = waiters.next(slot);
    }
    false
}

/// The slot of the first who can go on, whose operations are carried out, and the reply. None: nobody can.
fn first_ready(row: &mut Row, waiters: &Links<Waiting>) -> Option<(Slot, Reply)>
    ensures { FindsReady row.old row.new waiters.now.nodes result }
{
    waiters.have_own_slots();
    let mut at = waiters.first();
    for _ in 0..waiters.len() {
        let Some(slot) = at else {
            return None;
        };
        if let Some(reply) = try_waiter(row, waiters.value(slot)) {
            return Some((slot, reply));
        }
        at = waiters.next(slot);
    }
    None
}

/// Wakes the first who can go on, if there is one.
fn wake_first(row: &mut Row, waiters: &mut Links<Waiting>) -> Option<Wake>
    ensures { WakesFirst try_steps (held row.old waiters.old.nodes) (held row.new waiters.new.nodes) result }
{
    let (slot, reply) = first_ready(row, waiters)?;
    Some(woken(waiters.unlink(slot), reply))
}

/// Wakes each who can go on, in order, from the first on again after each.
pub(crate) fn settle(row: &mut Row, waiters: &mut Links<Waiting>, wakes: &mut Vec<Wake>)
    requires nobody { wakes.old.items ≡ [] }
    requires room { length waiters.old.nodes ≤ vec_capacity wakes.old }
    ensures { settle try_steps (held row.old waiters.old.nodes)
        ≡ settled (held row.new waiters.new.nodes) wakes.new.items }
{
    let all = waiters.len();
    for round in 0..all {
        match wake_first(row, waiters) {
            Some(wake) => wakes.push_reserved(wake),
            None => return,
        }
    }
}
