//! A call that comes to a set: it has its reply, and wakes whoever that lets go on, or it parks.
ghost use Rattle.std.specs.Prelude.{◌≡◌, ◌≤◌, ◌<◌, ◌++◌, ◌∷◌, [], None, Some, false, length, vec_capacity, IfOk, IfErr, OnErr, IsTrue};
ghost use Rattle.std.specs.List.{AllByRecursion};
ghost use Rattle.answer_laws.specs.Answers.{reply_to};
ghost use Rattle.waiting_model.specs.Waiters.{carry_out, settle, waits_here, IsSettled};
ghost use Rattle.waiting_model.specs.SemaphoreSet.{carry_out_on_set, try_set};
ghost use Rattle.sysv_sem.specs.Calls.{carried_to, is_look, is_on_set, look_reply};
ghost use Rattle.sysv_sem.specs.Asking.{asking, NotesTakers};
ghost use Rattle.sysv_sem.specs.Settling.{settled};
ghost use Rattle.sysv_sem.specs.Waiters.{held, max_waiters, takers, try_steps, waiters_in, IsSetWaiter};

use crate::SemSet;
use crate::room::Room;
use crate::row::Row;
use crate::settling::{may_wake, settle};
use crate::waiters::{Look, count, note_takers};
use index_links::Links;
use pico_base::{Call, Errno, Memory, Node, Pid, Reply};
use std::alloc::Global;
use std::mem;
use waiting_model::{Applied, Waiting, Wakes};

/// The reply of a look at a set.
fn looked_up(found: Result<u32, Errno>) -> Reply
    ensures { result ≡ reply_to found }
{
    match found {
        Ok(number) => Reply::Num(number),
        Err(errno) => Reply::Fail(errno),
    }
}

/// The number of a process.
fn number_of(found: Result<Pid, Errno>) -> Result<u32, Errno>
    ensures { result ≡ found }
{
    match found {
        Ok(pid) => Ok(pid.0),
        Err(errno) => Err(errno),
    }
}

/// The reply of a call that leaves the set as it is. None: it is another call.
fn look_at(
    alloc: Global,
    row: &mut Row,
    waiters: &Links<Waiting>,
    call: &Call,
) -> Result<Option<Reply>, Memory>
    ensures reply { IfOk result (λ reply. reply ≡ look_reply (held row.old waiters.now.nodes) call.now) }
    ensures same { row.new ≡ row.old }
{
    Ok(match call {
        Call::SemGetNcnt { num, .. } => Some(count(row, waiters, Look::Negative, *num)),
        Call::SemGetZcnt { num, .. } => Some(count(row, waiters, Look::Zero, *num)),
        Call::SemGetVal { num, .. } => Some(looked_up(row.value(*num))),
        Call::SemGetPid { num, .. } => Some(looked_up(number_of(row.last(*num)))),
        Call::SemGetAll { .. } => Some(Reply::All(row.all(alloc)?)),
        _ => None,
    })
}

/// Who asks: the node where its reply is to go, its number there, and its process.
#[derive(Clone, Copy, Debug)]
pub struct Asker {
    pub caller: Node,
    pub ticket: u32,
    pub pid: Pid,
}

/// What a call on a set came to. Where it wakes somebody `takers` has the processes of those who waited in a call of
/// which an operation takes from its semaphore, in order.
#[derive(Debug, Drop)]
pub struct Came {
    pub applied: Applied,
    pub takers: Vec<Pid>,
}

/// The caller has this reply, if there is one, and nobody is woken.
fn alone(alloc: Global, own: Option<Reply>) -> Came
    ensures { result.applied ≡ record { own = own; wakes = [] } }
{
    Came {
        applied: Applied {
            own,
            wakes: Wakes::new(alloc),
        },
        takers: Vec::new(alloc),
    }
}

/// The caller parks behind those who wait, with a copy of its call.
fn park(
    alloc: Global,
    waiters: &mut Links<Waiting>,
    who: &Asker,
    call: &Call,
) -> Result<Came, Memory>
    ensures parked { IfOk result (λ came. (came.applied ≡ record { own = None; wakes = [] })
        × (waiters_in waiters.new.nodes ≡ waiters_in waiters.old.nodes ++ asking who.now call.now ∷ [])) }
    ensures err { OnErr result (waiters.new.nodes ≡ waiters.old.nodes) }
{
    let waiting = Waiting {
        caller: who.caller,
        ticket: who.ticket,
        pid: who.pid,
        call: call.try_copy(alloc)?,
    };
    match waiters.push_back(0, waiting) {
        Ok(_) => Ok(alone(alloc, None)),
        Err(_) => Err(Memory),
    }
}

/// The caller has this reply, and those in the room are woken, with the takers that stand there.
fn replied(alloc: Global, room: &mut Room, reply: Reply) -> Came
    ensures applied { result.applied ≡ record { own = Some reply; wakes = room.old.wakes.items } }
    ensures takers { NotesTakers room.old.wakes.items result.takers.items room.old.takers.items }
{
    if room.wakes.is_empty() {
        return alone(alloc, Some(reply));
    }
    let wakes = mem::replace(&mut room.wakes, Vec::new(alloc));
    let takers = mem::replace(&mut room.takers, Vec::new(alloc));
    Came {
        applied: Applied {
            own: Some(reply),
            wakes: Wakes::from_vec(wakes),
        },
        takers,
    }
}

/// The caller has this reply, and whoever can go on is woken. There is room for all who wait.
#[inline(never)]
fn wake(
    alloc: Global,
    row: &mut Row,
    waiters: &mut Links<Waiting>,
    room: &mut Room,
    reply: Reply,
) -> Came
    requires nobody { room.old.wakes.items ≡ [] }
    requires no_takers { room.old.takers.items ≡ [] }
    requires fit { length waiters.old.nodes ≤ vec_capacity room.old.wakes }
    requires takers_fit { length waiters.old.nodes ≤ vec_capacity room.old.takers }
    ensures settled { settle try_steps (held row.old waiters.old.nodes)
        ≡ settled (held row.new waiters.new.nodes) result.applied.wakes }
    ensures own { result.applied ≡ record { own = Some reply; wakes = result.applied.wakes } }
    ensures takers { NotesTakers result.applied.wakes result.takers.items (takers (waiters_in waiters.old.nodes)) }
{
    note_takers(&mut room.takers, waiters);
    settle(row, waiters, &mut room.wakes);
    replied(alloc, room, reply)
}

/// Carries out a call that isn't a look, where nobody waits: it wakes nobody.
fn change_alone(
    alloc: Global,
    row: &mut Row,
    waiters: &mut Links<Waiting>,
    who: &Asker,
    call: &Call,
) -> Result<Came, Memory>
    requires other { is_look call.now ≡ false }
    requires nobody { length waiters.old.nodes ≡ 0 }
    ensures carried { IfOk result (λ came. carry_out try_set (held row.old waiters.old.nodes) (asking who.now call.now)
        ≡ carried_to (held row.new waiters.new.nodes) came.applied) }
    ensures takers { IfOk result (λ came.
        NotesTakers came.applied.wakes came.takers.items (takers (waiters_in waiters.old.nodes))) }
    ensures row { OnErr result (row.new ≡ row.old) }
    ensures nodes { OnErr result (waiters.new.nodes ≡ waiters.old.nodes) }
{
    match row.try_change(who.pid, call) {
        Some(reply) => Ok(alone(alloc, Some(reply))),
        None => park(alloc, waiters, who, call),
    }
}

/// Carries out a call that isn't a look, with room for all whom it may wake.
fn change_with(
    alloc: Global,
    row: &mut Row,
    waiters: &mut Links<Waiting>,
    room: &mut Room,
    who: &Asker,
    call: &Call,
) -> Result<Came, Memory>
    requires other { is_look call.now ≡ false }
    requires no_wakes { room.old.wakes.items ≡ [] }
    requires no_takers { room.old.takers.items ≡ [] }
    requires fit { length waiters.old.nodes ≤ vec_capacity room.old.wakes }
    requires takers_fit { length waiters.old.nodes ≤ vec_capacity room.old.takers }
    requires each { AllByRecursion IsSetWaiter (waiters_in waiters.old.nodes) }
    ensures carried { IfOk result (λ came. carry_out try_set (held row.old waiters.old.nodes) (asking who.now call.now)
        ≡ carried_to (held row.new waiters.new.nodes) came.applied) }
    ensures takers { IfOk result (λ came.
        NotesTakers came.applied.wakes came.takers.items (takers (waiters_in waiters.old.nodes))) }
    ensures row { OnErr result (row.new ≡ row.old) }
    ensures nodes { OnErr result (waiters.new.nodes ≡ waiters.old.nodes) }
{
    let Some(reply) = row.try_change(who.pid, call) else {
        return park(alloc, waiters, who, call);
    };
    if !may_wake(row, waiters) {
        return Ok(alone(alloc, Some(reply)));
    }
    Ok(wake(alloc, row, waiters, room, reply))
}

/// Carries out a call that isn't a look. There is memory for all whom it may wake before anything changes.
fn change(
    alloc: Global,
    row: &mut Row,
    waiters: &mut Links<Waiting>,
    kept: &mut Option<Box<Room>>,
    who: &Asker,
    call: &Call,
) -> Result<Came, Memory>
    requires other { is_look call.now ≡ false }
    requires each { AllByRecursion IsSetWaiter (waiters_in waiters.old.nodes) }
    ensures carried { IfOk result (λ came. carry_out try_set (held row.old waiters.old.nodes) (asking who.now call.now)
        ≡ carried_to (held row.new waiters.new.nodes) came.applied) }
    ensures takers { IfOk result (λ came.
        NotesTakers came.applied.wakes came.takers.items (takers (waiters_in waiters.old.nodes))) }
    ensures row { OnErr result (row.new ≡ row.old) }
    ensures nodes { OnErr result (waiters.new.nodes ≡ waiters.old.nodes) }
{
    if waiters.len() == 0 {
        return change_alone(alloc, row, waiters, who, call);
    }
    let mut room = Room::of(alloc, kept.take(), waiters.len() as usize)?;
    let came = change_with(alloc, row, waiters, &mut room, who, call);
    *kept = Some(room);
    came
}

/// Carries out a call on a set.
fn carry_out(
    row: &mut Row,
    waiters: &mut Links<Waiting>,
    room: &mut Option<Box<Room>>,
    who: &Asker,
    call: &Call,
) -> Result<Came, Memory>
    requires each { AllByRecursion IsSetWaiter (waiters_in waiters.old.nodes) }
    requires settled { IsSettled try_set (held row.old waiters.old.nodes) }
    ensures carried { IfOk result (λ came. carry_out_on_set (held row.old waiters.old.nodes) (asking who.now call.now)
        ≡ carried_to (held row.new waiters.new.nodes) came.applied) }
    ensures takers { IfOk result (λ came.
        NotesTakers came.applied.wakes came.takers.items (takers (waiters_in waiters.old.nodes))) }
    ensures row { OnErr result (row.new ≡ row.old) }
    ensures nodes { OnErr result (waiters.new.nodes ≡ waiters.old.nodes) }
{
    let alloc = row.allocator();
    match look_at(alloc, row, waiters, call) {
        Ok(Some(reply)) => Ok(alone(alloc, Some(reply))),
        Ok(None) => change(alloc, row, waiters, room, who, call),
        Err(Memory) => Err(Memory),
    }
}

impl SemSet {
    /// Carries out a call of a process, one of those on a set but its removal: it has its reply, and after a `semop`
    /// and a `semctl` with SETVAL or SETALL whoever can go on is woken in turn, the first who parked first; or it parks
    /// behind those who wait, and then has no reply of its own. A `semop` parks where it stops at an operation without
    /// IPC_NOWAIT, else it has the reply of `op`. GETNCNT counts those who wait at a negative operation on the
    /// semaphore, GETZCNT those at a zero operation. A waiter whose operations come to stop at one with IPC_NOWAIT is
    /// woken with EAGAIN. The call is copied where it parks. Memory: an allocation was refused. The set is then as it
    /// was.
    pub fn serve(&mut self, who: &Asker, call: &Call) -> Result<Came, Memory>
        requires ticket { 1 ≤ who.now.ticket }
        requires call { IsTrue (is_on_set call.now) }
        requires apart { waits_here who.now.pid self.old ≡ false }
        requires room { length self.old.waiters < max_waiters }
        ensures carried { IfOk result (λ came. carry_out_on_set self.old (asking who.now call.now)
            ≡ carried_to self.new came.applied) }
        ensures takers { IfOk result (λ came.
            NotesTakers came.applied.wakes came.takers.items (takers self.old.waiters)) }
        ensures unchanged { OnErr result (self.new ≡ self.old) }
    {
        carry_out(&mut self.row, &mut self.waiters, &mut self.room, who, call)
    }

    /// Carries out a call as `serve` does, of a caller as it would wait. Memory: an allocation was refused. The set is
    /// then as it was, and the caller comes back.
    pub fn apply(&mut self, who: Waiting) -> Result<Applied, (Memory, Waiting)>
        requires ticket { 1 ≤ who.ticket }
        requires call { IsTrue (is_on_set who.call) }
        requires apart { waits_here who.pid self.old ≡ false }
        requires room { length self.old.waiters < max_waiters }
        ensures carried { IfOk result (λ applied. carry_out_on_set self.old who ≡ carried_to self.new applied) }
        ensures unchanged { OnErr result (self.new ≡ self.old) }
        ensures back { IfErr result (λ e. e.1 ≡ who) }
    {
        let asker = Asker {
            caller: who.caller,
            ticket: who.ticket,
            pid: who.pid,
        };
        match self.serve(&asker, &who.call) {
            Ok(came) => Ok(came.applied),
            Err(Memory) => Err((Memory, who)),
        }
    }
}
