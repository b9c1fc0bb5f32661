//! Calls on a semaphore set.
ghost use Rattle.std.specs.Prelude.{◌≡◌, ◌<◌, [], IfOk, OnErr, false, length};
ghost use Rattle.std.specs.List.{list_any};
ghost use Rattle.kernel_model.specs.SemaphoreSet as definition;
ghost use Rattle.kernel_model.specs.Waiting.{may_wait};
ghost use Rattle.waiting_model.specs.Calls.{may_park};
ghost use Rattle.waiting_model.specs.SemaphoreSet.{carry_out_on_set};
ghost use Rattle.waiting_model.specs.Waiters.{waits_here};
ghost use Rattle.sysv_sem.specs.Asking.{NotesTakers};
ghost use Rattle.sysv_sem.specs.Calls.{carried_to, is_on_set};
ghost use Rattle.sysv_sem.specs.Waiters.{takers};
ghost use Rattle.node_model.specs.Carrying.{change, done, look, on_set};
ghost use Rattle.node_serve.specs.Callers.{waiting_with};

use crate::Who;
use crate::waiting::at_once;
use node_calls::may_park;
use pico_base::{Call, Errno, Memory, Pid, Reply, SemStep};
use std::alloc::Global;
use sysv_sem::{Asker, Came, SemSet};

/// semop, where nobody waits and no operation may wait: E2BIG, EFBIG, EAGAIN or ERANGE.
fn operate(set: &mut SemSet, pid: Pid, steps: &[SemStep]) -> Reply
    requires nobody { set.old.waiters ≡ [] }
    requires at_once { list_any may_wait steps.now ≡ false }
    ensures done { change set.old.state (definition.op set.old.state pid steps.now) ≡ done set.new.state result }
    ensures still { set.new.waiters ≡ [] }
{
    match set.op(pid, steps) {
        Ok(()) => Reply::Num(0),
        Err(errno) => Reply::Fail(errno),
    }
}

/// semctl with SETVAL, where nobody waits: EINVAL or ERANGE.
fn set_value(set: &mut SemSet, num: u16, value: u32) -> Reply
    requires nobody { set.old.waiters ≡ [] }
    ensures set { change set.old.state (definition.set_value set.old.state num value) ≡ done set.new.state result }
    ensures still { set.new.waiters ≡ [] }
{
    match set.set_value(num, value) {
        Ok(()) => Reply::Num(0),
        Err(errno) => Reply::Fail(errno),
    }
}

/// semctl with SETALL, where nobody waits: EINVAL or ERANGE.
fn set_all(set: &mut SemSet, values: &[u32]) -> Reply
    requires nobody { set.old.waiters ≡ [] }
    ensures set { change set.old.state (definition.set_all set.old.state values.now) ≡ done set.new.state result }
    ensures still { set.new.waiters ≡ [] }
{
    match set.set_all(values) {
        Ok(()) => Reply::Num(0),
        Err(errno) => Reply::Fail(errno),
    }
}

/// semctl with GETVAL: EINVAL.
fn value(set: &SemSet, num: u16) -> Reply
    ensures { look set.now.state (definition.value_at set.now.state num) ≡ done set.now.state result }
{
    match set.value(num) {
        Ok(value) => Reply::Num(value),
        Err(errno) => Reply::Fail(errno),
    }
}

/// semctl with GETPID: EINVAL.
fn last(set: &SemSet, num: u16) -> Reply
    ensures { look set.now.state (definition.last_at set.now.state num) ≡ done set.now.state result }
{
    match set.last(num) {
        Ok(pid) => Reply::Num(pid.0),
        Err(errno) => Reply::Fail(errno),
    }
}

/// semctl with GETNCNT or GETZCNT, where nobody waits: EINVAL, and else 0.
fn waiting(set: &SemSet, num: u16) -> Reply
    ensures { look set.now.state (definition.waiting_at set.now.state num) ≡ done set.now.state result }
{
    match set.value(num) {
        Ok(_) => Reply::Num(0),
        Err(errno) => Reply::Fail(errno),
    }
}

/// A call that needn't wait on a set at which nobody waits, other than its removal. A refusal for want of memory
/// changes nothing.
fn carry_out(set: &mut SemSet, pid: Pid, call: &Call) -> Result<Reply, Memory>
    requires nobody { set.old.waiters ≡ [] }
    requires at_once { may_park call.now ≡ false }
    ensures ok { IfOk result (λ reply. on_set set.old.state pid call.now ≡ done set.new.state reply) }
    ensures still { set.new.waiters ≡ [] }
    ensures err { OnErr result (set.new ≡ set.old) }
{
    match call {
        Call::SemOp { steps, .. } => Ok(operate(set, pid, steps.as_slice())),
        Call::SemGetVal { num, .. } => Ok(value(set, *num)),
        Call::SemGetPid { num, .. } => Ok(last(set, *num)),
        Call::SemGetNcnt { num, .. } | Call::SemGetZcnt { num, .. } => Ok(waiting(set, *num)),
        Call::SemSetVal { num, value, .. } => Ok(set_value(set, *num, *value)),
        Call::SemGetAll { .. } => Ok(Reply::All(set.all()?)),
        Call::SemSetAll { values, .. } => Ok(set_all(set, values.as_slice())),
        _ => Ok(Reply::Fail(Errno::Einval)),
    }
}

/// Whether it is one of the calls on a set but its removal.
fn is_on_set(call: &Call) -> bool
    ensures { result ≡ is_on_set call.now }
{
    match call {
        Call::SemOp { .. } | Call::SemGetVal { .. } | Call::SemGetPid { .. } => true,
        Call::SemGetNcnt { .. } | Call::SemGetZcnt { .. } | Call::SemSetVal { .. } => true,
        Call::SemGetAll { .. } | Call::SemSetAll { .. } => true,
        _ => false,
    }
}

/// A call that may have to wait, or that may wake others or count them. Memory, too, for a call of another kind, and
/// for a ticket 0.
#[inline(never)]
fn park_or_wake(set: &mut SemSet, who: &Who, call: &Call) -> Result<Came, Memory>
    requires own { waits_here who.now.pid set.old ≡ false }
    requires few { length set.old.waiters < 32 }
    ensures ok { IfOk result (λ came.
        carry_out_on_set set.old (waiting_with who.now call.now) ≡ carried_to set.new came.applied) }
    ensures takers { IfOk result (λ came. NotesTakers came.applied.wakes came.takers.items (takers set.old.waiters)) }
    ensures err { OnErr result (set.new ≡ set.old) }
{
    if who.ticket == 0 || !is_on_set(call) {
        return Err(Memory);
    }
    let asker = Asker {
        caller: who.caller,
        ticket: who.ticket,
        pid: who.pid,
    };
    set.serve(&asker, call)
}

/// A call on a set that is there, other than its removal. Where it can't park and nobody waits it is carried out as it
/// stands. A refusal for want of memory changes nothing. Memory, too, for a call of another kind, and for a ticket 0.
pub(crate) fn on_set(
    alloc: Global,
    set: &mut SemSet,
    who: &Who,
    call: &Call,
) -> Result<Came, Memory>
    requires own { waits_here who.now.pid set.old ≡ false }
    requires few { length set.old.waiters < 32 }
    ensures ok { IfOk result (λ came.
        carry_out_on_set set.old (waiting_with who.now call.now) ≡ carried_to set.new came.applied) }
    ensures takers { IfOk result (λ came. NotesTakers came.applied.wakes came.takers.items (takers set.old.waiters)) }
    ensures err { OnErr result (set.new ≡ set.old) }
{
    if set.waiting() > 0 || may_park(call) {
        return park_or_wake(set, who, call);
    }
    let reply = carry_out(set, who.pid, call)?;
    Ok(Came {
        applied: at_once(alloc, reply),
        takers: Vec::new(alloc),
    })
}
