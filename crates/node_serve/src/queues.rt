//! Calls on a message queue.
ghost use Rattle.std.specs.Prelude.{◌≡◌, ◌<◌, [], IfOk, OnErr, IsTrue, false, length};
ghost use Rattle.kernel_model.specs.Queue as definition;
ghost use Rattle.waiting_model.specs.Calls.{may_park};
ghost use Rattle.waiting_model.specs.Queue.{carry_out_on_queue};
ghost use Rattle.waiting_model.specs.Waiters.{waits_here};
ghost use Rattle.sysv_msg.specs.Limits.{is_queue_call};
ghost use Rattle.sysv_sem.specs.Calls.{carried_to};
ghost use Rattle.node_model.specs.Carrying.{change, done, on_queue, take_message};
ghost use Rattle.node_serve.specs.Callers.{waiting_with};

use crate::Who;
use crate::waiting::{at_once, waiting_with};
use node_calls::may_park;
use pico_base::{Bytes, Call, Errno, Memory, Pid, Reply};
use std::alloc::Global;
use sysv_msg::{HeldQueue, ReceiveFault, SendFault};
use waiting_model::Applied;

/// msgsnd that needn't wait, where nobody waits: EINVAL or EAGAIN. A refusal for want of memory changes nothing.
fn send(
    alloc: Global,
    queue: &mut HeldQueue,
    pid: Pid,
    class: i32,
    text: &[u8],
) -> Result<Reply, Memory>
    requires nobody { queue.old.waiters ≡ [] }
    ensures ok { IfOk result (λ reply.
        change queue.old.state (definition.send queue.old.state pid class text.now) ≡ done queue.new.state reply) }
    ensures still { queue.new.waiters ≡ [] }
    ensures err { OnErr result (queue.new ≡ queue.old) }
{
    let text = Bytes::from_slice(alloc, text)?;
    match queue.send(pid, class, text) {
        Ok(()) => Ok(Reply::Num(0)),
        Err(SendFault::No(errno)) => Ok(Reply::Fail(errno)),
        Err(SendFault::Memory(_)) => Err(Memory),
    }
}

/// msgrcv that needn't wait, where nobody waits: ENOMSG or E2BIG. A refusal for want of memory changes nothing.
fn receive(
    queue: &mut HeldQueue,
    pid: Pid,
    class: i32,
    size: u32,
    noerror: bool,
) -> Result<Reply, Memory>
    requires nobody { queue.old.waiters ≡ [] }
    ensures ok { IfOk result (λ reply.
        take_message queue.old.state (definition.receive queue.old.state pid class size noerror)
        ≡ done queue.new.state reply) }
    ensures still { queue.new.waiters ≡ [] }
    ensures err { OnErr result (queue.new ≡ queue.old) }
{
    match queue.receive(pid, class, size, noerror) {
        Ok(message) => Ok(message.into_reply()),
        Err(ReceiveFault::No(errno)) => Ok(Reply::Fail(errno)),
        Err(ReceiveFault::Memory) => Err(Memory),
    }
}

/// msgctl with IPC_SET, where nobody waits: EINVAL.
fn set_qbytes(queue: &mut HeldQueue, qbytes: u32) -> Reply
    requires nobody { queue.old.waiters ≡ [] }
    ensures set { change queue.old.state (definition.set_qbytes queue.old.state qbytes) ≡ done queue.new.state result }
    ensures still { queue.new.waiters ≡ [] }
{
    match queue.set(qbytes) {
        Ok(()) => Reply::Num(0),
        Err(errno) => Reply::Fail(errno),
    }
}

/// A call that needn't wait on a queue at which nobody waits, other than its removal. A refusal for want of memory
/// changes nothing.
fn carry_out(alloc: Global, queue: &mut HeldQueue, pid: Pid, call: &Call) -> Result<Reply, Memory>
    requires nobody { queue.old.waiters ≡ [] }
    ensures ok { IfOk result (λ reply. on_queue queue.old.state pid call.now ≡ done queue.new.state reply) }
    ensures still { queue.new.waiters ≡ [] }
    ensures err { OnErr result (queue.new ≡ queue.old) }
{
    match call {
        Call::MsgSnd { class, text, .. } => send(alloc, queue, pid, *class, text.as_slice()),
        Call::MsgRcv {
            class,
            size,
            noerror,
            ..
        } => receive(queue, pid, *class, *size, *noerror),
        Call::MsgStat { .. } => Ok(queue.stat()),
        Call::MsgSet { qbytes, .. } => Ok(set_qbytes(queue, *qbytes)),
        _ => Ok(Reply::Fail(Errno::Einval)),
    }
}

/// Whether it is one of the calls on a queue but its removal.
fn is_queue_call(call: &Call) -> bool
    ensures { result ≡ is_queue_call call.now }
{
    matches!(
        call,
        Call::MsgSnd { .. } | Call::MsgRcv { .. } | Call::MsgStat { .. } | Call::MsgSet { .. }
    )
}

/// A call that may have to wait, or that may wake others. Memory, too, for a call of another kind, and for a ticket 0.
#[inline(never)]
fn park_or_wake(
    alloc: Global,
    queue: &mut HeldQueue,
    who: &Who,
    call: &Call,
) -> Result<Applied, Memory>
    requires own { waits_here who.now.pid queue.old ≡ false }
    requires few { length queue.old.waiters < 32 }
    ensures ok { IfOk result (λ applied.
        carry_out_on_queue queue.old (waiting_with who.now call.now) ≡ carried_to queue.new applied) }
    ensures err { OnErr result (queue.new ≡ queue.old) }
{
    if who.ticket == 0 || !is_queue_call(call) {
        return Err(Memory);
    }
    let waiting = waiting_with(alloc, who, call)?;
    match queue.apply(waiting) {
        Ok(applied) => Ok(applied),
        Err(_) => Err(Memory),
    }
}

/// A call on a queue that is there, other than its removal. Where it can't park and nobody waits it is carried out as
/// it stands; else it is copied, with its caller. A refusal for want of memory changes nothing. Memory, too, for a call
/// of another kind, and for a ticket 0.
pub(crate) fn on_queue(
    alloc: Global,
    queue: &mut HeldQueue,
    who: &Who,
    call: &Call,
) -> Result<Applied, Memory>
    requires own { waits_here who.now.pid queue.old ≡ false }
    requires few { length queue.old.waiters < 32 }
    ensures ok { IfOk result (λ applied.
        carry_out_on_queue queue.old (waiting_with who.now call.now) ≡ carried_to queue.new applied) }
    ensures err { OnErr result (queue.new ≡ queue.old) }
{
    if queue.waiting() > 0 || may_park(call) {
        return park_or_wake(alloc, queue, who, call);
    }
    let reply = carry_out(alloc, queue, who.pid, call)?;
    Ok(at_once(alloc, reply))
}
