//! Calls that have their reply at once on a queue or a set at which nobody waits.
ghost use Rattle.std.specs.Prelude.{◌≡◌, [], false, None, Some, IfOk, if◌then◌else◌};
ghost use Rattle.std.specs.List.{list_any};
ghost use Rattle.pico_base.specs.declared.call.Call.TheVariants as calls;
ghost use Rattle.kernel_model.specs.Queue as definition;
ghost use Rattle.kernel_model.specs.Waiting.{may_wait};
ghost use Rattle.waiting_model.specs.Queue.{try_receive, try_send};
ghost use Rattle.waiting_model.specs.SemaphoreSet.{try_op};
ghost use Rattle.node_model.specs.Serving.{has_read};
ghost use Rattle.node_serve.specs.declared.body.Body.{Body as Carried};
ghost use Rattle.node_serve.specs.Callers.{waiting_with};
ghost use Rattle.node_serve.specs.Prompt.{AnswersOr, Goes, GoesOr, PromptOr};

use crate::carrying::takes_away;
use crate::{Body, Who};
use deed_box::Deeds;
use node_calls::may_park;
use pico_base::{Bytes, Call, Errno, Id, Memory, Name, Pid, Reply, SemStep};
use std::alloc::Global;
use sysv_msg::{HeldQueue, ReceiveFault, SendFault};
use sysv_sem::SemSet;

/// The reply to a call that has it at once and wakes nobody, and whether the call read.
#[derive(Debug, Drop)]
pub struct Replied {
    pub reply: Reply,
    pub reads: bool,
}

/// This reply, to a call that hasn't read.
#[inline(always)]
fn unread(reply: Reply) -> Option<Replied>
    ensures { result ≡ Some (record { reply = reply; reads = false }) }
{
    Some(Replied {
        reply,
        reads: false,
    })
}

/// A call that stops here is refused where it mustn't wait.
#[inline(always)]
fn stopped(nowait: bool, errno: Errno) -> Option<Replied>
    ensures { result ≡ (if nowait then Some (record { reply = Reply.Fail errno; reads = false }) else None) }
{
    if nowait {
        unread(Reply::Fail(errno))
    } else {
        None
    }
}

/// msgsnd, where nobody waits. None: it has to wait.
#[inline(always)]
fn send(
    alloc: Global,
    queue: &mut HeldQueue,
    pid: Pid,
    class: i32,
    text: &[u8],
    nowait: bool,
) -> Result<Option<Replied>, Memory>
    requires nobody { queue.old.waiters ≡ [] }
    ensures { IfOk result (GoesOr queue.old
        (try_send queue.old.state nowait (definition.send queue.old.state pid class text.now)) (λ _. false) queue.new) }
{
    let text = Bytes::from_slice(alloc, text)?;
    match queue.send(pid, class, text) {
        Ok(()) => Ok(unread(Reply::Num(0))),
        Err(SendFault::No(Errno::Eagain)) => Ok(stopped(nowait, Errno::Eagain)),
        Err(SendFault::No(errno)) => Ok(unread(Reply::Fail(errno))),
        Err(SendFault::Memory(_)) => Err(Memory),
    }
}

/// msgrcv, where nobody waits. None: it has to wait.
#[inline(always)]
fn receive(
    queue: &mut HeldQueue,
    pid: Pid,
    class: i32,
    size: u32,
    noerror: bool,
    nowait: bool,
) -> Result<Option<Replied>, Memory>
    requires nobody { queue.old.waiters ≡ [] }
    ensures { IfOk result (GoesOr queue.old
        (try_receive queue.old.state nowait (definition.receive queue.old.state pid class size noerror))
        (has_read (calls.MsgRcv 0 class size noerror nowait)) queue.new) }
{
    match queue.receive(pid, class, size, noerror) {
        Ok(message) => Ok(Some(Replied {
            reply: message.into_reply(),
            reads: true,
        })),
        Err(ReceiveFault::No(Errno::Enomsg)) => Ok(stopped(nowait, Errno::Enomsg)),
        Err(ReceiveFault::No(errno)) => Ok(unread(Reply::Fail(errno))),
        Err(ReceiveFault::Memory) => Err(Memory),
    }
}

/// A call on the queue of this number, at which nobody waits.
#[inline(always)]
fn on_queue(
    alloc: Global,
    queue: &mut HeldQueue,
    id: Id,
    who: &Who,
    call: &Call,
) -> Result<Option<Replied>, Memory>
    requires nobody { queue.old.waiters ≡ [] }
    ensures { IfOk result (PromptOr (Name.Msg id) (Carried.Queue queue.old) (waiting_with who.now call.now)
        (Carried.Queue queue.new)) }
{
    match call {
        Call::MsgSnd {
            id: at,
            class,
            text,
            nowait,
        } => {
            if *at != id {
                return Ok(None);
            }
            send(alloc, queue, who.pid, *class, text.as_slice(), *nowait)
        }
        Call::MsgRcv {
            id: at,
            class,
            size,
            noerror,
            nowait,
        } => {
            if *at != id {
                return Ok(None);
            }
            receive(queue, who.pid, *class, *size, *noerror, *nowait)
        }
        _ => Ok(None),
    }
}

/// The operations of semop, none of which may wait, where nobody waits.
#[inline(always)]
fn operate(set: &mut SemSet, pid: Pid, steps: &[SemStep]) -> Replied
    requires nobody { set.old.waiters ≡ [] }
    requires at_once { list_any may_wait steps.now ≡ false }
    ensures { Goes (try_op set.old.state pid steps.now) (has_read (calls.SemOp 0 steps.now)) set.new result }
{
    match set.op(pid, steps) {
        Ok(()) => Replied {
            reply: Reply::Num(0),
            reads: takes_away(steps),
        },
        Err(errno) => Replied {
            reply: Reply::Fail(errno),
            reads: false,
        },
    }
}

/// A call on the set of this number, at which nobody waits.
#[inline(always)]
fn on_set(set: &mut SemSet, id: Id, who: &Who, call: &Call) -> Option<Replied>
    requires nobody { set.old.waiters ≡ [] }
    ensures { PromptOr (Name.Sem id) (Carried.Set set.old)
        (waiting_with who.now call.now) (Carried.Set set.new) result }
{
    match call {
        Call::SemOp { id: at, steps } => {
            if *at != id || may_park(call) {
                return None;
            }
            Some(operate(set, who.pid, steps.as_slice()))
        }
        _ => None,
    }
}

/// A call on the body of this queue.
#[inline(always)]
fn on_queue_body(
    alloc: Global,
    body: &mut Body,
    id: Id,
    who: &Who,
    call: &Call,
) -> Result<Option<Replied>, Memory>
    ensures { IfOk result (PromptOr (Name.Msg id) body.old (waiting_with who.now call.now) body.new) }
{
    match body {
        Body::Queue(queue) if queue.waiting() == 0 => on_queue(alloc, queue, id, who, call),
        _ => Ok(None),
    }
}

/// A call on the body of this set.
#[inline(always)]
fn on_set_body(body: &mut Body, id: Id, who: &Who, call: &Call) -> Option<Replied>
    ensures { PromptOr (Name.Sem id) body.old (waiting_with who.now call.now) body.new result }
{
    match body {
        Body::Set(set) if set.waiting() == 0 => on_set(set, id, who, call),
        _ => None,
    }
}

/// A call on the body of its name.
#[inline(always)]
fn on_body(
    alloc: Global,
    body: &mut Body,
    name: Name,
    who: &Who,
    call: &Call,
) -> Result<Option<Replied>, Memory>
    ensures { IfOk result (PromptOr name body.old (waiting_with who.now call.now) body.new) }
{
    match name {
        Name::Proc(_) => Ok(None),
        Name::Msg(id) => on_queue_body(alloc, body, id, who, call),
        Name::Sem(id) => Ok(on_set_body(body, id, who, call)),
    }
}

/// A send, a receive or a semop has its reply at once where its queue or set is held, nobody waits there, and it
/// needn't wait. None: it is another call, or on another name, or may have to wait; nothing has changed. Where memory
/// is refused nothing is said of what is left.
#[inline(always)]
pub fn reply_at_once(
    alloc: Global,
    deeds: &mut Deeds<Body>,
    name: Name,
    who: &Who,
    call: &Call,
) -> Result<Option<Replied>, Memory>
    ensures { IfOk result (AnswersOr deeds.old.bodies name (waiting_with who.now call.now) deeds.new.bodies) }
{
    deeds.rise();
    match deeds.get_mut(name) {
        Some(body) => Ok(on_body(alloc, body, name, who, call)?),
        None => Ok(None),
    }
}
