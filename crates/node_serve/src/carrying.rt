//! A call is carried out on a body.
ghost use Rattle.std.specs.Prelude.{◌≡◌, ◌<◌, [], Some, false, length, IfOk, IsTrue, OnErr};
ghost use Rattle.pico_base.specs.declared.reply.Errno.TheVariants.{Einval};
ghost use Rattle.pico_base.specs.declared.reply.Reply.TheVariants.{Fail, Num};
ghost use Rattle.waiting_model.specs.Queue.{carry_out_on_queue};
ghost use Rattle.waiting_model.specs.SemaphoreSet.{carry_out_on_set};
ghost use Rattle.waiting_model.specs.Waiters.{waits_here};
ghost use Rattle.sysv_sem.specs.Calls.{carried_to};
ghost use Rattle.node_model.specs.Awaiting.{on_whole};
ghost use Rattle.node_model.specs.Bodies.{AQueue, ASet};
ghost use Rattle.node_model.specs.Carrying.{is_own, is_removal};
ghost use Rattle.node_model.specs.Serving.{admits, has_read_if, takes_away};
ghost use Rattle.node_serve.specs.declared.serving.Readers.TheVariants.{OfMessages};
ghost use Rattle.node_serve.specs.Bodies.{body_of};
ghost use Rattle.node_serve.specs.Callers.{waiting_with};
ghost use Rattle.node_serve.specs.Serving.{ComesTo, SayWhoReads, has_room};
ghost use Rattle.node_serve.specs.Waits.{alone, coming};
ghost use Rattle.std.specs.List.{list_any};

use crate::queues::on_queue;
use crate::rows::on_row;
use crate::sets::on_set;
use crate::waiting::{alone, at_once};
use crate::{Body, Readers, Served, Who};
use pico_base::{Call, Errno, Home, Memory, Name, Pid, Reply, SemStep, home};
use std::alloc::Global;
use sysv_msg::HeldQueue;
use sysv_sem::SemSet;
use waiter_fields::MAX_WAITERS;
use waiting_model::{Applied, Wakes};

/// Whether the call is the caller's own affair.
pub(crate) fn is_own(caller: Pid, call: &Call) -> bool
    ensures { result ≡ is_own caller call.now }
{
    matches!(home(caller, call), Home::Own)
}

/// Whether the call removes its queue or set.
fn is_removal(call: &Call) -> bool
    ensures { result ≡ is_removal call.now }
{
    matches!(call, Call::MsgRmid { .. } | Call::SemRmid { .. })
}

/// Whether fewer wait than there is room for, and this process isn't one of them.
fn has_room(body: &Body, pid: Pid) -> bool
    ensures { result ≡ has_room (body_of body.now) pid }
{
    match body {
        Body::Queue(queue) => queue.waiting() < MAX_WAITERS as u32 && !queue.waits(pid),
        Body::Set(set) => set.waiting() < MAX_WAITERS as u32 && !set.waits(pid),
        _ => true,
    }
}

/// Whether the call can be served on the body, also where it may have to wait. A removal always can.
fn admits(body: &Body, who: &Who, call: &Call) -> bool
    ensures { result ≡ admits (body_of body.now) (waiting_with who.now call.now) }
{
    is_removal(call) || has_room(body, who.pid)
}

/// What a call on a body came to: the caller's own reply, none where it has to wait, whom it wakes, and which of them
/// have read.
#[derive(Drop)]
struct Came {
    applied: Applied,
    readers: Readers,
}

/// Whether an operation takes from its semaphore.
pub(crate) fn takes_away(steps: &[SemStep]) -> bool
    ensures { result ≡ list_any takes_away steps.now }
{
    steps.iter().any(|step| step.add < 0)
}

/// Whether the call read: a receive that gave a message, or a `semop` that took from a semaphore. One that has to wait
/// has read nothing as yet.
fn has_read(call: &Call, own: &Option<Reply>) -> bool
    ensures { result ≡ has_read_if call.now own.now }
{
    match (call, own) {
        (Call::MsgRcv { .. }, Some(Reply::Message { .. })) => true,
        (Call::SemOp { steps, .. }, Some(Reply::Num(_))) => takes_away(steps.as_slice()),
        _ => false,
    }
}

/// A call on the body of a process. None: its caller has to wait.
fn on_process(body: &mut Body, pid: Pid, who: &Who, call: &Call) -> Option<Reply>
    ensures { on_whole (Name.Proc pid) (body_of body.old) (waiting_with who.now call.now)
        ≡ alone (body_of body.new) result }
{
    match body {
        Body::Living(row) => on_row(row, who.pid, call),
        Body::Ended(_) if is_own(who.pid, call) => Some(Reply::Fail(Errno::Esrch)),
        Body::Ended(_) => Some(Reply::Num(0)),
        _ => Some(Reply::Fail(Errno::Esrch)),
    }
}

/// A call on the body of a process. If its caller has to wait it has no reply, and nobody is woken.
fn on_process_body(alloc: Global, body: &mut Body, pid: Pid, who: &Who, call: &Call) -> Came
    ensures ok { on_whole (Name.Proc pid) (body_of body.old) (waiting_with who.now call.now)
        ≡ coming (body_of body.new) result.applied }
    ensures readers { SayWhoReads (body_of body.old) result.readers result.applied.wakes }
{
    Came {
        applied: alone(alloc, on_process(body, pid, who, call)),
        readers: Readers::OfMessages,
    }
}

/// A call on a queue. A refusal for want of memory changes nothing.
fn on_a_queue(alloc: Global, queue: &mut HeldQueue, who: &Who, call: &Call) -> Result<Came, Memory>
    requires own { waits_here who.now.pid queue.old ≡ false }
    requires few { length queue.old.waiters < 32 }
    ensures ok { IfOk result (λ came.
        carry_out_on_queue queue.old (waiting_with who.now call.now) ≡ carried_to queue.new came.applied) }
    ensures readers { IfOk result (λ came. SayWhoReads (AQueue queue.old) came.readers came.applied.wakes) }
    ensures err { OnErr result (queue.new ≡ queue.old) }
{
    queue.is_at_rest();
    let applied = on_queue(alloc, queue, who, call)?;
    Ok(Came {
        applied,
        readers: Readers::OfMessages,
    })
}

/// A call on a set. A refusal for want of memory changes nothing.
fn on_a_set(alloc: Global, set: &mut SemSet, who: &Who, call: &Call) -> Result<Came, Memory>
    requires own { waits_here who.now.pid set.old ≡ false }
    requires few { length set.old.waiters < 32 }
    ensures ok { IfOk result (λ came.
        carry_out_on_set set.old (waiting_with who.now call.now) ≡ carried_to set.new came.applied) }
    ensures readers { IfOk result (λ came. SayWhoReads (ASet set.old) came.readers came.applied.wakes) }
    ensures err { OnErr result (set.new ≡ set.old) }
{
    set.is_at_rest();
    let came = on_set(alloc, set, who, call)?;
    Ok(Came {
        applied: came.applied,
        readers: Readers::OfSemaphores(came.takers),
    })
}

/// What a removal came to, which tells those who wait that there is nothing to be read.
fn removed(wakes: Wakes) -> Came
    ensures applied { result.applied ≡ record { own = Some (Num 0); wakes = wakes } }
    ensures readers { result.readers ≡ OfMessages }
{
    Came {
        applied: Applied {
            own: Some(Reply::Num(0)),
            wakes,
        },
        readers: Readers::OfMessages,
    }
}

/// A call on what isn't there any more.
fn not_there(alloc: Global) -> Came
    ensures { result.applied ≡ record { own = Some (Fail Einval); wakes = [] } }
{
    Came {
        applied: at_once(alloc, Reply::Fail(Errno::Einval)),
        readers: Readers::OfMessages,
    }
}

/// A call on the body of a queue. A refusal for want of memory changes nothing.
fn on_queue_body(
    alloc: Global,
    body: &mut Body,
    id: u32,
    who: &Who,
    call: &Call,
) -> Result<Came, Memory>
    requires { IsTrue (admits (body_of body.old) (waiting_with who.now call.now)) }
    ensures ok { IfOk result (λ came.
        on_whole (Name.Msg id) (body_of body.old) (waiting_with who.now call.now)
        ≡ coming (body_of body.new) came.applied) }
    ensures readers { IfOk result (λ came. SayWhoReads (body_of body.old) came.readers came.applied.wakes) }
    ensures err { OnErr result (body.new ≡ body.old) }
{
    match body {
        Body::Queue(queue) if is_removal(call) => {
            let wakes = queue.remove()?;
            *body = Body::Removed;
            Ok(removed(wakes))
        }
        Body::Queue(queue) => on_a_queue(alloc, queue, who, call),
        _ => Ok(not_there(alloc)),
    }
}

/// A call on the body of a set. A refusal for want of memory changes nothing.
fn on_set_body(
    alloc: Global,
    body: &mut Body,
    id: u32,
    who: &Who,
    call: &Call,
) -> Result<Came, Memory>
    requires { IsTrue (admits (body_of body.old) (waiting_with who.now call.now)) }
    ensures ok { IfOk result (λ came.
        on_whole (Name.Sem id) (body_of body.old) (waiting_with who.now call.now)
        ≡ coming (body_of body.new) came.applied) }
    ensures readers { IfOk result (λ came. SayWhoReads (body_of body.old) came.readers came.applied.wakes) }
    ensures err { OnErr result (body.new ≡ body.old) }
{
    match body {
        Body::Set(set) if is_removal(call) => {
            let wakes = set.remove()?;
            *body = Body::Removed;
            Ok(removed(wakes))
        }
        Body::Set(set) => on_a_set(alloc, set, who, call),
        _ => Ok(not_there(alloc)),
    }
}

/// A call on the body of its name, which admits it. A refusal for want of memory changes nothing.
fn on_whole(
    alloc: Global,
    body: &mut Body,
    name: Name,
    who: &Who,
    call: &Call,
) -> Result<Came, Memory>
    requires { IsTrue (admits (body_of body.old) (waiting_with who.now call.now)) }
    ensures ok { IfOk result (λ came.
        on_whole name (body_of body.old) (waiting_with who.now call.now) ≡ coming (body_of body.new) came.applied) }
    ensures readers { IfOk result (λ came. SayWhoReads (body_of body.old) came.readers came.applied.wakes) }
    ensures err { OnErr result (body.new ≡ body.old) }
{
    match name {
        Name::Proc(pid) => Ok(on_process_body(alloc, body, pid, who, call)),
        Name::Msg(id) => on_queue_body(alloc, body, id.0, who, call),
        Name::Sem(id) => on_set_body(alloc, body, id.0, who, call),
    }
}

/// A call on the body of its name: it is carried out where the body admits it. A refusal for want of memory changes
/// nothing.
pub(crate) fn on_body(
    alloc: Global,
    body: &mut Body,
    name: Name,
    who: &Who,
    call: &Call,
) -> Result<Served, Memory>
    ensures ok { IfOk result (ComesTo name body.old (waiting_with who.now call.now) body.new) }
    ensures err { OnErr result (body.new ≡ body.old) }
{
    if !admits(body, who, call) {
        return Ok(Served::NotAdmitted);
    }
    let Came { applied, readers } = on_whole(alloc, body, name, who, call)?;
    let Applied { own, wakes } = applied;
    let reads = has_read(call, &own);
    Ok(Served::Did {
        own,
        wakes,
        reads,
        readers,
    })
}
