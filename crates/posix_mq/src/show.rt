//! The text of an entry as one of POSIX message queues.

ghost use Rattle.std.specs.Prelude.{◌≡◌, ◌∷◌, ◌++◌, codes, OnOk};
ghost use Rattle.std.specs.List.{flat_map};
ghost use Rattle.std.specs.Fmt.{signed_decimal};
ghost use Rattle.kernel_model.specs.Texts.{message_text};
ghost use Rattle.kernel_model.specs.Trace.{create_words, by_text, wake_text, labelled};
ghost use Rattle.mq_model.specs.SystemV as system;
ghost use Rattle.mq_model.specs.Text as text;

use crate::system_v::turned;
use mq_model::MqErrno;
use pico_base::{Bytes, Call, Entry, Errno, Id, Memory, Pid, Reply, Script};
use std::alloc::Global;
use trace_text::{push, push_byte, push_call, push_number, push_reply};

/// A priority, and a text.
fn push_message(alloc: Global, out: &mut Vec<u8>, priority: i32, text: &Bytes) -> Result<(), Memory>
    ensures { OnOk result
        (out.new.items ≡ out.old.items ++ (signed_decimal priority ++ 32 ∷ message_text text.now)) }
{
    let message = Reply::Message {
        class: priority,
        text: text.try_copy(alloc)?,
    };
    push_reply(out, &message)
}

/// The same behind a blank.
fn push_argument(
    alloc: Global,
    out: &mut Vec<u8>,
    priority: i32,
    text: &Bytes,
) -> Result<(), Memory>
    ensures { OnOk result
        (out.new.items ≡ out.old.items ++ 32 ∷ (signed_decimal priority ++ 32 ∷ message_text text.now)) }
{
    push_byte(out, b' ')?;
    push_message(alloc, out, priority, text)
}

/// A call's name, and a number.
fn push_named(out: &mut Vec<u8>, name: &[u8], number: u32) -> Result<(), Memory>
    ensures { OnOk result (out.new.items ≡ out.old.items ++ labelled name.now number) }
{
    push(out, name)?;
    push_number(out, u64::from(number))
}

/// `create` and `excl`, where they stand.
fn push_options(out: &mut Vec<u8>, create: bool, excl: bool) -> Result<(), Memory>
    ensures { OnOk result (out.new.items ≡ out.old.items ++ create_words create excl) }
{
    if create {
        push(out, b" create")?;
    }
    if excl {
        push(out, b" excl")?;
    }
    Ok(())
}

fn push_open(out: &mut Vec<u8>, name: u32, create: bool, excl: bool) -> Result<(), Memory>
    ensures { OnOk result
        (out.new.items ≡ out.old.items ++ (labelled (codes "mqopen /") name ++ create_words create excl)) }
{
    push_named(out, b"mqopen /", name)?;
    push_options(out, create, excl)
}

fn push_send(
    alloc: Global,
    out: &mut Vec<u8>,
    id: Id,
    priority: i32,
    text: &Bytes,
) -> Result<(), Memory>
    ensures { OnOk result (out.new.items ≡ out.old.items
        ++ (labelled (codes "mqsend ") id ++ 32 ∷ (signed_decimal priority ++ 32 ∷ message_text text.now))) }
{
    push_named(out, b"mqsend ", id.0)?;
    push_argument(alloc, out, priority, text)
}

fn push_receive(out: &mut Vec<u8>, id: Id, size: u32) -> Result<(), Memory>
    ensures { OnOk result
        (out.new.items ≡ out.old.items ++ (labelled (codes "mqreceive ") id ++ labelled (codes " ") size)) }
{
    push_named(out, b"mqreceive ", id.0)?;
    push_named(out, b" ", size)
}

/// A call of a given script, with actual numbers.
fn push_given_call(
    alloc: Global,
    out: &mut Vec<u8>,
    script: &Script,
    call: &Call,
) -> Result<(), Memory>
    ensures { OnOk result
        (out.new.items ≡ out.old.items ++ text.mq_call_text script.now (system.given_call call.now)) }
{
    match call {
        Call::MsgGet {
            key: Some(key),
            create,
            excl,
        } => push_open(out, key.0, *create, *excl),
        Call::MsgSnd {
            id,
            class,
            text,
            ..
        } if *class >= 0 => push_send(alloc, out, *id, *class, text),
        Call::MsgRcv { id, size, .. } => push_receive(out, *id, *size),
        Call::MsgStat { id } => push_named(out, b"mqgetattr ", id.0),
        _ => push_call(out, script, call),
    }
}

/// The call of a given script that this call of the script of System V stands for.
fn push_shown_call(
    alloc: Global,
    out: &mut Vec<u8>,
    script: &Script,
    call: &Call,
) -> Result<(), Memory>
    ensures { OnOk result
        (out.new.items ≡ out.old.items ++ text.mq_call_text script.now (system.shown_call call.now)) }
{
    match call {
        Call::MsgSnd {
            id,
            class,
            text,
            ..
        } if *class >= 0 => push_send(alloc, out, *id, turned(*class), text),
        _ => push_given_call(alloc, out, script, call),
    }
}

/// The error that a call on queues has in the place of this one.
fn shown_error(errno: Errno) -> MqErrno
    ensures { result ≡ system.shown_error errno }
{
    match errno {
        Errno::Einval => MqErrno::Ebadf,
        Errno::Enomsg => MqErrno::Base(Errno::Eagain),
        _ => MqErrno::Base(errno),
    }
}

/// The reply to a call on queues.
fn push_on_queues(alloc: Global, out: &mut Vec<u8>, reply: &Reply) -> Result<(), Memory>
    ensures { OnOk result
        (out.new.items ≡ out.old.items ++ text.mq_reply_text (system.shown_on_queues reply.now)) }
{
    match reply {
        Reply::Fail(errno) => push(out, shown_error(*errno).name().as_bytes()),
        Reply::Message { class, text } if *class >= 0 => {
            push_message(alloc, out, turned(*class), text)
        }
        Reply::Stat { qnum, .. } => push_named(out, b"maxmsg 1024 msgsize 16 curmsgs ", *qnum),
        _ => push_reply(out, reply),
    }
}

/// Whether this call of the script of System V stands for one on queues.
fn is_on_queues(call: &Call) -> bool
    ensures { result ≡ system.is_shown_on_queues (system.shown_call call.now) }
{
    match call {
        Call::MsgGet { key, .. } => key.is_some(),
        Call::MsgSnd { class, .. } => *class >= 0,
        Call::MsgRcv { .. } | Call::MsgStat { .. } => true,
        _ => false,
    }
}

fn push_shown_reply(
    alloc: Global,
    out: &mut Vec<u8>,
    call: &Call,
    reply: &Reply,
) -> Result<(), Memory>
    ensures { OnOk result (out.new.items ≡ out.old.items
        ++ text.mq_reply_text (system.shown_reply (system.shown_call call.now) reply.now)) }
{
    if is_on_queues(call) {
        push_on_queues(alloc, out, reply)
    } else {
        push_reply(out, reply)
    }
}

/// What the call came to for its caller.
fn push_own(
    alloc: Global,
    out: &mut Vec<u8>,
    call: &Call,
    own: &Option<Reply>,
) -> Result<(), Memory>
    ensures { OnOk result (out.new.items ≡ out.old.items
        ++ text.mq_own_text (system.shown_own (system.shown_call call.now) own.now)) }
{
    match own {
        Some(reply) => push_shown_reply(alloc, out, call, reply),
        None => push(out, b"parked"),
    }
}

fn push_wakes(out: &mut Vec<u8>, woken: &[(Pid, Reply)]) -> Result<(), Memory>
    ensures { OnOk result (out.new.items ≡ out.old.items ++ flat_map wake_text woken.now) }
{
    for (pid, reply) in woken {
        push_named(out, b" wakes ", pid.0)?;
        push_byte(out, b' ')?;
        push_reply(out, reply)?;
    }
    Ok(())
}

/// Who carried the call out, and whom that woke.
fn push_by(out: &mut Vec<u8>, node: u8, woken: &[(Pid, Reply)]) -> Result<(), Memory>
    ensures { OnOk result (out.new.items ≡ out.old.items ++ by_text node woken.now) }
{
    push_named(out, b" by ", u32::from(node))?;
    push_wakes(out, woken)?;
    push_byte(out, b'\n')
}

/// Adds the line of an entry of this given call, which its arguments refuse so.
pub(crate) fn push_refused(
    alloc: Global,
    out: &mut Vec<u8>,
    script: &Script,
    entry: &Entry,
    given: &Call,
    why: MqErrno,
) -> Result<(), Memory>
    ensures { OnOk result (out.new.items ≡ out.old.items
        ++ text.mq_line script.now (system.shown_refused entry.now given.now why)) }
{
    push_number(out, u64::from(entry.pid.0))?;
    push_byte(out, b' ')?;
    push_given_call(alloc, out, script, given)?;
    push(out, b" = ")?;
    push(out, why.name().as_bytes())?;
    push_by(out, entry.by.0, &[])
}

/// Adds the line of any other entry.
pub(crate) fn push_shown(
    alloc: Global,
    out: &mut Vec<u8>,
    script: &Script,
    entry: &Entry,
) -> Result<(), Memory>
    ensures { OnOk result (out.new.items ≡ out.old.items
        ++ text.mq_line script.now (system.shown_plainly entry.now)) }
{
    push_number(out, u64::from(entry.pid.0))?;
    push_byte(out, b' ')?;
    push_shown_call(alloc, out, script, &entry.call)?;
    push(out, b" = ")?;
    push_own(alloc, out, &entry.call, &entry.outcome.own)?;
    push_by(out, entry.by.0, entry.outcome.woken.as_slice())
}
