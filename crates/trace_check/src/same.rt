//! Whether two calls, or two outcomes, are the same: their texts are.
ghost use Rattle.std.specs.Prelude.{◌≡◌, ◌&&◌, nat_eq, IfOk, IsTrue};
ghost use Rattle.trace_check.specs.FirstFault as spec;

use pico_base::{Call, Memory, Outcome, Pid, Reply, Script};
use std::alloc::Global;
use trace_text::{is_call, is_reply, push_call, push_reply};

/// Room for two texts, which is used again and again.
#[derive(Drop)]
pub(crate) struct Texts {
    first: Vec<u8>,
    second: Vec<u8>,
}

impl Texts {
    pub(crate) fn new(alloc: Global) -> Texts {
        Texts {
            first: Vec::new(alloc),
            second: Vec::new(alloc),
        }
    }
}

/// Whether both send the same message to the same queue.
fn is_equal_send(call: &Call, other: &Call) -> bool
    ensures { IsTrue result → call.now ≡ other.now }
{
    match (call, other) {
        (
            Call::MsgSnd {
                id,
                class,
                text,
                nowait,
            },
            Call::MsgSnd {
                id: its_id,
                class: its_class,
                text: its_text,
                nowait: its_nowait,
            },
        ) => {
            *id == *its_id
                && *class == *its_class
                && *nowait == *its_nowait
                && text.as_slice() == its_text.as_slice()
        }
        _ => false,
    }
}

/// Whether both receive from the same queue in the same way.
fn is_equal_receive(call: &Call, other: &Call) -> bool
    ensures { IsTrue result → call.now ≡ other.now }
{
    match (call, other) {
        (
            Call::MsgRcv {
                id,
                class,
                size,
                noerror,
                nowait,
            },
            Call::MsgRcv {
                id: its_id,
                class: its_class,
                size: its_size,
                noerror: its_noerror,
                nowait: its_nowait,
            },
        ) => {
            *id == *its_id
                && *class == *its_class
                && *size == *its_size
                && *noerror == *its_noerror
                && *nowait == *its_nowait
        }
        _ => false,
    }
}

/// Whether both are the same call, of the kinds that come most. This is asked before texts are printed, since a
/// message's may be long.
fn is_equal_call(call: &Call, other: &Call) -> bool
    ensures { IsTrue result → call.now ≡ other.now }
{
    match (call, other) {
        (Call::GetPid, Call::GetPid) => true,
        (Call::MsgSnd { .. }, _) => is_equal_send(call, other),
        (Call::MsgRcv { .. }, _) => is_equal_receive(call, other),
        _ => false,
    }
}

/// Whether both are the same number or the same message.
fn is_equal_reply(reply: &Reply, other: &Reply) -> bool
    ensures { IsTrue result → reply.now ≡ other.now }
{
    match (reply, other) {
        (Reply::Num(number), Reply::Num(its_number)) => *number == *its_number,
        (
            Reply::Message { class, text },
            Reply::Message {
                class: its_class,
                text: its_text,
            },
        ) => *class == *its_class && text.as_slice() == its_text.as_slice(),
        _ => false,
    }
}

/// Whether the call is in the grammar of a trace, and has the text of the other.
pub(crate) fn is_same_call(
    script: &Script,
    call: &Call,
    other: &Call,
    texts: &mut Texts,
) -> Result<bool, Memory>
    ensures { IfOk result (λ is. is ≡ spec.is_same_call script.now call.now other.now) }
{
    if !is_call(script, call) {
        return Ok(false);
    }
    if is_equal_call(call, other) {
        return Ok(true);
    }
    texts.first.clear();
    texts.second.clear();
    push_call(&mut texts.first, script, call)?;
    push_call(&mut texts.second, script, other)?;
    Ok(texts.first.as_slice() == texts.second.as_slice())
}

/// Whether the kernel's reply is in the grammar of a trace, and has the text of the other.
fn is_same_reply(reply: &Reply, other: &Reply, texts: &mut Texts) -> Result<bool, Memory>
    ensures { IfOk result (λ is. is ≡ spec.is_same_reply reply.now other.now) }
{
    if !is_reply(reply) {
        return Ok(false);
    }
    if is_equal_reply(reply, other) {
        return Ok(true);
    }
    texts.first.clear();
    texts.second.clear();
    push_reply(&mut texts.first, reply)?;
    push_reply(&mut texts.second, other)?;
    Ok(texts.first.as_slice() == texts.second.as_slice())
}

/// Whether the caller's own replies are the same, or both calls park.
fn is_same_own(
    own: &Option<Reply>,
    other: &Option<Reply>,
    texts: &mut Texts,
) -> Result<bool, Memory>
    ensures { IfOk result (λ is. is ≡ spec.is_same_own own.now other.now) }
{
    let Some(reply) = own else {
        return Ok(other.is_none());
    };
    match other {
        Some(other) => is_same_reply(reply, other, texts),
        None => Ok(false),
    }
}

/// Whether the same process is woken with the same reply.
fn is_same_wake(
    wake: &(Pid, Reply),
    other: &(Pid, Reply),
    texts: &mut Texts,
) -> Result<bool, Memory>
    ensures { IfOk result
        (λ is. is ≡ (nat_eq wake.now.0 other.now.0 && spec.is_same_reply wake.now.1 other.now.1)) }
{
    if wake.0.0 != other.0.0 {
        return Ok(false);
    }
    is_same_reply(&wake.1, &other.1, texts)
}

/// Whether the same callers are woken, in the same order, and with the same replies.
fn are_same_wakes(
    woken: &[(Pid, Reply)],
    others: &[(Pid, Reply)],
    texts: &mut Texts,
) -> Result<bool, Memory>
    ensures { IfOk result (λ are. are ≡ spec.are_same_wakes woken.now others.now) }
{
    let mut rest = woken;
    let mut against = others;
    while let Some((wake, behind)) = rest.split_first() {
        let Some((other, left)) = against.split_first() else {
            return Ok(false);
        };
        if !is_same_wake(wake, other, texts)? {
            return Ok(false);
        }
        rest = behind;
        against = left;
    }
    Ok(against.is_empty())
}

/// Whether the kernel's outcome is in the grammar of a trace, and is the other.
pub(crate) fn is_same_outcome(
    outcome: &Outcome,
    other: &Outcome,
    texts: &mut Texts,
) -> Result<bool, Memory>
    ensures { IfOk result (λ is. is ≡ spec.is_same_outcome outcome.now other.now) }
{
    if !is_same_own(&outcome.own, &other.own, texts)? {
        return Ok(false);
    }
    are_same_wakes(outcome.woken.as_slice(), other.woken.as_slice(), texts)
}
