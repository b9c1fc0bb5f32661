//! The System V calls that run the calls of POSIX message queues.

ghost use Rattle.std.specs.Prelude.{◌≡◌, negsuc, false, true, IfOk};
ghost use Rattle.pico_base.specs.declared.call.Call.TheVariants as calls;
ghost use Rattle.mq_model.specs.SystemV as spec;

use mq_model::MqErrno;
use pico_base::{Block, Bytes, Call, Errno, Id, Line, Memory, Script, Sequence};
use std::alloc::Global;

/// The greatest priority.
const MAX_PRIORITY: i32 = 31;

/// The most bytes of a message, and the fewest that a receive may have room for.
const MESSAGE_BYTES: usize = 16;

/// Why a send of this priority and text is refused, whatever the queue.
fn send_unfit(priority: i32, text: &[u8]) -> Option<MqErrno>
    ensures { result ≡ spec.refusal_of_send priority text.now }
{
    if priority > MAX_PRIORITY {
        Some(MqErrno::Base(Errno::Einval))
    } else if text.len() > MESSAGE_BYTES {
        Some(MqErrno::Emsgsize)
    } else {
        None
    }
}

/// Why a call of a given script is refused by its arguments, whatever the queue, where it is.
pub(crate) fn unfit(call: &Call) -> Option<MqErrno>
    ensures { result ≡ spec.refusal_of call.now }
{
    match call {
        Call::MsgSnd { class, text, .. } => send_unfit(*class, text.as_slice()),
        Call::MsgRcv { size, .. } if (*size as usize) < MESSAGE_BYTES => Some(MqErrno::Emsgsize),
        _ => None,
    }
}

/// The type of the messages of a priority, and the priority of those of a type: the lowest type is the highest
/// priority.
pub(crate) fn turned(class: i32) -> i32
    ensures { result ≡ spec.turned_class class }
{
    if class < 0 {
        class
    } else if class > MAX_PRIORITY {
        0
    } else {
        MAX_PRIORITY + 1 - class
    }
}

fn send(alloc: Global, id: Id, priority: i32, text: &Bytes) -> Result<Call, Memory>
    ensures { IfOk result (λ call. call ≡ calls.MsgSnd id (spec.turned_class priority) text.now true) }
{
    Ok(Call::MsgSnd {
        id,
        class: turned(priority),
        text: text.try_copy(alloc)?,
        nowait: true,
    })
}

/// Of the lowest type, which is any.
fn receive(id: Id, size: u32) -> Call
    ensures { result ≡ calls.MsgRcv id (negsuc 31) size false true }
{
    Call::MsgRcv {
        id,
        class: -(MAX_PRIORITY + 1),
        size,
        noerror: false,
        nowait: true,
    }
}

/// The call that runs a given one which its arguments don't refuse.
fn carried_out(alloc: Global, call: &Call) -> Result<Call, Memory>
    ensures { IfOk result (λ made. made ≡ spec.carried_out call.now) }
{
    match call {
        Call::MsgSnd {
            id,
            class,
            text,
            ..
        } => send(alloc, *id, *class, text),
        Call::MsgRcv { id, size, .. } => Ok(receive(*id, *size)),
        _ => call.try_copy(alloc),
    }
}

fn line_for(alloc: Global, line: &Line) -> Result<Line, Memory>
    ensures { IfOk result (λ made. made ≡ spec.system_v_line line.now) }
{
    let (from, call) = match unfit(&line.call) {
        Some(_) => (None, Call::SigPending),
        None => (line.from, carried_out(alloc, &line.call)?),
    };
    Ok(Line {
        set: line.set,
        tries: line.tries,
        from,
        call,
    })
}

fn block_for(alloc: Global, block: &Block) -> Result<Block, Memory>
    ensures { IfOk result (λ made. made ≡ spec.system_v_block block.now) }
{
    let mut lines = Sequence::new(alloc);
    for line in block.lines.as_slice() {
        lines.push(line_for(alloc, line)?)?;
    }
    Ok(Block {
        name: block.name.try_copy(alloc)?,
        lines,
    })
}

/// The script of System V that runs a given one.
pub(crate) fn system_v(alloc: Global, given: &Script) -> Result<Script, Memory>
    ensures { IfOk result (λ made. made ≡ spec.system_v given.now) }
{
    let mut blocks = Sequence::new(alloc);
    for block in given.blocks.as_slice() {
        blocks.push(block_for(alloc, block)?)?;
    }
    Ok(Script { blocks })
}
