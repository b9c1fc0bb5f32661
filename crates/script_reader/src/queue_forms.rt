//! The calls on message queues, by their words.

ghost use Rattle.std.specs.Prelude.{◌≡◌, IfOk, OnOk};
ghost use Rattle.script_reader.specs.Words.{texts};
ghost use Rattle.script_reader.specs.Says.{said_from};
ghost use Rattle.script_reader.specs.Forms as forms;

use crate::form_parts::{FromCall, create_excl, identifier, noerror_nowait, optional_nowait};
use crate::numbers::{MAX_NUMBER, number, positive, signed};
use crate::says::{CallFront, Said, put_from};
use crate::texts::text;
use pico_base::{Call, Id, Key, Memory};
use std::alloc::Global;

/// The greatest message type, and the least one below zero.
const MAX_TYPE: u32 = 2_147_483_647;

#[tactic(auto, unfolding(crate::specs::Forms::keyed_queue))]
fn keyed_queue(k: &[u8], more: &[&[u8]]) -> Option<FromCall>
    ensures { result ≡ forms.keyed_queue k.now (texts more.now) }
{
    let key = positive(u32::MAX, k)?;
    let (create, excl) = create_excl(more)?;
    let key = Some(Key(key));
    Some((None, Call::MsgGet { key, create, excl }))
}

#[tactic(auto, unfolding(crate::specs::Forms::private_queue))]
fn private_queue(more: &[&[u8]]) -> Option<FromCall>
    ensures { result ≡ forms.private_queue (texts more.now) }
{
    match more {
        [] => Some((
            None,
            Call::MsgGet {
                key: None,
                create: false,
                excl: false,
            },
        )),
        _ => None,
    }
}

/// `msgget private`, `msgget K [create] [excl]`.
#[tactic(auto, unfolding(crate::specs::Forms::msgget_of))]
fn msgget(words: &[&[u8]]) -> Option<FromCall>
    ensures { result ≡ forms.msgget_of (texts words.now) }
{
    match words {
        [k, more @ ..] => {
            if *k == b"private".as_slice() {
                private_queue(more)
            } else {
                keyed_queue(k, more)
            }
        }
        _ => None,
    }
}

/// `msgsnd Q T X [nowait]`.
#[tactic(auto, unfolding(crate::specs::Forms::msgsnd_of))]
fn msgsnd(alloc: Global, words: &[&[u8]]) -> Result<Option<FromCall>, Memory>
    ensures { IfOk result (λ call. call ≡ forms.msgsnd_of (texts words.now)) }
{
    match words {
        [q, t, x, more @ ..] => {
            let Some((from, id)) = identifier(q) else {
                return Ok(None);
            };
            let Some(class) = signed(MAX_TYPE, t) else {
                return Ok(None);
            };
            let Some(nowait) = optional_nowait(more) else {
                return Ok(None);
            };
            let Some(text) = text(alloc, x)? else {
                return Ok(None);
            };
            Ok(Some((
                from,
                Call::MsgSnd {
                    id,
                    class,
                    text,
                    nowait,
                },
            )))
        }
        _ => Ok(None),
    }
}

/// `msgrcv Q T Z [noerror] [nowait]`.
#[tactic(auto, unfolding(crate::specs::Forms::msgrcv_of))]
fn msgrcv(words: &[&[u8]]) -> Option<FromCall>
    ensures { result ≡ forms.msgrcv_of (texts words.now) }
{
    match words {
        [q, t, z, more @ ..] => {
            let (from, id) = identifier(q)?;
            let class = signed(MAX_TYPE, t)?;
            let size = number(MAX_NUMBER, z)?;
            let (noerror, nowait) = noerror_nowait(more)?;
            Some((
                from,
                Call::MsgRcv {
                    id,
                    class,
                    size,
                    noerror,
                    nowait,
                },
            ))
        }
        _ => None,
    }
}

/// `stat`, `rmid` and `set B`, behind the queue.
#[tactic(auto, unfolding(crate::specs::Forms::queue_command))]
fn queue_command(id: Id, words: &[&[u8]]) -> Option<Call>
    ensures { result ≡ forms.queue_command id (texts words.now) }
{
    match words {
        [c] => {
            if *c == b"stat".as_slice() {
                Some(Call::MsgStat { id })
            } else if *c == b"rmid".as_slice() {
                Some(Call::MsgRmid { id })
            } else {
                None
            }
        }
        [c, b] => {
            if *c != b"set".as_slice() {
                return None;
            }
            let qbytes = number(MAX_NUMBER, b)?;
            Some(Call::MsgSet { id, qbytes })
        }
        _ => None,
    }
}

/// `msgctl Q stat`, `msgctl Q set B`, `msgctl Q rmid`.
#[tactic(auto, unfolding(crate::specs::Forms::msgctl_of))]
fn msgctl(words: &[&[u8]]) -> Option<FromCall>
    ensures { result ≡ forms.msgctl_of (texts words.now) }
{
    match words {
        [q, more @ ..] => {
            let (from, id) = identifier(q)?;
            let call = queue_command(id, more)?;
            Some((from, call))
        }
        _ => None,
    }
}

// Each of these puts a line with its call in the place of what another line said. They stay apart where they are
// compiled, so that the long value is made where it stays.

#[inline(never)]
pub(crate) fn put_msgget(front: &CallFront, words: &[&[u8]], said: &mut Said)
    ensures { said.new ≡ said_from front.now.set front.now.tries (forms.msgget_of (texts words.now)) }
{
    put_from(front, msgget(words), said);
}

#[inline(never)]
pub(crate) fn put_msgsnd(
    alloc: Global,
    front: &CallFront,
    words: &[&[u8]],
    said: &mut Said,
) -> Result<(), Memory>
    ensures { OnOk result (said.new ≡ said_from front.now.set front.now.tries (forms.msgsnd_of (texts words.now))) }
{
    put_from(front, msgsnd(alloc, words)?, said);
    Ok(())
}

#[inline(never)]
pub(crate) fn put_msgrcv(front: &CallFront, words: &[&[u8]], said: &mut Said)
    ensures { said.new ≡ said_from front.now.set front.now.tries (forms.msgrcv_of (texts words.now)) }
{
    put_from(front, msgrcv(words), said);
}

#[inline(never)]
pub(crate) fn put_msgctl(front: &CallFront, words: &[&[u8]], said: &mut Said)
    ensures { said.new ≡ said_from front.now.set front.now.tries (forms.msgctl_of (texts words.now)) }
{
    put_from(front, msgctl(words), said);
}
