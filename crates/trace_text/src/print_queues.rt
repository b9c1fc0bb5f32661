//! The text of a call on a message queue.
ghost use Rattle.std.specs.Prelude.{◌≡◌, ◌<◌, [], ◌∷◌, ◌++◌, codes, OnOk};
ghost use Rattle.std.specs.Fmt.{decimal, signed_decimal};
ghost use Rattle.kernel_model.specs.Trace as trace;

use crate::fields::{push_create_words, push_id, push_labelled, push_nowait, push_word};
use crate::text::{
    digit_of, has_room, push, push_growing, push_message, push_number, push_number_then,
    push_signed_and_space,
};
use pico_base::{Id, Key, Memory};

#[inline(never)]
pub(crate) fn push_msgget(
    out: &mut Vec<u8>,
    key: Option<Key>,
    create: bool,
    excl: bool,
) -> Result<(), Memory>
    ensures { OnOk result (out.new.items ≡ out.old.items ++ trace.msgget_text key create excl) }
{
    let Some(key) = key else {
        return push(out, b"msgget private");
    };
    push_labelled(out, b"msgget ", u64::from(key.0))?;
    push_create_words(out, create, excl)
}

// The first words of a send, where the numbers have one digit.
fn push_short_msgsnd(out: &mut Vec<u8>, id: u8, class: u8) -> Result<(), Memory>
    requires { (id < 10) × (class < 10) }
    ensures { OnOk result
        (out.new.items ≡ out.old.items ++ (codes "msgsnd " ++ decimal id ++ 32 ∷ (decimal class ++ 32 ∷ []))) }
{
    let (queue, class) = (b'0' + id, b'0' + class);
    push(
        out,
        &[
            b'm', b's', b'g', b's', b'n', b'd', b' ', queue, b' ', class, b' ',
        ],
    )
}

// The first words of a receive, where the numbers have one digit.
fn push_short_msgrcv(out: &mut Vec<u8>, id: u8, class: u8) -> Result<(), Memory>
    requires { (id < 10) × (class < 10) }
    ensures { OnOk result
        (out.new.items ≡ out.old.items ++ (codes "msgrcv " ++ decimal id ++ 32 ∷ (decimal class ++ 32 ∷ []))) }
{
    let (queue, class) = (b'0' + id, b'0' + class);
    push(
        out,
        &[
            b'm', b's', b'g', b'r', b'c', b'v', b' ', queue, b' ', class, b' ',
        ],
    )
}

fn push_msgsnd_words(out: &mut Vec<u8>, id: Id, class: i32) -> Result<(), Memory>
    ensures { OnOk result (out.new.items ≡ out.old.items ++ trace.queue_words (codes "msgsnd ") id class) }
{
    if let Some(class) = digit_of(class) {
        if id.0 < 10 && has_room(out, 11) {
            return push_short_msgsnd(out, id.0 as u8, class);
        }
    }
    push_long_msgsnd_words(out, id, class)
}

fn push_msgrcv_words(out: &mut Vec<u8>, id: Id, class: i32) -> Result<(), Memory>
    ensures { OnOk result (out.new.items ≡ out.old.items ++ trace.queue_words (codes "msgrcv ") id class) }
{
    if let Some(class) = digit_of(class) {
        if id.0 < 10 && has_room(out, 11) {
            return push_short_msgrcv(out, id.0 as u8, class);
        }
    }
    push_long_msgrcv_words(out, id, class)
}

// The queue and the type of message.
#[inline(always)]
fn push_queue_numbers(out: &mut Vec<u8>, id: Id, class: i32) -> Result<(), Memory>
    ensures { OnOk result
        (out.new.items ≡ out.old.items ++ (decimal id ++ 32 ∷ (signed_decimal class ++ 32 ∷ []))) }
{
    push_number_then(out, u64::from(id.0), b' ')?;
    push_signed_and_space(out, class)
}

// The first words of any send.
#[inline(never)]
fn push_long_msgsnd_words(out: &mut Vec<u8>, id: Id, class: i32) -> Result<(), Memory>
    ensures { OnOk result (out.new.items ≡ out.old.items ++ trace.queue_words (codes "msgsnd ") id class) }
{
    if has_room(out, 7) {
        push(out, &[b'm', b's', b'g', b's', b'n', b'd', b' '])?;
    } else {
        push_growing(out, b"msgsnd ")?;
    }
    push_queue_numbers(out, id, class)
}

// The first words of any receive.
#[inline(never)]
fn push_long_msgrcv_words(out: &mut Vec<u8>, id: Id, class: i32) -> Result<(), Memory>
    ensures { OnOk result (out.new.items ≡ out.old.items ++ trace.queue_words (codes "msgrcv ") id class) }
{
    if has_room(out, 7) {
        push(out, &[b'm', b's', b'g', b'r', b'c', b'v', b' '])?;
    } else {
        push_growing(out, b"msgrcv ")?;
    }
    push_queue_numbers(out, id, class)
}

#[inline(never)]
pub(crate) fn push_msgsnd(
    out: &mut Vec<u8>,
    id: Id,
    class: i32,
    text: &[u8],
    nowait: bool,
) -> Result<(), Memory>
    ensures { OnOk result (out.new.items ≡ out.old.items ++ trace.msgsnd_text id class text.now nowait) }
{
    push_msgsnd_words(out, id, class)?;
    push_message(out, text)?;
    push_nowait(out, nowait)
}

#[inline(never)]
pub(crate) fn push_msgrcv(
    out: &mut Vec<u8>,
    id: Id,
    class: i32,
    size: u32,
    noerror: bool,
    nowait: bool,
) -> Result<(), Memory>
    ensures { OnOk result (out.new.items ≡ out.old.items ++ trace.msgrcv_text id class size noerror nowait) }
{
    push_msgrcv_words(out, id, class)?;
    push_number(out, u64::from(size))?;
    push_word(out, noerror, b" noerror")?;
    push_nowait(out, nowait)
}

#[inline(never)]
pub(crate) fn push_msgctl(out: &mut Vec<u8>, id: Id, command: &[u8]) -> Result<(), Memory>
    ensures { OnOk result (out.new.items ≡ out.old.items ++ codes "msgctl " ++ decimal id ++ command.now) }
{
    push(out, b"msgctl ")?;
    push_id(out, id)?;
    push(out, command)
}

#[inline(never)]
pub(crate) fn push_msgset(out: &mut Vec<u8>, id: Id, qbytes: u32) -> Result<(), Memory>
    ensures { OnOk result
        (out.new.items ≡ out.old.items ++ codes "msgctl " ++ decimal id ++ codes " set " ++ decimal qbytes) }
{
    push_msgctl(out, id, b" set ")?;
    push_number(out, u64::from(qbytes))
}
