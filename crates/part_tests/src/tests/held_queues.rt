//! A queue that came packed: its calls leave the bytes that they would leave of one with lists.
use pico_base::{Bytes, Memory, Pid};
use std::alloc::Global;
use std::test::Fail;
use sysv_msg::HeldQueue;

/// Code 4, `msg_qbytes` 16,384, last sender 7, last receiver 0, two messages: type 258 and the text hi, and type 1 and
/// the text abcd; nobody waits.
const TWO: &[u8] =
    b"\x04\x00\x00\x40\x00\x00\x00\x00\x07\x00\x00\x00\x00\x00\x02\x00\x00\x01\x02\x00\x00\x00\x02hi\
\x00\x00\x00\x01\x00\x00\x00\x04abcd\x00";

/// The same once process 8 has received the first and process 9 has sent type 5 and the text x.
const IN_ORDER: &[u8] =
    b"\x04\x00\x00\x40\x00\x00\x00\x00\x09\x00\x00\x00\x08\x00\x02\x00\x00\x00\x01\x00\x00\x00\x04abcd\
\x00\x00\x00\x05\x00\x00\x00\x01x\x00";

/// The same once process 8 has received the second.
const BY_TYPE: &[u8] =
    b"\x04\x00\x00\x40\x00\x00\x00\x00\x07\x00\x00\x00\x08\x00\x01\x00\x00\x01\x02\x00\x00\x00\x02hi\x00";

/// Whether nobody waits and a receive of this type as process 8 gives this text.
fn gives(queue: &mut HeldQueue, class: i32, text: &[u8]) -> bool {
    if queue.waiting() > 0 {
        return false;
    }
    match queue.receive(Pid(8), class, 8, false) {
        Ok(taken) => taken.text.as_slice() == text,
        Err(_) => false,
    }
}

/// Whether nobody waits and the queue takes this message of process 9.
fn takes(alloc: Global, queue: &mut HeldQueue, class: i32, text: &[u8]) -> Result<bool, Memory> {
    if queue.waiting() > 0 {
        return Ok(false);
    }
    let text = Bytes::from_slice(alloc, text)?;
    Ok(queue.send(Pid(9), class, text).is_ok())
}

/// Whether the queue is spelled so.
fn is_body(queue: &HeldQueue, bytes: &[u8]) -> Result<bool, Memory> {
    Ok(queue.pack()?.as_slice() == bytes)
}

#[test]
fn in_order(rt: HostRuntime) -> Result<(), Fail> {
    let mut queue = HeldQueue::unpack(rt.alloc(), TWO)?;
    assert!(rt; gives(&mut queue, 0, b"hi"));
    assert!(rt; takes(rt.alloc(), &mut queue, 5, b"x")?);
    assert!(rt; is_body(&queue, IN_ORDER)?);
    Ok(())
}

#[test]
fn by_type(rt: HostRuntime) -> Result<(), Fail> {
    let mut queue = HeldQueue::unpack(rt.alloc(), TWO)?;
    assert!(rt; gives(&mut queue, 1, b"abcd"));
    assert!(rt; is_body(&queue, BY_TYPE)?);
    Ok(())
}
