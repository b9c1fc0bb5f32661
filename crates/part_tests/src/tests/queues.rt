//! A queue as bytes, and bytes that are none's. What calls reply stands in the golden cases of `cases/queues`, and who
//! waits and is woken in those of `cases/waiting`.
use pico_base::{Bytes, Memory, Pid, UnpackFault};
use std::alloc::Global;
use std::test::Fail;
use sysv_msg::Queue;

/// A queue with one message, which process 7 sent.
fn queue_of(alloc: Global, class: i32, text: &[u8]) -> Result<Queue, Memory> {
    let text = Bytes::from_slice(alloc, text)?;
    let mut queue = Queue::new(alloc)?;
    let _ = queue.send(Pid(7), class, text);
    Ok(queue)
}

/// Whether nobody waits and a receive as process 8 gives this message.
fn gives(queue: &mut Queue, class: i32, text: &[u8]) -> bool {
    if queue.waiting() > 0 {
        return false;
    }
    match queue.receive(Pid(8), 0, 8, false) {
        Ok(taken) => taken.class == class && taken.text.as_slice() == text,
        Err(_) => false,
    }
}

/// Code 4, `msg_qbytes` 16,384, last sender 7, last receiver 0, one message: type 258 and the text hi; nobody waits.
const BODY: &[u8] =
    b"\x04\x00\x00\x40\x00\x00\x00\x00\x07\x00\x00\x00\x00\x00\x01\x00\x00\x01\x02\x00\x00\x00\x02hi\x00";

/// Whether the queue is spelled so.
fn is_body(queue: &Queue) -> Result<bool, Memory> {
    Ok(queue.pack()?.as_slice() == BODY)
}

#[test]
fn packed(rt: HostRuntime) -> Result<(), Fail> {
    let queue = queue_of(rt.alloc(), 258, b"hi")?;
    assert!(rt; is_body(&queue)?);
    Ok(())
}

#[test]
fn unpacked(rt: HostRuntime) -> Result<(), Fail> {
    assert!(rt; Queue::is_packed(rt.alloc(), BODY)?);
    let mut queue = Queue::unpack(rt.alloc(), BODY)?;
    assert!(rt; gives(&mut queue, 258, b"hi"));
    Ok(())
}

/// `msg_qbytes` 4, last sender 1, one message of type 1 and the text abcd, and two who wait: process 3 in a receive of
/// type 2, and process 2 in a send of type 2 and the text ef, each on node 2 under its process number as a ticket.
const AWAITED: &[u8] =
    b"\x04\x00\x00\x00\x04\x00\x00\x00\x01\x00\x00\x00\x00\x00\x01\x00\x00\x00\x01\x00\x00\x00\x04abcd\
\x02\x02\x00\x00\x00\x03\x00\x00\x00\x03\x04\x00\x00\x00\x01\x00\x00\x00\x02\x00\x00\x00\x08\x00\x00\
\x02\x00\x00\x00\x02\x00\x00\x00\x02\x03\x00\x00\x00\x01\x00\x00\x00\x02\x00\x00\x00\x02ef\x00";

/// How many wait at the queue of these bytes, where it is spelled so again.
fn waiting_again(alloc: Global, bytes: &[u8]) -> Result<Option<u32>, Fail> {
    let queue = Queue::unpack(alloc, bytes)?;
    let again = queue.pack()?;
    Ok(if again.as_slice() == bytes {
        Some(queue.waiting())
    } else {
        None
    })
}

#[test]
fn who_waits_comes_along(rt: HostRuntime) -> Result<(), Fail> {
    assert!(rt; waiting_again(rt.alloc(), AWAITED)? == Some(2));
    Ok(())
}

/// Whether the bytes are no queue's.
fn is_refused(alloc: Global, bytes: &[u8]) -> bool {
    Queue::unpack(alloc, bytes).err() == Some(UnpackFault::NotABody)
}

#[test]
fn a_body_that_ends_early(rt: HostRuntime) {
    for length in 0..AWAITED.len() {
        assert!(rt; is_refused(rt.alloc(), &AWAITED[..length]), "{length}");
    }
}

/// A byte behind the last field, another code, `msg_qbytes` 16,385, a type of 0, 33 who wait, one who waits in a
/// receive for which a message is there, one who waits for nothing (`nowait`), and one process that waits twice.
static REFUSED: [&[u8]; 8] = [
    b"\x04\x00\x00\x40\x00\x00\x00\x00\x00\x00\x00\x00\x00\x00\x00\x00\x00",
    b"\x05\x00\x00\x40\x00\x00\x00\x00\x00\x00\x00\x00\x00\x00\x00\x00",
    b"\x04\x00\x00\x40\x01\x00\x00\x00\x00\x00\x00\x00\x00\x00\x00\x00",
    b"\x04\x00\x00\x40\x00\x00\x00\x00\x00\x00\x00\x00\x00\x00\x01\x00\x00\x00\x00\x00\x00\x00\x00\x00",
    b"\x04\x00\x00\x40\x00\x00\x00\x00\x00\x00\x00\x00\x00\x00\x00\x21",
    b"\x04\x00\x00\x00\x04\x00\x00\x00\x01\x00\x00\x00\x00\x00\x01\x00\x00\x00\x01\x00\x00\x00\x04abcd\
\x01\x02\x00\x00\x00\x03\x00\x00\x00\x03\x04\x00\x00\x00\x01\x00\x00\x00\x01\x00\x00\x00\x08\x00\x00",
    b"\x04\x00\x00\x40\x00\x00\x00\x00\x00\x00\x00\x00\x00\x00\x00\
\x01\x02\x00\x00\x00\x03\x00\x00\x00\x03\x04\x00\x00\x00\x01\x00\x00\x00\x02\x00\x00\x00\x08\x00\x01",
    b"\x04\x00\x00\x40\x00\x00\x00\x00\x00\x00\x00\x00\x00\x00\x00\
\x02\x02\x00\x00\x00\x03\x00\x00\x00\x03\x04\x00\x00\x00\x01\x00\x00\x00\x02\x00\x00\x00\x08\x00\x00\
\x02\x00\x00\x00\x04\x00\x00\x00\x03\x04\x00\x00\x00\x01\x00\x00\x00\x05\x00\x00\x00\x08\x00\x00",
];

#[test]
fn refused_bodies(rt: HostRuntime) -> Result<(), Fail> {
    for bytes in &REFUSED {
        assert!(rt; is_refused(rt.alloc(), bytes), "{bytes:?}");
        assert!(rt; !Queue::is_packed(rt.alloc(), bytes)?, "{bytes:?}");
    }
    Ok(())
}
