//! Frames byte by byte, cut anywhere, and bytes that are none.
ghost use Rattle.std.specs.Prelude.{◌≤◌, length};

use frame_bytes::{FrameFault, Joiner, encode, is_within_limits};
use rpc_frame::Frame;
use std::alloc::Global;
use std::mem::ManuallyDrop;
use std::test::Fail;

/// A joiner that is never taken apart, so that its owner is cheaper to prove.
type Kept = ManuallyDrop<Joiner>;

/// Frames as they are printed, and their bytes: values of several parts would be dear here.
static FRAMES: [(&str, &[u8]); 8] = [
    ("NotOwner { ticket: 7 }", b"\0\0\0\x05\x06\0\0\0\x07"),
    ("RecallAll", b"\0\0\0\x01\x10"),
    (
        "Suggest { name: Msg(Id(1)), node: Node(2) }",
        b"\0\0\0\x07\x0b\x02\0\0\0\x01\x02",
    ),
    (
        "Lease { kind: Proc, first: 9 }",
        b"\0\0\0\x06\x08\x01\0\0\0\x09",
    ),
    (
        "Ask { ticket: 3, pid: Pid(2), call: MsgRcv { id: Id(1), class: 0, size: 8, noerror: false, nowait: true } }",
        b"\0\0\0\x18\x01\0\0\0\x03\0\0\0\x02\x04\0\0\0\x01\0\0\0\0\0\0\0\x08\0\x01",
    ),
    (
        concat!(
            "Ask { ticket: 2, pid: Pid(2), ",
            "call: MsgSnd { id: Id(1), class: 1, text: Sequence { items: [104, 105] }, nowait: true } }"
        ),
        b"\0\0\0\x19\x01\0\0\0\x02\0\0\0\x02\x03\0\0\0\x01\0\0\0\x01\0\0\0\x02hi\x01",
    ),
    (
        "Answer { ticket: 3, reply: Fail(Enomsg) }",
        b"\0\0\0\x07\x05\0\0\0\x03\x05\x06",
    ),
    (
        "Cancel { asked: Asked { caller: Node(2), ticket: 3, pid: Pid(2), call: Withdraw { name: Msg(Id(1)) } } }",
        b"\0\0\0\x10\x13\x02\0\0\0\x03\0\0\0\x02\x14\x02\0\0\0\x01",
    ),
];

/// The frame that is spelled so. It is never taken apart: to own a value of so many kinds is dear at each step.
fn read(alloc: Global, bytes: &[u8]) -> Result<ManuallyDrop<Frame>, Fail> {
    let mut joiner: Kept = ManuallyDrop::new(Joiner::new(alloc));
    match joiner.feed(bytes)?.into_vec().pop() {
        Some(frame) => Ok(ManuallyDrop::new(frame)),
        None => Err("no frame".into()),
    }
}

/// Whether the frame is printed so.
fn is_printed(alloc: Global, frame: &Frame, text: &str) -> Result<bool, Fail> {
    Ok(format!(in alloc; "{frame:?}")?.as_str() == text)
}

/// Whether the frame is spelled so.
fn is_spelled(alloc: Global, frame: &Frame, bytes: &[u8]) -> Result<bool, Fail> {
    Ok(is_within_limits(frame) && encode(alloc, frame)?.as_slice() == bytes)
}

/// Whether the bytes give this frame alone.
fn gives(joiner: &mut Joiner, bytes: &[u8], frame: &Frame) -> Result<bool, Fail> {
    match joiner.feed(bytes)?.as_slice() {
        [only] => Ok(only == frame),
        _ => Ok(false),
    }
}

/// Whether the bytes, cut there, give no frame and no fault, and the frame once the rest is fed.
fn is_joined(alloc: Global, frame: &Frame, bytes: &[u8], cut: usize) -> Result<bool, Fail>
    requires { cut ≤ length bytes.now }
{
    let (front, rest) = bytes.split_at(cut);
    let mut joiner: Kept = ManuallyDrop::new(Joiner::new(alloc));
    if joiner.feed(front)?.len() > 0 {
        return Ok(false);
    }
    gives(&mut joiner, rest, frame)
}

/// Whether the bytes give the frame wherever they are cut.
fn is_joined_anywhere(alloc: Global, frame: &Frame, bytes: &[u8]) -> Result<bool, Fail> {
    for cut in 0..bytes.len() {
        if !is_joined(alloc, frame, bytes, cut)? {
            return Ok(false);
        }
    }
    Ok(true)
}

#[test]
fn frames_have_their_bytes(rt: HostRuntime) -> Result<(), Fail> {
    for (text, bytes) in &FRAMES {
        let frame = read(rt.alloc(), bytes)?;
        assert!(rt; is_printed(rt.alloc(), &frame, text)?, "{frame:?}");
        assert!(rt; is_spelled(rt.alloc(), &frame, bytes)?, "{text}");
        assert!(rt; is_joined_anywhere(rt.alloc(), &frame, bytes)?, "{text}");
    }
    Ok(())
}

/// Whether the fault comes of these bytes.
fn is_refused(joiner: &mut Joiner, bytes: &[u8], fault: FrameFault) -> bool {
    joiner.feed(bytes).err() == Some(fault)
}

/// Whether the fault comes, and again for ten further pieces.
fn refuses(alloc: Global, bytes: &[u8], fault: FrameFault) -> bool {
    let mut joiner: Kept = ManuallyDrop::new(Joiner::new(alloc));
    if !is_refused(&mut joiner, bytes, fault) {
        return false;
    }
    for _ in 0..10 {
        if !is_refused(&mut joiner, b"\x00\x00\x00\x01\x10", fault) {
            return false;
        }
    }
    true
}

static TOO_LONG: [&[u8]; 2] = [b"\0\x04\0\x01", b"\xff\xff\xff\xff\0"];

static NOT_FRAMES: [&[u8]; 22] = [
    // a length 0, a kind 0 and a kind 20
    b"\0\0\0\0",
    b"\0\0\0\x01\0",
    b"\0\0\0\x01\x14",
    // one byte too few
    b"\0\0\0\x04\x06\0\0\0",
    // ticket 0, node 0, node 33, and name number 0
    b"\0\0\0\x05\x06\0\0\0\0",
    b"\0\0\0\x07\x0b\x02\0\0\0\x01\0",
    b"\0\0\0\x07\x0b\x02\0\0\0\x01\x21",
    b"\0\0\0\x07\x0b\x02\0\0\0\0\x02",
    // one byte behind the last field: of NotOwner, RecallAll, Suggest, Lease, a receive, a send, an answer, a Cancel
    b"\0\0\0\x06\x06\0\0\0\x07\0",
    b"\0\0\0\x02\x10\0",
    b"\0\0\0\x08\x0b\x02\0\0\0\x01\x02\0",
    b"\0\0\0\x07\x08\x01\0\0\0\x09\0",
    b"\0\0\0\x19\x01\0\0\0\x03\0\0\0\x02\x04\0\0\0\x01\0\0\0\0\0\0\0\x08\0\x01\0",
    b"\0\0\0\x1a\x01\0\0\0\x02\0\0\0\x02\x03\0\0\0\x01\0\0\0\x01\0\0\0\x02hi\x01\0",
    b"\0\0\0\x08\x05\0\0\0\x03\x05\x06\0",
    b"\0\0\0\x11\x13\x02\0\0\0\x03\0\0\0\x02\x14\x02\0\0\0\x01\0",
    // a flag of 2: either one of a receive, and that of a send
    b"\0\0\0\x18\x01\0\0\0\x03\0\0\0\x02\x04\0\0\0\x01\0\0\0\0\0\0\0\x08\x02\x01",
    b"\0\0\0\x18\x01\0\0\0\x03\0\0\0\x02\x04\0\0\0\x01\0\0\0\0\0\0\0\x08\0\x02",
    b"\0\0\0\x19\x01\0\0\0\x02\0\0\0\x02\x03\0\0\0\x01\0\0\0\x01\0\0\0\x02hi\x02",
    // an Ask of a withdrawal, a Cancel of an exit, and a Cancel of a wait at a process
    b"\0\0\0\x0f\x01\0\0\0\x03\0\0\0\x02\x14\x02\0\0\0\x01",
    b"\0\0\0\x0d\x13\x02\0\0\0\x03\0\0\0\x02\x12\0\0",
    b"\0\0\0\x10\x13\x02\0\0\0\x03\0\0\0\x02\x14\x01\0\0\0\x01",
];

#[test]
fn faults_last(rt: HostRuntime) {
    for bytes in &TOO_LONG {
        assert!(rt;
            refuses(rt.alloc(), bytes, FrameFault::TooLong),
            "{bytes:?}"
        );
    }
    for bytes in &NOT_FRAMES {
        assert!(rt;
            refuses(rt.alloc(), bytes, FrameFault::NotAFrame),
            "{bytes:?}"
        );
    }
}

#[test]
fn frames_come_before_the_fault(rt: HostRuntime) -> Result<(), Fail> {
    let mut joiner: Kept = ManuallyDrop::new(Joiner::new(rt.alloc()));
    let frames = joiner.feed(b"\x00\x00\x00\x01\x10\x00\x00\x00\x01\x10\x00\x04\x00\x01")?;
    assert_eq!(rt; frames.len(), 2);
    for bytes in [b"".as_slice(), b"\x00"] {
        assert!(rt; is_refused(&mut joiner, bytes, FrameFault::TooLong));
    }
    Ok(())
}
