//! Queues at which callers wait.
use super::{Row, fork, make, receive, told};
use mono_kernel::Kernel;
use pico_base::{Bytes, Call, Id};
use std::alloc::Global;
use std::test::Fail;

/// A process sends this text to queue 1, and may wait.
fn send(
    alloc: Global,
    kernel: &mut Kernel,
    said: &mut String,
    pid: u32,
    class: i32,
    text: &[u8],
) -> Result<(), Fail> {
    let call = Call::MsgSnd {
        id: Id(1),
        class,
        text: Bytes::from_slice(alloc, text)?,
        nowait: false,
    };
    make(alloc, kernel, said, pid, &call)
}

/// Process 1 receives from queue 1, and doesn't wait.
fn receive_at_once(alloc: Global, kernel: &mut Kernel, said: &mut String) -> Result<(), Fail> {
    let call = Call::MsgRcv {
        id: Id(1),
        class: 0,
        size: 8,
        noerror: false,
        nowait: true,
    };
    make(alloc, kernel, said, 1, &call)
}

/// Process 1 looks at queue 1.
fn look(alloc: Global, kernel: &mut Kernel, said: &mut String) -> Result<(), Fail> {
    make(alloc, kernel, said, 1, &Call::MsgStat { id: Id(1) })
}

/// Process 1 sets queue 1's bytes.
fn bound(alloc: Global, kernel: &mut Kernel, said: &mut String, qbytes: u32) -> Result<(), Fail> {
    let call = Call::MsgSet { id: Id(1), qbytes };
    make(alloc, kernel, said, 1, &call)
}

/// A receive waits, and a send wakes it.
pub(super) fn wake_a_receive(
    alloc: Global,
    kernel: &mut Kernel,
    said: &mut String,
) -> Result<(), Fail> {
    make(alloc, kernel, said, 2, &receive(0, 8))?;
    send(alloc, kernel, said, 1, 1, b"hi")?;
    look(alloc, kernel, said)
}

#[test]
fn a_send_wakes_a_receive(rt: HostRuntime) -> Result<(), Fail> {
    let alloc = rt.alloc();
    let said = told(alloc, Row::WakeAReceive)?;
    assert_eq!(rt;
        said.as_str(),
        "parked\n0 wakes 2 1 hi\nStat { qnum: 0, qbytes: 16384, lspid: Pid(1), lrpid: Pid(2) }\n"
    );
    Ok(())
}

/// A send waits for room and another process for its message, and then room comes.
pub(super) fn wake_by_a_woken_send(
    alloc: Global,
    kernel: &mut Kernel,
    said: &mut String,
) -> Result<(), Fail> {
    bound(alloc, kernel, said, 4)?;
    send(alloc, kernel, said, 1, 1, b"abcd")?;
    send(alloc, kernel, said, 2, 2, b"ef")?;
    make(alloc, kernel, said, 3, &receive(2, 8))?;
    receive_at_once(alloc, kernel, said)
}

#[test]
fn a_woken_send_lets_a_receive_go_on(rt: HostRuntime) -> Result<(), Fail> {
    let alloc = rt.alloc();
    let said = told(alloc, Row::WakeByAWokenSend)?;
    assert_eq!(rt;
        said.as_str(),
        "0\n0\nparked\nparked\n1 abcd wakes 2 0 wakes 3 2 ef\n"
    );
    Ok(())
}

/// The same, where the receive waits before the send.
pub(super) fn begin_at_the_first(
    alloc: Global,
    kernel: &mut Kernel,
    said: &mut String,
) -> Result<(), Fail> {
    bound(alloc, kernel, said, 4)?;
    send(alloc, kernel, said, 1, 1, b"abcd")?;
    make(alloc, kernel, said, 3, &receive(2, 8))?;
    send(alloc, kernel, said, 2, 2, b"ef")?;
    receive_at_once(alloc, kernel, said)
}

#[test]
fn a_wake_lets_an_older_one_go_on(rt: HostRuntime) -> Result<(), Fail> {
    let alloc = rt.alloc();
    let said = told(alloc, Row::BeginAtTheFirst)?;
    assert_eq!(rt;
        said.as_str(),
        "0\n0\nparked\nparked\n1 abcd wakes 2 0 wakes 3 2 ef\n"
    );
    Ok(())
}

/// Two sends that wait, of which the first goes on first, and one that doesn't fit any more.
pub(super) fn wake_two_of_three(
    alloc: Global,
    kernel: &mut Kernel,
    said: &mut String,
) -> Result<(), Fail> {
    fork(alloc, kernel, said, 4)?;
    bound(alloc, kernel, said, 0)?;
    send(alloc, kernel, said, 2, 1, b"ab")?;
    send(alloc, kernel, said, 3, 1, b"c")?;
    send(alloc, kernel, said, 4, 1, b"def")?;
    bound(alloc, kernel, said, 4)
}

#[test]
fn several_are_woken_in_order(rt: HostRuntime) -> Result<(), Fail> {
    let alloc = rt.alloc();
    let said = told(alloc, Row::WakeTwoOfThree)?;
    assert_eq!(rt;
        said.as_str(),
        "4\n0\nparked\nparked\nparked\n0 wakes 2 0 wakes 3 0\n"
    );
    Ok(())
}

/// A message that is too long for the first who waits.
pub(super) fn refuse_the_first(
    alloc: Global,
    kernel: &mut Kernel,
    said: &mut String,
) -> Result<(), Fail> {
    make(alloc, kernel, said, 2, &receive(0, 1))?;
    make(alloc, kernel, said, 3, &receive(0, 8))?;
    send(alloc, kernel, said, 1, 1, b"ab")
}

#[test]
fn a_longer_message_refuses_a_woken_receive(rt: HostRuntime) -> Result<(), Fail> {
    let alloc = rt.alloc();
    let said = told(alloc, Row::RefuseTheFirst)?;
    assert_eq!(rt;
        said.as_str(),
        "parked\nparked\n0 wakes 2 E2big wakes 3 1 ab\n"
    );
    Ok(())
}

/// The queue is removed while two wait.
pub(super) fn remove(alloc: Global, kernel: &mut Kernel, said: &mut String) -> Result<(), Fail> {
    make(alloc, kernel, said, 2, &receive(0, 8))?;
    make(alloc, kernel, said, 3, &receive(1, 8))?;
    make(alloc, kernel, said, 1, &Call::MsgRmid { id: Id(1) })?;
    make(alloc, kernel, said, 2, &receive(0, 8))
}

#[test]
fn a_removal_wakes_all(rt: HostRuntime) -> Result<(), Fail> {
    let alloc = rt.alloc();
    let said = told(alloc, Row::Remove)?;
    assert_eq!(rt;
        said.as_str(),
        "parked\nparked\n0 wakes 2 Eidrm wakes 3 Eidrm\nEinval\n"
    );
    Ok(())
}
