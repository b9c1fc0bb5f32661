//! Frames at the limits, and just past them.
use frame_bytes::{encode, is_within_limits};
use pico_base::{Bytes, Call, Id, Memory, Name, Node, Pid};
use rpc_frame::{Asked, Frame, PackedDeed, PackedDeeds, Parcel};
use std::alloc::Global;
use std::mem::ManuallyDrop;
use std::test::Fail;

/// How many bytes the frame has. None: it isn't within the limits.
fn spelled_len(alloc: Global, frame: &Frame) -> Result<Option<usize>, Memory> {
    if !is_within_limits(frame) {
        return Ok(None);
    }
    let bytes = encode(alloc, frame)?;
    Ok(Some(bytes.len()))
}

/// A frame that is never taken apart: to own a value of so many kinds is dear at each step.
type Kept = ManuallyDrop<Frame>;

/// Asks under this ticket to send a text of so many bytes.
fn send_of(alloc: Global, ticket: u32, size: usize) -> Result<Kept, Memory> {
    let text = Bytes::from_vec(Vec::from_elem(alloc, 7u8, size)?);
    let call = Call::MsgSnd {
        id: Id(1),
        class: 1,
        text,
        nowait: true,
    };
    Ok(ManuallyDrop::new(Frame::Ask {
        ticket,
        pid: Pid(2),
        call,
    }))
}

/// So many deeds, each with an empty body.
fn deeds_of(alloc: Global, count: u32) -> Result<PackedDeeds, Memory> {
    let mut deeds = PackedDeeds::new(alloc);
    for number in 1..=count {
        let name = Name::Proc(Pid(number));
        let body = Bytes::new(alloc);
        deeds.push(PackedDeed { name, body })?;
    }
    Ok(deeds)
}

/// Hands over so many of them.
fn left_with(alloc: Global, count: u32) -> Result<Kept, Memory> {
    let deeds = deeds_of(alloc, count)?;
    let parcel = Parcel {
        pid: Pid(2),
        parent: Pid(1),
        call: Call::Exit { status: 0 },
        deeds,
    };
    Ok(ManuallyDrop::new(Frame::Left { parcel }))
}

/// A frame that asks for a send has 27 bytes beside the text: the length, two codes, a flag, and five numbers of 4.
#[test]
fn a_ticket_is_at_least_1_and_a_body_has_262144_bytes_at_most(rt: HostRuntime) -> Result<(), Fail> {
    let alloc = rt.alloc();
    let shapes = [
        (1, 2, Some(29)),
        (0, 2, None),
        (1, 262_121, Some(262_148)),
        (1, 262_122, None),
    ];
    for (ticket, size, len) in shapes {
        let frame = send_of(alloc, ticket, size)?;
        assert!(rt; spelled_len(alloc, &frame)? == len, "of {size} bytes");
    }
    Ok(())
}

/// Whether a frame may ask for a withdrawal from there.
fn may_withdraw(name: Name) -> bool {
    let frame = ManuallyDrop::new(Frame::Ask {
        ticket: 1,
        pid: Pid(2),
        call: Call::Withdraw { name },
    });
    is_within_limits(&frame)
}

#[test]
fn no_frame_asks_for_a_withdrawal(rt: HostRuntime) {
    for name in [Name::Msg(Id(1)), Name::Sem(Id(1)), Name::Proc(Pid(3))] {
        assert!(rt; !may_withdraw(name));
    }
}

/// Whether a Cancel may end this wait.
fn may_cancel(ticket: u32, name: Name) -> bool {
    let asked = Asked {
        caller: Node(2),
        ticket,
        pid: Pid(2),
        call: Call::Withdraw { name },
    };
    let frame = ManuallyDrop::new(Frame::Cancel { asked });
    is_within_limits(&frame)
}

/// A script may wait at number 0, which names nothing.
#[test]
fn a_cancel_ends_a_wait_at_a_queue_or_a_set(rt: HostRuntime) {
    assert!(rt; may_cancel(1, Name::Msg(Id(1))));
    assert!(rt; may_cancel(1, Name::Sem(Id(0))));
    assert!(rt; !may_cancel(1, Name::Proc(Pid(3))));
    assert!(rt; !may_cancel(0, Name::Msg(Id(1))));
}

/// What leaves has 17 bytes beside its deeds, and each of these has 9 beside its body.
#[test]
fn deeds_are_255_at_most(rt: HostRuntime) -> Result<(), Fail> {
    let alloc = rt.alloc();
    for (count, len) in [(0, Some(17)), (255, Some(2312)), (256, None)] {
        let frame = left_with(alloc, count)?;
        assert!(rt; spelled_len(alloc, &frame)? == len, "of {count} deeds");
    }
    Ok(())
}
